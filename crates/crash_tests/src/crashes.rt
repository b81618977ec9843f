//! What is found of attributes after power failed.

use page_disk::{CallKind, Fail, FaultDisk, MemDisk};
use std::alloc::Global;
use std::test::Fail as TestFail;
use test_runs::{Ran, Status, expect_printed, play, run};
use test_stores::{first_value, store};

/// The device on which the third of three puts failed with its second flush, that of the head. The first put marks the
/// store as in use, with two flushes besides its own: 2 + 6.
fn failed(alloc: Global) -> Result<Ran<FaultDisk<MemDisk>>, TestFail> {
    let puts = b"0 put @0 owner t:1\n0 put @0 owner t:2\n0 put @0 owner t:3\n";
    let eighth = Fail {
        kind: CallKind::Flush,
        nth: 8,
    };
    run(
        alloc,
        puts,
        FaultDisk::new(store(alloc)?, vec![in alloc; eighth]?),
    )
}

/// The value that is found in what a crash leaves, once that is loaded.
fn value_after(alloc: Global, disk: &MemDisk, pick: u64) -> Result<u8, TestFail> {
    let mut disk = play(alloc, b"", b"", disk.crash(pick)?)?;
    first_value(&mut disk)
}

/// The device that the failed run leaves, with what it prints.
fn left(alloc: Global) -> Result<MemDisk, TestFail> {
    let Ran { status, out, disk } = failed(alloc)?;
    if !matches!(status, Status::Device { at: 2 }) {
        return Err(TestFail::new(format_args!("the run ended with {status:?}")));
    }
    expect_printed(&out, b"0 0 ok\n0 1 ok\n0 2 fault\n")?;
    Ok(disk.into_inner())
}

/// A pick, and the value that a crash leaves by it.
static LEFT: [(u64, u8); 4] = [(0, b'2'), (1, b'3'), (2, b'2'), (3, b'2')];

#[test]
fn a_fault_counts_as_done_or_not(rt: HostRuntime) -> Result<(), TestFail> {
    let disk = left(rt.alloc())?;
    for (pick, found) in &LEFT {
        assert_eq!(rt; value_after(rt.alloc(), &disk, *pick)?, *found);
    }
    Ok(())
}

/// A script, what it prints, and what a look prints after a crash, on a store whose blob has the value 1 on the disk.
type Case = (&'static [u8], &'static [u8], &'static [u8]);

static CASES: [Case; 5] = [
    (b"0 setx @0 owner t:2\n", b"0 0 ok\n", b"0 0 value 31\n"),
    (b"0 delx @0 owner\n", b"0 0 ok\n", b"0 0 value 31\n"),
    (b"0 put @0 owner t:2\n", b"0 0 ok\n", b"0 0 value 32\n"),
    (
        b"0 setx @0 owner t:2\n0 sync @0\n",
        b"0 0 ok\n0 1 ok\n",
        b"0 0 value 32\n",
    ),
    (
        b"0 delx @0 owner\n0 sync @0\n",
        b"0 0 ok\n0 1 ok\n",
        b"0 0 no value\n",
    ),
];

/// The device after the run of a case.
fn ran(alloc: Global, script: &[u8], printed: &[u8]) -> Result<MemDisk, TestFail> {
    let disk = play(alloc, b"0 put @0 owner t:1\n", b"0 0 ok\n", store(alloc)?)?;
    play(alloc, script, printed, disk)
}

/// Expects what a look prints after each crash.
fn expect_found(alloc: Global, disk: &MemDisk, found: &[u8]) -> Result<(), TestFail> {
    for pick in 0..4 {
        play(alloc, b"0 getx @0 owner\n", found, disk.crash(pick)?)?;
    }
    Ok(())
}

/// Only what was put or synced outlasts a crash.
#[test]
fn a_crash_takes_what_was_only_set(rt: HostRuntime) -> Result<(), TestFail> {
    for (script, printed, found) in &CASES {
        expect_found(rt.alloc(), &ran(rt.alloc(), script, printed)?, found)?;
    }
    Ok(())
}
