//! Calls of the device, the source and the sink that fail in a run, and in the load before it.

use crate::images::{SMALL, device, page_at};
use crate::runs::DF;
use page_disk::{CallKind, Fail, FaultDisk, MemDisk};
use std::alloc::Global;
use std::test::Fail as TestFail;
use test_runs::{Call, expect_end, perform, play};

/// A script, and what it prints on a new store.
const SCRIPT: &[u8] =
    b"0 create v 4 thin\n0 read v 0 1\n0 df\n0 write v 5 1 7\n0 df\n0 read v 4 2\n";

const PRINTED: &[u8] =
    b"0 0 ok @0\n0 1 page fill 0000000000000000\n0 2 df clusters 11 of 16 pages 15 of 16\n\
    0 3 ok\n0 4 df clusters 10 of 16 pages 15 of 16\n0 5 page fill 0000000000000000\n\
    0 6 page fill 0000000000000007\n";

/// A new store of 64 pages.
fn new_store(alloc: Global) -> Result<MemDisk, TestFail> {
    let call = Call::new("format store.img --cluster 16384", b"");
    Ok(perform(alloc, &call, MemDisk::new(alloc, 64, 256)?)?.disk)
}

/// A new store whose calls are counted.
fn counted_store(alloc: Global) -> Result<FaultDisk<MemDisk>, TestFail> {
    Ok(FaultDisk::new(new_store(alloc)?, Vec::new(alloc)))
}

/// A device of which this call fails.
fn failing(
    alloc: Global,
    disk: MemDisk,
    kind: CallKind,
    nth: u64,
) -> Result<FaultDisk<MemDisk>, TestFail> {
    let fail = Fail { kind, nth };
    Ok(FaultDisk::new(disk, vec![in alloc; fail]?))
}

/// A run of the script where these reads of it and writes to the output fail.
fn run_of<'a>(failing_reads: &'a [u64], failing_writes: &'a [u64]) -> Call<'a> {
    Call {
        line: "run store.img",
        script: SCRIPT,
        failing_reads,
        failing_writes,
    }
}

/// Expects that a later run finds all that the script did.
fn expect_done(alloc: Global, disk: MemDisk) -> Result<(), TestFail> {
    play(
        alloc,
        b"0 read v 4 2\n0 df\n",
        b"0 0 page fill 0000000000000000\n0 1 page fill 0000000000000007\n\
            0 2 df clusters 10 of 16 pages 15 of 16\n",
        disk,
    )?;
    Ok(())
}

#[test]
fn the_device_is_left_alone_where_the_script_is_not_read(rt: HostRuntime) -> Result<(), TestFail> {
    let end = ("ScriptRead", b"".as_slice());
    let disk = counted_store(rt.alloc())?;
    let disk = expect_end(rt.alloc(), &run_of(&[2], &[]), end, disk)?;
    for kind in [CallKind::Read, CallKind::Write, CallKind::Flush] {
        assert_eq!(rt; disk.calls(kind), 0);
    }
    Ok(())
}

/// Its super block says that the store is clean.
#[test]
fn a_run_whose_text_is_not_printed_is_done(rt: HostRuntime) -> Result<(), TestFail> {
    let end = ("OutWrite", b"0 0 ok @0\n".as_slice());
    let disk = new_store(rt.alloc())?;
    let mut disk = expect_end(rt.alloc(), &run_of(&[], &[2]), end, disk)?;
    assert!(rt; page_at(&mut disk, 0)?[16..20] == [1, 0, 0, 0]);
    expect_done(rt.alloc(), disk)
}

/// How many flushes a run of the script makes that ends well.
fn flushes_of_run(alloc: Global) -> Result<u64, TestFail> {
    let disk = counted_store(alloc)?;
    let disk = expect_end(alloc, &run_of(&[], &[]), ("Good", PRINTED), disk)?;
    Ok(disk.calls(CallKind::Flush))
}

#[test]
fn a_run_is_done_but_for_its_last_flush(rt: HostRuntime) -> Result<(), TestFail> {
    let alloc = rt.alloc();
    let last = flushes_of_run(alloc)?;
    let disk = failing(alloc, new_store(alloc)?, CallKind::Flush, last)?;
    let end = ("Device { at: 7 }", PRINTED);
    let disk = expect_end(alloc, &run_of(&[], &[]), end, disk)?;
    expect_done(alloc, disk.into_inner())
}

/// The device behind a snapshot of which the eleventh flush fails.
fn cut_snapshot(alloc: Global) -> Result<MemDisk, TestFail> {
    let script = b"0 create v 1 thin\n0 snapshot v s\n0 read v 0 1\n";
    let printed = b"0 0 ok @0\n0 1 ok @1\n0 2 stopped 2\n";
    let disk = failing(alloc, new_store(alloc)?, CallKind::Flush, 11)?;
    let call = Call::new("run store.img", script);
    let disk = expect_end(alloc, &call, ("Device { at: 2 }", printed), disk)?;
    Ok(disk.into_inner())
}

/// That flush is the first one of the snapshot's last replacement, which follows its commit: the store stops, and the
/// command is done.
#[test]
fn a_snapshot_is_done_with_its_commit(rt: HostRuntime) -> Result<(), TestFail> {
    let look = b"0 read v 0 1\n0 read s 0 1\n0 df\n";
    let found = b"0 0 page fill 0000000000000000\n0 1 page fill 0000000000000000\n\
        0 2 df clusters 11 of 16 pages 14 of 16\n";
    play(rt.alloc(), look, found, cut_snapshot(rt.alloc())?)?;
    Ok(())
}

/// How many reads the load of a device makes: those of a run without a command.
fn reads_of_load(alloc: Global, disk: &MemDisk) -> Result<u64, TestFail> {
    let disk = FaultDisk::new(disk.crash(0)?, Vec::new(alloc));
    Ok(play(alloc, b"", b"", disk)?.calls(CallKind::Read))
}

/// The store behind the script, of which the first read behind a load fails.
fn failing_behind_load(alloc: Global) -> Result<FaultDisk<MemDisk>, TestFail> {
    let disk = play(alloc, SCRIPT, PRINTED, new_store(alloc)?)?;
    let next = reads_of_load(alloc, &disk)?.saturating_add(1);
    failing(alloc, disk, CallKind::Read, next)
}

#[test]
fn a_page_that_was_not_read_is_read_by_the_next_command(rt: HostRuntime) -> Result<(), TestFail> {
    let reads = b"0 read v 5 1\n0 read v 5 1\n";
    let printed = b"0 0 read fault\n0 1 page fill 0000000000000007\n";
    let disk = play(rt.alloc(), reads, printed, failing_behind_load(rt.alloc())?)?;
    assert_eq!(rt; disk.calls(CallKind::Write), 0);
    Ok(())
}

/// A listing of the store.
static LIST: Call<'static> = Call {
    line: "list store.img",
    script: b"",
    failing_reads: &[],
    failing_writes: &[],
};

/// Expects that a call on a clean store ends where this read of the device fails, that it prints nothing, and that it
/// neither writes nor flushes.
fn expect_unread(alloc: Global, call: &Call<'_>, nth: u64) -> Result<(), TestFail> {
    let disk = failing(alloc, new_store(alloc)?, CallKind::Read, nth)?;
    let disk = expect_end(alloc, call, ("Device { at: 0 }", b""), disk)?;
    for kind in [CallKind::Write, CallKind::Flush] {
        let calls = disk.calls(kind);
        if calls > 0 {
            return Err(TestFail::new(format_args!("{calls} calls of {kind:?}")));
        }
    }
    Ok(())
}

/// Reads of the load of a clean store behind that of its super block: of the three masks.
const MASK_READS: [u64; 3] = [2, 3, 4];

/// The store isn't scanned in place of a mask that the device doesn't give.
#[test]
fn nothing_is_done_where_a_mask_is_not_read(rt: HostRuntime) -> Result<(), TestFail> {
    for nth in MASK_READS {
        expect_unread(rt.alloc(), &DF, nth)?;
        expect_unread(rt.alloc(), &LIST, nth)?;
    }
    Ok(())
}

/// Reads of a load: of the super block, of the first metadata page and of the last one.
const READS: [u64; 3] = [1, 2, 17];

#[test]
fn a_run_ends_where_a_page_is_not_read_in_the_load(rt: HostRuntime) -> Result<(), TestFail> {
    let alloc = rt.alloc();
    for nth in READS {
        let disk = failing(alloc, device(alloc, &SMALL)?, CallKind::Read, nth)?;
        expect_end(alloc, &DF, ("Device { at: 0 }", b""), disk)?;
    }
    Ok(())
}
