//! A long put of which a call of the device fails.

use page_disk::{CallKind, Fail, FaultDisk, MemDisk};
use std::alloc::Global;
use std::test::Fail as TestFail;
use test_lines::{push_long, push_told};
use test_runs::{Ran, Status, expect_printed, play, run};
use test_stores::volume;

/// A call of the device that fails, how many entries the log has then, what is printed, and the letter of the value
/// that a later run finds.
type Case = (CallKind, u64, u32, &'static [u8], u8);

/// What is printed where the first put fails, where it fails after its answer, and where the second put fails.
const FIRST: &[u8] = b"0 0 fault\n0 1 stopped 0\n0 2 stopped 0\n";

const ERASING: &[u8] = b"0 0 ok\n0 1 stopped 1\n0 2 stopped 1\n";

const SECOND: &[u8] = b"0 0 ok\n0 1 fault\n0 2 stopped 1\n";

/// Loading reads the super block, a page that is no mask, five metadata pages and three of the chain. A put makes two
/// writes of fresh pages, a flush, the head's write, a flush, and two writes of old pages and a flush. It is answered
/// before these last three, and takes hold with the head's write. The first put marks the store as in use before, by a
/// flush, a write and a flush: it has the writes 1 to 6 and the flushes 1 to 5.
const CASES: [Case; 16] = [
    (CallKind::Read, 1, 0, b"", b'x'),
    (CallKind::Read, 8, 0, b"", b'x'),
    (CallKind::Flush, 1, 0, FIRST, b'x'),
    (CallKind::Write, 1, 0, FIRST, b'x'),
    (CallKind::Flush, 2, 0, FIRST, b'x'),
    (CallKind::Write, 2, 0, FIRST, b'x'),
    (CallKind::Write, 3, 0, FIRST, b'x'),
    (CallKind::Flush, 3, 0, FIRST, b'x'),
    (CallKind::Write, 4, 0, FIRST, b'x'),
    (CallKind::Flush, 4, 0, FIRST, b'y'),
    (CallKind::Write, 5, 1, ERASING, b'y'),
    (CallKind::Write, 6, 1, ERASING, b'y'),
    (CallKind::Flush, 5, 1, ERASING, b'y'),
    (CallKind::Write, 7, 1, SECOND, b'y'),
    (CallKind::Write, 9, 1, SECOND, b'y'),
    (CallKind::Flush, 7, 1, SECOND, b'z'),
];

/// The script of two puts of 4062 bytes and a look.
fn two_puts(alloc: Global) -> Result<Vec<u8>, TestFail> {
    let mut script = Vec::new(alloc);
    push_long(&mut script, b"0 put @0 k t:", (b'y', 4062))?;
    push_long(&mut script, b"0 put @0 k t:", (b'z', 4062))?;
    script.extend_from_slice(b"0 getx @0 k\n")?;
    Ok(script)
}

/// What comes of two puts and a look on a volume with a chain of three pages, of whose device this call fails.
fn stopped(alloc: Global, fail: Fail) -> Result<Ran<FaultDisk<MemDisk>>, TestFail> {
    let failing = FaultDisk::new(volume(alloc, 5)?, vec![in alloc; fail]?);
    run(alloc, &two_puts(alloc)?, failing)
}

/// Expects of a device that a run finds 4062 times this letter.
fn expect_letter(alloc: Global, disk: MemDisk, letter: u8) -> Result<(), TestFail> {
    let mut told = Vec::new(alloc);
    push_told(alloc, &mut told, 0, Some((letter, 4062)))?;
    play(alloc, b"0 getx @0 k\n", &told, disk)?;
    Ok(())
}

#[test]
fn a_failed_call_of_a_long_put_stops_the_store_there(rt: HostRuntime) -> Result<(), TestFail> {
    let alloc = rt.alloc();
    for (kind, nth, entries, printed, letter) in CASES {
        let Ran { status, out, disk } = stopped(alloc, Fail { kind, nth })?;
        match status {
            Status::Device { at } => assert_eq!(rt; at, entries),
            _ => panic!(rt; "the device failed"),
        }
        expect_printed(&out, printed)?;
        expect_letter(alloc, disk.into_inner(), letter)?;
    }
    Ok(())
}
