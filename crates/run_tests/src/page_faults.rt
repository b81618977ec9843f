//! Calls of the device that fail where pages are written and read.

use page_disk::{CallKind, Fail, FaultDisk, MemDisk};
use std::alloc::Global;
use std::test::Fail as TestFail;
use test_runs::{Call, expect_end, play};
use test_stores::image;

/// A store whose volume `v` has two slots: thin ones, or thick ones.
fn two_slots(alloc: Global, create: &[u8]) -> Result<MemDisk, TestFail> {
    play(alloc, create, b"0 0 ok @0\n", image(alloc, (64, 16), &[])?)
}

/// Such a store, of which this call of the device fails.
fn failing(
    alloc: Global,
    create: &[u8],
    kind: CallKind,
    nth: u64,
) -> Result<FaultDisk<MemDisk>, TestFail> {
    let fail = Fail { kind, nth };
    Ok(FaultDisk::new(two_slots(alloc, create)?, vec![in alloc; fail]?))
}

/// The page 4 isn't written.
const WRITES: &[u8] =
    b"0 write v 5 1 7\n0 write v 6 1 8\n0 write v 0 1 9\n0 flush\n0 read v 4 1\n0 df\n";

/// How many entries the log of that script has.
const ENTRIES: u32 = 6;

/// A call of the device that fails, how many commands are done before the one that meets it, and how many clusters are
/// clear for a later run.
///
/// A write to an empty slot makes four writes of copies, a flush, and a flush, a write and a flush of the head; then it
/// writes its page, as a write to a slot that has a cluster does. The first job of the run makes a flush, a write and a
/// flush before, of the super block that says that the store is in use. So the first has the writes 1 to 7 and the
/// flushes 1 to 5, the second the write 8, the third the writes 9 to 14 and the flushes 6 to 8, and then comes the
/// flush 9.
static FAILED_CALLS: [(CallKind, u64, u32, u32); 19] = [
    (CallKind::Write, 1, 0, 11),
    (CallKind::Write, 4, 0, 11),
    (CallKind::Flush, 1, 0, 11),
    (CallKind::Flush, 2, 0, 11),
    (CallKind::Write, 5, 0, 11),
    (CallKind::Flush, 3, 0, 11),
    (CallKind::Flush, 4, 0, 11),
    (CallKind::Write, 6, 0, 11),
    (CallKind::Flush, 5, 0, 10),
    (CallKind::Write, 7, 0, 10),
    (CallKind::Write, 8, 1, 10),
    (CallKind::Write, 9, 2, 10),
    (CallKind::Write, 12, 2, 10),
    (CallKind::Flush, 6, 2, 10),
    (CallKind::Flush, 7, 2, 10),
    (CallKind::Write, 13, 2, 10),
    (CallKind::Flush, 8, 2, 9),
    (CallKind::Write, 14, 2, 9),
    (CallKind::Flush, 9, 3, 9),
];

/// The answer to a command where so many are done, and the next one meets a call that fails: that one is told it, and
/// all later ones that the store has stopped there.
fn answer(alloc: Global, index: u32, done: u32) -> Result<String, TestFail> {
    if index > done {
        return Ok(format!(in alloc; "0 {index} stopped {done}\n")?);
    }
    let word = if index < done { "ok" } else { "fault" };
    Ok(format!(in alloc; "0 {index} {word}\n")?)
}

/// What is printed where so many commands are done.
fn told(alloc: Global, done: u32) -> Result<Vec<u8>, TestFail> {
    let mut lines = Vec::new(alloc);
    for index in 0..ENTRIES {
        lines.extend_from_slice(answer(alloc, index, done)?.as_bytes())?;
    }
    Ok(lines)
}

/// The device after a run of the writes of which so many are done, and the next one meets a call that fails.
fn stopped(alloc: Global, done: u32, disk: FaultDisk<MemDisk>) -> Result<MemDisk, TestFail> {
    let status = format!(in alloc; "Device {{ at: {done} }}")?;
    let printed = told(alloc, done)?;
    let end = (status.as_str(), printed.as_slice());
    let disk = expect_end(alloc, &Call::new("run store.img", WRITES), end, disk)?;
    Ok(disk.into_inner())
}

/// Expects that a later run finds so many clusters clear.
fn expect_clear(alloc: Global, clear: u32, disk: MemDisk) -> Result<(), TestFail> {
    let found = format!(in alloc;
        "0 0 page fill 0000000000000000\n0 1 df clusters {clear} of 16 pages 15 of 16\n"
    )?;
    play(alloc, b"0 read v 4 1\n0 df\n", found.as_bytes(), disk)?;
    Ok(())
}

/// The command that meets a failed call tells it, and a later run finds no cluster lost.
#[test]
fn a_failed_write_or_flush_stops_the_store(rt: HostRuntime) -> Result<(), TestFail> {
    for (kind, nth, done, clear) in &FAILED_CALLS {
        let disk = failing(rt.alloc(), b"0 create v 2 thin\n", *kind, *nth)?;
        expect_clear(rt.alloc(), *clear, stopped(rt.alloc(), *done, disk)?)?;
    }
    Ok(())
}

/// A read of the device that fails behind the load, by its number, and what is printed of a script. Loading reads the
/// super block, a page of each mask, and a chain of one page.
static FAILED_READS: [(u64, &[u8]); 3] = [
    (
        6,
        b"0 0 ok\n0 1 ok\n0 2 read fault\n0 3 page fill 0000000000000008\n0 4 ok\n\
            0 5 page fill 0000000000000009\n0 6 ok\n",
    ),
    (
        7,
        b"0 0 ok\n0 1 ok\n0 2 page fill 0000000000000007\n0 3 read fault\n0 4 ok\n\
            0 5 page fill 0000000000000009\n0 6 ok\n",
    ),
    (
        8,
        b"0 0 ok\n0 1 ok\n0 2 page fill 0000000000000007\n0 3 page fill 0000000000000008\n0 4 ok\n\
            0 5 read fault\n0 6 ok\n",
    ),
];

const SCRIPT: &[u8] =
    b"0 write v 0 2 7\n0 read v 0 2\n0 write v 0 1 9\n0 read v 0 1\n0 put v k t:1\n";

/// Expects what is printed of the script, that the run ends well, and that a later one reads what it wrote.
fn expect_run(alloc: Global, printed: &[u8], disk: FaultDisk<MemDisk>) -> Result<(), TestFail> {
    let disk = play(alloc, SCRIPT, printed, disk)?.into_inner();
    let found = b"0 0 page fill 0000000000000009\n";
    play(alloc, b"0 read v 0 1\n", found, disk)?;
    Ok(())
}

#[test]
fn a_failed_read_ends_its_command_alone(rt: HostRuntime) -> Result<(), TestFail> {
    for (nth, printed) in &FAILED_READS {
        let disk = failing(rt.alloc(), b"0 create v 2 thick\n", CallKind::Read, *nth)?;
        expect_run(rt.alloc(), printed, disk)?;
    }
    Ok(())
}
