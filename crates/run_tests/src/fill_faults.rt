//! Calls of the device that fail while a volume is inflated or decoupled.

use page_disk::{CallKind, Fail, FaultDisk, MemDisk};
use std::alloc::Global;
use std::test::Fail as TestFail;
use test_runs::{Call, Ran, Status, expect_printed, perform, play, run};
use test_stores::image;

/// A store behind a script, each of whose lines is answered so.
fn made(alloc: Global, script: &[u8], printed: &[u8]) -> Result<MemDisk, TestFail> {
    play(alloc, script, printed, image(alloc, (64, 16), &[])?)
}

/// A device of which this call fails.
fn failing(
    alloc: Global,
    kind: CallKind,
    nth: u64,
    disk: MemDisk,
) -> Result<FaultDisk<MemDisk>, TestFail> {
    Ok(FaultDisk::new(disk, vec![in alloc; Fail { kind, nth }]?))
}

/// A thin volume of two slots, both of which its snapshot holds.
fn with_two_filled(alloc: Global) -> Result<MemDisk, TestFail> {
    made(
        alloc,
        b"0 create v 2 thin\n0 write v 0 1 1\n0 write v 4 1 2\n0 snapshot v s\n",
        b"0 0 ok @0\n0 1 ok\n0 2 ok\n0 3 ok @1\n",
    )
}

const INFLATE: &[u8] = b"0 inflate v\n0 info v\n0 read v 0 1\n0 read v 4 1\n0 df\n";

const DECOUPLE: &[u8] = b"0 decouple v\n0 info v\n0 read v 0 1\n0 read v 4 1\n0 df\n";

/// What is printed where the first slot couldn't be copied, and where the second one couldn't.
const NONE_FILLED: &[u8] =
    b"0 0 read fault\n0 1 volume @0 v slots 2 parent @1 thin rw xattrs 2\n0 2 page fill 0000000000000001\n\
    0 3 page fill 0000000000000002\n0 4 df clusters 9 of 16 pages 14 of 16\n";

const ONE_FILLED: &[u8] =
    b"0 0 read fault\n0 1 volume @0 v slots 2 parent @1 thin rw xattrs 2\n0 2 page fill 0000000000000001\n\
    0 3 page fill 0000000000000002\n0 4 df clusters 8 of 16 pages 14 of 16\n";

/// A script, a read of the device that fails, by its number, and what is printed. Loading reads the super block, three
/// masks, and two chains of one page. Each slot has four pages, and each page is read once.
const FAILED_READS: [(&[u8], u64, &[u8]); 8] = [
    (INFLATE, 7, NONE_FILLED),
    (INFLATE, 10, NONE_FILLED),
    (INFLATE, 11, ONE_FILLED),
    (INFLATE, 14, ONE_FILLED),
    (
        INFLATE,
        15,
        b"0 0 ok\n0 1 volume @0 v slots 2 parent - thick rw xattrs 2\n0 2 read fault\n\
            0 3 page fill 0000000000000002\n0 4 df clusters 7 of 16 pages 14 of 16\n",
    ),
    (DECOUPLE, 7, NONE_FILLED),
    (DECOUPLE, 14, ONE_FILLED),
    (
        DECOUPLE,
        15,
        b"0 0 ok\n0 1 volume @0 v slots 2 parent - thin rw xattrs 2\n0 2 read fault\n\
            0 3 page fill 0000000000000002\n0 4 df clusters 7 of 16 pages 14 of 16\n",
    ),
];

/// A later run fills what is left.
const FILL_AGAIN: (&[u8], &[u8]) = (
    b"0 inflate v\n0 read v 0 1\n0 read v 4 1\n0 delete s\n0 df\n",
    b"0 0 ok\n0 1 page fill 0000000000000001\n0 2 page fill 0000000000000002\n0 3 ok\n\
        0 4 df clusters 9 of 16 pages 15 of 16\n",
);

/// Expects what is printed where this read fails, that the run ends well, and that a later one goes on.
fn expect_read_fault(
    alloc: Global,
    script: &[u8],
    nth: u64,
    printed: &[u8],
) -> Result<(), TestFail> {
    let disk = failing(alloc, CallKind::Read, nth, with_two_filled(alloc)?)?;
    let disk = play(alloc, script, printed, disk)?;
    let (again, found) = FILL_AGAIN;
    play(alloc, again, found, disk.into_inner())?;
    Ok(())
}

#[test]
fn a_failed_read_ends_a_fill_and_keeps_what_is_filled(rt: HostRuntime) -> Result<(), TestFail> {
    for (script, nth, printed) in &FAILED_READS {
        expect_read_fault(rt.alloc(), script, *nth, printed)?;
    }
    Ok(())
}

/// A verb, a call of the device that fails, how many clusters are clear for a later run, and which parent and form the
/// volume has there.
type FailedCall = (&'static str, CallKind, u64, u32, &'static str);

/// The first slot is that of the snapshot, which a decouple fills; the second one is empty in both. A slot makes four
/// writes of copies and a flush, and then a flush, a write and a flush of the head; so does the end for the head. The
/// insert of the first slot is the first job of the run: between its copies and its head the store is marked as in use,
/// by the flushes 2 and 3 and the write 5.
const FAILED_CALLS: [FailedCall; 23] = [
    ("inflate", CallKind::Write, 1, 10, "@1 thin"),
    ("inflate", CallKind::Write, 4, 10, "@1 thin"),
    ("inflate", CallKind::Flush, 1, 10, "@1 thin"),
    ("inflate", CallKind::Flush, 2, 10, "@1 thin"),
    ("inflate", CallKind::Write, 5, 10, "@1 thin"),
    ("inflate", CallKind::Flush, 3, 10, "@1 thin"),
    ("inflate", CallKind::Flush, 4, 10, "@1 thin"),
    ("inflate", CallKind::Write, 6, 10, "@1 thin"),
    ("inflate", CallKind::Flush, 5, 9, "@1 thin"),
    ("inflate", CallKind::Write, 7, 9, "@1 thin"),
    ("inflate", CallKind::Write, 10, 9, "@1 thin"),
    ("inflate", CallKind::Flush, 6, 9, "@1 thin"),
    ("inflate", CallKind::Flush, 7, 9, "@1 thin"),
    ("inflate", CallKind::Write, 11, 9, "@1 thin"),
    ("inflate", CallKind::Flush, 8, 8, "@1 thin"),
    ("inflate", CallKind::Flush, 9, 8, "@1 thin"),
    ("inflate", CallKind::Write, 12, 8, "@1 thin"),
    ("inflate", CallKind::Flush, 10, 8, "- thick"),
    ("decouple", CallKind::Write, 6, 10, "@1 thin"),
    ("decouple", CallKind::Flush, 5, 9, "@1 thin"),
    ("decouple", CallKind::Flush, 6, 9, "@1 thin"),
    ("decouple", CallKind::Write, 7, 9, "@1 thin"),
    ("decouple", CallKind::Flush, 7, 9, "- thin"),
];

/// A thin volume of two slots, of which its snapshot holds the first.
fn with_one_filled(alloc: Global) -> Result<MemDisk, TestFail> {
    made(
        alloc,
        b"0 create v 2 thin\n0 write v 0 1 1\n0 snapshot v s\n",
        b"0 0 ok @0\n0 1 ok\n0 2 ok @1\n",
    )
}

/// Expects that a later run finds the volume of this form, with its page, and so many clear clusters.
fn expect_found(alloc: Global, disk: MemDisk, clear: u32, form: &str) -> Result<(), TestFail> {
    let found = format!(in alloc;
        "0 0 volume @0 v slots 2 parent {form} rw xattrs 2\n0 1 page fill 0000000000000001\n\
        0 2 df clusters {clear} of 16 pages 14 of 16\n"
    )?;
    play(
        alloc,
        b"0 info v\n0 read v 0 1\n0 df\n",
        found.as_bytes(),
        disk,
    )?;
    Ok(())
}

/// Expects that the command that meets a failed call tells it, and what a later run finds.
fn expect_stop(alloc: Global, failed: &FailedCall) -> Result<(), TestFail> {
    let (verb, kind, nth, clear, form) = *failed;
    let disk = failing(alloc, kind, nth, with_one_filled(alloc)?)?;
    let script = format!(in alloc; "0 {verb} v\n0 read v 0 1\n0 setx v k t:1\n")?;
    let Ran { status, out, disk } = run(alloc, script.as_bytes(), disk)?;
    if !matches!(status, Status::Device { at: 0 }) {
        return Err(TestFail::new(format_args!("with {kind:?} {nth} it ended as {status:?}")));
    }
    expect_printed(&out, b"0 0 fault\n0 1 stopped 0\n0 2 stopped 0\n")?;
    expect_found(alloc, disk.into_inner(), clear, form)
}

#[test]
fn a_failed_write_or_flush_of_a_fill_stops_the_store(rt: HostRuntime) -> Result<(), TestFail> {
    for failed in &FAILED_CALLS {
        expect_stop(rt.alloc(), failed)?;
    }
    Ok(())
}

/// How many steps the metadata thread has made, which write is then the other channel's and fails, and how many
/// clusters are clear for a later run. It takes the inflate, claims, copies four pages, posts, begins its insert, marks
/// the store as in use, with a write of its own, makes the insert's one turn, settles, and claims for the second slot;
/// the last job begins with step 21.
const STOPPED: [(u32, u64, u32); 15] = [
    (1, 1, 9),
    (2, 1, 9),
    (3, 2, 9),
    (5, 4, 9),
    (6, 5, 9),
    (7, 5, 9),
    (8, 5, 9),
    (9, 6, 9),
    (10, 7, 8),
    (11, 7, 8),
    (12, 7, 8),
    (17, 11, 8),
    (18, 11, 8),
    (19, 12, 7),
    (21, 12, 7),
];

/// What comes of an inflate and a command behind it where another channel's write fails behind so many steps of the
/// metadata thread, by which a third channel's command waits.
fn run_stopped(alloc: Global, steps: u32, nth: u64) -> Result<Ran<FaultDisk<MemDisk>>, TestFail> {
    let disk = play(
        alloc,
        b"0 create w 1 thick\n",
        b"0 0 ok @2\n",
        with_one_filled(alloc)?,
    )?;
    let disk = failing(alloc, CallKind::Write, nth, disk)?;
    let line = format!(in alloc; "run store.img --schedule 0*2,m*{steps},1,2*2,m*9")?;
    let script = b"0 inflate v\n0 flush\n1 write w 0 1 5\n2 setx w k t:1\n";
    let call = Call::new(line.as_str(), script);
    perform(alloc, &call, disk)
}

/// Expects that the inflate and what waits for it are told that the store stopped, and that no cluster is lost.
fn expect_stopped(alloc: Global, steps: u32, nth: u64, clear: u32) -> Result<(), TestFail> {
    let Ran { status, out, disk } = run_stopped(alloc, steps, nth)?;
    if !matches!(status, Status::Device { at: 0 }) {
        return Err(TestFail::new(format_args!("behind {steps} steps it ended as {status:?}")));
    }
    expect_printed(
        &out,
        b"1 0 fault\n0 0 stopped 0\n2 0 stopped 0\n0 1 stopped 0\n",
    )?;
    let found = format!(in alloc;
        "0 0 volume @0 v slots 2 parent @1 thin rw xattrs 2\n0 1 page fill 0000000000000001\n\
        0 2 df clusters {clear} of 16 pages 13 of 16\n"
    )?;
    let look = b"0 info v\n0 read v 0 1\n0 df\n";
    play(alloc, look, found.as_bytes(), disk.into_inner())?;
    Ok(())
}

#[test]
fn a_store_that_stops_ends_a_fill_at_any_stage(rt: HostRuntime) -> Result<(), TestFail> {
    for (steps, nth, clear) in &STOPPED {
        expect_stopped(rt.alloc(), *steps, *nth, *clear)?;
    }
    Ok(())
}
