//! Calls of the device that fail while a snapshot is made or deleted.

use page_disk::{CallKind, Fail, FaultDisk, MemDisk};
use std::alloc::Global;
use std::test::Fail as TestFail;
use test_runs::{Ran, Status, expect_printed, play, run};
use test_stores::image;

/// A snapshot is made and deleted.
const SCRIPT: &[u8] = b"0 snapshot v s\n0 read v 0 1\n0 delete s\n0 read v 0 1\n";

/// What its commands answer where no call fails.
const ANSWERS: [&str; 4] = [
    "ok @1",
    "page fill 0000000000000007",
    "ok",
    "page fill 0000000000000007",
];

/// What a later run finds without the snapshot, and with it.
const LOOK: &[u8] = b"0 list\n0 read v 0 1\n0 df\n";

const ALONE: &[u8] =
    b"0 0 list 1\nvolume @0 v slots 1 parent - thin rw xattrs 2\n0 1 page fill 0000000000000007\n\
    0 2 df clusters 10 of 16 pages 15 of 16\n";

const BOTH: &[u8] = b"0 0 list 2\nvolume @0 v slots 1 parent @1 thin rw xattrs 2\n\
    volume @1 s slots 1 parent - thin ro xattrs 2\n0 1 page fill 0000000000000007\n\
    0 2 df clusters 10 of 16 pages 14 of 16\n";

/// A call of the device that fails, how many commands are answered by then, whether the next one meets it, and what a
/// later run finds.
type FailedCall = (CallKind, u64, u32, bool, &'static [u8]);

/// The snapshot begins with the mark of a store in use: a flush, a write and a flush. Each replacement is a flush, the
/// head's write, and a flush. The snapshot makes four, the third of which is its commit; the delete makes three, the
/// second of which is its commit. A commit that is written and not flushed is found done. Whatever fails behind a
/// commit, its command is answered. Behind all answers the unload makes the writes 9 to 11 of the masks, a flush, a
/// write and a flush.
const FAILED_CALLS: [FailedCall; 24] = [
    (CallKind::Flush, 1, 0, true, ALONE),
    (CallKind::Write, 1, 0, true, ALONE),
    (CallKind::Flush, 2, 0, true, ALONE),
    (CallKind::Flush, 3, 0, true, ALONE),
    (CallKind::Write, 2, 0, true, ALONE),
    (CallKind::Flush, 4, 0, true, ALONE),
    (CallKind::Write, 3, 0, true, ALONE),
    (CallKind::Flush, 6, 0, true, ALONE),
    (CallKind::Flush, 7, 0, true, ALONE),
    (CallKind::Write, 4, 0, true, ALONE),
    (CallKind::Flush, 8, 0, true, BOTH),
    (CallKind::Flush, 9, 1, false, BOTH),
    (CallKind::Write, 5, 1, false, BOTH),
    (CallKind::Flush, 11, 2, true, BOTH),
    (CallKind::Write, 6, 2, true, BOTH),
    (CallKind::Write, 7, 2, true, BOTH),
    (CallKind::Flush, 14, 2, true, ALONE),
    (CallKind::Flush, 15, 3, false, ALONE),
    (CallKind::Write, 8, 3, false, ALONE),
    (CallKind::Flush, 16, 3, false, ALONE),
    (CallKind::Write, 9, 4, false, ALONE),
    (CallKind::Flush, 17, 4, false, ALONE),
    (CallKind::Write, 12, 4, false, ALONE),
    (CallKind::Flush, 18, 4, false, ALONE),
];

/// What is printed where so many commands are answered before the store stops, and the next one meets what failed, or
/// finds the store stopped as all later ones do.
fn told(alloc: Global, done: u32, meets: bool) -> Result<Vec<u8>, TestFail> {
    let mut lines = Vec::new(alloc);
    for (index, answer) in ANSWERS.iter().enumerate() {
        let line = if index < done as usize {
            format!(in alloc; "0 {index} {answer}\n")?
        } else if index == done as usize && meets {
            format!(in alloc; "0 {index} fault\n")?
        } else {
            format!(in alloc; "0 {index} stopped {done}\n")?
        };
        lines.extend_from_slice(line.as_bytes())?;
    }
    Ok(lines)
}

/// A store whose thin volume `v` has a page that was written.
fn with_volume(alloc: Global) -> Result<MemDisk, TestFail> {
    let script = b"0 create v 1 thin\n0 write v 0 1 7\n".as_slice();
    play(
        alloc,
        script,
        b"0 0 ok @0\n0 1 ok\n",
        image(alloc, (64, 16), &[])?,
    )
}

/// Expects what is printed where this call fails, and what a later run finds.
fn expect_stop(alloc: Global, failed: &FailedCall) -> Result<(), TestFail> {
    let (kind, nth, done, meets, found) = *failed;
    let fail = Fail { kind, nth };
    let disk = FaultDisk::new(with_volume(alloc)?, vec![in alloc; fail]?);
    let Ran { status, out, disk } = run(alloc, SCRIPT, disk)?;
    if !matches!(status, Status::Device { at } if at == done) {
        return Err(TestFail::new(format_args!("with {fail:?} it ended as {status:?}")));
    }
    expect_printed(&out, &told(alloc, done, meets)?)?;
    play(alloc, LOOK, found, disk.into_inner())?;
    Ok(())
}

#[test]
fn what_fails_behind_a_commit_is_made_good_by_the_next_load(
    rt: HostRuntime,
) -> Result<(), TestFail> {
    for failed in &FAILED_CALLS {
        expect_stop(rt.alloc(), failed)?;
    }
    Ok(())
}
