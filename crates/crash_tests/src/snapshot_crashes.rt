//! Snapshots that are made and deleted, and power that fails at each call of the device.

use crate::points::{Cut, Point, expect_cut, expect_cut_after};
use page_disk::MemDisk;
use std::alloc::Global;
use std::test::Fail;
use test_runs::play;
use test_stores::{image, volume};

/// A snapshot is made and cloned, has one clone too many to be deleted, and is deleted; and a look at all volumes.
static FAMILY: Cut = Cut {
    script: b"0 snapshot v s\n0 clone s c\n0 read c 0 1\n0 delete s\n0 delete c\n0 delete s\n0 read v 0 1\n",
    look: b"0 list\n0 read v 0 1\n0 read s 0 1\n0 write s 0 1 1\n0 read c 0 1\n0 df\n",
    points: FAMILY_POINTS,
    calls: 43,
};

/// Before the commands, and after each that changes metadata. With three metadata pages clusters 0 and 1 are fixed.
/// Loading reads the super block, three masks, and a chain of one page. No head has a fresh page behind it: a
/// replacement flushes, writes the head, and flushes. A snapshot makes four and is done with the third, a delete with a
/// clone makes three and is done with the second. The first snapshot begins with the mark of a store in use, three
/// calls.
const FAMILY_POINTS: &[Point] = &[
    Point {
        calls: 0,
        printed: b"",
        found: b"0 0 list 1\nvolume @0 v slots 1 parent - thin rw xattrs 2\n0 1 page fill 0000000000000005\n\
            0 2 no volume\n0 3 no volume\n0 4 no volume\n0 5 df clusters 13 of 16 pages 2 of 3\n",
        chains: &[(0, &[0])],
    },
    // 5 + 3 + 9. Then the last replacement: 17 + 3.
    Point {
        calls: 17,
        printed: b"0 0 ok @1\n",
        found: SNAPSHOT_FOUND,
        chains: &[(0, &[0]), (1, &[1])],
    },
    // 20 + 3. Then a read.
    Point {
        calls: 23,
        printed: b"0 0 ok @1\n0 1 ok @2\n",
        found: b"0 0 list 3\nvolume @0 v slots 1 parent @1 thin rw xattrs 2\n\
            volume @1 s slots 1 parent - thin ro xattrs 2\nvolume @2 c slots 1 parent @1 thin rw xattrs 2\n\
            0 1 page fill 0000000000000005\n0 2 page fill 0000000000000005\n0 3 read only\n\
            0 4 page fill 0000000000000005\n0 5 df clusters 13 of 16 pages 0 of 3\n",
        chains: &[(0, &[0]), (1, &[1]), (2, &[2])],
    },
    // 24 + 3.
    Point {
        calls: 27,
        printed: b"0 0 ok @1\n0 1 ok @2\n0 2 page fill 0000000000000005\n0 3 busy 2\n0 4 ok\n",
        found: SNAPSHOT_FOUND,
        chains: &[(0, &[0]), (1, &[1])],
    },
    // 27 + 6. Then the last replacement, and a read: 33 + 4. The unload makes six calls: 37 + 6.
    Point {
        calls: 33,
        printed: b"0 0 ok @1\n0 1 ok @2\n0 2 page fill 0000000000000005\n0 3 busy 2\n0 4 ok\n0 5 ok\n",
        found: b"0 0 list 1\nvolume @0 v slots 1 parent - thin rw xattrs 2\n0 1 page fill 0000000000000005\n\
            0 2 no volume\n0 3 no volume\n0 4 no volume\n0 5 df clusters 13 of 16 pages 2 of 3\n",
        chains: &[(0, &[0])],
    },
];

/// What the look finds where the snapshot has the one clone that it was made of.
const SNAPSHOT_FOUND: &[u8] = b"0 0 list 2\nvolume @0 v slots 1 parent @1 thin rw xattrs 2\n\
    volume @1 s slots 1 parent - thin ro xattrs 2\n0 1 page fill 0000000000000005\n0 2 page fill 0000000000000005\n\
    0 3 read only\n0 4 no volume\n0 5 df clusters 13 of 16 pages 1 of 3\n";

/// A store of three metadata pages whose thin volume `v` has a page that was written.
fn with_volume(alloc: Global) -> Result<MemDisk, Fail> {
    let script = b"0 create v 1 thin\n0 write v 0 1 5\n".as_slice();
    play(
        alloc,
        script,
        b"0 0 ok @0\n0 1 ok\n",
        image(alloc, (64, 3), &[])?,
    )
}

/// A snapshot that is cut off before its third replacement is undone, and behind it finished. A delete that is cut off
/// before its second leaves the snapshot as it was.
#[test]
fn each_crash_leaves_a_snapshot_whole_or_not_at_all(rt: HostRuntime) -> Result<(), Fail> {
    let alloc = rt.alloc();
    expect_cut(alloc, &FAMILY, &with_volume(alloc)?)
}

/// The volume has a chain of three pages, and its snapshot one. Both are deleted.
static LONG: Cut = Cut {
    script: b"0 snapshot v s\n0 delete s\n0 delete v\n",
    look: b"0 list\n0 read v 16 1\n0 df\n",
    points: LONG_POINTS,
    calls: 57,
};

/// With six metadata pages clusters 0 to 2 are fixed. Loading reads the super block, a page that is no mask, six
/// metadata pages, and a chain of three pages. A replacement of the volume writes two fresh pages before the flush;
/// behind it two old ones are overwritten with zeros, and a flush makes that last.
const LONG_POINTS: &[Point] = &[
    Point {
        calls: 0,
        printed: b"",
        found: b"0 0 list 1\nvolume @0 v slots 7 parent - thin rw xattrs 3\n0 1 page fill 0000000000000000\n\
            0 2 df clusters 10 of 16 pages 3 of 6\n",
        chains: &[(0, &[0, 1, 2])],
    },
    // The mark, and then 14 + 3 + 3 + 5. Then two old pages, and the last replacement: 25 + 3 + 3.
    Point {
        calls: 25,
        printed: b"0 0 ok @3\n",
        found: b"0 0 list 2\nvolume @0 v slots 7 parent @3 thin rw xattrs 3\n\
            volume @3 s slots 7 parent - thin ro xattrs 2\n0 1 page fill 0000000000000000\n\
            0 2 df clusters 10 of 16 pages 2 of 6\n",
        chains: &[(0, &[0, 4, 5]), (3, &[3])],
    },
    // 31 + 3 + 5. Then two old pages, and the snapshot's head: 39 + 3 + 3.
    Point {
        calls: 39,
        printed: b"0 0 ok @3\n0 1 ok\n",
        found: b"0 0 list 1\nvolume @0 v slots 7 parent - thin rw xattrs 3\n0 1 page fill 0000000000000000\n\
            0 2 df clusters 10 of 16 pages 3 of 6\n",
        chains: &[(0, &[0, 1, 2])],
    },
    // 45 + 3. Then two old pages, and the unload: 48 + 3 + 6.
    Point {
        calls: 48,
        printed: b"0 0 ok @3\n0 1 ok\n0 2 ok\n",
        found: b"0 0 list 0\n0 1 no volume\n0 2 df clusters 13 of 16 pages 6 of 6\n",
        chains: &[],
    },
];

#[test]
fn each_crash_leaves_the_long_chains_before_or_after(rt: HostRuntime) -> Result<(), Fail> {
    let alloc = rt.alloc();
    expect_cut(alloc, &LONG, &volume(alloc, 6)?)
}

/// A page is written, and the snapshot that is made then shows it.
static WRITTEN: Cut = Cut {
    script: b"0 write v 0 1 6\n0 snapshot v s\n0 delete s\n",
    look: b"0 read v 0 2\n0 read s 0 2\n",
    points: WRITTEN_POINTS,
    calls: 36,
};

/// How many calls are made until the first flush of the snapshot's job is, that of the mark: loading takes five, and
/// the write one.
const FLUSHED: u64 = 7;

/// Behind the write, and then as above: 6 + 3 + 9, and 21 + 6. The last replacement and the unload end the run:
/// 27 + 3 + 6.
const WRITTEN_POINTS: &[Point] = &[
    Point {
        calls: 0,
        printed: b"0 0 ok\n",
        found: b"0 0 page fill 0000000000000006\n0 1 page fill 0000000000000000\n0 2 no volume\n0 3 no volume\n",
        chains: &[(0, &[0])],
    },
    Point {
        calls: 18,
        printed: b"0 0 ok\n0 1 ok @1\n",
        found: b"0 0 page fill 0000000000000006\n0 1 page fill 0000000000000000\n\
            0 2 page fill 0000000000000006\n0 3 page fill 0000000000000000\n",
        chains: &[(0, &[0]), (1, &[1])],
    },
    Point {
        calls: 27,
        printed: b"0 0 ok\n0 1 ok @1\n0 2 ok\n",
        found: b"0 0 page fill 0000000000000006\n0 1 page fill 0000000000000000\n0 2 no volume\n0 3 no volume\n",
        chains: &[(0, &[0])],
    },
];

/// What was written before a snapshot lasts with it: its mark and each replacement begin with a flush.
#[test]
fn a_snapshot_settles_what_was_written_before_it(rt: HostRuntime) -> Result<(), Fail> {
    let alloc = rt.alloc();
    let disk = with_volume(alloc)?;
    for calls in FLUSHED..WRITTEN.calls.saturating_add(1) {
        expect_cut_after(alloc, &WRITTEN, calls, 4, &disk)?;
    }
    Ok(())
}
