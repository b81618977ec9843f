//! Volumes that are inflated or decoupled, and power that fails at each call of the device.

use crate::points::{Cut, Point, expect_cut, expect_cut_with};
use page_disk::MemDisk;
use std::alloc::Global;
use std::test::Fail;
use test_runs::play;
use test_stores::{fill, image, volume};

/// How many crashes are tried: each that may be left of the last two writes.
const PICKS: u64 = 16;

/// A store of three metadata pages, where the clusters that are claimed first have other bytes than zeros: a volume `v`
/// without a cluster of its own over a snapshot `s`, which has the second one, over `r`, which has the first one.
fn with_family(alloc: Global) -> Result<MemDisk, Fail> {
    let mut disk = image(alloc, (64, 3), &[])?;
    fill(&mut disk, 16, 24)?;
    let script =
        b"0 create v 2 thin\n0 write v 0 1 5\n0 snapshot v r\n0 write v 4 1 6\n0 snapshot v s\n";
    let printed = b"0 0 ok @0\n0 1 ok\n0 2 ok @1\n0 3 ok\n0 4 ok @2\n";
    Ok(play(alloc, script, printed, disk.crash(0)?)?.crash(0)?)
}

/// The volume's form, pages of it and of its snapshots, and what is clear.
const LOOK: &[u8] = b"0 info v\n0 read v 0 2\n0 read v 4 2\n0 read s 0 1\n0 read s 4 1\n0 df\n";

/// No filled slot yet; one; both; and the volume without its parent. With three metadata pages clusters 0 and 1 are
/// fixed.
const NONE_FILLED: &[u8] =
    b"0 0 volume @0 v slots 2 parent @2 thin rw xattrs 2\n0 1 page fill 0000000000000005\n\
    0 2 page fill 0000000000000000\n0 3 page fill 0000000000000006\n0 4 page fill 0000000000000000\n\
    0 5 page fill 0000000000000005\n0 6 page fill 0000000000000006\n0 7 df clusters 12 of 16 pages 0 of 3\n";

const ONE_FILLED: &[u8] =
    b"0 0 volume @0 v slots 2 parent @2 thin rw xattrs 2\n0 1 page fill 0000000000000005\n\
    0 2 page fill 0000000000000000\n0 3 page fill 0000000000000006\n0 4 page fill 0000000000000000\n\
    0 5 page fill 0000000000000005\n0 6 page fill 0000000000000006\n0 7 df clusters 11 of 16 pages 0 of 3\n";

const BOTH_FILLED: &[u8] =
    b"0 0 volume @0 v slots 2 parent @2 thin rw xattrs 2\n0 1 page fill 0000000000000005\n\
    0 2 page fill 0000000000000000\n0 3 page fill 0000000000000006\n0 4 page fill 0000000000000000\n\
    0 5 page fill 0000000000000005\n0 6 page fill 0000000000000006\n0 7 df clusters 10 of 16 pages 0 of 3\n";

const INFLATED: &[u8] =
    b"0 0 volume @0 v slots 2 parent - thick rw xattrs 2\n0 1 page fill 0000000000000005\n\
    0 2 page fill 0000000000000000\n0 3 page fill 0000000000000006\n0 4 page fill 0000000000000000\n\
    0 5 page fill 0000000000000005\n0 6 page fill 0000000000000006\n0 7 df clusters 10 of 16 pages 0 of 3\n";

const DECOUPLED: &[u8] =
    b"0 0 volume @0 v slots 2 parent @1 thin rw xattrs 2\n0 1 page fill 0000000000000005\n\
    0 2 page fill 0000000000000000\n0 3 page fill 0000000000000006\n0 4 page fill 0000000000000000\n\
    0 5 page fill 0000000000000005\n0 6 page fill 0000000000000006\n0 7 df clusters 11 of 16 pages 0 of 3\n";

const CHAINS: &[(u32, &[u32])] = &[(0, &[0]), (1, &[1]), (2, &[2])];

/// Loading reads the super block, three masks, and three chains of one page. A slot makes four reads and four
/// writes of copies, a flush, and for the head a flush, a write and a flush; so does the end for the head. The insert
/// of the first slot begins, behind its copies, with the mark of a store in use, three calls; the unload makes six.
static INFLATE: Cut = Cut {
    script: b"0 inflate v\n",
    look: LOOK,
    points: &[
        Point {
            calls: 0,
            printed: b"",
            found: NONE_FILLED,
            chains: CHAINS,
        },
        // 7 + 8 + 1 + 3 + 3.
        Point {
            calls: 22,
            printed: b"",
            found: ONE_FILLED,
            chains: CHAINS,
        },
        // 22 + 8 + 1 + 3.
        Point {
            calls: 34,
            printed: b"",
            found: BOTH_FILLED,
            chains: CHAINS,
        },
        // 34 + 3. Then the unload: 37 + 6.
        Point {
            calls: 37,
            printed: b"0 0 ok\n",
            found: INFLATED,
            chains: CHAINS,
        },
    ],
    calls: 43,
};

/// A decouple fills the slot that the direct parent's own map holds.
static DECOUPLE: Cut = Cut {
    script: b"0 decouple v\n",
    look: LOOK,
    points: &[
        Point {
            calls: 0,
            printed: b"",
            found: NONE_FILLED,
            chains: CHAINS,
        },
        // 7 + 8 + 1 + 3 + 3.
        Point {
            calls: 22,
            printed: b"",
            found: ONE_FILLED,
            chains: CHAINS,
        },
        // 22 + 3. Then the unload: 25 + 6.
        Point {
            calls: 25,
            printed: b"0 0 ok\n",
            found: DECOUPLED,
            chains: CHAINS,
        },
    ],
    calls: 31,
};

/// At every moment each page is what it was, and the volume has its parent still or the inflate is done.
#[test]
fn each_crash_leaves_an_inflate_done_or_not(rt: HostRuntime) -> Result<(), Fail> {
    let alloc = rt.alloc();
    expect_cut_with(alloc, &INFLATE, PICKS, &with_family(alloc)?)
}

#[test]
fn each_crash_leaves_a_decouple_done_or_not(rt: HostRuntime) -> Result<(), Fail> {
    let alloc = rt.alloc();
    expect_cut_with(alloc, &DECOUPLE, PICKS, &with_family(alloc)?)
}

/// The volume has four empty slots and a chain of three pages.
static LONG: Cut = Cut {
    script: b"0 inflate v\n",
    look: b"0 info v\n0 read v 0 2\n0 read v 12 1\n0 read v 16 1\n0 df\n",
    points: LONG_POINTS,
    calls: 80,
};

/// The chain as it was, and after each second replacement.
const EVEN: &[(u32, &[u32])] = &[(0, &[0, 1, 2])];

/// The chain after each other one.
const ODD: &[(u32, &[u32])] = &[(0, &[0, 3, 4])];

/// With six metadata pages clusters 0 to 2 are fixed. Loading reads the super block, a page that is no mask, six
/// metadata pages, and a chain of three pages. A slot that reads as zeros makes four writes and a flush, then two fresh
/// pages, and a flush, a write and a flush of the head; then two old pages are overwritten with zeros, and flushed. The
/// first slot's insert marks the store before it writes a fresh page.
const LONG_POINTS: &[Point] = &[
    Point {
        calls: 0,
        printed: b"",
        found: b"0 0 volume @0 v slots 7 parent - thin rw xattrs 3\n0 1 page fill 0000000000000000\n\
            0 2 page fill 0000000000000000\n0 3 page fill 0000000000000000\n0 4 page fill 0000000000000000\n\
            0 5 df clusters 10 of 16 pages 3 of 6\n",
        chains: EVEN,
    },
    // 11 + 4 + 1 + 3 + 2 + 3.
    Point {
        calls: 24,
        printed: b"",
        found: b"0 0 volume @0 v slots 7 parent - thin rw xattrs 3\n0 1 page fill 0000000000000000\n\
            0 2 page fill 0000000000000000\n0 3 page fill 0000000000000000\n0 4 page fill 0000000000000000\n\
            0 5 df clusters 9 of 16 pages 3 of 6\n",
        chains: ODD,
    },
    // 24 + 3 + 4 + 1 + 2 + 3.
    Point {
        calls: 37,
        printed: b"",
        found: b"0 0 volume @0 v slots 7 parent - thin rw xattrs 3\n0 1 page fill 0000000000000000\n\
            0 2 page fill 0000000000000000\n0 3 page fill 0000000000000000\n0 4 page fill 0000000000000000\n\
            0 5 df clusters 8 of 16 pages 3 of 6\n",
        chains: EVEN,
    },
    Point {
        calls: 50,
        printed: b"",
        found: b"0 0 volume @0 v slots 7 parent - thin rw xattrs 3\n0 1 page fill 0000000000000000\n\
            0 2 page fill 0000000000000000\n0 3 page fill 0000000000000000\n0 4 page fill 0000000000000000\n\
            0 5 df clusters 7 of 16 pages 3 of 6\n",
        chains: ODD,
    },
    Point {
        calls: 63,
        printed: b"",
        found: b"0 0 volume @0 v slots 7 parent - thin rw xattrs 3\n0 1 page fill 0000000000000000\n\
            0 2 page fill 0000000000000000\n0 3 page fill 0000000000000000\n0 4 page fill 0000000000000000\n\
            0 5 df clusters 6 of 16 pages 3 of 6\n",
        chains: EVEN,
    },
    // 63 + 3 + 2 + 3. Then two old pages, and the unload: 71 + 3 + 6.
    Point {
        calls: 71,
        printed: b"0 0 ok\n",
        found: b"0 0 volume @0 v slots 7 parent - thick rw xattrs 3\n0 1 page fill 0000000000000000\n\
            0 2 page fill 0000000000000000\n0 3 page fill 0000000000000000\n0 4 page fill 0000000000000000\n\
            0 5 df clusters 6 of 16 pages 3 of 6\n",
        chains: ODD,
    },
];

#[test]
fn each_crash_leaves_an_inflate_of_a_long_chain_done_or_not(rt: HostRuntime) -> Result<(), Fail> {
    let alloc = rt.alloc();
    let mut disk = volume(alloc, 6)?;
    fill(&mut disk, 12, 28)?;
    expect_cut(alloc, &LONG, &disk.crash(0)?)
}
