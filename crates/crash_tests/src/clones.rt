//! Clones that are made, and power that fails at each call of the device.

use crate::points::{Cut, Point, expect_cut};
use page_disk::MemDisk;
use std::alloc::Global;
use std::test::Fail;
use test_runs::play;
use test_stores::image;

/// The script, and a look at what it leaves.
static CLONES: Cut = Cut {
    script: b"0 clone a b\n0 put b k t:x\n0 clone a c\n",
    look: b"0 getx b name\n0 getx b k\n0 read b 0 1\n0 getx c name\n0 df\n",
    points: POINTS,
    calls: 23,
};

/// The metadata pages of the store, just enough. With them clusters 0 and 1 are fixed.
const MD_PAGES: u32 = 3;

/// Before the commands, and after each. Loading reads the super block, three masks, and a chain of one page.
/// No command has a fresh page behind its head: it flushes, writes the head, and flushes. The first clone marks the
/// store as in use before, in three calls; the unload at the end makes six: 17 + 6.
const POINTS: &[Point] = &[
    Point {
        calls: 0,
        printed: b"",
        found: b"0 0 no volume\n0 1 no volume\n0 2 no volume\n0 3 no volume\n\
            0 4 df clusters 13 of 16 pages 2 of 3\n",
        chains: &[(0, &[0])],
    },
    // 5 + 3 + 3.
    Point {
        calls: 11,
        printed: b"0 0 ok @1\n",
        found: b"0 0 value 6200\n0 1 no value\n0 2 page fill 0000000000000007\n0 3 no volume\n\
            0 4 df clusters 13 of 16 pages 1 of 3\n",
        chains: &[(0, &[0]), (1, &[1])],
    },
    // 11 + 3.
    Point {
        calls: 14,
        printed: b"0 0 ok @1\n0 1 ok\n",
        found: b"0 0 value 6200\n0 1 value 78\n0 2 page fill 0000000000000007\n0 3 no volume\n\
            0 4 df clusters 13 of 16 pages 1 of 3\n",
        chains: &[(0, &[0]), (1, &[1])],
    },
    // 14 + 3.
    Point {
        calls: 17,
        printed: b"0 0 ok @1\n0 1 ok\n0 2 ok @2\n",
        found: b"0 0 value 6200\n0 1 value 78\n0 2 page fill 0000000000000007\n0 3 value 6300\n\
            0 4 df clusters 13 of 16 pages 0 of 3\n",
        chains: &[(0, &[0]), (1, &[1]), (2, &[2])],
    },
];

/// A store with a read-only volume `a`, whose first page was written.
fn with_parent(alloc: Global) -> Result<MemDisk, Fail> {
    let script = b"0 create a 1 thin\n0 write a 0 1 7\n0 readonly a\n".as_slice();
    let printed = b"0 0 ok @0\n0 1 ok\n0 2 ok\n".as_slice();
    play(alloc, script, printed, image(alloc, (64, MD_PAGES), &[])?)
}

/// A clone whose head is written and not flushed may be there or not. Its page is clear where it isn't.
#[test]
fn each_crash_leaves_a_clone_whole_or_not_at_all(rt: HostRuntime) -> Result<(), Fail> {
    let alloc = rt.alloc();
    expect_cut(alloc, &CLONES, &with_parent(alloc)?)
}
