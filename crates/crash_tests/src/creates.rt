//! Volumes that are made, and power that fails at each call of the device.

use crate::points::{Cut, Point, expect_cut};
use std::test::Fail;
use test_stores::image;

/// The script, and a look at what it leaves.
static CREATES: Cut = Cut {
    script: b"0 create a 1 thin\n0 put @0 k t:x\n0 create b 2 thin\n",
    look: b"0 getx @0 name\n0 getx @0 k\n0 getx @1 name\n0 df\n",
    points: POINTS,
    calls: 22,
};

/// The metadata pages of the store, just enough. With them clusters 0 and 1 are fixed.
const MD_PAGES: u32 = 2;

/// Before the commands, and after each. Loading reads the super block, a page that is no mask, and two metadata pages.
/// No command has a fresh page behind its head: it flushes, writes the head, and flushes. The first one begins with the
/// mark of a store in use, three calls. The unload behind the last makes six: 16 + 6.
const POINTS: &[Point] = &[
    Point {
        calls: 0,
        printed: b"",
        found: b"0 0 no volume\n0 1 no volume\n0 2 no volume\n0 3 df clusters 14 of 16 pages 2 of 2\n",
        chains: &[],
    },
    // 4 + 3 + 3.
    Point {
        calls: 10,
        printed: b"0 0 ok @0\n",
        found: b"0 0 value 6100\n0 1 no value\n0 2 no volume\n0 3 df clusters 14 of 16 pages 1 of 2\n",
        chains: &[(0, &[0])],
    },
    // 10 + 3.
    Point {
        calls: 13,
        printed: b"0 0 ok @0\n0 1 ok\n",
        found: b"0 0 value 6100\n0 1 value 78\n0 2 no volume\n0 3 df clusters 14 of 16 pages 1 of 2\n",
        chains: &[(0, &[0])],
    },
    // 13 + 3.
    Point {
        calls: 16,
        printed: b"0 0 ok @0\n0 1 ok\n0 2 ok @1\n",
        found: b"0 0 value 6100\n0 1 value 78\n0 2 value 6200\n0 3 df clusters 14 of 16 pages 0 of 2\n",
        chains: &[(0, &[0]), (1, &[1])],
    },
];

/// A volume whose head is written and not flushed may be there or not. Its pages are clear where it isn't.
#[test]
fn each_crash_leaves_the_volumes_before_or_after(rt: HostRuntime) -> Result<(), Fail> {
    let alloc = rt.alloc();
    expect_cut(alloc, &CREATES, &image(alloc, (64, MD_PAGES), &[])?)
}
