//! Volumes that are renamed, and power that fails at each call of the device.

use crate::points::{Cut, Point, expect_cut};
use page_disk::MemDisk;
use std::alloc::Global;
use std::test::Fail;
use test_runs::play;
use test_stores::image;

/// The script, and a look at what it leaves.
static RENAMES: Cut = Cut {
    script: b"0 rename v w\n0 rename w v\n",
    look: b"0 getx @0 name\n0 getx v k\n0 getx w k\n0 df\n",
    points: POINTS,
    calls: 20,
};

/// The metadata pages of the store, just enough. With them clusters 0 and 1 are fixed.
const MD_PAGES: u32 = 2;

/// Before the commands, and after each. Loading reads the super block, three masks, and a chain of one page. No
/// command has a fresh page behind its head: it flushes, writes the head, and flushes. Before that the first one marks
/// the store as in use, in three calls. Behind the second one the unload makes six: 14 + 6.
const POINTS: &[Point] = &[
    Point {
        calls: 0,
        printed: b"",
        found: b"0 0 value 7600\n0 1 value 31\n0 2 no volume\n0 3 df clusters 14 of 16 pages 1 of 2\n",
        chains: &[(0, &[0])],
    },
    // 5 + 3 + 3.
    Point {
        calls: 11,
        printed: b"0 0 ok\n",
        found: b"0 0 value 7700\n0 1 no volume\n0 2 value 31\n0 3 df clusters 14 of 16 pages 1 of 2\n",
        chains: &[(0, &[0])],
    },
    // 11 + 3.
    Point {
        calls: 14,
        printed: b"0 0 ok\n0 1 ok\n",
        found: b"0 0 value 7600\n0 1 value 31\n0 2 no volume\n0 3 df clusters 14 of 16 pages 1 of 2\n",
        chains: &[(0, &[0])],
    },
];

/// A store with a volume `v` that has an attribute.
fn with_volume(alloc: Global) -> Result<MemDisk, Fail> {
    let script = b"0 create v 1 thin\n0 put v k t:1\n".as_slice();
    let printed = b"0 0 ok @0\n0 1 ok\n".as_slice();
    play(alloc, script, printed, image(alloc, (64, MD_PAGES), &[])?)
}

/// A volume whose head is written and not flushed has the one name or the other.
#[test]
fn each_crash_leaves_the_old_name_or_the_new(rt: HostRuntime) -> Result<(), Fail> {
    let alloc = rt.alloc();
    expect_cut(alloc, &RENAMES, &with_volume(alloc)?)
}
