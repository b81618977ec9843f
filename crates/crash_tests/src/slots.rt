//! Thick volumes that are made, grow and shrink, and power that fails at each call of the device.

use crate::points::{Cut, Point, expect_cut};
use page_disk::MemDisk;
use std::alloc::Global;
use std::test::Fail;
use test_lines::push_long;
use test_runs::play;
use test_stores::{fill, image};

/// A thick volume is made, grows and shrinks, and is looked at from the last page of each slot.
static THICK: Cut = Cut {
    script: b"0 create a 2 thick\n0 resize a 3\n0 resize a 1\n",
    look: b"0 read a 3 2\n0 read a 7 2\n0 read a 11 2\n0 df\n",
    points: THICK_POINTS,
    calls: 34,
};

/// With two metadata pages clusters 0 and 1 are fixed. Loading reads the super block, a page that is no mask, and two
/// metadata pages. A command zeroes the four pages of each cluster that it claims; no page is fresh behind its head: it
/// flushes, writes the head, and flushes. The first one begins with three calls that mark the store as in use, before
/// it zeroes a page.
const THICK_POINTS: &[Point] = &[
    Point {
        calls: 0,
        printed: b"",
        found: b"0 0 no volume\n0 1 no volume\n0 2 no volume\n0 3 no volume\n0 4 no volume\n0 5 no volume\n\
            0 6 df clusters 14 of 16 pages 2 of 2\n",
        chains: &[],
    },
    // Two clusters: 4 + 3 + 8 + 3.
    Point {
        calls: 18,
        printed: b"0 0 ok @0\n",
        found: b"0 0 page fill 0000000000000000\n0 1 page fill 0000000000000000\n\
            0 2 page fill 0000000000000000\n0 3 out of range\n0 4 out of range\n0 5 out of range\n\
            0 6 df clusters 12 of 16 pages 1 of 2\n",
        chains: &[(0, &[0])],
    },
    // A cluster more: 18 + 4 + 3.
    Point {
        calls: 25,
        printed: b"0 0 ok @0\n0 1 ok\n",
        found: b"0 0 page fill 0000000000000000\n0 1 page fill 0000000000000000\n\
            0 2 page fill 0000000000000000\n0 3 page fill 0000000000000000\n\
            0 4 page fill 0000000000000000\n0 5 out of range\n0 6 df clusters 11 of 16 pages 1 of 2\n",
        chains: &[(0, &[0])],
    },
    // Two less: 25 + 3. Then the unload: 28 + 6.
    Point {
        calls: 28,
        printed: b"0 0 ok @0\n0 1 ok\n0 2 ok\n",
        found: b"0 0 page fill 0000000000000000\n0 1 out of range\n0 2 out of range\n0 3 out of range\n\
            0 4 out of range\n0 5 out of range\n0 6 df clusters 13 of 16 pages 1 of 2\n",
        chains: &[(0, &[0])],
    },
];

/// A store of so many metadata pages, where the clusters that are claimed first have other bytes than zeros.
fn used_store(alloc: Global, md_pages: u32) -> Result<MemDisk, Fail> {
    let mut disk = image(alloc, (64, md_pages), &[])?;
    fill(&mut disk, 8, 20)?;
    Ok(disk)
}

/// A cluster that was claimed is clear again where its slot isn't there.
#[test]
fn each_crash_leaves_the_slots_before_or_after(rt: HostRuntime) -> Result<(), Fail> {
    let alloc = rt.alloc();
    expect_cut(alloc, &THICK, &used_store(alloc, 2)?)
}

/// A thick volume with a chain of three pages grows.
static LONG: Cut = Cut {
    script: b"0 resize a 2\n",
    look: b"0 read a 3 2\n0 df\n",
    points: LONG_POINTS,
    calls: 28,
};

/// With five metadata pages clusters 0 to 2 are fixed. Loading reads the super block, three masks and a chain of three
/// pages. The growth marks the store, zeroes four pages and writes two fresh ones, flushes, writes the head, and
/// flushes: 7 + 3 + 4 + 2 + 3. Then it overwrites two old pages, and flushes: 19 + 3. The unload ends the run: 22 + 6.
const LONG_POINTS: &[Point] = &[
    Point {
        calls: 0,
        printed: b"",
        found: b"0 0 page fill 0000000000000000\n0 1 out of range\n0 2 df clusters 12 of 16 pages 2 of 5\n",
        chains: &[(0, &[0, 1, 2])],
    },
    Point {
        calls: 19,
        printed: b"0 0 ok\n",
        found: b"0 0 page fill 0000000000000000\n0 1 page fill 0000000000000000\n\
            0 2 df clusters 11 of 16 pages 2 of 5\n",
        chains: &[(0, &[0, 3, 4])],
    },
];

/// A store whose thick volume of one slot has a chain of three pages.
fn long_chain(alloc: Global) -> Result<MemDisk, Fail> {
    let mut script = Vec::new(alloc);
    script.extend_from_slice(b"0 create a 1 thick\n")?;
    push_long(&mut script, b"0 put a k t:", (b'x', 4062))?;
    play(
        alloc,
        &script,
        b"0 0 ok @0\n0 1 ok\n",
        used_store(alloc, 5)?,
    )
}

#[test]
fn each_crash_leaves_the_long_chain_before_or_after(rt: HostRuntime) -> Result<(), Fail> {
    let alloc = rt.alloc();
    expect_cut(alloc, &LONG, &long_chain(alloc)?)
}
