//! Thick volumes, volumes that get another number of slots, and how much is clear then.

use crate::formats::expect_new_store;
use page_disk::MemDisk;
use std::alloc::Global;
use std::test::Fail;
use test_runs::{On, TwoRuns, expect_two_runs, play};
use test_stores::{LAST, PageRow, THIN, fill, image, is_zeros};

static CASES: [TwoRuns; 10] = [
    // A thick volume takes its clusters when it is made: all that are clear, but not one more.
    (
        On::Empty,
        b"0 create v 12 thick\n0 df\n0 create v 11 thick\n0 df\n0 create w 1 thick\n0 create w 1 thin\n0 df\n",
        b"0 0 full\n0 1 df clusters 11 of 16 pages 16 of 16\n0 2 ok @0\n0 3 df clusters 0 of 16 pages 15 of 16\n\
            0 4 full\n0 5 ok @1\n0 6 df clusters 0 of 16 pages 14 of 16\n",
        b"0 read v 0 1\n0 read v 43 2\n0 df\n",
        b"0 0 page fill 0000000000000000\n0 1 page fill 0000000000000000\n0 2 out of range\n\
            0 3 df clusters 0 of 16 pages 14 of 16\n",
    ),
    (
        On::Empty,
        b"0 create v 2 thick 5f2b4e66-0d0c-4c1e-9a55-3f0a7c2d9b10\n0 create w 0 thick\n0 df\n",
        b"0 0 ok @0\n0 1 ok @1\n0 2 df clusters 9 of 16 pages 14 of 16\n",
        b"0 getx @0 uuid\n0 getx v name\n0 df\n",
        b"0 0 value 35663262346536362d306430632d346331652d396135352d33663061376332643962313000\n\
            0 1 value 7600\n0 2 df clusters 9 of 16 pages 14 of 16\n",
    ),
    // Where pages and clusters lack, it is the page that is told.
    (
        On::Volume,
        b"0 create y 11 thick\n0 create w 1 thin\n0 create x 1 thin\n0 create y 11 thick\n0 create y 1 thick\n0 df\n",
        b"0 0 full\n0 1 ok @3\n0 2 ok @4\n0 3 no page\n0 4 no page\n0 5 df clusters 10 of 16 pages 0 of 5\n",
        b"0 create y 11 thick\n0 df\n",
        b"0 0 no page\n0 1 df clusters 10 of 16 pages 0 of 5\n",
    ),
    // A thin volume takes no cluster, whatever number of slots it gets.
    (
        On::Empty,
        b"0 create v 3 thin\n0 resize v 0\n0 df\n0 read v 0 1\n0 resize @0 5\n0 df\n",
        b"0 0 ok @0\n0 1 ok\n0 2 df clusters 11 of 16 pages 15 of 16\n0 3 out of range\n0 4 ok\n\
            0 5 df clusters 11 of 16 pages 15 of 16\n",
        b"0 read v 19 2\n0 resize v 5\n0 resize v 12\n0 df\n",
        b"0 0 page fill 0000000000000000\n0 1 out of range\n0 2 ok\n0 3 ok\n\
            0 4 df clusters 11 of 16 pages 15 of 16\n",
    ),
    // A thick one takes a cluster for each slot that is added, and gives back those of the slots that are cut.
    (
        On::Empty,
        b"0 create v 3 thick\n0 df\n0 resize v 0\n0 df\n0 resize v 4\n0 df\n0 resize v 12\n0 resize v 4\n0 df\n\
            0 resize v 11\n0 df\n0 resize v 2\n0 df\n",
        b"0 0 ok @0\n0 1 df clusters 8 of 16 pages 15 of 16\n0 2 ok\n0 3 df clusters 11 of 16 pages 15 of 16\n\
            0 4 ok\n0 5 df clusters 7 of 16 pages 15 of 16\n0 6 full\n0 7 ok\n\
            0 8 df clusters 7 of 16 pages 15 of 16\n0 9 ok\n0 10 df clusters 0 of 16 pages 15 of 16\n\
            0 11 ok\n0 12 df clusters 9 of 16 pages 15 of 16\n",
        b"0 read v 7 2\n0 df\n0 resize v 0\n0 df\n",
        b"0 0 page fill 0000000000000000\n0 1 out of range\n0 2 df clusters 9 of 16 pages 15 of 16\n0 3 ok\n\
            0 4 df clusters 11 of 16 pages 15 of 16\n",
    ),
    // The clusters of slots that are cut are clear for another volume at once.
    (
        On::Empty,
        b"0 create v 8 thick\n0 create w 4 thick\n0 resize v 7\n0 create w 4 thick\n0 df\n",
        b"0 0 ok @0\n0 1 full\n0 2 ok\n0 3 ok @1\n0 4 df clusters 0 of 16 pages 14 of 16\n",
        b"0 read v 27 2\n0 read w 15 2\n",
        b"0 0 page fill 0000000000000000\n0 1 out of range\n0 2 page fill 0000000000000000\n0 3 out of range\n",
    ),
    // What is set and not synced stays pending over a resize.
    (
        On::Empty,
        b"0 create v 1 thin\n0 setx v k t:1\n0 resize v 2\n0 getx v k\n",
        b"0 0 ok @0\n0 1 ok\n0 2 ok\n0 3 value 31\n",
        b"0 getx v k\n0 resize v 1048577\n0 resize v 18446744073709551615\n0 resize v 1048576\n",
        b"0 0 no value\n0 1 too large\n0 2 too large\n0 3 ok\n",
    ),
    // A chain of three pages is written anew, with two pages behind its head.
    (
        On::Volume,
        b"0 resize v 5\n0 df\n0 create w 1 thin\n0 resize v 6\n0 df\n",
        b"0 0 ok\n0 1 df clusters 12 of 16 pages 2 of 5\n0 2 ok @1\n0 3 no page\n\
            0 4 df clusters 12 of 16 pages 1 of 5\n",
        b"0 read v 19 2\n0 resize v 0\n0 df\n",
        b"0 0 page fill 0000000000000000\n0 1 out of range\n0 2 ok\n0 3 df clusters 13 of 16 pages 2 of 5\n",
    ),
    // There is no such volume; the super blob, by its head alone.
    (
        On::Super,
        b"0 resize v 1\n0 resize @1 1048577\n0 resize @0 1048577\n0 create v 1 thick\n0 resize v 2\n",
        b"0 0 no volume\n0 1 no volume\n0 2 reserved\n0 3 ok @1\n0 4 ok\n",
        b"0 resize @0 1\n0 df\n",
        b"0 0 reserved\n0 1 df clusters 9 of 16 pages 14 of 16\n",
    ),
    (
        On::ReadOnly,
        b"0 resize @0 1\n0 resize @0 1048577\n",
        b"0 0 read only\n0 1 read only\n",
        b"0 read @0 0 1\n0 df\n",
        b"0 0 out of range\n0 1 df clusters 11 of 16 pages 15 of 16\n",
    ),
];

#[test]
fn slots_are_given_and_outlast_the_run(rt: HostRuntime) -> Result<(), Fail> {
    for case in &CASES {
        expect_two_runs(rt.alloc(), case)?;
    }
    Ok(())
}

/// A map of 2^20 empty slots, and one of a slot less.
const MOST: &[u8] = b"\x01\x08\0\0\0\0\0\0\0\0\0\x10\0";

const ONE_LESS: &[u8] = b"\x01\x08\0\0\0\0\0\0\0\xFF\xFF\x0F\0";

/// A store of 17 metadata pages, whose sixteen thin blobs have together a slot less than there may be, 2^24.
fn nearly_most(alloc: Global) -> Result<MemDisk, Fail> {
    let mut rows: Vec<PageRow> = Vec::new(alloc);
    for place in 0..16 {
        let parts: &'static [&'static [u8]] = if place == 0 {
            &[THIN, ONE_LESS]
        } else {
            &[THIN, MOST]
        };
        rows.push((place, place, 0, LAST, parts))?;
    }
    image(alloc, (64, 17), &rows)
}

const TOO_LARGE: &[u8] =
    b"0 create q 2 thin\n0 create q 1 thin\n0 resize q 2\n0 resize @0 1048576\n\
    0 resize @1 1048575\n0 resize q 2\n0 resize q 3\n";

const TOLD: &[u8] =
    b"0 0 too large\n0 1 ok @16\n0 2 too large\n0 3 too large\n0 4 ok\n0 5 ok\n0 6 too large\n";

#[test]
fn slots_together_have_a_limit(rt: HostRuntime) -> Result<(), Fail> {
    play(rt.alloc(), TOO_LARGE, TOLD, nearly_most(rt.alloc())?)?;
    Ok(())
}

/// A device that has other bytes than zeros in each page.
fn used(alloc: Global) -> Result<MemDisk, Fail> {
    let mut disk = MemDisk::new(alloc, 64, 256)?;
    fill(&mut disk, 0, 64)?;
    Ok(disk)
}

/// A thick volume of two slots on such a device, with a new store.
fn with_thick(alloc: Global) -> Result<MemDisk, Fail> {
    let disk = expect_new_store(alloc, used(alloc)?)?;
    play(alloc, b"0 create v 2 thick\n", b"0 0 ok @0\n", disk)
}

/// Pages of the volume, and what is read of them.
const LOOK: &[u8] = b"0 read v 0 2\n0 read v 6 3\n";

const ZEROS: &[u8] = b"0 0 page fill 0000000000000000\n0 1 page fill 0000000000000000\n\
    0 2 page fill 0000000000000000\n0 3 page fill 0000000000000000\n0 4 out of range\n";

/// The first two clusters that aren't fixed, the pages 20 to 27, are those of the volume.
#[test]
fn claimed_clusters_are_zeroed(rt: HostRuntime) -> Result<(), Fail> {
    let mut disk = play(rt.alloc(), LOOK, ZEROS, with_thick(rt.alloc())?)?;
    for at in 20..32 {
        assert_eq!(rt; is_zeros(&mut disk, at)?, at < 28);
    }
    Ok(())
}
