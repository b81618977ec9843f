//! Pages of volumes that are written: in place, or into a cluster that an empty slot gets.

use crate::device_pages::put_page;
use crate::pages::filled;
use page_disk::{MemDisk, Page};
use std::alloc::Global;
use std::test::Fail;
use test_runs::{On, TwoRuns, expect_two_runs, play};
use test_stores::{LAST, PageRow, READ_ONLY, image};

static CASES: [TwoRuns; 7] = [
    // An empty slot gets a cluster with the first page that is written in it; its other pages read as zeros.
    (
        On::Empty,
        b"0 create v 4 thin\n0 read v 0 1\n0 df\n0 write v 5 1 7\n0 df\n0 read v 4 2\n",
        b"0 0 ok @0\n0 1 page fill 0000000000000000\n0 2 df clusters 11 of 16 pages 15 of 16\n0 3 ok\n\
            0 4 df clusters 10 of 16 pages 15 of 16\n0 5 page fill 0000000000000000\n\
            0 6 page fill 0000000000000007\n",
        b"0 read v 3 5\n0 df\n",
        b"0 0 page fill 0000000000000000\n0 1 page fill 0000000000000000\n0 2 page fill 0000000000000007\n\
            0 3 page fill 0000000000000000\n0 4 page fill 0000000000000000\n\
            0 5 df clusters 10 of 16 pages 15 of 16\n",
    ),
    // The words of a write go on behind the greatest with 0. A page behind the last is told, and the others are done.
    (
        On::Empty,
        b"0 create v 2 thick\n0 write v 5 3 18446744073709551615\n0 df\n0 read v 4 5\n0 write v 8 1 1\n\
            0 write v 7 2 9\n0 read v 7 1\n",
        b"0 0 ok @0\n0 1 ok\n0 2 ok\n0 3 ok\n0 4 df clusters 9 of 16 pages 15 of 16\n\
            0 5 page fill 0000000000000000\n0 6 page fill ffffffffffffffff\n0 7 page fill 0000000000000000\n\
            0 8 page fill 0000000000000001\n0 9 out of range\n0 10 out of range\n0 11 ok\n0 12 out of range\n\
            0 13 page fill 0000000000000009\n",
        b"0 read v 5 4\n",
        b"0 0 page fill ffffffffffffffff\n0 1 page fill 0000000000000000\n0 2 page fill 0000000000000009\n\
            0 3 out of range\n",
    ),
    (
        On::Empty,
        b"0 create v 2 thin\n0 write v 8 1 1\n0 df\n0 write v 5 3 18446744073709551615\n0 df\n0 read v 4 5\n\
            0 write v 7 2 9\n0 read v 7 1\n",
        b"0 0 ok @0\n0 1 out of range\n0 2 df clusters 11 of 16 pages 15 of 16\n0 3 ok\n0 4 ok\n0 5 ok\n\
            0 6 df clusters 10 of 16 pages 15 of 16\n\
            0 7 page fill 0000000000000000\n0 8 page fill ffffffffffffffff\n0 9 page fill 0000000000000000\n\
            0 10 page fill 0000000000000001\n0 11 out of range\n0 12 ok\n0 13 out of range\n\
            0 14 page fill 0000000000000009\n",
        b"0 read v 5 4\n",
        b"0 0 page fill ffffffffffffffff\n0 1 page fill 0000000000000000\n0 2 page fill 0000000000000009\n\
            0 3 out of range\n",
    ),
    // A write over the end of a slot fills both. What a shrink cuts is gone, and its cluster is zeroed for the next.
    (
        On::Empty,
        b"0 create v 4 thin\n0 create w 4 thin\n0 write v 2 4 100\n0 write w 4 1 200\n0 df\n0 read v 2 4\n\
            0 resize v 1\n0 resize v 4\n0 df\n0 read v 3 2\n0 write w 0 1 300\n0 df\n0 read w 0 5\n",
        b"0 0 ok @0\n0 1 ok @1\n0 2 ok\n0 3 ok\n0 4 ok\n0 5 ok\n0 6 ok\n0 7 df clusters 8 of 16 pages 14 of 16\n\
            0 8 page fill 0000000000000064\n0 9 page fill 0000000000000065\n0 10 page fill 0000000000000066\n\
            0 11 page fill 0000000000000067\n0 12 ok\n0 13 ok\n0 14 df clusters 9 of 16 pages 14 of 16\n\
            0 15 page fill 0000000000000065\n0 16 page fill 0000000000000000\n0 17 ok\n\
            0 18 df clusters 8 of 16 pages 14 of 16\n0 19 page fill 000000000000012c\n\
            0 20 page fill 0000000000000000\n0 21 page fill 0000000000000000\n0 22 page fill 0000000000000000\n\
            0 23 page fill 00000000000000c8\n",
        b"0 read v 2 3\n0 read w 0 2\n0 df\n",
        b"0 0 page fill 0000000000000064\n0 1 page fill 0000000000000065\n0 2 page fill 0000000000000000\n\
            0 3 page fill 000000000000012c\n0 4 page fill 0000000000000000\n\
            0 5 df clusters 8 of 16 pages 14 of 16\n",
    ),
    // Where no cluster is clear an empty slot stays empty, until one is given back. Other slots are written still.
    (
        On::Empty,
        b"0 create w 1 thick\n0 create v 12 thin\n0 write v 0 1 1\n0 write v 4 1 2\n0 write v 8 1 3\n\
            0 write v 12 1 4\n0 write v 16 1 5\n0 write v 20 1 6\n0 write v 24 1 7\n0 write v 28 1 8\n\
            0 write v 32 1 9\n0 write v 36 1 10\n0 write v 40 1 11\n0 df\n0 read v 36 1\n0 read v 40 1\n\
            0 write v 1 1 12\n0 resize w 0\n0 write v 40 1 13\n0 df\n0 read v 40 1\n",
        b"0 0 ok @0\n0 1 ok @1\n0 2 ok\n0 3 ok\n0 4 ok\n0 5 ok\n0 6 ok\n0 7 ok\n0 8 ok\n0 9 ok\n0 10 ok\n\
            0 11 ok\n0 12 full\n0 13 df clusters 0 of 16 pages 14 of 16\n0 14 page fill 000000000000000a\n\
            0 15 page fill 0000000000000000\n0 16 ok\n0 17 ok\n0 18 ok\n\
            0 19 df clusters 0 of 16 pages 14 of 16\n0 20 page fill 000000000000000d\n",
        b"0 read v 0 2\n0 read v 4 1\n0 read v 20 1\n0 read v 36 1\n0 read v 40 1\n0 df\n",
        b"0 0 page fill 0000000000000001\n0 1 page fill 000000000000000c\n0 2 page fill 0000000000000002\n\
            0 3 page fill 0000000000000006\n0 4 page fill 000000000000000a\n0 5 page fill 000000000000000d\n\
            0 6 df clusters 0 of 16 pages 14 of 16\n",
    ),
    // There is no such volume; the super blob, by its head alone.
    (
        On::Super,
        b"0 write v 0 1 7\n0 write @9 0 1 7\n0 write @0 0 1 7\n0 create v 1 thin\n0 write v 3 2 7\n0 read v 3 1\n",
        b"0 0 no volume\n0 1 no volume\n0 2 reserved\n0 3 ok @1\n0 4 ok\n0 5 out of range\n\
            0 6 page fill 0000000000000007\n",
        b"0 read @1 3 1\n0 df\n",
        b"0 0 page fill 0000000000000007\n0 1 df clusters 10 of 16 pages 14 of 16\n",
    ),
    // A page that isn't there is told before a volume that is read-only.
    (
        On::ReadOnly,
        b"0 write @0 0 1 7\n",
        b"0 0 out of range\n",
        b"0 read @0 0 1\n0 df\n",
        b"0 0 out of range\n0 1 df clusters 11 of 16 pages 15 of 16\n",
    ),
];

#[test]
fn pages_are_written_and_outlast_the_run(rt: HostRuntime) -> Result<(), Fail> {
    for case in &CASES {
        expect_two_runs(rt.alloc(), case)?;
    }
    Ok(())
}

/// The chain of `v` has three pages, two of them behind its head. An insert takes two pages for it, and none for `w`.
static ON_LONG_CHAIN: [TwoRuns; 3] = [
    (
        On::Volume,
        b"0 df\n0 write v 1 1 7\n0 df\n0 read v 0 2\n",
        b"0 0 df clusters 10 of 16 pages 2 of 5\n0 1 ok\n0 2 df clusters 9 of 16 pages 2 of 5\n\
            0 3 page fill 0000000000000000\n0 4 page fill 0000000000000007\n",
        b"0 read v 1 1\n0 df\n",
        b"0 0 page fill 0000000000000007\n0 1 df clusters 9 of 16 pages 2 of 5\n",
    ),
    // Where a page lacks, the claimed cluster is clear again, and the slot is empty still.
    (
        On::Volume,
        b"0 create w 1 thin\n0 df\n0 write v 1 1 7\n0 df\n0 read v 1 1\n0 write v 16 1 9\n0 read v 16 1\n\
            0 write w 0 1 5\n0 df\n",
        b"0 0 ok @3\n0 1 df clusters 10 of 16 pages 1 of 5\n0 2 no page\n0 3 df clusters 10 of 16 pages 1 of 5\n\
            0 4 page fill 0000000000000000\n0 5 ok\n0 6 page fill 0000000000000009\n0 7 ok\n\
            0 8 df clusters 9 of 16 pages 1 of 5\n",
        b"0 read v 1 1\n0 read v 16 1\n0 read w 0 1\n0 df\n",
        b"0 0 page fill 0000000000000000\n0 1 page fill 0000000000000009\n0 2 page fill 0000000000000005\n\
            0 3 df clusters 9 of 16 pages 1 of 5\n",
    ),
    // The cluster is claimed before the pages are.
    (
        On::Volume,
        b"0 create w 10 thick\n0 write v 1 1 7\n0 df\n",
        b"0 0 ok @3\n0 1 full\n0 2 df clusters 0 of 16 pages 1 of 5\n",
        b"0 read v 1 1\n",
        b"0 0 page fill 0000000000000000\n",
    ),
];

#[test]
fn a_slot_is_filled_where_its_chain_has_pages(rt: HostRuntime) -> Result<(), Fail> {
    for case in &ON_LONG_CHAIN {
        expect_two_runs(rt.alloc(), case)?;
    }
    Ok(())
}

/// The flags of a thin blob whose data is read-only.
const THIN_READ_ONLY: &[u8] = b"\x03\x18\0\0\0\x01\0\0\0\0\0\0\0\x01\0\0\0\0\0\0\0\0\0\0\0\0\0\0\0";

/// A map of the cluster 7, and one of an empty slot.
const FILLED: &[u8] = b"\x01\x08\0\0\0\x07\0\0\0\x01\0\0\0";

const EMPTY: &[u8] = b"\x01\x08\0\0\0\0\0\0\0\x01\0\0\0";

static READ_ONLY_ROWS: [PageRow; 2] = [
    (0, 0, 0, LAST, &[READ_ONLY, FILLED]),
    (1, 1, 0, LAST, &[THIN_READ_ONLY, EMPTY]),
];

const REFUSED: &[u8] =
    b"0 write @0 3 2 7\n0 read @0 3 1\n0 write @1 0 1 7\n0 write @1 4 1 7\n0 read @1 0 1\n0 df\n";

const REFUSALS: &[u8] =
    b"0 0 read only\n0 1 out of range\n0 2 page fill 0000000000000000\n0 3 read only\n\
    0 4 out of range\n0 5 page fill 0000000000000000\n0 6 df clusters 10 of 16 pages 14 of 16\n";

#[test]
fn a_read_only_volume_is_not_written(rt: HostRuntime) -> Result<(), Fail> {
    let disk = image(rt.alloc(), (64, 16), &READ_ONLY_ROWS)?;
    play(rt.alloc(), REFUSED, REFUSALS, disk)?;
    Ok(())
}

/// The word 7 in 511 copies, and one that differs in its last byte: the CRC-32C of the page is 2b7b57a6.
fn almost_filled() -> Page {
    let mut page = filled(7);
    page[4095] = 1;
    page
}

/// A store whose thick volume `v` has the cluster 5, of which the third page is no word repeated.
fn with_odd_page(alloc: Global) -> Result<MemDisk, Fail> {
    let new = image(alloc, (64, 16), &[])?;
    let mut disk = play(alloc, b"0 create v 1 thick\n", b"0 0 ok @0\n", new)?;
    put_page(&mut disk, 22, &almost_filled())?;
    Ok(disk)
}

const AROUND_ODD: &[u8] =
    b"0 read v 2 1\n0 write v 1 1 9\n0 write v 3 1 9\n0 read v 1 3\n0 write v 2 1 9\n0 read v 2 1\n";

const TOLD: &[u8] = b"0 0 page crc 2b7b57a6\n0 1 ok\n0 2 ok\n0 3 page fill 0000000000000009\n\
    0 4 page crc 2b7b57a6\n0 5 page fill 0000000000000009\n0 6 ok\n0 7 page fill 0000000000000009\n";

#[test]
fn a_page_is_told_by_its_checksum_until_a_word_fills_it(rt: HostRuntime) -> Result<(), Fail> {
    play(rt.alloc(), AROUND_ODD, TOLD, with_odd_page(rt.alloc())?)?;
    Ok(())
}
