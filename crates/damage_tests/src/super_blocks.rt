//! Super blocks of which a test fails: tests of single fields, and which of two faults is told.

use crate::images::{Image, SMALL};
use crate::loads::expect;
use std::alloc::Global;
use std::test::Fail;

/// The greatest number of four bytes.
pub(crate) const MOST: u32 = u32::MAX;

/// The words of the super block that are other ones, by their places.
pub(crate) type Words = &'static [(usize, u32)];

/// Such words, and the fault of the super block, or `loaded`.
pub(crate) type Row = (Words, &'static str);

/// Fields that are tested by themselves, at the least and the greatest value that fails, and beside what passes.
static FIELDS: [Row; 21] = [
    // The signature is SPDKBLOB: another first byte, and another last one.
    (&[(0, 0x4B44_5054)], "BadSignature"),
    (&[(4, 0x624F_4C42)], "BadSignature"),
    // The version is 3.
    (&[(8, 0)], "BadVersion { found: 0 }"),
    (&[(8, 2)], "BadVersion { found: 2 }"),
    (&[(8, 4)], "BadVersion { found: 4 }"),
    (&[(8, MOST)], "BadVersion { found: 4294967295 }"),
    // The size of a metadata page is 0 or 4096.
    (&[(92, 1)], "BadPageSize { found: 1 }"),
    (&[(92, 4095)], "BadPageSize { found: 4095 }"),
    (&[(92, 4097)], "BadPageSize { found: 4097 }"),
    (&[(92, MOST)], "BadPageSize { found: 4294967295 }"),
    (&[(92, 4096)], "loaded"),
    // A cluster has a multiple of 4096 bytes above 0.
    (&[(28, 0)], "BadClusterSize { found: 0 }"),
    (&[(28, 4095)], "BadClusterSize { found: 4095 }"),
    (&[(28, 4097)], "BadClusterSize { found: 4097 }"),
    (&[(28, MOST)], "BadClusterSize { found: 4294967295 }"),
    // There are at most 2^20 metadata pages, and at most 2^24 clusters.
    (&[(52, 1_048_577)], "TooManyPages { found: 1048577 }"),
    (&[(52, MOST)], "TooManyPages { found: 4294967295 }"),
    (
        &[(28, 4096), (80, 4096), (84, 16)],
        "TooManyClusters { found: 16777217 }",
    ),
    (
        &[(28, 4096), (80, MOST), (84, MOST)],
        "TooManyClusters { found: 4503599627370495 }",
    ),
    // Length, super blob, type of the store, size of an I/O unit and what stands behind the fields may be anything,
    // and whether the store is clean has no wrong value.
    (&[(12, 0), (20, 0), (24, 0), (88, 0)], "loaded"),
    (
        &[
            (12, MOST),
            (16, MOST),
            (56, MOST),
            (68, MOST),
            (88, MOST),
            (96, MOST),
            (4088, MOST),
        ],
        "loaded",
    ),
];

/// Two tests fail, of which the first is told.
static ORDERS: [Row; 16] = [
    // Signature and version; sizes of a metadata page and of a cluster; size of a cluster and metadata pages;
    // metadata pages and clusters.
    (&[(0, 0x4B44_5054), (8, 2)], "BadSignature"),
    (&[(92, 1), (28, 0)], "BadPageSize { found: 1 }"),
    (&[(28, 0), (52, 1_048_577)], "BadClusterSize { found: 0 }"),
    (
        &[(28, 4096), (52, 1_048_577), (84, 17)],
        "TooManyPages { found: 1048577 }",
    ),
    // Clusters and the end of the store; that and the end of a mask; the ends of two regions.
    (
        &[(28, 4096), (84, 17)],
        "TooManyClusters { found: 17825856 }",
    ),
    (&[(80, 262_145), (32, 64)], "PastEnd { region: Whole }"),
    (&[(32, 64), (40, 64)], "PastEnd { region: PageMask }"),
    (&[(40, 64), (72, 64)], "PastEnd { region: ClusterMask }"),
    (&[(72, 64), (48, 49)], "PastEnd { region: BlobMask }"),
    // An end and a short mask; two short masks; a short mask and a page in two regions.
    (&[(48, 49), (36, 0)], "PastEnd { region: Md }"),
    (
        &[(36, 0), (44, 0)],
        "ShortMask { region: PageMask, has: 0, wants: 1 }",
    ),
    (
        &[(44, 0), (76, 0)],
        "ShortMask { region: ClusterMask, has: 0, wants: 1 }",
    ),
    (
        &[(76, 0), (32, 0)],
        "ShortMask { region: BlobMask, has: 0, wants: 1 }",
    ),
    // Pages in two regions: of page 0, and of each mask in turn.
    (&[(32, 0), (40, 3)], "Overlap { a: SuperPage, b: PageMask }"),
    (
        &[(40, 1), (48, 3)],
        "Overlap { a: PageMask, b: ClusterMask }",
    ),
    (
        &[(40, 19), (72, 19)],
        "Overlap { a: ClusterMask, b: BlobMask }",
    ),
];

/// Bytes of which a bit is turned behind the sum: of the rest and of the sum, at both ends; beside a wrong version,
/// which is told before; and beside a wrong size of a metadata page, which isn't.
static SUMS: [(&[(u64, usize)], Words, &str); 6] = [
    (&[(0, 96)], &[], "BadChecksum"),
    (&[(0, 4091)], &[], "BadChecksum"),
    (&[(0, 4092)], &[], "BadChecksum"),
    (&[(0, 4095)], &[], "BadChecksum"),
    (&[(0, 4092)], &[(8, 2)], "BadVersion { found: 2 }"),
    (&[(0, 4092)], &[(92, 1)], "BadChecksum"),
];

/// Expects this fault of an image's super block, or `loaded`.
pub(crate) fn expect_super(alloc: Global, image: &Image<'_>, wanted: &str) -> Result<(), Fail> {
    if wanted == "loaded" {
        return expect(alloc, image, wanted);
    }
    let wanted = format!(in alloc; "Super({wanted})")?;
    expect(alloc, image, wanted.as_str())
}

/// Expects what comes of each image of a table.
pub(crate) fn expect_rows(alloc: Global, rows: &[Row]) -> Result<(), Fail> {
    for (words, wanted) in rows {
        expect_super(alloc, &Image { words, ..SMALL }, wanted)?;
    }
    Ok(())
}

#[test]
fn each_field_says_what_it_holds(rt: HostRuntime) -> Result<(), Fail> {
    expect_rows(rt.alloc(), &FIELDS)
}

#[test]
fn of_two_tests_the_first_is_told(rt: HostRuntime) -> Result<(), Fail> {
    expect_rows(rt.alloc(), &ORDERS)
}

#[test]
fn a_turned_bit_is_no_sum(rt: HostRuntime) -> Result<(), Fail> {
    for (turned, words, wanted) in &SUMS {
        let image = Image {
            words,
            turned,
            ..SMALL
        };
        expect_super(rt.alloc(), &image, wanted)?;
    }
    Ok(())
}
