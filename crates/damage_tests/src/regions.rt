//! Super blocks whose regions end past the store, are too short, or have a page in common.

use crate::images::{Image, SMALL};
use crate::loads::{expect_fault, loaded};
use crate::super_blocks::{MOST, Row, Words, expect_rows, expect_super};
use page_disk::MemDisk;
use std::test::Fail;

/// The store ends on the device, and each region with a whole cluster of it or before.
static ENDS: [Row; 25] = [
    // The size is above the 64 pages of the device by a byte, and by as much as 2^24 clusters hold. With one byte more
    // there is a cluster more, which is told before.
    (&[(80, 262_145)], "PastEnd { region: Whole }"),
    (
        &[(28, 4_294_963_200), (80, 4_294_963_199), (84, 16_777_200)],
        "PastEnd { region: Whole }",
    ),
    (
        &[(28, 4_294_963_200), (80, 4_294_963_200), (84, 16_777_200)],
        "TooManyClusters { found: 16777217 }",
    ),
    // The page mask: where it begins, and how long it is.
    (&[(32, 63)], "loaded"),
    (&[(32, 64)], "PastEnd { region: PageMask }"),
    (&[(32, MOST)], "PastEnd { region: PageMask }"),
    (&[(36, 64)], "PastEnd { region: PageMask }"),
    (&[(36, MOST)], "PastEnd { region: PageMask }"),
    // The cluster mask: where it begins, and how long it is.
    (&[(40, 63)], "loaded"),
    (&[(40, 64)], "PastEnd { region: ClusterMask }"),
    (&[(40, MOST)], "PastEnd { region: ClusterMask }"),
    (&[(44, 63)], "PastEnd { region: ClusterMask }"),
    (&[(44, MOST)], "PastEnd { region: ClusterMask }"),
    // The mask of blobs: where it begins, and how long it is.
    (&[(72, 63)], "loaded"),
    (&[(72, 64)], "PastEnd { region: BlobMask }"),
    (&[(72, MOST)], "PastEnd { region: BlobMask }"),
    (&[(76, 62)], "PastEnd { region: BlobMask }"),
    (&[(76, MOST)], "PastEnd { region: BlobMask }"),
    // The metadata pages.
    (&[(48, 48)], "loaded"),
    (&[(48, 49)], "PastEnd { region: Md }"),
    (&[(52, 61)], "PastEnd { region: Md }"),
    (&[(52, 1_048_576)], "PastEnd { region: Md }"),
    // A size without a whole cluster, and sizes around the end of the metadata pages.
    (&[(80, 1)], "PastEnd { region: PageMask }"),
    (&[(80, 81_919)], "PastEnd { region: Md }"),
    (&[(80, 81_920)], "loaded"),
];

/// A mask has the pages that its bits take, and no page is in two regions.
static MASKS: [Row; 22] = [
    // A mask of 16 bits takes a page.
    (
        &[(36, 0)],
        "ShortMask { region: PageMask, has: 0, wants: 1 }",
    ),
    (
        &[(44, 0)],
        "ShortMask { region: ClusterMask, has: 0, wants: 1 }",
    ),
    (
        &[(76, 0)],
        "ShortMask { region: BlobMask, has: 0, wants: 1 }",
    ),
    // Masks that are longer than they need be, up to the next region and into it.
    (&[(36, 2)], "Overlap { a: PageMask, b: ClusterMask }"),
    (&[(36, 63)], "Overlap { a: PageMask, b: ClusterMask }"),
    (&[(44, 2)], "Overlap { a: ClusterMask, b: BlobMask }"),
    (&[(44, 62)], "Overlap { a: ClusterMask, b: BlobMask }"),
    (&[(76, 2)], "Overlap { a: BlobMask, b: Md }"),
    (&[(76, 61)], "Overlap { a: BlobMask, b: Md }"),
    (&[(48, 5), (76, 2)], "loaded"),
    // Page 0, and masks around the last metadata page.
    (&[(32, 0)], "Overlap { a: SuperPage, b: PageMask }"),
    (&[(40, 0)], "Overlap { a: SuperPage, b: ClusterMask }"),
    (&[(72, 0)], "Overlap { a: SuperPage, b: BlobMask }"),
    (&[(32, 19)], "Overlap { a: PageMask, b: Md }"),
    (&[(32, 20)], "loaded"),
    (&[(40, 19)], "Overlap { a: ClusterMask, b: Md }"),
    (&[(40, 20)], "loaded"),
    (&[(72, 19)], "Overlap { a: BlobMask, b: Md }"),
    (&[(72, 20)], "loaded"),
    // Metadata pages around the masks, and none at all, which share no page.
    (&[(48, 1)], "Overlap { a: PageMask, b: Md }"),
    (&[(48, 3)], "Overlap { a: BlobMask, b: Md }"),
    (&[(48, 3), (52, 0)], "loaded"),
];

/// Devices of other sizes.
static DEVICES: [(u64, Words, &str); 6] = [
    // A size of 0 is that of the device: as many clusters as it can be, and last pages that make no whole cluster.
    (
        u64::MAX,
        &[(28, 4096), (80, 0)],
        "TooManyClusters { found: 18446744073709551615 }",
    ),
    (67, &[(80, 0), (32, 64)], "PastEnd { region: PageMask }"),
    (68, &[(80, 0), (32, 64)], "loaded"),
    // Masks of 2^20 metadata pages take 33 pages, and that of 2^24 clusters takes 513.
    (
        2_097_152,
        &[
            (80, 0),
            (48, 100),
            (52, 1_048_576),
            (40, 40),
            (44, 17),
            (72, 60),
            (36, 32),
            (76, 33),
        ],
        "ShortMask { region: PageMask, has: 32, wants: 33 }",
    ),
    (
        2_097_152,
        &[
            (80, 0),
            (48, 100),
            (52, 1_048_576),
            (40, 40),
            (44, 17),
            (72, 60),
            (36, 33),
            (76, 32),
        ],
        "ShortMask { region: BlobMask, has: 32, wants: 33 }",
    ),
    (
        16_777_216,
        &[(28, 4096), (80, 0), (40, 30), (44, 512)],
        "ShortMask { region: ClusterMask, has: 512, wants: 513 }",
    ),
];

#[test]
fn a_store_and_its_regions_end_on_the_device(rt: HostRuntime) -> Result<(), Fail> {
    expect_rows(rt.alloc(), &ENDS)
}

#[test]
fn masks_have_their_pages_and_no_page_is_in_two_regions(rt: HostRuntime) -> Result<(), Fail> {
    expect_rows(rt.alloc(), &MASKS)
}

#[test]
fn the_size_of_the_device_decides(rt: HostRuntime) -> Result<(), Fail> {
    for (pages, words, wanted) in &DEVICES {
        let image = Image {
            pages: *pages,
            words,
            ..SMALL
        };
        expect_super(rt.alloc(), &image, wanted)?;
    }
    Ok(())
}

#[test]
fn a_device_without_pages_has_no_signature(rt: HostRuntime) -> Result<(), Fail> {
    let (_disk, fault) = loaded(rt.alloc(), MemDisk::new(rt.alloc(), 0, 0)?);
    expect_fault(rt.alloc(), &fault, "Super(BadSignature)")
}
