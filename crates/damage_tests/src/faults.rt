//! Each fault of an image, with its numbers and the text by which it is told.

use crate::images::{ID, Image, LAST, MdRow, SMALL, device};
use crate::loads::loaded;
use crate::parts::{Part, READ_ONLY, THICK, THIN};
use page_disk::{CallKind, Fail, FaultDisk, MemDisk};
use std::alloc::Global;
use std::test::Fail as TestFail;
use unclean_load::LoadFault;

/// A head at place 0 that links to place 3, and the page there.
const TO_3: MdRow = (0, ID, 0, 3, &[THIN]);

const SECOND: MdRow = (3, ID, 1, LAST, &[]);

/// A thin blob of 2^20 empty slots.
const LARGE: &[Part] = &[THIN, Part::Runs(&[(0, 1 << 20)])];

/// An image, its fault, and the text of that.
pub(crate) type Case = (Image<'static>, &'static str, &'static str);

pub(crate) static CASES: [Case; 19] = [
    (
        Image {
            words: &[(0, 0)],
            ..SMALL
        },
        "Super(BadSignature)",
        "super block: the signature isn't SPDKBLOB",
    ),
    (
        Image {
            rows: &[TO_3, (3, ID, 1, 0, &[])],
            ..SMALL
        },
        "Chain { head: 0, fault: Loop { page: 0 } }",
        "blob at page 0: page 0 is in the chain already",
    ),
    (
        Image {
            rows: &[(7, ID + 7, 0, LAST, &[THIN, Part::Runs(&[])])],
            ..SMALL
        },
        "Chain { head: 7, fault: BadItem { page: 7, at: 29, kind: 1 } }",
        "blob at page 7: page 7 has a bad descriptor of type 1 at byte 29",
    ),
    (
        Image {
            rows: &[(0, ID, 0, 16, &[THIN])],
            ..SMALL
        },
        "Chain { head: 0, fault: LinkPastEnd { page: 0, next: 16 } }",
        "blob at page 0: page 0 links to 16, past the metadata region's end",
    ),
    (
        Image {
            rows: &[TO_3, (1, ID + 1, 0, 3, &[THIN]), SECOND],
            ..SMALL
        },
        "Chain { head: 1, fault: WrongId { page: 3, found: 4294967296 } }",
        "blob at page 1: page 3 is of the blob with id 0x100000000",
    ),
    (
        Image {
            rows: &[TO_3, (3, ID, 2, LAST, &[])],
            ..SMALL
        },
        "Chain { head: 0, fault: WrongSequence { page: 3, found: 2, wanted: 1 } }",
        "blob at page 0: page 3 has sequence 2 where 1 is wanted",
    ),
    (
        Image {
            rows: &[TO_3, SECOND],
            turned: &[(7, 100)],
            ..SMALL
        },
        "Chain { head: 0, fault: Unsound { page: 3 } }",
        "blob at page 0: the checksum of page 3 is wrong",
    ),
    (
        Image {
            rows: &[(0, ID, 0, LAST, &[THIN, Part::Runs(&[(4, 1)])])],
            ..SMALL
        },
        "Meta { head: 0, fault: ClusterOutside { cluster: 4 } }",
        "blob at page 0: cluster 4 is not one that a blob may have",
    ),
    (
        Image {
            rows: &[(0, ID, 0, LAST, &[THIN, Part::Runs(&[(15, 2)])])],
            ..SMALL
        },
        "Meta { head: 0, fault: ClusterOutside { cluster: 16 } }",
        "blob at page 0: cluster 16 is not one that a blob may have",
    ),
    (
        Image {
            rows: &[(
                0,
                ID,
                0,
                LAST,
                &[THIN, Part::Runs(&[(0, u32::MAX), (0, u32::MAX)])],
            )],
            ..SMALL
        },
        "Meta { head: 0, fault: TooLarge { slots: 8589934590 } }",
        "blob at page 0: 8589934590 slots where at most 1048576 are possible",
    ),
    (
        Image {
            rows: &[(0, ID, 0, LAST, &[THICK, Part::Runs(&[(5, 1), (0, 1)])])],
            ..SMALL
        },
        "Meta { head: 0, fault: HoleInThick { slot: 1 } }",
        "blob at page 0: slot 1 of a thick blob is empty",
    ),
    (
        Image {
            rows: &[(0, ID, 0, LAST, &[Part::Flags([33, 0, 0])])],
            ..SMALL
        },
        "Meta { head: 0, fault: UnknownFlag { bits: 32 } }",
        "blob at page 0: unknown flags 0x20",
    ),
    (
        Image {
            rows: &[(0, ID, 0, LAST, &[THIN, Part::Internal(b"SNAPTMP", &[0; 4])])],
            ..SMALL
        },
        "Meta { head: 0, fault: BadMark { key: Blobtext { bytes: [83, 78, 65, 80, 84, 77, 80] }, length: 4 } }",
        "blob at page 0: a mark of 4 bytes where 8 are wanted",
    ),
    (
        Image {
            rows: &[(0, ID, 0, LAST, &[THIN, Part::Mark(b"SNAP", ID + 9)])],
            ..SMALL
        },
        "NoParentBlob { blob: 0, parent: 4294967305 }",
        "blob at page 0: no blob has the id 0x100000009 of its parent",
    ),
    (
        Image {
            rows: &[(0, ID, 0, LAST, &[THIN, Part::Mark(b"SNAP", ID)])],
            ..SMALL
        },
        "WritableParent { blob: 0, parent: 0 }",
        "blob at page 0: its parent at page 0 is not read-only",
    ),
    (
        Image {
            rows: &[
                (0, ID, 0, LAST, &[READ_ONLY, Part::Mark(b"SNAP", ID + 1)]),
                (1, ID + 1, 0, LAST, &[READ_ONLY, Part::Mark(b"SNAP", ID)]),
            ],
            ..SMALL
        },
        "ParentLoop { blob: 0 }",
        "blob at page 0: following parents comes back",
    ),
    (
        Image {
            rows: &[
                (0, ID, 0, LAST, &[THIN, Part::Runs(&[(5, 1)])]),
                (1, ID + 1, 0, LAST, &[THIN, Part::Runs(&[(5, 1)])]),
            ],
            ..SMALL
        },
        "Shared { cluster: 5, a: 0, b: 1 }",
        "cluster 5 is in the map of the blob at page 0 and again in that at page 1",
    ),
    (
        Image {
            words: &[(48, 0)],
            ..SMALL
        },
        "Super(Overlap { a: SuperPage, b: Md })",
        "super block: SuperPage and Md overlap, wanted no page in both",
    ),
    (
        Image {
            words: &[(48, u32::MAX)],
            ..SMALL
        },
        "Super(PastEnd { region: Md })",
        "super block: Md ends past the end of the store",
    ),
];

/// A store of 32 metadata pages with 17 blobs of 2^20 empty slots, and its fault and the text of that.
pub(crate) const TOO_LARGE: (&str, &str) = (
    "MapsTooLarge { slots: 17825792 }",
    "maps of 17825792 slots together where at most 16777216 are possible",
);

pub(crate) fn too_large(alloc: Global) -> Result<MemDisk, TestFail> {
    let mut rows: Vec<MdRow> = Vec::new(alloc);
    for head in 0..17 {
        rows.push((head, ID + u64::from(head), 0, LAST, LARGE))?;
    }
    let image = Image {
        words: &[(52, 32)],
        rows: &rows,
        ..SMALL
    };
    device(alloc, &image)
}

/// Expects a text, or fails.
fn expect_text(found: String, wanted: &str) -> Result<(), TestFail> {
    if found.as_str() != wanted {
        return Err(TestFail::new(found));
    }
    Ok(())
}

/// Expects that a device was not loaded for this fault, which is told so.
fn expect_told(
    alloc: Global,
    found: Option<LoadFault>,
    fault: &str,
    text: &str,
) -> Result<(), TestFail> {
    let Some(found) = found else {
        return Err(TestFail::new(format_args!("it is loaded, and not {fault}")));
    };
    expect_text(format!(in alloc; "{found:?}")?, fault)?;
    expect_text(format!(in alloc; "{found}")?, text)
}

fn expect_cases(alloc: Global, cases: &[Case]) -> Result<(), TestFail> {
    for (image, fault, text) in cases {
        let (_disk, found) = loaded(alloc, device(alloc, image)?);
        expect_told(alloc, found, fault, text)?;
    }
    Ok(())
}

#[test]
fn each_fault_of_an_image_is_told_with_its_numbers(rt: HostRuntime) -> Result<(), TestFail> {
    expect_cases(rt.alloc(), &CASES)
}

#[test]
fn maps_that_are_too_large_are_told_with_their_slots(rt: HostRuntime) -> Result<(), TestFail> {
    let (_disk, found) = loaded(rt.alloc(), too_large(rt.alloc())?);
    let (fault, text) = TOO_LARGE;
    expect_told(rt.alloc(), found, fault, text)
}

/// Reads of a load: of the super block, of the first metadata page and of the last one.
const READS: [u64; 3] = [1, 2, 17];

/// The store with which nothing is wrong, of which this read fails.
fn failing(alloc: Global, nth: u64) -> Result<FaultDisk<MemDisk>, TestFail> {
    let fail = Fail {
        kind: CallKind::Read,
        nth,
    };
    Ok(FaultDisk::new(device(alloc, &SMALL)?, vec![in alloc; fail]?))
}

#[test]
fn a_page_that_is_not_read_is_a_fault(rt: HostRuntime) -> Result<(), TestFail> {
    for nth in READS {
        let (_disk, found) = loaded(rt.alloc(), failing(rt.alloc(), nth)?);
        expect_told(rt.alloc(), found, "ReadFault", "a page could not be read")?;
    }
    Ok(())
}
