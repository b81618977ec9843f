//! Maps that are too large together.

use crate::images::{ID, Image, LAST, MdRow, SMALL};
use crate::loads::expect_reads;
use crate::parts::{Part, THIN};
use std::alloc::Global;
use std::test::Fail;

/// Runs of 2^20 empty slots, and of one.
const MILLION: Part = Part::Runs(&[(0, 1 << 20)]);

const HOLE: Part = Part::Runs(&[(0, 1)]);

/// A thin blob of 2^20 empty slots.
const LARGE: &[Part] = &[THIN, MILLION];

/// What stands behind 16 thin blobs of 2^20 empty slots, and what comes of loading them all.
type Row = (&'static [MdRow], &'static str);

static CASES: [Row; 8] = [
    // Together they have 2^24 slots, and blobs without slots add none.
    (&[], "loaded"),
    (&[(20, ID + 20, 0, LAST, &[THIN])], "loaded"),
    // The slots up to the first head with which they are too many.
    (
        &[
            (16, ID + 16, 0, LAST, &[THIN, HOLE]),
            (17, ID + 17, 0, LAST, &[THIN, HOLE]),
        ],
        "MapsTooLarge { slots: 16777217 }",
    ),
    (
        &[
            (16, ID + 16, 0, LAST, &[THIN]),
            (31, ID + 31, 0, LAST, &[THIN, MILLION]),
        ],
        "MapsTooLarge { slots: 17825792 }",
    ),
    // A blob that recovery would remove has its slots too.
    (
        &[(
            16,
            ID + 16,
            0,
            LAST,
            &[THIN, Part::Mark(b"SNAPTMP", ID + 9), HOLE],
        )],
        "MapsTooLarge { slots: 16777217 }",
    ),
    // Before the chain of a later head and before parents, but behind the metadata of its own head.
    (
        &[
            (16, ID + 16, 0, LAST, &[THIN, HOLE]),
            (17, ID + 17, 0, 32, &[THIN]),
        ],
        "MapsTooLarge { slots: 16777217 }",
    ),
    (
        &[(
            16,
            ID + 16,
            0,
            LAST,
            &[THIN, Part::Mark(b"SNAP", ID + 30), HOLE],
        )],
        "MapsTooLarge { slots: 16777217 }",
    ),
    (
        &[(16, ID + 16, 0, LAST, &[THIN, MILLION, HOLE])],
        "Meta { head: 16, fault: TooLarge { slots: 1048577 } }",
    ),
];

/// Expects what comes of 16 blobs of 2^20 empty slots and of others, in a store of 32 metadata pages.
fn expect_beside(alloc: Global, others: &[MdRow], wanted: &str) -> Result<(), Fail> {
    let mut rows: Vec<MdRow> = Vec::new(alloc);
    for head in 0..16 {
        rows.push((head, ID + u64::from(head), 0, LAST, LARGE))?;
    }
    rows.extend_from_slice(others)?;
    let image = Image {
        words: &[(52, 32)],
        rows: &rows,
        ..SMALL
    };
    expect_reads(alloc, &image, wanted, 1 + 3 + 4 * 32)
}

#[test]
fn maps_may_have_2_to_the_24_slots_together(rt: HostRuntime) -> Result<(), Fail> {
    for (others, wanted) in &CASES {
        expect_beside(rt.alloc(), others, wanted)?;
    }
    Ok(())
}
