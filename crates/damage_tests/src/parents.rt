//! Blobs with parents that they can't have, and families that look wrong and aren't.

use crate::images::ID;
use crate::loads::{Blob, expect_blobs};
use crate::parts::{Part, READ_ONLY, THICK, THIN};
use std::test::Fail;

/// Blobs without slots, and what comes of loading them.
type Row = (&'static [Blob], &'static str);

/// A parent at place 0, 1, 2 or 9.
const SNAP_0: Part = Part::Mark(b"SNAP", ID);

const SNAP_1: Part = Part::Mark(b"SNAP", ID + 1);

const SNAP_2: Part = Part::Mark(b"SNAP", ID + 2);

const SNAP_9: Part = Part::Mark(b"SNAP", ID + 9);

/// Parents that aren't there, are writable, or come back.
static FAULTS: [Row; 21] = [
    // No blob has the id: the least, the greatest, those around the ids of places, and that of a place without a head.
    (
        &[(6, &[THICK, Part::Mark(b"SNAP", 0)])],
        "NoParentBlob { blob: 6, parent: 0 }",
    ),
    (
        &[(6, &[THICK, Part::Mark(b"SNAP", 1)]), (1, &[READ_ONLY])],
        "NoParentBlob { blob: 6, parent: 1 }",
    ),
    (
        &[(0, &[THIN, Part::Mark(b"SNAP", u64::MAX)])],
        "NoParentBlob { blob: 0, parent: 18446744073709551615 }",
    ),
    (
        &[(1, &[THIN, Part::Mark(b"SNAP", ID - 1)])],
        "NoParentBlob { blob: 1, parent: 4294967295 }",
    ),
    (
        &[(0, &[THIN, Part::Mark(b"SNAP", ID + 16)])],
        "NoParentBlob { blob: 0, parent: 4294967312 }",
    ),
    (
        &[(0, &[READ_ONLY]), (1, &[THIN, Part::Mark(b"SNAP", 2 * ID)])],
        "NoParentBlob { blob: 1, parent: 8589934592 }",
    ),
    (
        &[(15, &[THIN, SNAP_9])],
        "NoParentBlob { blob: 15, parent: 4294967305 }",
    ),
    // The parent can be written: itself, another blob, and one whose metadata alone has bits, which say how to clear.
    (
        &[(1, &[THIN, SNAP_1])],
        "WritableParent { blob: 1, parent: 1 }",
    ),
    (
        &[(0, &[THIN, SNAP_2]), (2, &[THICK])],
        "WritableParent { blob: 0, parent: 2 }",
    ),
    (
        &[(0, &[Part::Flags([1, 0, 3])]), (2, &[THIN, SNAP_0])],
        "WritableParent { blob: 2, parent: 0 }",
    ),
    // Parents come back to the blob itself, by one other and by two, and to others.
    (&[(1, &[READ_ONLY, SNAP_1])], "ParentLoop { blob: 1 }"),
    (
        &[(0, &[READ_ONLY, SNAP_1]), (1, &[READ_ONLY, SNAP_0])],
        "ParentLoop { blob: 0 }",
    ),
    (
        &[
            (0, &[READ_ONLY, SNAP_2]),
            (1, &[READ_ONLY, SNAP_0]),
            (2, &[READ_ONLY, SNAP_1]),
        ],
        "ParentLoop { blob: 0 }",
    ),
    (
        &[
            (0, &[THIN, SNAP_1]),
            (1, &[READ_ONLY, SNAP_2]),
            (2, &[READ_ONLY, SNAP_1]),
        ],
        "ParentLoop { blob: 0 }",
    ),
    // Of two heads the lower one is told, whichever test it fails.
    (
        &[(0, &[THIN, SNAP_1]), (1, &[THIN, SNAP_9])],
        "WritableParent { blob: 0, parent: 1 }",
    ),
    (
        &[
            (0, &[READ_ONLY, SNAP_1]),
            (1, &[READ_ONLY, SNAP_0]),
            (2, &[THIN, SNAP_9]),
        ],
        "ParentLoop { blob: 0 }",
    ),
    (
        &[
            (0, &[READ_ONLY, SNAP_1]),
            (1, &[READ_ONLY, SNAP_2]),
            (2, &[THIN, SNAP_1]),
        ],
        "ParentLoop { blob: 0 }",
    ),
    // A parent that shows a fault is right itself: that fault is told at its own head.
    (
        &[(0, &[THIN, SNAP_1]), (1, &[READ_ONLY, SNAP_9])],
        "NoParentBlob { blob: 1, parent: 4294967305 }",
    ),
    // Of one head the first test is told: parents that can be written also come back.
    (
        &[(0, &[THIN, SNAP_1]), (1, &[THIN, SNAP_0])],
        "WritableParent { blob: 0, parent: 1 }",
    ),
    // What recovery removes is no parent.
    (
        &[
            (0, &[READ_ONLY, Part::Mark(b"SNAPTMP", ID + 1)]),
            (2, &[THIN, SNAP_0]),
        ],
        "NoParentBlob { blob: 2, parent: 4294967296 }",
    ),
    (
        &[
            (0, &[READ_ONLY, Part::Mark(b"SNAPRM", ID + 9)]),
            (2, &[THIN, SNAP_0]),
        ],
        "NoParentBlob { blob: 2, parent: 4294967296 }",
    ),
];

/// Families without a fault.
static FAMILIES: [&[Blob]; 7] = [
    // A line of parents, and two blobs over one.
    &[
        (0, &[READ_ONLY]),
        (1, &[READ_ONLY, SNAP_0]),
        (2, &[THIN, SNAP_1]),
        (3, &[THIN, SNAP_1]),
    ],
    // A blob may be thick, and lie below its parent's head.
    &[(0, &[THICK, SNAP_9]), (9, &[READ_ONLY])],
    // An unknown bit of one of the last two words makes a blob read-only.
    &[(0, &[Part::Flags([1, 2, 0])]), (1, &[THIN, SNAP_0])],
    &[(0, &[Part::Flags([1, 0, 4])]), (1, &[THIN, SNAP_0])],
    // Recovery makes the blob that it keeps read-only;
    &[
        (0, &[THIN, Part::Mark(b"SNAPTMP", ID + 1)]),
        (1, &[THIN, SNAP_0]),
    ],
    // and of the two marks that of a delete counts.
    &[
        (
            0,
            &[
                THIN,
                Part::Mark(b"SNAPTMP", ID + 9),
                Part::Mark(b"SNAPRM", ID + 1),
            ],
        ),
        (1, &[THIN, SNAP_0]),
    ],
    // What it removes needs no parent.
    &[(
        0,
        &[
            THIN,
            Part::Mark(b"SNAPTMP", ID + 1),
            Part::Mark(b"SNAP", ID + 9),
        ],
    )],
];

#[test]
fn each_wrong_parent_is_told(rt: HostRuntime) -> Result<(), Fail> {
    for (blobs, wanted) in &FAULTS {
        expect_blobs(rt.alloc(), blobs, wanted)?;
    }
    Ok(())
}

#[test]
fn families_without_a_fault_are_loaded(rt: HostRuntime) -> Result<(), Fail> {
    for blobs in &FAMILIES {
        expect_blobs(rt.alloc(), blobs, "loaded")?;
    }
    Ok(())
}
