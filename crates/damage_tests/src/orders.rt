//! Faults of different kinds in one image, of which the first is told: the super block's; by heads upwards a chain's
//! and then its metadata's; then those of parents, and then those of clusters.

use crate::images::{ID, Image, LAST, MdRow, SMALL};
use crate::loads::expect;
use crate::parts::{Part, THICK, THIN};
use crate::super_blocks::Words;
use std::test::Fail;

/// Words of the super block, metadata pages, and the fault.
type Row = (Words, &'static [MdRow], &'static str);

/// Descriptors of metadata with a fault.
const UNKNOWN_FLAG: Part = Part::Flags([4, 0, 0]);

static CASES: [Row; 9] = [
    // The super block before a chain.
    (
        &[(32, 0)],
        &[(0, ID, 0, 16, &[THIN])],
        "Super(Overlap { a: SuperPage, b: PageMask })",
    ),
    // A chain before the metadata of its head, whichever of its pages breaks it.
    (
        &[],
        &[(0, ID, 0, 16, &[UNKNOWN_FLAG])],
        "Chain { head: 0, fault: LinkPastEnd { page: 0, next: 16 } }",
    ),
    (
        &[],
        &[
            (0, ID, 0, 3, &[UNKNOWN_FLAG]),
            (3, ID, 1, LAST, &[Part::Runs(&[])]),
        ],
        "Chain { head: 0, fault: BadItem { page: 3, at: 0, kind: 1 } }",
    ),
    // The metadata of a head before the chain of a later one.
    (
        &[],
        &[
            (1, ID + 1, 0, 16, &[THIN]),
            (0, ID, 0, LAST, &[UNKNOWN_FLAG]),
        ],
        "Meta { head: 0, fault: UnknownFlag { bits: 4 } }",
    ),
    // Chains and metadata of any head before parents.
    (
        &[],
        &[
            (0, ID, 0, LAST, &[THIN, Part::Mark(b"SNAP", ID + 9)]),
            (1, ID + 1, 0, 16, &[THIN]),
        ],
        "Chain { head: 1, fault: LinkPastEnd { page: 1, next: 16 } }",
    ),
    (
        &[],
        &[
            (2, ID + 2, 0, LAST, &[THIN, Part::Mark(b"SNAP", ID + 9)]),
            (4, ID + 4, 0, LAST, &[THICK, Part::Runs(&[(4, 2)])]),
        ],
        "Meta { head: 4, fault: ClusterOutside { cluster: 4 } }",
    ),
    // Also those of a blob that recovery would remove.
    (
        &[],
        &[
            (0, ID, 0, LAST, &[THIN, Part::Mark(b"SNAP", ID + 9)]),
            (
                2,
                ID + 2,
                0,
                LAST,
                &[THIN, Part::Mark(b"SNAPTMP", ID + 9), Part::Runs(&[(16, 1)])],
            ),
        ],
        "Meta { head: 2, fault: ClusterOutside { cluster: 16 } }",
    ),
    // Parents before clusters.
    (
        &[],
        &[
            (1, ID + 1, 0, LAST, &[THICK, Part::Runs(&[(5, 4)])]),
            (4, ID + 4, 0, LAST, &[THICK, Part::Runs(&[(7, 4)])]),
            (9, ID + 9, 0, LAST, &[THIN, Part::Mark(b"SNAP", ID + 1)]),
        ],
        "WritableParent { blob: 9, parent: 1 }",
    ),
    (
        &[],
        &[
            (
                1,
                ID + 1,
                0,
                LAST,
                &[Part::Flags([0, 1, 0]), Part::Runs(&[(5, 4), (5, 4)])],
            ),
            (
                9,
                ID + 9,
                0,
                LAST,
                &[Part::Flags([1, 1, 0]), Part::Mark(b"SNAP", ID + 9)],
            ),
        ],
        "ParentLoop { blob: 9 }",
    ),
];

#[test]
fn the_first_fault_of_an_image_is_told(rt: HostRuntime) -> Result<(), Fail> {
    for (words, rows, wanted) in &CASES {
        let image = Image {
            words,
            rows,
            ..SMALL
        };
        expect(rt.alloc(), &image, wanted)?;
    }
    Ok(())
}
