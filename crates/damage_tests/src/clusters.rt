//! Clusters that stand in two slots, and clusters that no blob may have.

use crate::images::{ID, Image, LAST, MdRow, SMALL};
use crate::loads::{Blob, expect, expect_blobs};
use crate::parts::{Part, THICK, THIN};
use crate::super_blocks::Words;
use std::test::Fail;

const FIVE: Part = Part::Runs(&[(5, 1)]);

const SEVEN: Part = Part::Runs(&[(7, 1)]);

/// Blobs, and the least cluster that stands in two of their slots, with the heads of the first two: by heads upwards,
/// and then by slots.
static SHARED: [(&[Blob], &str); 10] = [
    (
        &[
            (0, &[THICK, FIVE]),
            (1, &[THICK, FIVE]),
            (2, &[THICK, FIVE]),
        ],
        "Shared { cluster: 5, a: 0, b: 1 }",
    ),
    (
        &[
            (15, &[THICK, Part::Runs(&[(15, 1)])]),
            (3, &[THICK, Part::Runs(&[(15, 1)])]),
        ],
        "Shared { cluster: 15, a: 3, b: 15 }",
    ),
    // In the map of one blob, also where another one has it too.
    (
        &[(2, &[THICK, Part::Runs(&[(5, 2), (6, 1)])])],
        "Shared { cluster: 6, a: 2, b: 2 }",
    ),
    (
        &[(0, &[THICK, FIVE, SEVEN, FIVE]), (1, &[THICK, FIVE])],
        "Shared { cluster: 5, a: 0, b: 0 }",
    ),
    // A greater cluster is shared by lower heads.
    (
        &[
            (0, &[THICK, Part::Runs(&[(8, 1), (8, 1)])]),
            (1, &[THICK, SEVEN]),
            (2, &[THICK, SEVEN]),
        ],
        "Shared { cluster: 7, a: 1, b: 2 }",
    ),
    // The lower head has it in a later slot.
    (
        &[
            (0, &[THIN, Part::Runs(&[(0, 3), (9, 1)])]),
            (1, &[THICK, Part::Runs(&[(9, 1)])]),
        ],
        "Shared { cluster: 9, a: 0, b: 1 }",
    ),
    // Runs that have clusters in common.
    (
        &[
            (1, &[THICK, Part::Runs(&[(5, 4)])]),
            (4, &[THICK, Part::Runs(&[(7, 4)])]),
        ],
        "Shared { cluster: 7, a: 1, b: 4 }",
    ),
    (
        &[
            (0, &[THICK, Part::Runs(&[(5, 11)])]),
            (1, &[THICK, Part::Runs(&[(5, 11)])]),
        ],
        "Shared { cluster: 5, a: 0, b: 1 }",
    ),
    (
        &[
            (0, &[THICK, Part::Runs(&[(5, 5)])]),
            (1, &[THICK, Part::Runs(&[(10, 6)])]),
        ],
        "loaded",
    ),
    // Recovery keeps the blob at place 0, which has the same cluster as the clone that its mark names.
    (
        &[
            (0, &[THIN, Part::Mark(b"SNAPTMP", ID + 1), FIVE]),
            (1, &[THIN, Part::Mark(b"SNAP", ID), FIVE]),
        ],
        "Shared { cluster: 5, a: 0, b: 1 }",
    ),
];

/// Blobs of which recovery removes those with a mark: their clusters are those of other blobs.
static REMOVED: [&[Blob]; 4] = [
    // A snapshot that is being made of the blob at place 0, which isn't yet over it.
    &[
        (0, &[THIN, FIVE]),
        (1, &[THIN, Part::Mark(b"SNAPTMP", ID), FIVE]),
    ],
    // A snapshot that is being deleted, whose clone has its clusters already.
    &[
        (0, &[THIN, Part::Mark(b"SNAPRM", ID + 1), FIVE]),
        (1, &[THIN, FIVE]),
    ],
    // Marks that name no blob, and the blob itself.
    &[
        (0, &[THIN, Part::Mark(b"SNAPTMP", ID + 9), FIVE, FIVE]),
        (1, &[THIN, Part::Mark(b"SNAPRM", ID + 1), FIVE]),
        (2, &[THIN, FIVE]),
    ],
    // Two snapshots of one blob, of which its parent is kept.
    &[
        (0, &[THIN, Part::Mark(b"SNAP", ID + 1), SEVEN]),
        (1, &[THIN, Part::Mark(b"SNAPTMP", ID), FIVE]),
        (2, &[THIN, Part::Mark(b"SNAPTMP", ID), FIVE]),
    ],
];

/// Words of the super block, the descriptors of the head at place 0, and what comes of loading them.
type Row = (Words, &'static [Part], &'static str);

/// The fixed clusters are those up to the end of the last region, and others are up to the last whole cluster.
static BOUNDS: [Row; 10] = [
    // One metadata page more takes cluster 5.
    (
        &[(52, 17)],
        &[THICK, FIVE],
        "Meta { head: 0, fault: ClusterOutside { cluster: 5 } }",
    ),
    (&[(52, 17)], &[THICK, Part::Runs(&[(6, 10)])], "loaded"),
    // A mask behind all other clusters takes them too.
    (
        &[(32, 63)],
        &[THICK, Part::Runs(&[(15, 1)])],
        "Meta { head: 0, fault: ClusterOutside { cluster: 15 } }",
    ),
    // A store that ends with its metadata pages, and one that ends with the cluster behind them.
    (
        &[(80, 81_920)],
        &[THICK, FIVE],
        "Meta { head: 0, fault: ClusterOutside { cluster: 5 } }",
    ),
    (&[(80, 98_304)], &[THICK, FIVE], "loaded"),
    // Clusters of one page, and of 20.
    (
        &[(28, 4096)],
        &[THICK, Part::Runs(&[(19, 1)])],
        "Meta { head: 0, fault: ClusterOutside { cluster: 19 } }",
    ),
    (
        &[(28, 4096)],
        &[THICK, Part::Runs(&[(20, 45)])],
        "Meta { head: 0, fault: ClusterOutside { cluster: 64 } }",
    ),
    (&[(28, 4096)], &[THICK, Part::Runs(&[(20, 44)])], "loaded"),
    (&[(28, 81_920)], &[THICK, Part::Runs(&[(1, 2)])], "loaded"),
    (
        &[(28, 81_920)],
        &[THICK, Part::Runs(&[(1, 3)])],
        "Meta { head: 0, fault: ClusterOutside { cluster: 3 } }",
    ),
];

#[test]
fn the_least_shared_cluster_is_told(rt: HostRuntime) -> Result<(), Fail> {
    for (blobs, wanted) in &SHARED {
        expect_blobs(rt.alloc(), blobs, wanted)?;
    }
    Ok(())
}

#[test]
fn what_recovery_removes_shares_no_cluster(rt: HostRuntime) -> Result<(), Fail> {
    for blobs in &REMOVED {
        expect_blobs(rt.alloc(), blobs, "loaded")?;
    }
    Ok(())
}

#[test]
fn fixed_clusters_and_those_past_the_last_are_outside(rt: HostRuntime) -> Result<(), Fail> {
    for (words, parts, wanted) in &BOUNDS {
        let rows: [MdRow; 1] = [(0, ID, 0, LAST, parts)];
        let image = Image {
            words,
            rows: &rows,
            ..SMALL
        };
        expect(rt.alloc(), &image, wanted)?;
    }
    Ok(())
}
