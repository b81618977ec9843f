//! Heads whose metadata has a fault, and metadata that looks wrong and has none.

use crate::images::ID;
use crate::loads::expect_blobs;
use crate::parts::{Part, THICK, THIN};
use std::alloc::Global;
use std::test::Fail;

/// The descriptors of the head at place 0, and the fault of the metadata that they say, or `loaded`.
type Row = (&'static [Part], &'static str);

/// Runs of 2^20 empty slots, and of one.
const MILLION: Part = Part::Runs(&[(0, 1 << 20)]);

const HOLE: Part = Part::Runs(&[(0, 1)]);

/// A run of the one cluster 5.
const FIVE: Part = Part::Runs(&[(5, 1)]);

/// The bits of the flags that a load must know: bits 0 and 1, and none else.
static FLAGS: [Row; 9] = [
    (&[Part::Flags([3, 0, 0])], "loaded"),
    (&[Part::Flags([4, 0, 0])], "UnknownFlag { bits: 4 }"),
    (&[Part::Flags([15, 0, 0])], "UnknownFlag { bits: 12 }"),
    (
        &[Part::Flags([1 << 63, 0, 0])],
        "UnknownFlag { bits: 9223372036854775808 }",
    ),
    (
        &[Part::Flags([u64::MAX, 0, 0])],
        "UnknownFlag { bits: 18446744073709551612 }",
    ),
    // The other two words may have any bits.
    (&[Part::Flags([1, u64::MAX, u64::MAX])], "loaded"),
    // Of several flags the last count.
    (&[Part::Flags([4, 0, 0]), THIN], "loaded"),
    (&[THIN, Part::Flags([4, 0, 0])], "UnknownFlag { bits: 4 }"),
    // Without flags all three words are 0: the blob is thick.
    (&[HOLE], "HoleInThick { slot: 0 }"),
];

/// Maps: at most 2^20 slots, clusters from 5 to 15, and no empty slot of a thick blob.
static MAPS: [Row; 24] = [
    (&[THIN, MILLION], "loaded"),
    (&[THIN, MILLION, HOLE], "TooLarge { slots: 1048577 }"),
    (
        &[THIN, Part::Runs(&[(0, (1 << 20) + 1)])],
        "TooLarge { slots: 1048577 }",
    ),
    (
        &[THIN, Part::Runs(&[(0, u32::MAX)])],
        "TooLarge { slots: 4294967295 }",
    ),
    (
        &[THIN, Part::Runs(&[(0, u32::MAX), (0, u32::MAX)])],
        "TooLarge { slots: 8589934590 }",
    ),
    // The longest map that a page says: 508 runs of 2^32 - 1 slots each, which begin at the cluster of this number.
    (
        &[Part::Bytes(b"\x01\xE0\x0F\0\0"), Part::Bytes(&[0xFF; 4064])],
        "TooLarge { slots: 2181843385860 }",
    ),
    // The least cluster, the greatest, those around the fixed ones, and those around the last.
    (
        &[THIN, Part::Runs(&[(1, 1)])],
        "ClusterOutside { cluster: 1 }",
    ),
    (
        &[THIN, Part::Runs(&[(u32::MAX, 1)])],
        "ClusterOutside { cluster: 4294967295 }",
    ),
    (
        &[THIN, Part::Runs(&[(u32::MAX, 2)])],
        "ClusterOutside { cluster: 4294967295 }",
    ),
    (
        &[THIN, Part::Runs(&[(4, 1)])],
        "ClusterOutside { cluster: 4 }",
    ),
    (
        &[THIN, Part::Runs(&[(5, 12)])],
        "ClusterOutside { cluster: 16 }",
    ),
    (&[THICK, Part::Runs(&[(5, 11)])], "loaded"),
    // The first slot is told whose cluster is outside, be it greater than another.
    (
        &[THIN, Part::Runs(&[(15, 2), (4, 1)])],
        "ClusterOutside { cluster: 16 }",
    ),
    // A run of no slot adds nothing, whatever its cluster.
    (&[THIN, Part::Runs(&[(4, 0), (16, 0), (5, 1)])], "loaded"),
    (&[THICK, Part::Runs(&[(0, 0), (5, 1)])], "loaded"),
    // The first slot of a thick blob that is empty, and a blob without slots.
    (&[THICK, HOLE, FIVE], "HoleInThick { slot: 0 }"),
    (
        &[THICK, Part::Runs(&[(5, 11), (0, 1)])],
        "HoleInThick { slot: 11 }",
    ),
    (&[THICK, FIVE, HOLE], "HoleInThick { slot: 1 }"),
    (&[THICK], "loaded"),
    // Two tests fail, of which the first is told.
    (
        &[Part::Flags([4, 0, 0]), MILLION, HOLE],
        "UnknownFlag { bits: 4 }",
    ),
    (
        &[THIN, Part::Runs(&[(4, 1)]), MILLION],
        "TooLarge { slots: 1048577 }",
    ),
    (
        &[THICK, HOLE, Part::Runs(&[(16, 1)])],
        "ClusterOutside { cluster: 16 }",
    ),
    (
        &[THICK, Part::Internal(b"SNAP", b""), HOLE],
        "HoleInThick { slot: 0 }",
    ),
    (
        &[Part::Internal(b"SNAP", b""), Part::Flags([4, 0, 0])],
        "UnknownFlag { bits: 4 }",
    ),
];

/// Marks have 8 bytes.
static MARKS: [Row; 11] = [
    (
        &[Part::Internal(b"SNAP", b"")],
        "BadMark { key: Blobtext { bytes: [83, 78, 65, 80] }, length: 0 }",
    ),
    (
        &[Part::Internal(b"SNAP", b"\x01\0\0\0\x01\0\0")],
        "BadMark { key: Blobtext { bytes: [83, 78, 65, 80] }, length: 7 }",
    ),
    (
        &[Part::Internal(b"SNAP", b"\x01\0\0\0\x01\0\0\0\0")],
        "BadMark { key: Blobtext { bytes: [83, 78, 65, 80] }, length: 9 }",
    ),
    // The longest value that a page has beside the name.
    (
        &[Part::Internal(b"SNAP", &[0; 4059])],
        "BadMark { key: Blobtext { bytes: [83, 78, 65, 80] }, length: 4059 }",
    ),
    (
        &[Part::Internal(b"SNAPTMP", b"\x01\0\0\0")],
        "BadMark { key: Blobtext { bytes: [83, 78, 65, 80, 84, 77, 80] }, length: 4 }",
    ),
    (
        &[Part::Internal(b"SNAPRM", &[1; 16])],
        "BadMark { key: Blobtext { bytes: [83, 78, 65, 80, 82, 77] }, length: 16 }",
    ),
    // Of two values of one name the first counts.
    (
        &[Part::Internal(b"SNAPTMP", b""), Part::Mark(b"SNAPTMP", ID)],
        "BadMark { key: Blobtext { bytes: [83, 78, 65, 80, 84, 77, 80] }, length: 0 }",
    ),
    (
        &[Part::Mark(b"SNAPTMP", ID), Part::Internal(b"SNAPTMP", b"")],
        "loaded",
    ),
    // Other names are no marks, and an attribute that isn't internal is none.
    (
        &[Part::Internal(b"SNAPX", b""), Part::Internal(b"snap", b"")],
        "loaded",
    ),
    (&[Part::Internal(b"", b"")], "loaded"),
    (&[Part::Bytes(b"\x02\x08\0\0\0\x04\0\0\0SNAP")], "loaded"),
];

/// Names and uuids that no volume made here has.
static NAMES: [Row; 6] = [
    // Without a NUL at the end, without a byte, with NULs alone, and with bytes that no name has.
    (&[Part::Bytes(b"\x02\x09\0\0\0\x04\0\x01\0namev")], "loaded"),
    (&[Part::Bytes(b"\x02\x08\0\0\0\x04\0\0\0name")], "loaded"),
    (
        &[THIN, Part::Bytes(b"\x02\x0A\0\0\0\x04\0\x02\0name\0\0")],
        "loaded",
    ),
    (
        &[THIN, Part::Bytes(b"\x02\x0A\0\0\0\x04\0\x02\0name@\xFF")],
        "loaded",
    ),
    (
        &[Part::Bytes(b"\x02\x0A\0\0\0\x04\0\x02\0uuidno")],
        "loaded",
    ),
    // An attribute without a name and without a value.
    (&[Part::Bytes(b"\x02\x04\0\0\0\0\0\0\0")], "loaded"),
];

/// Expects this fault of the metadata of the head at place 0, or `loaded`.
fn expect_meta(alloc: Global, parts: &'static [Part], wanted: &str) -> Result<(), Fail> {
    if wanted == "loaded" {
        return expect_blobs(alloc, &[(0, parts)], wanted);
    }
    let wanted = format!(in alloc; "Meta {{ head: 0, fault: {wanted} }}")?;
    expect_blobs(alloc, &[(0, parts)], wanted.as_str())
}

/// Expects what comes of each head of a table.
fn expect_rows(alloc: Global, rows: &[Row]) -> Result<(), Fail> {
    for (parts, wanted) in rows {
        expect_meta(alloc, parts, wanted)?;
    }
    Ok(())
}

#[test]
fn unknown_flags_are_told(rt: HostRuntime) -> Result<(), Fail> {
    expect_rows(rt.alloc(), &FLAGS)
}

#[test]
fn maps_have_their_clusters_and_no_more_slots_than_there_are(rt: HostRuntime) -> Result<(), Fail> {
    expect_rows(rt.alloc(), &MAPS)
}

#[test]
fn marks_have_eight_bytes(rt: HostRuntime) -> Result<(), Fail> {
    expect_rows(rt.alloc(), &MARKS)
}

#[test]
fn names_may_be_any_bytes(rt: HostRuntime) -> Result<(), Fail> {
    expect_rows(rt.alloc(), &NAMES)
}
