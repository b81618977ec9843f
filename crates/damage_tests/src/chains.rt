//! Heads whose chains have a fault, and pages that are no heads.

use crate::images::{ID, Image, LAST, MdRow, SMALL};
use crate::loads::{expect, expect_blobs};
use crate::parts::{Part, THIN};
use std::alloc::Global;
use std::test::Fail;

/// The metadata pages that aren't zeros, and what comes of loading them.
type Row = (&'static [MdRow], &'static str);

/// A head at place 0 that links to place 3, and a page there that ends the chain.
const TO_3: MdRow = (0, ID, 0, 3, &[THIN]);

const SECOND: MdRow = (3, ID, 1, LAST, &[]);

/// Descriptors of flags that are a byte too short, and of a type that is unknown.
const SHORT_FLAGS: Part = Part::Bytes(b"\x03\x17\0\0\0");

const UNKNOWN: Part = Part::Bytes(b"\x09\x02\0\0\0xx");

/// Links and what they lead to.
static LINKS: [Row; 24] = [
    (&[TO_3, SECOND], "loaded"),
    // Past the region's end, by a head and by another page: the least place there, and the greatest, since one more
    // ends the chain. The page that has the link is told.
    (
        &[(0, ID, 0, 16, &[THIN])],
        "Chain { head: 0, fault: LinkPastEnd { page: 0, next: 16 } }",
    ),
    (
        &[(0, ID, 0, 0xFFFF_FFFE, &[THIN])],
        "Chain { head: 0, fault: LinkPastEnd { page: 0, next: 4294967294 } }",
    ),
    (
        &[TO_3, (3, ID, 1, 16, &[])],
        "Chain { head: 0, fault: LinkPastEnd { page: 3, next: 16 } }",
    ),
    // Back to the head itself, to the head from the second page, and to the second page from the third.
    (
        &[(0, ID, 0, 0, &[THIN])],
        "Chain { head: 0, fault: Loop { page: 0 } }",
    ),
    (
        &[TO_3, (3, ID, 1, 0, &[])],
        "Chain { head: 0, fault: Loop { page: 0 } }",
    ),
    (
        &[TO_3, (3, ID, 1, 5, &[]), (5, ID, 2, 3, &[])],
        "Chain { head: 0, fault: Loop { page: 3 } }",
    ),
    // A page of zeros isn't sound; the last one of the region is one of its pages.
    (
        &[(0, ID, 0, 15, &[THIN])],
        "Chain { head: 0, fault: Unsound { page: 15 } }",
    ),
    // The page of another id: the least, the greatest, and that of no other blob.
    (
        &[TO_3, (3, 0, 1, LAST, &[])],
        "Chain { head: 0, fault: WrongId { page: 3, found: 0 } }",
    ),
    (
        &[TO_3, (3, u64::MAX, 1, LAST, &[])],
        "Chain { head: 0, fault: WrongId { page: 3, found: 18446744073709551615 } }",
    ),
    // Two heads link to one page, which is of the second one, or of the first one. The first head is told that has a
    // fault.
    (
        &[TO_3, (1, ID + 1, 0, 3, &[THIN]), (3, ID + 1, 1, LAST, &[])],
        "Chain { head: 0, fault: WrongId { page: 3, found: 4294967297 } }",
    ),
    (
        &[TO_3, (1, ID + 1, 0, 3, &[THIN]), SECOND],
        "Chain { head: 1, fault: WrongId { page: 3, found: 4294967296 } }",
    ),
    // A head links to another one.
    (
        &[(0, ID, 0, 1, &[THIN]), (1, ID + 1, 0, LAST, &[THIN])],
        "Chain { head: 0, fault: WrongId { page: 1, found: 4294967297 } }",
    ),
    // A page of another sequence: the least, the greatest, that of the page before and that of the page behind.
    (
        &[TO_3, (3, ID, 0, LAST, &[])],
        "Chain { head: 0, fault: WrongSequence { page: 3, found: 0, wanted: 1 } }",
    ),
    (
        &[TO_3, (3, ID, u32::MAX, LAST, &[])],
        "Chain { head: 0, fault: WrongSequence { page: 3, found: 4294967295, wanted: 1 } }",
    ),
    (
        &[TO_3, (3, ID, 1, 5, &[]), (5, ID, 1, LAST, &[])],
        "Chain { head: 0, fault: WrongSequence { page: 5, found: 1, wanted: 2 } }",
    ),
    (
        &[TO_3, (3, ID, 1, 5, &[]), (5, ID, 3, LAST, &[])],
        "Chain { head: 0, fault: WrongSequence { page: 5, found: 3, wanted: 2 } }",
    ),
    // Two tests fail at one page, of which the first is told: id and sequence; sequence and descriptor; descriptor and
    // the link behind it.
    (
        &[TO_3, (3, ID + 7, 2, LAST, &[])],
        "Chain { head: 0, fault: WrongId { page: 3, found: 4294967303 } }",
    ),
    (
        &[TO_3, (3, ID, 2, LAST, &[SHORT_FLAGS])],
        "Chain { head: 0, fault: WrongSequence { page: 3, found: 2, wanted: 1 } }",
    ),
    (
        &[(0, ID, 0, 16, &[SHORT_FLAGS])],
        "Chain { head: 0, fault: BadItem { page: 0, at: 0, kind: 3 } }",
    ),
    // Of two pages the first is told, and of two heads.
    (
        &[TO_3, (3, ID, 1, 5, &[UNKNOWN, SHORT_FLAGS])],
        "Chain { head: 0, fault: BadItem { page: 3, at: 7, kind: 3 } }",
    ),
    (
        &[(7, ID + 7, 0, 16, &[THIN]), (4, ID + 4, 0, 4, &[THIN])],
        "Chain { head: 4, fault: Loop { page: 4 } }",
    ),
    // No page but a head is read for a chain that isn't linked, and a head is one at its own place alone.
    (
        &[
            (3, ID, 1, 16, &[]),
            (4, ID + 5, 0, 16, &[]),
            (5, 5, 0, 16, &[]),
        ],
        "loaded",
    ),
    (
        &[
            (0, 2 * ID, 0, 16, &[]),
            (15, ID + 15, 1, 16, &[]),
            (2, ID + 16, 0, 16, &[]),
        ],
        "loaded",
    ),
];

/// Descriptors of the head at place 0: which is bad, where it begins and of which type it is.
static ITEMS: [(&[Part], &str); 12] = [
    // Runs of no byte, and of no multiple of 8.
    (
        &[THIN, Part::Runs(&[])],
        "BadItem { page: 0, at: 29, kind: 1 }",
    ),
    (
        &[THIN, Part::Bytes(b"\x01\x04\0\0\0\x05\0\0\0")],
        "BadItem { page: 0, at: 29, kind: 1 }",
    ),
    (
        &[THIN, Part::Bytes(b"\x01\x09\0\0\0\x05\0\0\0\x01\0\0\0\0")],
        "BadItem { page: 0, at: 29, kind: 1 }",
    ),
    // An attribute without room for its two lengths, and one whose lengths are less and more than its own.
    (
        &[Part::Bytes(b"\x02\x03\0\0\0\0\0\0")],
        "BadItem { page: 0, at: 0, kind: 2 }",
    ),
    (
        &[Part::Bytes(b"\x02\x06\0\0\0\x01\0\0\0kv")],
        "BadItem { page: 0, at: 0, kind: 2 }",
    ),
    (
        &[Part::Bytes(b"\x02\x06\0\0\0\x01\0\x02\0kv")],
        "BadItem { page: 0, at: 0, kind: 2 }",
    ),
    (
        &[Part::Bytes(b"\x04\x06\0\0\0\xFF\xFF\xFF\xFFkv")],
        "BadItem { page: 0, at: 0, kind: 4 }",
    ),
    // Flags that are a byte too short, and too long.
    (
        &[UNKNOWN, SHORT_FLAGS],
        "BadItem { page: 0, at: 7, kind: 3 }",
    ),
    (
        &[Part::Bytes(b"\x03\x19\0\0\0")],
        "BadItem { page: 0, at: 0, kind: 3 }",
    ),
    // One byte more than the page has, and as many as can be asked for.
    (
        &[Part::Bytes(b"\x09\xE4\x0F\0\0")],
        "BadItem { page: 0, at: 0, kind: 9 }",
    ),
    (
        &[Part::Bytes(b"\0\xFF\xFF\xFF\xFF")],
        "BadItem { page: 0, at: 0, kind: 0 }",
    ),
    // Of two the first is told, even where the flags before them are unknown.
    (
        &[
            Part::Flags([4, 0, 0]),
            Part::Bytes(b"\x02\0\0\0\0"),
            SHORT_FLAGS,
        ],
        "BadItem { page: 0, at: 29, kind: 2 }",
    ),
];

/// A chain whose second page has a wrong id and sequence, a bad descriptor, and a link past the region's end.
static WRONG: [MdRow; 2] = [TO_3, (3, ID + 7, 2, 16, &[SHORT_FLAGS])];

const UNSOUND: &str = "Chain { head: 0, fault: Unsound { page: 3 } }";

/// The byte of which a bit is turned, by the device's page, and what comes of loading that: of the second page, and of
/// the head, which is no head then.
static TURNED: [(&[(u64, usize)], &str); 7] = [
    (&[(7, 0)], UNSOUND),
    (&[(7, 8)], UNSOUND),
    (&[(7, 4087)], UNSOUND),
    (&[(7, 4092)], UNSOUND),
    (&[(7, 4095)], UNSOUND),
    (&[(4, 100)], "loaded"),
    (&[(4, 4095)], "loaded"),
];

/// Expects this bad descriptor of the head at place 0.
fn expect_bad(alloc: Global, parts: &'static [Part], bad: &str) -> Result<(), Fail> {
    let wanted = format!(in alloc; "Chain {{ head: 0, fault: {bad} }}")?;
    expect_blobs(alloc, &[(0, parts)], wanted.as_str())
}

fn expect_rows(alloc: Global, rows: &[Row]) -> Result<(), Fail> {
    for (rows, wanted) in rows {
        expect(alloc, &Image { rows, ..SMALL }, wanted)?;
    }
    Ok(())
}

#[test]
fn each_link_that_breaks_says_where(rt: HostRuntime) -> Result<(), Fail> {
    expect_rows(rt.alloc(), &LINKS)
}

#[test]
fn a_bad_descriptor_says_where_it_begins(rt: HostRuntime) -> Result<(), Fail> {
    for (parts, bad) in &ITEMS {
        expect_bad(rt.alloc(), parts, bad)?;
    }
    Ok(())
}

/// The sum is tested before all that is wrong there too.
#[test]
fn a_page_with_a_turned_bit_is_not_sound(rt: HostRuntime) -> Result<(), Fail> {
    for (turned, wanted) in &TURNED {
        let image = Image {
            rows: &WRONG,
            turned,
            ..SMALL
        };
        expect(rt.alloc(), &image, wanted)?;
    }
    Ok(())
}
