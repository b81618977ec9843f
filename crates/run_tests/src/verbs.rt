//! The five verbs on attributes: what each answers, and what a later run finds.

use crate::device_pages::{BytesRow, expect_bytes};
use page_disk::MemDisk;
use std::alloc::Global;
use std::test::Fail;
use test_lines::push_long;
use test_runs::play;
use test_stores::{LAST, PageRow, READ_ONLY, THICK, image, store, two_blobs};

/// A script, what it prints, and what a later run prints of a look.
type Case = (&'static [u8], &'static [u8], &'static [u8]);

/// Of the look `0 getx @0 k`, where the blob has `k` with the value 1 on the disk before.
static CASES: [Case; 11] = [
    (
        b"0 setx @0 k t:2\n0 getx @0 k\n",
        b"0 0 ok\n0 1 value 32\n",
        b"0 0 value 31\n",
    ),
    (
        b"0 delx @0 k\n0 getx @0 k\n",
        b"0 0 ok\n0 1 no value\n",
        b"0 0 value 31\n",
    ),
    (
        b"0 setx @0 k t:3\n0 sync @0\n",
        b"0 0 ok\n0 1 ok\n",
        b"0 0 value 33\n",
    ),
    (
        b"0 delx @0 k\n0 sync @0\n",
        b"0 0 ok\n0 1 ok\n",
        b"0 0 no value\n",
    ),
    (
        b"0 put @0 k t:4\n0 getx @0 k\n",
        b"0 0 ok\n0 1 value 34\n",
        b"0 0 value 34\n",
    ),
    (
        b"0 setx @0 k t:\n0 put @0 j t:5\n0 getx @0 k\n",
        b"0 0 ok\n0 1 ok\n0 2 value -\n",
        b"0 0 value -\n",
    ),
    (
        b"0 put @0 k t:5\n0 setx @0 k t:6\n",
        b"0 0 ok\n0 1 ok\n",
        b"0 0 value 35\n",
    ),
    (
        b"0 getx @0 k\n0 sync @0\n",
        b"0 0 value 31\n0 1 ok\n",
        b"0 0 value 31\n",
    ),
    (
        b"0 delx @0 j\n0 getx @0 j\n0 getx @0 name",
        b"0 0 no value\n0 1 no value\n0 2 no value\n",
        b"0 0 value 31\n",
    ),
    (
        b"0 setx @0 name t:x\n0 delx @0 uuid\n0 put @0 name t:x\n",
        b"0 0 reserved\n0 1 reserved\n0 2 reserved\n",
        b"0 0 value 31\n",
    ),
    (
        b"0 setx @1 k t:2\n0 delx @1 k\n0 getx @1 k\n0 put @1 k t:2\n0 sync @1\n",
        b"0 0 no volume\n0 1 no volume\n0 2 no volume\n0 3 no volume\n0 4 no volume\n",
        b"0 0 value 31\n",
    ),
];

/// Runs the script of a case, and expects what it prints and what a later run finds.
fn expect_case(alloc: Global, disk: MemDisk, look: &[u8], case: &Case) -> Result<(), Fail> {
    let (script, printed, found) = case;
    let disk = play(alloc, script, printed, disk)?;
    play(alloc, look, found, disk)?;
    Ok(())
}

/// A blob that has `k` with the value 1 on the disk.
fn with_value(alloc: Global) -> Result<MemDisk, Fail> {
    play(alloc, b"0 put @0 k t:1\n", b"0 0 ok\n", store(alloc)?)
}

/// Only a put and a sync bring attributes to the disk: all that are set.
#[test]
fn each_verb_has_its_answer_and_its_trace(rt: HostRuntime) -> Result<(), Fail> {
    for case in &CASES {
        expect_case(rt.alloc(), with_value(rt.alloc())?, b"0 getx @0 k\n", case)?;
    }
    Ok(())
}

/// Of two looks, where both blobs have `k` with the value 1 on the disk before.
static OF_TWO: [Case; 3] = [
    (
        b"0 setx @0 k t:2\n0 put @1 k t:3\n0 getx @0 k\n",
        b"0 0 ok\n0 1 ok\n0 2 value 32\n",
        b"0 0 value 31\n0 1 value 33\n",
    ),
    (
        b"0 setx @0 k t:2\n0 setx @1 k t:3\n0 sync @1\n0 getx @0 k\n",
        b"0 0 ok\n0 1 ok\n0 2 ok\n0 3 value 32\n",
        b"0 0 value 31\n0 1 value 33\n",
    ),
    (
        b"0 delx @1 k\n0 put @0 k t:2\n0 getx @1 k\n",
        b"0 0 ok\n0 1 ok\n0 2 no value\n",
        b"0 0 value 32\n0 1 value 31\n",
    ),
];

/// Two blobs that have `k` with the value 1 on the disk.
fn with_two_values(alloc: Global) -> Result<MemDisk, Fail> {
    let puts = b"0 put @0 k t:1\n0 put @1 k t:1\n";
    play(alloc, puts, b"0 0 ok\n0 1 ok\n", two_blobs(alloc)?)
}

/// What one blob has set stays in memory when the other is written.
#[test]
fn a_put_brings_only_its_own_blob_to_the_disk(rt: HostRuntime) -> Result<(), Fail> {
    let looks = b"0 getx @0 k\n0 getx @1 k\n";
    for case in &OF_TWO {
        expect_case(rt.alloc(), with_two_values(rt.alloc())?, looks, case)?;
    }
    Ok(())
}

/// The flags of the blob at place 0, a script, and what it prints.
static PUTS: [(&[&[u8]], &[u8], &[u8]); 3] = [
    (&[THICK], b"", b""),
    (
        &[THICK],
        b"0 put @1 owner t:bob\n0 put @0 name t:x\n0 put @0 owner t:bob",
        b"0 0 no volume\n0 1 reserved\n0 2 ok\n",
    ),
    (&[READ_ONLY], b"0 put @0 owner t:bob\n", b"0 0 read only\n"),
];

#[test]
fn each_put_is_answered(rt: HostRuntime) -> Result<(), Fail> {
    for (flags, script, printed) in &PUTS {
        let row: PageRow = (0, 0, 0, LAST, flags);
        play(
            rt.alloc(),
            script,
            printed,
            image(rt.alloc(), (64, 16), &[row])?,
        )?;
    }
    Ok(())
}

/// The script of two puts of so many letters each, whose keys have two bytes.
fn long_puts(alloc: Global, length: usize) -> Result<Vec<u8>, Fail> {
    let mut script = Vec::new(alloc);
    push_long(&mut script, b"0 put @0 k1 t:", (b'x', length))?;
    push_long(&mut script, b"0 put @0 k2 t:", (b'x', length))?;
    Ok(script)
}

/// Two values that don't fit on one page together may be put; one that fits on no page with its key is too long.
static LENGTHS: [(usize, &[u8]); 2] = [
    (4000, b"0 0 ok\n0 1 ok\n"),
    (4062, b"0 0 too long\n0 1 too long\n"),
];

#[test]
fn a_value_has_a_page_of_its_own_at_most(rt: HostRuntime) -> Result<(), Fail> {
    for (length, printed) in &LENGTHS {
        let script = long_puts(rt.alloc(), *length)?;
        play(rt.alloc(), &script, printed, store(rt.alloc())?)?;
    }
    Ok(())
}

/// The first bytes of the head's flags, and the attribute behind them.
static OWNER: [BytesRow; 2] = [
    (4, 16, b"\x03\x18\0\0\0"),
    (4, 45, b"\x02\x0c\0\0\0\x05\0\x03\0ownerbob\0"),
];

#[test]
fn the_head_holds_the_attribute_last_put(rt: HostRuntime) -> Result<(), Fail> {
    let script = b"0 put @0 owner t:eve\n0 put @0 owner t:bob\n";
    let mut disk = play(rt.alloc(), script, b"0 0 ok\n0 1 ok\n", store(rt.alloc())?)?;
    expect_bytes(&mut disk, &OWNER)
}
