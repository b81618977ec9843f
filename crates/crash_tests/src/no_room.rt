//! Repairs that need more metadata pages than are clear.

use crate::families::{S_NAMED, THIN_READ_ONLY};
use std::alloc::Global;
use std::test::Fail;
use test_runs::{Ran, expect_printed, play, run};
use test_stores::{LAST, NAMED, PageRow, THIN, expect_rows, image};

/// Internal attributes that name the blobs at heads 0, 1, 2 and 4.
const SNAP_0: &[u8] = b"\x04\x10\0\0\0\x04\0\x08\0SNAP\0\0\0\0\x01\0\0\0";

const SNAP_2: &[u8] = b"\x04\x10\0\0\0\x04\0\x08\0SNAP\x02\0\0\0\x01\0\0\0";

const SNAPTMP_1: &[u8] = b"\x04\x13\0\0\0\x07\0\x08\0SNAPTMP\x01\0\0\0\x01\0\0\0";

const SNAPTMP_2: &[u8] = b"\x04\x13\0\0\0\x07\0\x08\0SNAPTMP\x02\0\0\0\x01\0\0\0";

const SNAPTMP_4: &[u8] = b"\x04\x13\0\0\0\x07\0\x08\0SNAPTMP\x04\0\0\0\x01\0\0\0";

/// An attribute `k` of 4062 letters, which fills a page.
const K: &[u8] = b"\x02\xE3\x0F\0\0\x01\0\xDE\x0Fk";

const LETTERS: &[u8] = &[b'x'; 4062];

/// A snapshot `s` at head 0 whose chain goes on at place 1, also without its mark; and at head 2 the volume `v`, which
/// the mark names and whose parent it is.
const LONG: PageRow = (0, 0, 0, 1, &[THIN, S_NAMED, SNAPTMP_2]);

const LONG_END: PageRow = (1, 0, 1, LAST, &[K, LETTERS]);

const VOLUME: PageRow = (2, 2, 0, LAST, &[THIN, NAMED, SNAP_0]);

/// The metadata pages of a store, each of them used; the status of a run; and the pages that it leaves.
type Case = (&'static [PageRow], &'static str, &'static [PageRow]);

const CASES: [Case; 3] = [
    (
        &[LONG, LONG_END, VOLUME],
        "Image { fault: NoRoom { head: 0, has: 0, wants: 1 } }",
        &[LONG, LONG_END, VOLUME],
    ),
    // The blob at head 3 is to be removed, and keeps its page until then.
    (
        &[LONG, LONG_END, VOLUME, (3, 3, 0, LAST, &[THIN, SNAPTMP_2])],
        "Image { fault: NoRoom { head: 0, has: 0, wants: 1 } }",
        &[LONG, LONG_END, VOLUME, (3, 3, 0, LAST, &[THIN, SNAPTMP_2])],
    ),
    // The first repair needs no page, and is made; the second needs one.
    (
        &[
            (0, 0, 0, LAST, &[THIN, S_NAMED, SNAPTMP_1]),
            (1, 1, 0, LAST, &[THIN, NAMED, SNAP_0]),
            (2, 2, 0, 3, &[THIN, SNAPTMP_4]),
            (3, 2, 1, LAST, &[K, LETTERS]),
            (4, 4, 0, LAST, &[THIN, SNAP_2]),
        ],
        "Image { fault: NoRoom { head: 2, has: 0, wants: 1 } }",
        &[
            (0, 0, 0, LAST, &[THIN_READ_ONLY, S_NAMED]),
            (1, 1, 0, LAST, &[THIN, NAMED, SNAP_0]),
            (2, 2, 0, 3, &[THIN, SNAPTMP_4]),
            (3, 2, 1, LAST, &[K, LETTERS]),
            (4, 4, 0, LAST, &[THIN, SNAP_2]),
        ],
    ),
];

/// Any script will do: none of it is run.
const SCRIPTS: [&[u8]; 3] = [
    b"",
    b"0 df\n",
    b"0 read v 0 1\n1 create w 1 thin\n1 flush\n0 put v k t:1\n",
];

/// Expects the status of a run of a script on a store, nothing printed, and the metadata pages that it leaves.
fn expect_no_room(alloc: Global, case: &Case, script: &[u8]) -> Result<(), Fail> {
    let (rows, wanted, left) = *case;
    let md_pages = u32::try_from(rows.len()).unwrap_or(0);
    let Ran {
        status,
        out,
        mut disk,
    } = run(alloc, script, image(alloc, (64, md_pages), rows)?)?;
    expect_printed(&out, b"")?;
    let found = format!(in alloc; "{status:?}")?;
    if found.as_str() != wanted {
        return Err(Fail::new(found));
    }
    expect_rows(alloc, &mut disk, md_pages, left)
}

#[test]
fn a_repair_without_room_ends_the_run_before_it_begins(rt: HostRuntime) -> Result<(), Fail> {
    for case in &CASES {
        for script in SCRIPTS {
            expect_no_room(rt.alloc(), case, script)?;
        }
    }
    Ok(())
}

/// The snapshot takes the last clear page, and its old one is clear then.
#[test]
fn a_repair_takes_the_last_clear_page(rt: HostRuntime) -> Result<(), Fail> {
    let alloc = rt.alloc();
    let disk = image(alloc, (64, 4), &[LONG, LONG_END, VOLUME])?;
    let printed = b"0 0 df clusters 14 of 16 pages 1 of 4\n";
    let mut disk = play(alloc, b"0 df\n", printed, disk)?;
    let repaired: [PageRow; 3] = [
        (0, 0, 0, 3, &[THIN_READ_ONLY, S_NAMED]),
        (3, 0, 1, LAST, &[K, LETTERS]),
        VOLUME,
    ];
    expect_rows(alloc, &mut disk, 4, &repaired)
}
