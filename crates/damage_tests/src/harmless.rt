//! Images that look damaged, and are run.

use crate::images::{ID, Image, LAST, SMALL, device};
use crate::parts::{Part, THIN};
use page_disk::{CallKind, FaultDisk};
use std::alloc::Global;
use std::test::Fail;
use test_runs::play;

/// Descriptors of names: without a NUL, without a byte, and with bytes that no name has.
const UNENDED: Part = Part::Bytes(b"\x02\x09\0\0\0\x04\0\x01\0namev");

const EMPTY: Part = Part::Bytes(b"\x02\x08\0\0\0\x04\0\0\0name");

const STRANGE: Part = Part::Bytes(b"\x02\x0A\0\0\0\x04\0\x02\0name@\xFF");

/// An image, a command, and what it prints.
type Row = (Image<'static>, &'static [u8], &'static [u8]);

/// Images without a fault.
static LOADED: [Row; 5] = [
    // A clean store whose page mask has the type of another mask, and whose mask of blobs lacks the one blob.
    (
        Image {
            words: &[(16, 1)],
            masks: &[
                (1, b"\x01\x10\0\0\0\x01"),
                (2, b"\x01\x10\0\0\0\x1F"),
                (3, b"\x02\x10\0\0\0"),
            ],
            rows: &[(0, ID, 0, LAST, &[THIN])],
            ..SMALL
        },
        b"0 df\n",
        b"0 0 df clusters 11 of 16 pages 15 of 16\n",
    ),
    // A blob whose head isn't sound is none.
    (
        Image {
            rows: &[(0, ID, 0, LAST, &[THIN])],
            turned: &[(4, 20)],
            ..SMALL
        },
        b"0 df\n",
        b"0 0 df clusters 11 of 16 pages 16 of 16\n",
    ),
    // A name ends with its value, and may be anything.
    (
        Image {
            rows: &[(0, ID, 0, LAST, &[THIN, UNENDED])],
            ..SMALL
        },
        b"0 info v\n",
        b"0 0 volume @0 v slots 0 parent - thin rw xattrs 1\n",
    ),
    (
        Image {
            rows: &[(0, ID, 0, LAST, &[THIN, EMPTY])],
            ..SMALL
        },
        b"0 info @0\n",
        b"0 0 volume @0 - slots 0 parent - thin rw xattrs 1\n",
    ),
    (
        Image {
            rows: &[(0, ID, 0, LAST, &[THIN, STRANGE])],
            ..SMALL
        },
        b"0 info @0\n",
        b"0 0 volume @0 @\\xff slots 0 parent - thin rw xattrs 1\n",
    ),
];

/// Expects what a command prints, and that each metadata page is read.
fn expect_row(alloc: Global, row: &Row) -> Result<(), Fail> {
    let (image, script, printed) = row;
    let disk = FaultDisk::new(device(alloc, image)?, Vec::new(alloc));
    let reads = play(alloc, script, printed, disk)?.calls(CallKind::Read);
    if reads <= 16 {
        return Err(Fail::new(format_args!("{reads} reads are too few")));
    }
    Ok(())
}

/// Expects it of each row of a table.
fn expect_rows(alloc: Global, rows: &[Row]) -> Result<(), Fail> {
    for row in rows {
        expect_row(alloc, row)?;
    }
    Ok(())
}

#[test]
fn an_image_that_looks_damaged_is_run(rt: HostRuntime) -> Result<(), Fail> {
    expect_rows(rt.alloc(), &LOADED)
}
