//! Stores and their volumes, as they are listed.

use crate::formats::failing;
use crate::listed::{LIST, expect_listed, ran};
use page_disk::CallKind;
use std::test::Fail;
use test_runs::expect_end;
use test_stores::{LAST, NAMED, PageRow, THICK, THIN, image_with_super};

/// A script that is run on a new store, and what is listed behind it.
static CASES: [(&[u8], &[u8]); 3] = [
    (
        b"",
        b"store type - cluster 16384 clusters 16 free 11 pages 16 free 16 clean 1\n",
    ),
    (
        b"0 create v 2 thick 5f2b4e66-0d0c-4c1e-9a55-3f0a7c2d9b10\n",
        b"store type - cluster 16384 clusters 16 free 9 pages 16 free 15 clean 1\n\
            @0 v 5f2b4e66-0d0c-4c1e-9a55-3f0a7c2d9b10 slots 2 own 2 parent - thick rw\n",
    ),
    (
        b"0 create v 2 thin\n0 write v 0 1 7\n0 readonly v\n0 clone v c\n",
        b"store type - cluster 16384 clusters 16 free 10 pages 16 free 14 clean 1\n\
            @0 v 80e2434c-466c-59a0-a364-5d8d01601338 slots 2 own 1 parent - thin ro\n\
            @1 c 0f443162-a7b1-54c6-977f-cca1b1a128bb slots 2 own 0 parent @0 thin rw\n",
    ),
];

#[test]
fn volumes_are_listed_by_ascending_head(rt: HostRuntime) -> Result<(), Fail> {
    for (script, printed) in &CASES {
        expect_listed(rt.alloc(), printed, ran(rt.alloc(), script)?)?;
    }
    Ok(())
}

/// The name `a b\` and the uuid `-`.
const ODD: &[u8] = b"\x02\x0D\0\0\0\x04\0\x05\0namea b\\\0\x02\x09\0\0\0\x04\0\x01\0uuid-";

static ROWS: [PageRow; 3] = [
    (0, 0, 0, LAST, &[THIN, ODD]),
    (1, 1, 0, LAST, &[THICK, NAMED]),
    (2, 2, 0, LAST, &[THICK]),
];

/// What is listed of them.
const LISTED: &[u8] = b"store type - cluster 16384 clusters 16 free 11 pages 16 free 13 clean 1\n\
    super @1 v 11223344-5566-4788-99aa-bbccddeeff00\n\
    @0 a\\x20b\\x5c \\x2d slots 0 own 0 parent - thin rw\n\
    @2 - - slots 0 own 0 parent - thick rw\n";

#[test]
fn the_super_blob_and_odd_names_are_shown(rt: HostRuntime) -> Result<(), Fail> {
    let disk = image_with_super(rt.alloc(), (64, 16), (1 << 32) + 1, &ROWS)?;
    expect_listed(rt.alloc(), LISTED, disk)?;
    Ok(())
}

#[test]
fn a_device_that_fails_is_not_listed(rt: HostRuntime) -> Result<(), Fail> {
    let disk = failing(rt.alloc(), CallKind::Read, 3)?;
    expect_end(rt.alloc(), &LIST, ("Device { at: 0 }", b""), disk)?;
    Ok(())
}
