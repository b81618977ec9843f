//! New logical volume stores, as an administrator makes them.

use crate::device_pages::{BytesRow, expect_bytes};
use crate::listed::expect_listed;
use page_disk::MemDisk;
use std::alloc::Global;
use std::test::Fail;
use test_runs::{Call, expect_end, play};
use test_stores::is_zeros;

/// A new logical volume store of 16 clusters, with room for the changes of a test.
fn store(alloc: Global) -> Result<MemDisk, Fail> {
    let line =
        "format store.img --cluster 16384 --lvol store0 --uuid 5f2b4e66-0d0c-4c1e-9a55-3f0a7c2d9b10";
    let end = ("Good", b"clusters 16 free 11 pages 16 free 15\n".as_slice());
    expect_end(
        alloc,
        &Call::new(line, b""),
        end,
        MemDisk::new(alloc, 64, 512)?,
    )
}

/// What is listed of it.
const LISTED: &[u8] =
    b"store type LVOLSTORE cluster 16384 clusters 16 free 11 pages 16 free 15 clean 1\n\
    super @0 store0 5f2b4e66-0d0c-4c1e-9a55-3f0a7c2d9b10\n";

#[test]
fn a_store_has_its_name_and_uuid(rt: HostRuntime) -> Result<(), Fail> {
    expect_listed(rt.alloc(), LISTED, store(rt.alloc())?)?;
    Ok(())
}

/// The page of the super blob up to the end of its last descriptor: the blob's id, sequence 0, flags of zeros, the name
/// and the uuid, each with a NUL.
const SUPER_BLOB: &[u8] = b"\0\0\0\0\x01\0\0\0\0\0\0\0\0\0\0\0\
    \x03\x18\0\0\0\0\0\0\0\0\0\0\0\0\0\0\0\0\0\0\0\0\0\0\0\0\0\0\0\
    \x02\x0F\0\0\0\x04\0\x07\0namestore0\0\
    \x02\x2D\0\0\0\x04\0\x25\0uuid5f2b4e66-0d0c-4c1e-9a55-3f0a7c2d9b10\0";

/// That page, which has no next one, and the bits of it in the masks of pages and of blobs.
static WRITTEN: [BytesRow; 4] = [
    (4, 0, SUPER_BLOB),
    (4, 4088, &[0xFF; 4]),
    (1, 0, &[0, 16, 0, 0, 0, 1, 0, 0]),
    (3, 0, &[2, 16, 0, 0, 0, 1, 0, 0]),
];

#[test]
fn its_super_blob_has_one_page(rt: HostRuntime) -> Result<(), Fail> {
    let mut disk = store(rt.alloc())?;
    assert!(rt; is_zeros(&mut disk, 5)?);
    expect_bytes(&mut disk, &WRITTEN)
}

#[test]
fn its_super_blob_is_no_volume(rt: HostRuntime) -> Result<(), Fail> {
    let script = b"0 list\n0 put @0 k t:1\n0 create v 1 thin\n0 df\n0 list\n";
    let printed = b"0 0 list 0\n0 1 reserved\n0 2 ok @1\n0 3 df clusters 11 of 16 pages 14 of 16\n\
        0 4 list 1\nvolume @1 v slots 1 parent - thin rw xattrs 2\n";
    play(rt.alloc(), script, printed, store(rt.alloc())?)?;
    Ok(())
}
