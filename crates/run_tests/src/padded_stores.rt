//! Logical volume stores of another maker, whose names are padded with NULs to 64 bytes.

use crate::device_pages::patch_super;
use crate::listed::expect_listed;
use page_disk::MemDisk;
use std::alloc::Global;
use std::test::Fail;
use test_runs::play;
use test_stores::{LAST, PageRow, THICK, image_with_super};

/// What begins an attribute `name` whose value has 64 bytes.
const PADDED: &[u8] = b"\x02\x48\0\0\0\x04\0\x40\0name";

/// The name of the store, and the NULs that pad it.
const STORE: &[u8] = b"store0";

const STORE_NULS: &[u8] = &[0; 58];

/// The names of its volumes, and the NULs that pad each.
const V: &[u8] = b"v";

const S: &[u8] = b"s";

const NULS: &[u8] = &[0; 63];

/// The three names with one NUL.
const PLAIN_STORE: &[u8] = b"\x02\x0F\0\0\0\x04\0\x07\0namestore0\0";

const PLAIN_V: &[u8] = b"\x02\x0A\0\0\0\x04\0\x02\0namev\0";

const PLAIN_S: &[u8] = b"\x02\x0A\0\0\0\x04\0\x02\0names\0";

/// Their uuids.
const STORE_UUID: &[u8] = b"\x02\x2D\0\0\0\x04\0\x25\0uuid5f2b4e66-0d0c-4c1e-9a55-3f0a7c2d9b10\0";

const V_UUID: &[u8] = b"\x02\x2D\0\0\0\x04\0\x25\0uuid5f2b4e66-0d0c-4c1e-9a55-3f0a7c2d9b11\0";

const S_UUID: &[u8] = b"\x02\x2D\0\0\0\x04\0\x25\0uuid5f2b4e66-0d0c-4c1e-9a55-3f0a7c2d9b12\0";

/// The flags of a thin blob with internal attributes, and of a thin blob that is read-only.
const CHILD: &[u8] = b"\x03\x18\0\0\0\x03\0\0\0\0\0\0\0\0\0\0\0\0\0\0\0\0\0\0\0\0\0\0\0";

const KEPT: &[u8] = b"\x03\x18\0\0\0\x01\0\0\0\0\0\0\0\x01\0\0\0\0\0\0\0\0\0\0\0\0\0\0\0";

/// The parent at head 2.
const PARENT: &[u8] = b"\x04\x10\0\0\0\x04\0\x08\0SNAP\x02\0\0\0\x01\0\0\0";

/// A map of an empty slot and cluster 5, and one of two empty slots.
const ONE_CLUSTER: &[u8] = b"\x01\x10\0\0\0\0\0\0\0\x01\0\0\0\x05\0\0\0\x01\0\0\0";

const NO_CLUSTER: &[u8] = b"\x01\x08\0\0\0\0\0\0\0\x02\0\0\0";

const SUPER_PADDED: &[&[u8]] = &[THICK, PADDED, STORE, STORE_NULS, STORE_UUID];

const V_PADDED: &[&[u8]] = &[CHILD, PADDED, V, NULS, V_UUID, PARENT, ONE_CLUSTER];

const S_PADDED: &[&[u8]] = &[KEPT, PADDED, S, NULS, S_UUID, NO_CLUSTER];

/// The super blob, and a volume whose parent is a snapshot: their names have 64 bytes.
static PADDED_ROWS: [PageRow; 3] = [
    (0, 0, 0, LAST, SUPER_PADDED),
    (1, 1, 0, LAST, V_PADDED),
    (2, 2, 0, LAST, S_PADDED),
];

/// The same with one NUL behind each name.
static PLAIN_ROWS: [PageRow; 3] = [
    (0, 0, 0, LAST, &[THICK, PLAIN_STORE, STORE_UUID]),
    (
        1,
        1,
        0,
        LAST,
        &[CHILD, PLAIN_V, V_UUID, PARENT, ONE_CLUSTER],
    ),
    (2, 2, 0, LAST, &[KEPT, PLAIN_S, S_UUID, NO_CLUSTER]),
];

/// What is listed of each.
const LISTED: &[u8] =
    b"store type LVOLSTORE cluster 16384 clusters 16 free 10 pages 16 free 13 clean 1\n\
    super @0 store0 5f2b4e66-0d0c-4c1e-9a55-3f0a7c2d9b10\n\
    @1 v 5f2b4e66-0d0c-4c1e-9a55-3f0a7c2d9b11 slots 2 own 1 parent @2 thin rw\n\
    @2 s 5f2b4e66-0d0c-4c1e-9a55-3f0a7c2d9b12 slots 2 own 0 parent - thin ro\n";

/// A logical volume store with these blobs, whose super block tells this size of an I/O unit.
fn store(alloc: Global, rows: &[PageRow], io_unit_size: u32) -> Result<MemDisk, Fail> {
    let mut disk = image_with_super(alloc, (64, 16), 1 << 32, rows)?;
    patch_super(&mut disk, 56, b"LVOLSTORE\0\0\0\0\0\0\0")?;
    patch_super(&mut disk, 88, &io_unit_size.to_le_bytes())?;
    Ok(disk)
}

/// A script of their names, and what is printed of it.
const NAMES: &[u8] =
    b"0 create v 1 thin\n0 info s\n0 info store0\n0 rename v s\n0 rename v store0\n0 list\n";

const ANSWERS: &[u8] =
    b"0 0 name taken\n0 1 volume @2 s slots 2 parent - thin ro xattrs 2\n0 2 no volume\n0 3 name taken\n0 4 ok\n\
    0 5 list 2\nvolume @1 store0 slots 2 parent @2 thin rw xattrs 2\n\
    volume @2 s slots 2 parent - thin ro xattrs 2\n";

/// Expects what is listed of a store, and which names its volumes have in a script.
fn expect_names(alloc: Global, disk: MemDisk) -> Result<(), Fail> {
    play(alloc, NAMES, ANSWERS, expect_listed(alloc, LISTED, disk)?)?;
    Ok(())
}

#[test]
fn padded_names_and_another_io_unit_list_the_same_volumes(rt: HostRuntime) -> Result<(), Fail> {
    let alloc = rt.alloc();
    for io_unit_size in [4096u32, 512] {
        expect_names(alloc, store(alloc, &PLAIN_ROWS, io_unit_size)?)?;
        expect_names(alloc, store(alloc, &PADDED_ROWS, io_unit_size)?)?;
    }
    Ok(())
}
