//! Stores that are marked as in use, and unloaded, on a disk that stops.

ghost use Rattle.std.specs.Prelude.{◌≡◌, length, IfOk};

use crate::masks::set_of_three;
use crate::super_page::small;
use bit_array::Memory;
use clean_stop::{mark_dirty, unload, unloaded_masks_are_read};
use page_disk::{CallKind, FaultDisk, MemDisk, Page, PageDisk, WriteKind};
use std::alloc::Global;
use std::process::Abort;
use std::test::Fail;
use super_block::{Masks, read_super, write_super};

/// The pages that the tests look at beside the super block and the masks: those behind the masks' regions and in them,
/// metadata and data.
const OTHERS: [u64; 5] = [1, 4, 19, 21, 63];

/// The pages of the masks of an unloaded store, and how each begins.
const MASK_TEXTS: [(u64, [u8; 8]); 3] = [
    (20, [0x00, 0x10, 0, 0, 0, 0x03, 0x02, 0]),
    (2, [0x01, 0x10, 0, 0, 0, 0x81, 0x80, 0]),
    (3, [0x02, 0x10, 0, 0, 0, 0x01, 0x02, 0]),
];

/// The page of the small store's super block, with this `clean`, and with a page mask of two pages behind the metadata.
fn super_page(clean: u32) -> Page {
    let mut sup = small();
    sup.clean = clean;
    sup.used_page_mask_start = 20;
    sup.used_page_mask_len = 2;
    let mut page = [0; 4096];
    write_super(&sup, &mut page);
    page
}

/// What a page of the disk holds.
fn read(rt: &impl Abort, disk: &mut MemDisk, at: u64) -> Result<Page, Fail> {
    assert!(rt; at < disk.pages());
    let mut page = [0; 4096];
    disk.read(at, &mut page)?;
    Ok(page)
}

fn write(rt: &impl Abort, disk: &mut MemDisk, at: u64, page: &Page) -> Result<(), Fail> {
    assert!(rt; at < disk.pages());
    disk.write(at, page, WriteKind::Whole)?;
    Ok(())
}

/// Puts the store of this super block on a disk, and sevens in the other pages.
fn fill(rt: &impl Abort, disk: &mut MemDisk, super_page: &Page) -> Result<(), Fail> {
    write(rt, disk, 0, super_page)?;
    for page in OTHERS {
        write(rt, disk, page, &[7; 4096])?;
    }
    disk.flush()?;
    Ok(())
}

/// A disk of 64 pages with the store that has this `clean`, which makes so many calls and then stops.
fn stopping(
    rt: &impl Abort,
    alloc: Global,
    clean: u32,
    calls: u64,
) -> Result<FaultDisk<MemDisk>, Fail> {
    let mut disk = MemDisk::new(alloc, 64, 20)?;
    fill(rt, &mut disk, &super_page(clean))?;
    Ok(FaultDisk::stopping(disk, calls))
}

/// The used metadata pages 0, 1 and 9, the used clusters 0, 7 and 15, and the heads 0 and 9.
fn masks(alloc: Global) -> Result<Masks, Memory>
    ensures pages { IfOk result (λ masks. length masks.pages ≡ 16) }
    ensures clusters { IfOk result (λ masks. length masks.clusters ≡ 16) }
    ensures blobs { IfOk result (λ masks. length masks.blobs ≡ 16) }
{
    Ok(Masks {
        pages: set_of_three(alloc, 16, 0, 1, 9)?,
        clusters: set_of_three(alloc, 16, 0, 7, 15)?,
        blobs: set_of_three(alloc, 16, 0, 9, 9)?,
    })
}

/// Expects that the super block on the disk has this `clean`.
fn expect_clean(rt: &impl Abort, disk: &mut MemDisk, clean: u32) -> Result<(), Fail> {
    assert!(rt; read(rt, disk, 0)? == super_page(clean));
    Ok(())
}

/// What a crash leaves of a disk.
fn left(disk: FaultDisk<MemDisk>, pick: u64) -> Result<MemDisk, Fail> {
    Ok(disk.into_inner().crash(pick)?)
}

/// Marks the clean store, and expects whether that is done.
fn expect_mark(rt: &impl Abort, disk: &mut FaultDisk<MemDisk>, is_done: bool) -> Result<(), Fail> {
    let mut sup = read_super(&super_page(1), 64)?;
    assert!(rt; sup.device_pages == disk.pages());
    assert!(rt; mark_dirty(disk, &mut sup).is_ok() == is_done);
    assert!(rt; sup.clean == if is_done { 0 } else { 1 });
    Ok(())
}

/// The disk that such a mark and a crash leave.
fn left_by_mark(rt: &impl Abort, alloc: Global, calls: u64, pick: u64) -> Result<MemDisk, Fail> {
    let mut disk = stopping(rt, alloc, 1, calls)?;
    expect_mark(rt, &mut disk, calls == 3)?;
    left(disk, pick)
}

#[test]
fn a_mark_that_stops_leaves_the_old_super_block_or_the_new_one(
    rt: HostRuntime,
) -> Result<(), Fail> {
    for calls in 0..4 {
        for pick in 0..16 {
            let is_marked = calls == 3 || (calls == 2 && pick % 4 == 1);
            let mut left = left_by_mark(&rt, rt.alloc(), calls, pick)?;
            expect_clean(&rt, &mut left, if is_marked { 0 } else { 1 })?;
        }
    }
    Ok(())
}

/// Unloads the store that has this `clean`, and expects whether that is done.
fn expect_unload(
    rt: &impl Abort,
    alloc: Global,
    disk: &mut FaultDisk<MemDisk>,
    clean: u32,
    is_done: bool,
) -> Result<(), Fail> {
    let mut sup = read_super(&super_page(clean), 64)?;
    assert!(rt; sup.device_pages == disk.pages());
    assert!(rt; sup.md_len == 16 && sup.clusters() == 16);
    let masks = masks(alloc)?;
    assert!(rt; unload(disk, &mut sup, &masks).is_ok() == is_done);
    Ok(())
}

/// The disk that such an unload of a store in use and a crash leave.
fn left_by_unload(rt: &impl Abort, alloc: Global, calls: u64, pick: u64) -> Result<MemDisk, Fail> {
    let mut disk = stopping(rt, alloc, 0, calls)?;
    expect_unload(rt, alloc, &mut disk, 0, calls == 6)?;
    left(disk, pick)
}

/// Expects the texts of the masks.
fn expect_masks(rt: &impl Abort, disk: &mut MemDisk) -> Result<(), Fail> {
    for (at, text) in MASK_TEXTS {
        assert!(rt; read(rt, disk, at)?[..8] == text[..]);
    }
    Ok(())
}

/// Expects that the other pages hold sevens.
fn expect_others(rt: &impl Abort, disk: &mut MemDisk) -> Result<(), Fail> {
    for at in OTHERS {
        assert!(rt; read(rt, disk, at)? == [7; 4096]);
    }
    Ok(())
}

/// Expects an unloaded store, or one that is in use.
fn expect_left(rt: &impl Abort, disk: &mut MemDisk, is_clean: bool) -> Result<(), Fail> {
    expect_clean(rt, disk, if is_clean { 1 } else { 0 })?;
    if is_clean {
        expect_masks(rt, disk)?;
    }
    expect_others(rt, disk)
}

#[test]
fn an_unload_that_stops_leaves_the_old_super_block_or_whole_masks(
    rt: HostRuntime,
) -> Result<(), Fail> {
    unloaded_masks_are_read();
    for calls in 0..7 {
        for pick in 0..16 {
            let is_clean = calls == 6 || (calls == 5 && pick % 4 == 1);
            let mut left = left_by_unload(&rt, rt.alloc(), calls, pick)?;
            expect_left(&rt, &mut left, is_clean)?;
        }
    }
    Ok(())
}

fn expect_flush_alone(rt: &impl Abort, disk: &FaultDisk<MemDisk>) {
    assert!(rt; disk.calls(CallKind::Write) == 0);
    assert!(rt; disk.calls(CallKind::Flush) == 1);
}

#[test]
fn a_clean_store_is_flushed_and_no_more(rt: HostRuntime) -> Result<(), Fail> {
    let mut disk = stopping(&rt, rt.alloc(), 1, 1)?;
    expect_unload(&rt, rt.alloc(), &mut disk, 1, true)?;
    expect_flush_alone(&rt, &disk);
    Ok(())
}
