//! Pages of devices, as they are and as they are made.

use crc32c::sum;
use page_disk::{MemDisk, Page, PageDisk, WriteKind};
use std::test::Fail;

/// What a page of a device holds.
pub(crate) fn page_at(disk: &mut MemDisk, at: u64) -> Result<Page, Fail> {
    if at >= disk.pages() {
        return Err(Fail::new(format_args!("the device has no page {at}")));
    }
    let mut page = [0; 4096];
    disk.read(at, &mut page)?;
    Ok(page)
}

/// Writes a page of a device whole, and flushes.
pub(crate) fn put_page(disk: &mut MemDisk, at: u64, page: &Page) -> Result<(), Fail> {
    if at >= disk.pages() {
        return Err(Fail::new(format_args!("the device has no page {at}")));
    }
    disk.write(at, page, WriteKind::Whole)?;
    disk.flush()?;
    Ok(())
}

/// Puts bytes into a page.
fn put_bytes(page: &mut Page, at: usize, bytes: &[u8]) -> Result<(), Fail> {
    let end = at.saturating_add(bytes.len());
    if end > 4096 {
        return Err(Fail::new(format_args!("a page has no byte {end}")));
    }
    page[at..end].copy_from_slice(bytes);
    Ok(())
}

/// Puts bytes into a page of a device, and flushes.
pub(crate) fn patch(disk: &mut MemDisk, at: u64, from: usize, bytes: &[u8]) -> Result<(), Fail> {
    let mut page = page_at(disk, at)?;
    put_bytes(&mut page, from, bytes)?;
    put_page(disk, at, &page)
}

/// Puts bytes into the super block of a device, and its checksum, and flushes.
pub(crate) fn patch_super(disk: &mut MemDisk, from: usize, bytes: &[u8]) -> Result<(), Fail> {
    let mut page = page_at(disk, 0)?;
    put_bytes(&mut page, from, bytes)?;
    let summed = page.get(..4092).ok_or("a super block has no checksum")?;
    let checksum = sum(summed);
    put_bytes(&mut page, 4092, &checksum.to_le_bytes())?;
    put_page(disk, 0, &page)
}

/// Bytes of a device: their page, where they begin in it, and what they are.
pub(crate) type BytesRow = (u64, usize, &'static [u8]);

/// Expects that a device has these bytes, or fails.
pub(crate) fn expect_bytes(disk: &mut MemDisk, rows: &[BytesRow]) -> Result<(), Fail> {
    for (at, from, bytes) in rows {
        let page = page_at(disk, *at)?;
        let found = page.get(*from..).ok_or("a page has no such byte")?;
        if !found.starts_with(bytes) {
            return Err(Fail::new(format_args!("page {at} has other bytes from {from} on")));
        }
    }
    Ok(())
}
