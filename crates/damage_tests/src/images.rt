//! Devices with a store, made byte by byte, and what is wrong with them.

use crate::parts::{Part, body_of};
use page_disk::{MemDisk, Page, PageDisk, WriteKind};
use std::alloc::Global;
use std::test::Fail;

/// The number that stands for no next page.
pub(crate) const LAST: u32 = 0xFFFF_FFFF;

/// The id of the blob whose head is at place 0. That of a head at another place is so much greater.
pub(crate) const ID: u64 = 1 << 32;

/// The fields of a super block up to its rest. The store has 64 pages and clusters of 4 pages, the masks of pages, of
/// clusters and of blobs at the pages 1, 2 and 3, and 16 metadata pages from page 4 on. It isn't clean, and has no
/// super blob.
const SUPER: &[u8; 96] =
    b"SPDKBLOB\x03\0\0\0\0\x10\0\0\0\0\0\0\xFF\xFF\xFF\xFF\xFF\xFF\xFF\xFF\0\x40\0\0\
    \x01\0\0\0\x01\0\0\0\x02\0\0\0\x01\0\0\0\x04\0\0\0\x10\0\0\0\0\0\0\0\0\0\0\0\0\0\0\0\0\0\0\0\
    \x03\0\0\0\x01\0\0\0\0\0\x04\0\0\0\0\0\0\x10\0\0\0\0\0\0";

/// A metadata page: its place in the region, the id of its blob, its sequence, its next place and its descriptors.
pub(crate) type MdRow = (u32, u64, u32, u32, &'static [Part]);

/// A device with a store, and what is wrong with it.
#[derive(Clone, Copy)]
pub(crate) struct Image<'a> {
    /// How many pages the device has.
    pub pages: u64,
    /// Words of 4 bytes in the super block that are other ones, by their places.
    pub words: &'static [(usize, u32)],
    /// The first bytes of the masks' pages that aren't zeros, by the device's page.
    pub masks: &'static [(u64, &'static [u8])],
    /// The metadata pages that aren't zeros.
    pub rows: &'a [MdRow],
    /// Bytes of which a bit is turned behind the pages' sums, by the device's page and the place in it.
    pub turned: &'static [(u64, usize)],
}

/// The store with which nothing is wrong, and which has no blob.
pub(crate) const SMALL: Image<'static> = Image {
    pages: 64,
    words: &[],
    masks: &[],
    rows: &[],
    turned: &[],
};

/// Writes bytes at a place of a page.
fn put_bytes(page: &mut Page, at: usize, bytes: &[u8]) -> Result<(), Fail> {
    let end = at.saturating_add(bytes.len());
    if end > 4096 {
        return Err(Fail::new(format_args!("a page has no byte {end}")));
    }
    page[at..end].copy_from_slice(bytes);
    Ok(())
}

/// Writes a page to a device.
fn put(disk: &mut MemDisk, at: u64, page: &Page) -> Result<(), Fail> {
    if at >= disk.pages() {
        return Err(Fail::new(format_args!("the device has no page {at}")));
    }
    disk.write(at, page, WriteKind::Whole)?;
    Ok(())
}

/// Writes the sum at the end of a page, and the page to a device.
fn put_summed(disk: &mut MemDisk, at: u64, page: &mut Page) -> Result<(), Fail> {
    let sum = crc32c::sum(&page[..4092]);
    put_bytes(page, 4092, &sum.to_le_bytes())?;
    put(disk, at, page)
}

/// Writes the super block with these words to a device.
fn put_super(disk: &mut MemDisk, words: &[(usize, u32)]) -> Result<(), Fail> {
    let mut page: Page = [0; 4096];
    put_bytes(&mut page, 0, SUPER)?;
    for (at, word) in words {
        put_bytes(&mut page, *at, &word.to_le_bytes())?;
    }
    put_summed(disk, 0, &mut page)
}

/// Writes a page that begins with these bytes to a device.
fn put_front(disk: &mut MemDisk, at: u64, front: &[u8]) -> Result<(), Fail> {
    let mut page: Page = [0; 4096];
    put_bytes(&mut page, 0, front)?;
    put(disk, at, &page)
}

/// Writes a metadata page to a device whose metadata region begins at page 4.
fn put_row(alloc: Global, disk: &mut MemDisk, row: &MdRow) -> Result<(), Fail> {
    let (place, id, sequence, next, parts) = *row;
    let mut page: Page = [0; 4096];
    put_bytes(&mut page, 16, &body_of(alloc, parts)?)?;
    put_bytes(&mut page, 0, &id.to_le_bytes())?;
    put_bytes(&mut page, 8, &sequence.to_le_bytes())?;
    put_bytes(&mut page, 4088, &next.to_le_bytes())?;
    put_summed(disk, 4 + u64::from(place), &mut page)
}

fn put_rows(alloc: Global, disk: &mut MemDisk, rows: &[MdRow]) -> Result<(), Fail> {
    for row in rows {
        put_row(alloc, disk, row)?;
    }
    Ok(())
}

/// Reads a page of a device.
pub(crate) fn page_at(disk: &mut MemDisk, at: u64) -> Result<Page, Fail> {
    if at >= disk.pages() {
        return Err(Fail::new(format_args!("the device has no page {at}")));
    }
    let mut page: Page = [0; 4096];
    disk.read(at, &mut page)?;
    Ok(page)
}

/// Turns the lowest bit of a byte of a device.
fn turn(disk: &mut MemDisk, at: u64, place: usize) -> Result<(), Fail> {
    let mut page = page_at(disk, at)?;
    let byte = page.get(place).copied().ok_or("the page has no such byte")?;
    put_bytes(&mut page, place, &[byte ^ 1])?;
    put(disk, at, &page)
}

fn turn_all(disk: &mut MemDisk, turned: &[(u64, usize)]) -> Result<(), Fail> {
    for (at, place) in turned {
        turn(disk, *at, *place)?;
    }
    Ok(())
}

fn put_fronts(disk: &mut MemDisk, masks: &[(u64, &[u8])]) -> Result<(), Fail> {
    for (at, front) in masks {
        put_front(disk, *at, front)?;
    }
    Ok(())
}

/// Writes an image to a device.
fn put_image(alloc: Global, disk: &mut MemDisk, image: &Image<'_>) -> Result<(), Fail> {
    put_super(disk, image.words)?;
    put_fronts(disk, image.masks)?;
    put_rows(alloc, disk, image.rows)?;
    turn_all(disk, image.turned)?;
    disk.flush()?;
    Ok(())
}

/// The device of an image.
pub(crate) fn device(alloc: Global, image: &Image<'_>) -> Result<MemDisk, Fail> {
    let mut disk = MemDisk::new(alloc, image.pages, 128)?;
    put_image(alloc, &mut disk, image)?;
    Ok(disk)
}
