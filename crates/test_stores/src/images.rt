//! Devices with a store.

use md_page::MdPage;
use page_disk::{MemDisk, Page, PageDisk, WriteKind};
use std::alloc::Global;
use std::test::Fail;
use super_block::{Layout, write_super};

/// The number that stands for no next page.
pub const LAST: u32 = 0xFFFF_FFFF;

/// One metadata page: its place in the region, the head of its blob, its sequence, its next place and its descriptors.
pub type PageRow = (u32, u32, u32, u32, &'static [&'static [u8]]);

/// Flags of zeros.
pub const THICK: &[u8] = b"\x03\x18\0\0\0\0\0\0\0\0\0\0\0\0\0\0\0\0\0\0\0\0\0\0\0\0\0\0\0";

/// The flags of a thin blob.
pub const THIN: &[u8] = b"\x03\x18\0\0\0\x01\0\0\0\0\0\0\0\0\0\0\0\0\0\0\0\0\0\0\0\0\0\0\0";

/// The flags of a blob whose data is read-only.
pub const READ_ONLY: &[u8] = b"\x03\x18\0\0\0\0\0\0\0\0\0\0\0\x01\0\0\0\0\0\0\0\0\0\0\0\0\0\0\0";

/// The name `v` and the uuid 11223344-5566-4788-99aa-bbccddeeff00: with the flags 94 bytes.
pub const NAMED: &[u8] = b"\x02\x0A\0\0\0\x04\0\x02\0namev\0\
    \x02\x2D\0\0\0\x04\0\x25\0uuid11223344-5566-4788-99aa-bbccddeeff00\0";

/// An attribute `k` with a value of 4062 times the letter x: they fill the page.
const KEY: &[u8] = b"\x02\xE3\x0F\0\0\x01\0\xDE\x0Fk";

const LETTERS: &[u8] = &[b'x'; 4062];

/// The runs of a map, four empty slots and the clusters 7 to 9: 21 bytes.
const RUNS: &[u8] = b"\x01\x10\0\0\0\0\0\0\0\x04\0\0\0\x07\0\0\0\x03\0\0\0";

/// The descriptors one after another, and then zeros.
fn body_of(parts: &[&[u8]]) -> [u8; 4072] {
    let mut body = [0; 4072];
    let mut at: usize = 0;
    for part in parts {
        let end = at.saturating_add(part.len());
        if end <= 4072 {
            body[at..end].copy_from_slice(part);
            at = end;
        }
    }
    body
}

/// Writes a page of a device whole.
fn put(disk: &mut MemDisk, at: u64, page: &Page) -> Result<(), Fail> {
    if at >= disk.pages() {
        return Err(Fail::new(format_args!("the device has no page {at}")));
    }
    disk.write(at, page, WriteKind::Whole)?;
    Ok(())
}

/// Writes a metadata page to a device whose metadata region begins at page 4.
fn put_row(disk: &mut MemDisk, row: PageRow) -> Result<(), Fail> {
    let (place, head, sequence, next, parts) = row;
    let md = MdPage {
        id: (1 << 32) + u64::from(head),
        sequence,
        body: body_of(parts),
        next,
    };
    let mut page: Page = [0; 4096];
    md_page::write(&md, &mut page);
    put(disk, 4 + u64::from(place), &page)
}

/// Writes the super block of a store that has clusters of 4 pages, so many metadata pages, and this super blob.
fn put_super(disk: &mut MemDisk, md_pages: u32, super_blob: u64) -> Result<(), Fail> {
    let sup = Layout::plan(disk.pages(), 4, Some(md_pages))?.new_super(super_blob, [0; 16]);
    let mut page: Page = [0; 4096];
    write_super(&sup, &mut page);
    put(disk, 0, &page)
}

/// A device of so many pages with a store, which has clusters of 4 pages and so many metadata pages from page 4 on,
/// with these in them. Its masks are zeros, and it has no super blob.
pub fn image(alloc: Global, sizes: (u64, u32), rows: &[PageRow]) -> Result<MemDisk, Fail> {
    image_with_super(alloc, sizes, u64::MAX, rows)
}

/// Such a device, where the super block names the blob with this id as the super blob.
pub fn image_with_super(
    alloc: Global,
    sizes: (u64, u32),
    super_blob: u64,
    rows: &[PageRow],
) -> Result<MemDisk, Fail> {
    let (pages, md_pages) = sizes;
    let mut disk = MemDisk::new(alloc, pages, 128)?;
    put_super(&mut disk, md_pages, super_blob)?;
    for row in rows {
        put_row(&mut disk, *row)?;
    }
    disk.flush()?;
    Ok(disk)
}

/// Writes pages of other bytes than zeros to a device, from one on up to another, and flushes it.
pub fn fill(disk: &mut MemDisk, from: u64, end: u64) -> Result<(), Fail> {
    for at in from..end {
        put(disk, at, &[0xAB; 4096])?;
    }
    disk.flush()?;
    Ok(())
}

/// A device of 64 pages whose only blob, at place 0 of 16, has flags of zeros and no attribute.
pub fn store(alloc: Global) -> Result<MemDisk, Fail> {
    image(alloc, (64, 16), &[(0, 0, 0, LAST, &[THICK])])
}

/// The device with two such blobs, at places 0 and 1.
pub fn two_blobs(alloc: Global) -> Result<MemDisk, Fail> {
    let rows: [PageRow; 2] = [(0, 0, 0, LAST, &[THICK]), (1, 1, 0, LAST, &[THICK])];
    image(alloc, (64, 16), &rows)
}

/// The device whose only blob, at place 0, is a volume with a name, a uuid, a value `k` of 4062 times the letter x, and
/// a map: a chain of three pages, at the places 0 to 2.
pub fn volume(alloc: Global, md_pages: u32) -> Result<MemDisk, Fail> {
    let rows: [PageRow; 3] = [
        (0, 0, 0, 1, &[THIN, NAMED]),
        (1, 0, 1, 2, &[KEY, LETTERS]),
        (2, 0, 2, LAST, &[RUNS]),
    ];
    image(alloc, (64, md_pages), &rows)
}
