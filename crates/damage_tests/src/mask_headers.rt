//! Clean stores with masks written by hand: by which they are loaded, unless a header is another one.

use crate::whole_stores::parts_on;
use page_disk::{MemDisk, Page, PageDisk, WriteKind};
use std::alloc::Global;
use std::test::Fail;
use test_stores::{LAST, THIN, image};

/// The first bytes of the masks of used pages, clusters and heads, of 16 bits each: a blob has page 0 and no cluster,
/// and five clusters are fixed.
const MASKS: [[u8; 7]; 3] = [
    [0, 16, 0, 0, 0, 1, 0],
    [1, 16, 0, 0, 0, 0b0001_1111, 0],
    [2, 16, 0, 0, 0, 1, 0],
];

/// The masks, a byte in the header of one of them, and another value that it has: of its type, and of its length.
const HEADERS: [(usize, usize, u8); 9] = [
    (0, 0, 1),
    (0, 1, 15),
    (0, 4, 1),
    (1, 0, 2),
    (1, 1, 17),
    (1, 3, 1),
    (2, 0, 0),
    (2, 1, 0),
    (2, 2, 1),
];

/// The mask at this place of the list, but for one byte, if one is given.
fn mask_page(mask: usize, other: Option<(usize, u8)>) -> Page {
    let mut page: Page = [0; 4096];
    if let Some(bytes) = MASKS.get(mask) {
        page[..7].copy_from_slice(bytes);
    }
    if let Some((at, value)) = other {
        if let Some(byte) = page.get_mut(at) {
            *byte = value;
        }
    }
    page
}

/// A clean store of a blob of one page, with these masks, one of which has another byte.
fn store(alloc: Global, other: (usize, usize, u8)) -> Result<MemDisk, Fail> {
    let (changed, at, value) = other;
    let mut disk = image(alloc, (64, 16), &[(0, 0, 0, LAST, &[THIN])])?;
    for mask in 0..3 {
        let byte = if mask == changed {
            Some((at, value))
        } else {
            None
        };
        let place = mask as u64 + 1;
        if place < disk.pages() {
            disk.write(place, &mask_page(mask, byte), WriteKind::Whole)?;
        }
    }
    disk.flush()?;
    Ok(disk)
}

/// Whether a store is loaded by its masks.
fn is_quick(alloc: Global, disk: MemDisk) -> Result<bool, Fail> {
    let (_, _, _, quick) = parts_on(alloc, disk)?;
    Ok(quick)
}

/// No header is a fault: the store is scanned.
#[test]
fn masks_are_read_by_their_headers(rt: HostRuntime) -> Result<(), Fail> {
    let alloc = rt.alloc();
    assert!(rt; is_quick(alloc, store(alloc, (0, 0, 0))?)?);
    for other in HEADERS {
        assert!(rt; !is_quick(alloc, store(alloc, other)?)?);
    }
    Ok(())
}
