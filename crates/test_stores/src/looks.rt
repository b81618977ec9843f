//! What a device is found to hold.

use crate::images::{PageRow, image};
use page_disk::{MemDisk, Page, PageDisk};
use running_store::Loaded;
use std::alloc::Global;
use std::test::Fail;
use unclean_load::load;

/// A head, and the places of its chain.
pub type ChainRow<'a> = (u32, &'a [u32]);

/// Expects that the blobs at these heads have these chains, once the store is loaded, that no other metadata page is in
/// use, and that no blob is marked, or fails.
pub fn expect_chains(alloc: Global, disk: MemDisk, wanted: &[ChainRow<'_>]) -> Result<(), Fail> {
    let Ok(loaded) = load(alloc, disk) else {
        return Err(Fail::new("the store is not loaded"));
    };
    let Loaded {
        disk: _,
        sup: _,
        metas: _,
        removed: _,
        marked,
        chains,
        repairs: _,
        masks,
        quick: _,
    } = loaded;
    if marked.next_from(0).is_some() {
        return Err(Fail::new("a blob is marked"));
    }
    for (head, chain) in wanted {
        let is_there = match chains.get(*head) {
            Some(places) => places.as_slice() == *chain,
            None => false,
        };
        if !is_there {
            return Err(Fail::new(format_args!("the blob at {head} has another chain")));
        }
    }
    for place in 0..masks.pages.len() {
        let is_wanted = wanted.iter().any(|(_, chain)| chain.contains(&place));
        if masks.pages.get(place) != is_wanted {
            return Err(Fail::new(format_args!("page {place} is in use: {}", !is_wanted)));
        }
    }
    Ok(())
}

/// Reads a page of a device.
fn page_at(disk: &mut MemDisk, at: u64) -> Result<Page, Fail> {
    if at >= disk.pages() {
        return Err(Fail::new(format_args!("the device has no page {at}")));
    }
    let mut page = [0; 4096];
    disk.read(at, &mut page)?;
    Ok(page)
}

/// Whether two devices hold the same pages from the first on up to another.
pub fn are_same(one: &mut MemDisk, other: &mut MemDisk, end: u64) -> Result<bool, Fail> {
    for at in 0..end {
        if page_at(one, at)? != page_at(other, at)? {
            return Ok(false);
        }
    }
    Ok(true)
}

/// Whether a page of a device has zeros alone.
pub fn is_zeros(disk: &mut MemDisk, at: u64) -> Result<bool, Fail> {
    Ok(page_at(disk, at)? == [0; 4096])
}

/// Reads a metadata page of a device whose metadata region begins at page 4.
fn md_page_at(disk: &mut MemDisk, place: u32) -> Result<Page, Fail> {
    page_at(disk, 4 + u64::from(place))
}

/// Expects that of so many metadata pages these are written, and that the others have zeros, or fails.
pub fn expect_written(disk: &mut MemDisk, md_pages: u32, wanted: &[u32]) -> Result<(), Fail> {
    for place in 0..md_pages {
        let is_written = md_page_at(disk, place)? != [0; 4096];
        if is_written != wanted.contains(&place) {
            return Err(Fail::new(format_args!("page {place} is written: {is_written}")));
        }
    }
    Ok(())
}

/// Expects that of so many metadata pages of a device these are as given, and that the others have zeros, or fails.
pub fn expect_rows(
    alloc: Global,
    disk: &mut MemDisk,
    md_pages: u32,
    rows: &[PageRow],
) -> Result<(), Fail> {
    let mut wanted = image(alloc, (disk.pages(), md_pages), rows)?;
    for place in 0..md_pages {
        if md_page_at(disk, place)? != md_page_at(&mut wanted, place)? {
            return Err(Fail::new(format_args!("page {place} is another one")));
        }
    }
    Ok(())
}

/// Where the value of the first attribute stands in the head's page, after the flags.
const VALUE: usize = 59;

/// The first byte of the value of the first attribute, named `owner`, of the blob at place 0.
pub fn first_value(disk: &mut MemDisk) -> Result<u8, Fail> {
    Ok(md_page_at(disk, 0)?[VALUE])
}
