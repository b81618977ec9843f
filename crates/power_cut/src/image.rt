//! An image file, whose pages are read into a disk in memory and written back.

use anyhow::{Result, bail};
use page_disk::{MemDisk, Page, PageDisk, WriteKind};
use std::alloc::Global;
use std::fs::File;
use std::os::unix::fs::FileExt;

/// A file of pages of 4096 bytes. What is behind its last whole page is left alone.
#[derive(Drop)]
pub struct Image {
    file: File,
    pages: u32,
}

impl Image {
    /// The image in a file that was opened to be read and written.
    pub fn new(file: File) -> Result<Image> {
        let pages = u32::try_from(file.metadata()?.len() / 4096)?;
        Ok(Image { file, pages })
    }

    /// A disk with the pages of the image, flushed, and with room for so many calls more.
    pub fn read(&self, alloc: Global, calls: u32) -> Result<MemDisk> {
        let room = self.pages.saturating_add(calls).saturating_add(1);
        let Ok(mut disk) = MemDisk::new(alloc, u64::from(self.pages), room) else {
            bail!("no memory for the image");
        };
        for at in 0..self.pages {
            let mut page: Page = [0; 4096];
            self.file.read_exact_at(&mut page, u64::from(at) * 4096)?;
            put(&mut disk, u64::from(at), &page)?;
        }
        if disk.flush().is_err() {
            bail!("the disk in memory has no room");
        }
        Ok(disk)
    }

    /// Writes the pages of a disk to the image.
    pub fn write(&self, disk: &mut MemDisk) -> Result<()> {
        for at in 0..self.pages {
            let page = page_of(disk, u64::from(at))?;
            self.file.write_all_at(&page, u64::from(at) * 4096)?;
        }
        self.file.sync_all()?;
        Ok(())
    }
}

fn put(disk: &mut MemDisk, at: u64, page: &Page) -> Result<()> {
    if at < disk.pages() && disk.write(at, page, WriteKind::Whole).is_ok() {
        return Ok(());
    }
    bail!("the disk in memory has no room");
}

fn page_of(disk: &mut MemDisk, at: u64) -> Result<Page> {
    let mut page = [0; 4096];
    if at < disk.pages() && disk.read(at, &mut page).is_ok() {
        return Ok(page);
    }
    bail!("the disk in memory has no page {at}");
}
