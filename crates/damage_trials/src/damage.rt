//! Damage that is drawn, and done to an image.

use anyhow::{Context, Result, bail};
use page_disk::{MemDisk, Page, PageDisk, WriteKind};
use rand::RngExt;
use rand_pcg::Pcg32;

/// The super block, the masks and the metadata region have the pages before this one.
const DATA: u64 = 20;

/// What is done to an image. Pages are numbered from its begin, bytes from that of their page.
#[derive(Clone, Copy)]
enum Damage {
    /// A byte is another one.
    Byte { page: u64, at: usize, byte: u8 },
    /// A byte is another one, and the page's checksum is made right.
    Summed { page: u64, at: usize, byte: u8 },
    /// A page is written over another.
    Copied { from: u64, to: u64 },
}

/// A place in a page: seldom one that has no field of a super block, of a metadata page or of a descriptor.
fn drawn_place(draws: &mut Pcg32) -> usize {
    match draws.random_range(0u32..8) {
        0 | 1 | 2 => draws.random_range(0usize..96),
        3 | 4 | 5 => draws.random_range(16usize..300),
        6 => draws.random_range(4088usize..4096),
        _ => draws.random_range(0usize..4096),
    }
}

/// A byte, often one at an end of a range.
fn drawn_byte(draws: &mut Pcg32) -> u8 {
    match draws.random_range(0u32..6) {
        0 => 0,
        1 => 1,
        2 => 255,
        _ => draws.random_range(0u8..255),
    }
}

/// A page before the data, seldom one of the metadata region's later half.
fn drawn_page(draws: &mut Pcg32) -> u64 {
    match draws.random_range(0u32..4) {
        0 => draws.random_range(0u64..DATA),
        _ => draws.random_range(0u64..10),
    }
}

impl Damage {
    fn drawn(draws: &mut Pcg32) -> Damage {
        let page = drawn_page(draws);
        let (at, byte) = (drawn_place(draws), drawn_byte(draws));
        match draws.random_range(0u32..6) {
            0 => Damage::Byte { page, at, byte },
            1 => Damage::Copied {
                from: page,
                to: drawn_page(draws),
            },
            _ => Damage::Summed { page, at, byte },
        }
    }

    /// Does it to a device.
    fn done(self, disk: &mut MemDisk) -> Result<()> {
        match self {
            Damage::Byte { page, at, byte } => {
                let mut content = read(disk, page)?;
                set(&mut content, at, byte)?;
                write(disk, page, &content)
            }
            Damage::Summed { page, at, byte } => {
                let mut content = read(disk, page)?;
                set(&mut content, at, byte)?;
                sum_up(&mut content);
                write(disk, page, &content)
            }
            Damage::Copied { from, to } => {
                let content = read(disk, from)?;
                write(disk, to, &content)
            }
        }
    }
}

fn set(page: &mut Page, at: usize, byte: u8) -> Result<()> {
    let place = page.get_mut(at).context("a page has no such byte")?;
    *place = byte;
    Ok(())
}

/// Makes the checksum of a page right.
fn sum_up(page: &mut Page) {
    let sum = crc32c::sum(&page[..4092]);
    page[4092..].copy_from_slice(&sum.to_le_bytes());
}

fn read(disk: &mut MemDisk, page: u64) -> Result<Page> {
    let mut content = [0; 4096];
    if page >= disk.pages() || disk.read(page, &mut content).is_err() {
        bail!("page {page} can't be read");
    }
    Ok(content)
}

fn write(disk: &mut MemDisk, page: u64, content: &Page) -> Result<()> {
    if page >= disk.pages() || disk.write(page, content, WriteKind::Whole).is_err() {
        bail!("page {page} can't be written");
    }
    Ok(())
}

/// A copy of a store's device, with one to four damages.
pub fn damaged(store: &MemDisk, draws: &mut Pcg32) -> Result<MemDisk> {
    let Ok(mut disk) = store.crash(0) else {
        bail!("no memory for an image");
    };
    for _ in 0..draws.random_range(1u32..5) {
        Damage::drawn(draws).done(&mut disk)?;
    }
    Ok(disk)
}
