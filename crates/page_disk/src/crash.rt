// What a crash may leave of a disk in memory.
ghost use Rattle.std.specs.Prelude.{◌≡◌, ◌⊎◌, ◌≤◌, ◌<◌, ◌-◌, ◌∷◌, [], length, get_or, false, ℕ, List, IfOk, OnOk};
ghost use Rattle.crc32c.specs.Crc.{is_sound};
ghost use Rattle.page_disk.specs.Disk.{Only, with_page};
ghost use Rattle.page_disk.specs.Record.{base_image, record_begun, read_after, image_of, images_of, IsWrite};
ghost use Rattle.page_disk.specs.Record.{ImagesFrom};
ghost use Rattle.page_disk.specs.Crash.{crash_image, left_after, left_of, remains_by, with_unsound, torn_by, TookOrNot};
ghost use Rattle.page_disk.specs.Crash.{TookUnsound};
ghost use Rattle.page_disk.specs.declared.record.Call.TheVariants.{Flush, Write};
ghost use Rattle.page_disk.specs.declared.disk.WriteKind.TheVariants.{Plain};

use crate::record::Call;
use crate::{MemDisk, Memory, Page, WriteKind};
use crc32c::page_ok;
use std::alloc::{AllocError, Global};
use std::collections::HashMap;

/// What a crash leaves of a write that was not flushed.
#[derive(Clone, Copy)]
pub enum Remains {
    Old,
    New,
    /// The new page with these bits of its last byte turned, where the page may be torn and is then not sound.
    Torn { change: u8 },
}

impl MemDisk {
    /// A disk with the same pages and the same room, which begins with one of the images that a crash of this one may
    /// leave.
    ///
    /// What was flushed is there. The pick's lowest two bits say what is left of the last write after the last flush,
    /// the next two of the write before it, and so on; after 32 writes the bits begin anew. 0 leaves the old page and 1
    /// the new one. 2 and 3 leave a torn page of a plain write: the new page with these bits of its last byte turned,
    /// or the old page where that one would be sound. Of a whole write they leave the old page.
    pub fn crash(&self, pick: u64) -> Result<MemDisk, Memory>
        ensures begun { IfOk result (λ d. d ≡ record_begun self.now.pages self.now.room d.base) }
        ensures picked { IfOk result (λ d. image_of d ≡ crash_image pick self.now) }
        ensures image { IfOk result (λ d. images_of self.now (image_of d)) }
        ensures one { IfOk result (λ d. Only (image_of d) (images_of d)) }
    {
        let base = image_left(self.alloc, &self.base, &self.calls, pick)?;
        let disk = MemDisk::over(self.alloc, self.pages, self.room, base)?;
        Ok(disk)
    }
}

fn image_left(
    alloc: Global,
    base: &HashMap<u64, Page>,
    calls: &[Call],
    pick: u64,
) -> Result<HashMap<u64, Page>, AllocError>
    ensures picked { IfOk result
        (λ left. base_image left.entries ≡ left_after pick (base_image base.now.entries)
        (base_image base.now.entries) calls.now) }
    ensures image { IfOk result (λ left. ImagesFrom (base_image base.now.entries) calls.now (base_image left.entries)) }
{
    let flushed = behind_last_flush(calls);
    let mut left = image_read(alloc, base, &calls[..flushed])?;
    for at in flushed..calls.len() {
        let remains = remains_of(pick, calls.len() - 1 - at);
        save_remains(&mut left, &calls[at], remains)?;
    }
    Ok(left)
}

/// How many calls there are up to the last flush.
fn behind_last_flush(calls: &[Call]) -> usize
    ensures within { result ≤ length calls.now }
    ensures behind { (result ≡ 0) ⊎ ((0 < result) × ((d : _) → get_or calls.now (result - 1) d ≡ Flush)) }
    ensures last { (i : ℕ) (d : _) → result ≤ i → i < length calls.now → IsWrite (get_or calls.now i d) }
{
    let mut flushed = 0;
    for at in 0..calls.len() {
        if matches!(calls[at], Call::Flush) {
            flushed = at + 1;
        }
    }
    flushed
}

/// What is read after these calls.
fn image_read(
    alloc: Global,
    base: &HashMap<u64, Page>,
    calls: &[Call],
) -> Result<HashMap<u64, Page>, AllocError>
    ensures { IfOk result (λ left. base_image left.entries ≡ read_after (base_image base.now.entries) calls.now) }
{
    let mut left = copy_of(alloc, base)?;
    for call in calls {
        save_call(&mut left, call)?;
    }
    Ok(left)
}

fn copy_of(alloc: Global, base: &HashMap<u64, Page>) -> Result<HashMap<u64, Page>, AllocError>
    ensures { IfOk result (λ copy. base_image copy.entries ≡ base_image base.now.entries) }
{
    let mut copy = HashMap::with_capacity(alloc, base.len())?;
    copy.extend(base)?;
    Ok(copy)
}

fn save(left: &mut HashMap<u64, Page>, page: u64, content: &Page) -> Result<(), AllocError>
    ensures { OnOk result (base_image left.new.entries ≡ with_page (base_image left.old.entries) page content.now) }
{
    left.insert(page, *content)?;
    Ok(())
}

fn save_call(left: &mut HashMap<u64, Page>, call: &Call) -> Result<(), AllocError>
    ensures { OnOk result (base_image left.new.entries ≡ read_after (base_image left.old.entries) (call.now ∷ [])) }
{
    match call {
        Call::Write { page, content, .. } => save(left, *page, content)?,
        Call::Flush => {}
    }
    Ok(())
}

fn remains_of(pick: u64, behind: usize) -> Remains
    ensures { result ≡ remains_by pick behind }
{
    match (pick >> (2 * (behind % 32))) % 4 {
        0 => Remains::Old,
        1 => Remains::New,
        bits => Remains::Torn { change: bits as u8 },
    }
}

fn save_remains(
    left: &mut HashMap<u64, Page>,
    call: &Call,
    remains: Remains,
) -> Result<(), AllocError>
    ensures left { OnOk result (base_image left.new.entries ≡ left_of remains (base_image left.old.entries) call.now) }
    ensures took { OnOk result (TookOrNot call.now (base_image left.old.entries) (base_image left.new.entries)) }
{
    match call {
        Call::Write {
            page,
            content,
            kind,
        } => match (remains, kind) {
            (Remains::New, _) => save(left, *page, content),
            (Remains::Torn { change }, WriteKind::Plain) => {
                save_unsound(left, *page, &torn_page(content, change))
            }
            (Remains::Old, _) | (Remains::Torn { .. }, WriteKind::Whole) => Ok(()),
        },
        Call::Flush => Ok(()),
    }
}

/// Saves the page unless it is sound.
fn save_unsound(left: &mut HashMap<u64, Page>, page: u64, content: &Page) -> Result<(), AllocError>
    ensures left { OnOk result
        (base_image left.new.entries ≡ with_unsound (base_image left.old.entries) page content.now) }
    ensures took { OnOk result (TookUnsound page (base_image left.old.entries) (base_image left.new.entries)) }
{
    if page_ok(content) {
        return Ok(());
    }
    save(left, page, content)?;
    Ok(())
}

fn torn_page(content: &Page, change: u8) -> Page
    ensures { result ≡ torn_by change content.now }
{
    let mut torn = *content;
    torn[4095] ^= change;
    torn
}
