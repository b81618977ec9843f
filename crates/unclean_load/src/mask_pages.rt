//! The masks of a store, read from its device.

ghost use Rattle.std.specs.Prelude.{◌≡◌, ◌≤◌, ◌<◌, ◌+◌, Bool, List, length, IsNone, IsSome, IsTrue, OnOk};
ghost use Rattle.std.specs.Prelude.{IfOk, IfErr, IfSome};
ghost use Rattle.bit_array.specs.Mask.{mask_pages};
ghost use Rattle.clean_stop.specs.Masks.{MasksFit, SaysMask, SaysMasks};
ghost use Rattle.md_chain.specs.Reading.{OnlyRead};
ghost use Rattle.page_disk.specs.Disk.{Rose};
ghost use Rattle.super_block.specs.Faults.{IsFaultless};
ghost use Rattle.super_block.specs.declared.masks.Masks.{Masks as AllMasks};
ghost use Rattle.unclean_load.specs.Accepted.{IsImageFault};
ghost use Rattle.unclean_load.specs.Reading.{IsOnlyFault};
ghost use Rattle.unclean_load.specs.Reads.{all_mask_pages};

use crate::fault::LoadFault;
use bit_array::{Bits, MaskReader, mask_pages};
use clean_stop::unloaded_masks_are_read;
use page_disk::{Page, PageDisk};
use std::alloc::Global;
use super_block::{Masks, Super, regions_are_placed};

/// The type of the mask of used metadata pages.
const USED_PAGES: u8 = 0;

/// The type of the mask of used clusters.
const USED_CLUSTERS: u8 = 1;

/// The type of the mask of heads.
const HEADS: u8 = 2;

/// A page of the device; `None` where the read failed.
fn page_on<D: PageDisk>(disk: &mut D, at: u64) -> Option<Page>
    requires { at < D.pages disk.old }
    ensures content { IsTrue D.tells → IfSome result (λ page. page ≡ D.now disk.old at) }
    ensures failed { IsNone result → Rose (D.read_faults disk.old) (D.read_faults disk.new) }
    ensures quiet { IsSome result → D.read_faults disk.new ≡ D.read_faults disk.old }
    ensures reads { D.reads disk.new ≤ D.reads disk.old + 1 }
    ensures same { OnlyRead D.PageDisk disk.old disk.new }
{
    let mut page = [0; 4096];
    if disk.read(at, &mut page).is_err() {
        return None;
    }
    Some(page)
}

/// The set of so many bits that the mask of this type says from a page on; `None` where the mask has another type or
/// another number of bits.
fn read_mask<D: PageDisk>(
    alloc: Global,
    disk: &mut D,
    start: u32,
    kind: u8,
    len: u32,
) -> Result<Option<Bits>, LoadFault>
    requires { start + mask_pages len ≤ D.pages disk.old }
    ensures count { IfOk result (λ bits. IfSome bits (λ b. length b ≡ len)) }
    ensures says { IsTrue D.tells → IfOk result (λ bits. IfSome bits (λ b. SaysMask start kind b (D.now disk.old))) }
    ensures none { IsTrue D.tells → IfOk result (λ bits. IsNone bits
        → (b : List Bool) → length b ≡ len → SaysMask start kind b (D.now disk.old) → ⊥) }
    ensures fault { IfErr result (λ e. IsImageFault e → ⊥) }
    ensures counted { IfErr result (λ e. IsOnlyFault (D.read_faults disk.old) (D.read_faults disk.new) e) }
    ensures quiet { OnOk result (D.read_faults disk.new ≡ D.read_faults disk.old) }
    ensures reads { D.reads disk.new ≤ D.reads disk.old + mask_pages len }
    ensures same { OnlyRead D.PageDisk disk.old disk.new }
{
    let mut reader = MaskReader::new(alloc, kind, len)?;
    for index in 0..mask_pages(len) {
        let Some(page) = page_on(disk, u64::from(start) + u64::from(index)) else {
            return Err(LoadFault::ReadFault);
        };
        let Ok(()) = reader.feed(&page) else {
            return Ok(None);
        };
    }
    Ok(Some(reader.done()))
}

/// The three masks; `None` where one of them has another type or another number of bits.
pub fn read_masks<D: PageDisk>(
    alloc: Global,
    disk: &mut D,
    sup: &Super,
) -> Result<Option<Masks>, LoadFault>
    requires faultless { IsFaultless sup.now }
    requires device { sup.now.device_pages ≡ D.pages disk.old }
    ensures fit { IfOk result (λ masks. IfSome masks (MasksFit sup.now)) }
    ensures says { IsTrue D.tells → IfOk result (λ masks. IfSome masks (λ m. SaysMasks sup.now m (D.now disk.old))) }
    ensures none { IsTrue D.tells → IfOk result (λ masks. IsNone masks
        → (m : AllMasks) → SaysMasks sup.now m (D.now disk.old) → ⊥) }
    ensures fault { IfErr result (λ e. IsImageFault e → ⊥) }
    ensures counted { IfErr result (λ e. IsOnlyFault (D.read_faults disk.old) (D.read_faults disk.new) e) }
    ensures quiet { OnOk result (D.read_faults disk.new ≡ D.read_faults disk.old) }
    ensures reads { D.reads disk.new ≤ D.reads disk.old + all_mask_pages sup.now }
    ensures same { OnlyRead D.PageDisk disk.old disk.new }
{
    regions_are_placed();
    unloaded_masks_are_read();
    let md_len = sup.md_len;
    let Some(pages) = read_mask(alloc, disk, sup.used_page_mask_start, USED_PAGES, md_len)? else {
        return Ok(None);
    };
    let Some(clusters) = read_mask(
        alloc,
        disk,
        sup.used_cluster_mask_start,
        USED_CLUSTERS,
        sup.clusters(),
    )?
    else {
        return Ok(None);
    };
    let Some(blobs) = read_mask(alloc, disk, sup.used_blobid_mask_start, HEADS, md_len)? else {
        return Ok(None);
    };
    Ok(Some(Masks {
        pages,
        clusters,
        blobs,
    }))
}
