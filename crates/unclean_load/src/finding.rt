//! The blobs of a store: by its masks, where these are trusted, and else by a scan.

ghost use Rattle.std.specs.Prelude.{◌≡◌, ◌≤◌, ◌+◌, ◌*◌, ◌^◌, true, IsNone, IsTrue, OnOk};
ghost use Rattle.std.specs.Prelude.{IfOk, IfErr, IfSome};
ghost use Rattle.std.specs.FinMap as map;
ghost use Rattle.blob_meta.specs.Resolving.{slots_together};
ghost use Rattle.md_chain.specs.Reading.{OnlyRead};
ghost use Rattle.super_block.specs.Faults.{IsFaultless};
ghost use Rattle.super_block.specs.declared.masks.Masks.{Masks as AllMasks};
ghost use Rattle.unclean_load.specs.Quick.{IsFaultFound, IsQuick, IsReadBy};
ghost use Rattle.unclean_load.specs.Reading.{AreRead, IsOnlyFault};
ghost use Rattle.unclean_load.specs.Reads.{all_mask_pages, pages_together};

use crate::claimed::are_claimed;
use crate::fault::LoadFault;
use crate::heads::Heads;
use crate::mask_pages::read_masks;
use crate::walking::{Blobs, blobs_on};
use clean_stop::unloaded_masks_are_read;
use page_disk::PageDisk;
use std::alloc::Global;
use super_block::{Masks, Super};

/// The blobs that were read of a store, and whether they are those of its masks.
#[derive(Drop)]
pub struct Found {
    pub blobs: Blobs,
    pub quick: bool,
}

/// The blobs of the blob-id mask, where the masks are trusted; the first fault that one of them shows.
fn trusted_blobs<D: PageDisk>(
    alloc: Global,
    disk: &mut D,
    sup: &Super,
) -> Result<Option<Blobs>, LoadFault>
    requires faultless { IsFaultless sup.now }
    requires device { sup.now.device_pages ≡ D.pages disk.old }
    requires inside { sup.now.md_start + sup.now.md_len ≤ D.pages disk.old }
    ensures found { IsTrue D.tells → IfOk result (λ blobs. IfSome blobs
        (λ b. IsReadBy true sup.now (D.now disk.old) (map.get b.metas) (map.get b.chains))) }
    ensures none { IsTrue D.tells → IfOk result
        (λ blobs. IsNone blobs → (m : AllMasks) → IsQuick sup.now m (D.now disk.old) → ⊥) }
    ensures fault { IsTrue D.tells → IfErr result (λ e. IsFaultFound sup.now (D.now disk.old) e) }
    ensures read { IfOk result (λ blobs. IfSome blobs (λ b. AreRead sup.now (map.get b.metas) (map.get b.chains))) }
    ensures few { IfOk result
        (λ blobs. IfSome blobs (λ b. slots_together sup.now.md_len (map.get b.metas) ≤ 2 ^ 24)) }
    ensures counted { IfErr result (λ e. IsOnlyFault (D.read_faults disk.old) (D.read_faults disk.new) e) }
    ensures quiet { OnOk result (D.read_faults disk.new ≡ D.read_faults disk.old) }
    ensures reads { IfOk result (λ blobs. IfSome blobs (λ b. D.reads disk.new
        ≤ D.reads disk.old + all_mask_pages sup.now + pages_together sup.now.md_len (map.get b.chains))) }
    ensures at_ok { IsTrue D.tells
        → OnOk result (D.reads disk.new ≤ D.reads disk.old + all_mask_pages sup.now + sup.now.md_len) }
    ensures at_most { IsTrue D.tells
        → D.reads disk.new ≤ D.reads disk.old + all_mask_pages sup.now + 2 * sup.now.md_len }
    ensures same { OnlyRead D.PageDisk disk.old disk.new }
{
    unloaded_masks_are_read();
    if sup.clean != 1 {
        return Ok(None);
    }
    let Some(masks) = read_masks(alloc, disk, sup)? else {
        return Ok(None);
    };
    let Masks {
        pages,
        clusters,
        blobs: heads,
    } = masks;
    let blobs = blobs_on(alloc, disk, sup, &Heads::Listed(heads))?;
    let claimed = are_claimed(alloc, sup, &blobs, &pages, &clusters)?;
    if claimed {
        return Ok(Some(blobs));
    }
    Ok(None)
}

/// The blobs of a store, or the first fault that its heads show: of a chain, of its metadata, or of too many slots
/// together.
pub fn find_blobs<D: PageDisk>(alloc: Global, disk: &mut D, sup: &Super) -> Result<Found, LoadFault>
    requires faultless { IsFaultless sup.now }
    requires device { sup.now.device_pages ≡ D.pages disk.old }
    requires inside { sup.now.md_start + sup.now.md_len ≤ D.pages disk.old }

    // Where the device tells, they are what the heads of its image say.
    ensures found { IsTrue D.tells → IfOk result
        (λ f. IsReadBy f.quick sup.now (D.now disk.old) (map.get f.blobs.metas) (map.get f.blobs.chains)) }
    ensures fault { IsTrue D.tells → IfErr result (λ e. IsFaultFound sup.now (D.now disk.old) e) }

    // Whatever it tells, they are in order.
    ensures read { IfOk result (λ f. AreRead sup.now (map.get f.blobs.metas) (map.get f.blobs.chains)) }
    ensures few { IfOk result (λ f. slots_together sup.now.md_len (map.get f.blobs.metas) ≤ 2 ^ 24) }

    ensures counted { IfErr result (λ e. IsOnlyFault (D.read_faults disk.old) (D.read_faults disk.new) e) }
    ensures quiet { OnOk result (D.read_faults disk.new ≡ D.read_faults disk.old) }
    ensures reads { IfOk result (λ f. f.quick ≡ true → D.reads disk.new
        ≤ D.reads disk.old + all_mask_pages sup.now + pages_together sup.now.md_len (map.get f.blobs.chains)) }
    ensures at_most { IsTrue D.tells
        → D.reads disk.new ≤ D.reads disk.old + all_mask_pages sup.now + 4 * sup.now.md_len }
    ensures same { OnlyRead D.PageDisk disk.old disk.new }
{
    if let Some(blobs) = trusted_blobs(alloc, disk, sup)? {
        return Ok(Found { blobs, quick: true });
    }
    let scanned = blobs_on(alloc, disk, sup, &Heads::ByScan)?;
    Ok(Found {
        blobs: scanned,
        quick: false,
    })
}
