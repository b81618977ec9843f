//! A store, loaded whole.

ghost use Rattle.std.specs.Prelude.{◌≡◌, ◌≤◌, ◌+◌, ◌↔◌, true, IsTrue, OnOk, IfOk, IfErr, MatchResult};
ghost use Rattle.std.specs.FinMap as map;
ghost use Rattle.md_chain.specs.Reading.{OnlyRead};
ghost use Rattle.running_store.specs.Recovered.{IsLoadedFrom, IsRecovered, base_of};
ghost use Rattle.running_store.specs.Surviving.{HoldsMetadata};
ghost use Rattle.store_model.specs.Regions.{region_of};
ghost use Rattle.store_model.specs.Scans.{Says};
ghost use Rattle.super_block.specs.Faults.{IsFaultless};
ghost use Rattle.super_block.specs.Page.{super_of};
ghost use Rattle.super_block.specs.declared.masks.Masks.{Masks};
ghost use Rattle.unclean_load.specs.Accepted.{IsAccepted, IsFaultOf, IsImageFault, SuperAt};
ghost use Rattle.unclean_load.specs.Quick.{HasNoHeadBesideMask, IsQuick, IsReadBy};
ghost use Rattle.unclean_load.specs.Reading.{IsOnlyFault};
ghost use Rattle.unclean_load.specs.Reads.{most_reads, quick_reads};

use crate::fault::LoadFault;
use crate::finding::find_blobs;
use crate::recovering::{Recovered, recover};
use crate::super_page::super_on;
use clean_stop::unloaded_masks_are_read;
use page_disk::PageDisk;
use running_store::Loaded;
use std::alloc::Global;
use super_block::Super;

/// A store as it was read, and what recovery makes of it.
#[derive(Drop)]
struct Store {
    sup: Super,
    recovered: Recovered,
    quick: bool,
}

/// Reads the store of a device, and resolves it.
fn read_store<D: PageDisk>(alloc: Global, disk: &mut D) -> Result<Store, LoadFault>
    // Where the device tells, this is what its image says.
    ensures super_block { IsTrue D.tells → IfOk result (λ s. SuperAt (D.pages disk.old) (D.now disk.old) s.sup) }
    ensures found { IsTrue D.tells → IfOk result
        (λ s. IsReadBy s.quick s.sup (D.now disk.old) (base_of s.recovered.metas s.recovered.marked)
        (map.get s.recovered.chains)) }
    ensures fault { IsTrue D.tells → IfErr result (λ e. IsFaultOf (D.pages disk.old) (D.now disk.old) e) }

    // Whatever it tells, the store is in order.
    ensures faultless { IfOk result (λ s. IsFaultless s.sup) }
    ensures device { IfOk result (λ s. s.sup.device_pages ≡ D.pages disk.old) }
    ensures inside { IfOk result (λ s. s.sup.md_start + s.sup.md_len ≤ D.pages disk.old) }
    ensures recovered { IfOk result
        (λ s. IsRecovered s.sup (base_of s.recovered.metas s.recovered.marked) (map.get s.recovered.chains)
        s.recovered.metas s.recovered.removed s.recovered.marked s.recovered.repairs s.recovered.masks) }

    ensures counted { IfErr result (λ e. IsOnlyFault (D.read_faults disk.old) (D.read_faults disk.new) e) }
    ensures quiet { OnOk result (D.read_faults disk.new ≡ D.read_faults disk.old) }
    ensures quick_reads { IfOk result (λ s. s.quick ≡ true
        → D.reads disk.new ≤ D.reads disk.old + quick_reads s.sup (map.get s.recovered.chains)) }
    ensures reads { IsTrue D.tells
        → D.reads disk.new ≤ D.reads disk.old + most_reads (super_of (D.now disk.old 0) (D.pages disk.old)) }
    ensures same { OnlyRead D.PageDisk disk.old disk.new }
{
    let sup = super_on(disk)?;
    let found = find_blobs(alloc, disk, &sup)?;
    let recovered = recover(alloc, &sup, found.blobs)?;
    Ok(Store {
        sup,
        recovered,
        quick: found.quick,
    })
}

/// Loads a store by reading page 0 as its super block, then its blobs, and resolving what these say. Where the super
/// block says that the store is clean, and its masks have their types and lengths, the blobs are those of the blob-id
/// mask; where the other two masks aren't what these claim, and in every other case, each page of the metadata region
/// is read. A page there is a head if it is sound, has sequence 0 and the id of its own place.
///
/// The device is read and nothing else, and is handed back with a fault: `Super` where the super block fails a test;
/// `Chain`, `Meta` or `MapsTooLarge` for the first head that shows one, in this order; where none does, of the resolved
/// metadata `NoParentBlob`, `WritableParent` or `ParentLoop` for the first head that shows one, in this order; where
/// none does, `Shared` for the least cluster that stands in two slots; `ReadFault` wherever a read failed, be it that of
/// a mask.
///
/// A device that doesn't give a page alike whenever it is read may give a page to two chains. The later chain then has
/// the fault `Loop`.
pub fn load<D: PageDisk>(alloc: Global, disk: D) -> Result<Loaded<D>, (D, LoadFault)>
    // What is loaded is what the heads of the image say, and only an accepted one is loaded.
    ensures super_block { IsTrue D.tells → IfOk result (λ l. l.sup ≡ super_of (D.now disk 0) (D.pages disk)) }
    ensures found { IsTrue D.tells → IfOk result
        (λ l. IsReadBy l.quick l.sup (D.now disk) (base_of l.metas l.marked) (map.get l.chains)) }
    ensures accepted { IsTrue D.tells → OnOk result (IsAccepted (D.pages disk) (D.now disk)) }

    // The masks are trusted wherever they can be.
    ensures quick { IsTrue D.tells
        → IfOk result (λ l. (l.quick ≡ true) ↔ ((masks : Masks) × IsQuick l.sup masks (D.now disk))) }

    // Where no head stands beside the blob-id mask, what is loaded is what a scan says.
    ensures says { IsTrue D.tells → IfOk result (λ l. HasNoHeadBesideMask l.sup (D.now disk)
        → Says (region_of l.sup) (base_of l.metas l.marked) (map.get l.chains) (D.now disk)) }
    ensures holds { IsTrue D.tells → IfOk result (λ l. HasNoHeadBesideMask l.sup (D.now disk)
        → HoldsMetadata l.sup (base_of l.metas l.marked) (map.get l.chains) (D.now l.disk)) }

    // Whatever the device tells, the store is what recovery makes of the metadata that was read.
    ensures recovered { IfOk result (λ l. IsLoadedFrom (base_of l.metas l.marked) l) }
    ensures faultless { IfOk result (λ l. IsFaultless l.sup) }
    ensures device_pages { IfOk result (λ l. l.sup.device_pages ≡ D.pages l.disk) }
    ensures inside { IfOk result (λ l. l.sup.md_start + l.sup.md_len ≤ D.pages l.disk) }

    // A fault is that of the image, and an accepted image has none: its device is loaded, or a read or memory fails.
    ensures cause { IsTrue D.tells → IfErr result (λ e. IsFaultOf (D.pages disk) (D.now disk) e.1) }
    ensures refused { IsTrue D.tells → IfErr result
        (λ e. IsImageFault e.1 → IsAccepted (D.pages disk) (D.now disk) → ⊥) }

    // A read fails where that is the answer, and in no other case: none where a store is loaded or refused.
    ensures no_fault { IfOk result (λ l. D.read_faults l.disk ≡ D.read_faults disk) }
    ensures counted { IfErr result (λ e. IsOnlyFault (D.read_faults disk) (D.read_faults e.0) e.1) }

    // By the masks, only they and the used metadata pages are read; and where the device tells, never more than this.
    ensures quick_reads { IfOk result (λ l. l.quick ≡ true
        → D.reads l.disk ≤ D.reads disk + quick_reads l.sup (map.get l.chains)) }
    ensures reads { IsTrue D.tells → let most = most_reads (super_of (D.now disk 0) (D.pages disk)) in
        MatchResult result (λ l. D.reads l.disk ≤ D.reads disk + most) (λ e. D.reads e.0 ≤ D.reads disk + most) }

    ensures same { MatchResult result (λ l. OnlyRead D.PageDisk disk l.disk) (λ e. OnlyRead D.PageDisk disk e.0) }
{
    unloaded_masks_are_read();
    let mut disk = disk;
    let store = match read_store(alloc, &mut disk) {
        Ok(store) => store,
        Err(fault) => return Err((disk, fault)),
    };
    Ok(Loaded {
        disk,
        sup: store.sup,
        metas: store.recovered.metas,
        removed: store.recovered.removed,
        marked: store.recovered.marked,
        chains: store.recovered.chains,
        repairs: store.recovered.repairs,
        masks: store.recovered.masks,
        quick: store.quick,
    })
}
