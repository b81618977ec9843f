//! The blobs of a metadata region, by their heads from the first place upwards.

ghost use Rattle.std.specs.Prelude.{◌≡◌, ◌≤◌, ◌+◌, ◌*◌, ◌^◌, length, IsTrue, OnOk, IfOk, IfErr};
ghost use Rattle.std.specs.FinMap as map;
ghost use Rattle.blob_meta.specs.Resolving.{slots_together};
ghost use Rattle.md_chain.specs.Reading.{OnlyRead, region_look};
ghost use Rattle.store_model.specs.Regions.{region_of};
ghost use Rattle.super_block.specs.Faults.{IsFaultless};
ghost use Rattle.unclean_load.specs.Heads.{AreWhole, PlacesFit, IsHeadsFault};
ghost use Rattle.unclean_load.specs.Reading.{AreRead, IsBlobRefused, IsOnlyFault};
ghost use Rattle.unclean_load.specs.Reads.{pages_together, reads_to_test};

use crate::fault::LoadFault;
use crate::heads::{Blob, Heads, blob_at};
use blob_meta::{Chains, Metas};
use page_disk::PageDisk;
use std::alloc::Global;
use super_block::Super;

/// The greatest number of slots that the maps of a store have together.
const MOST_SLOTS: u64 = 1 << 24;

/// The blobs read so far: the metadata and the chain of each head, and how many slots their maps have together.
#[derive(Drop)]
pub struct Blobs {
    pub metas: Metas,
    pub chains: Chains,
    slots: u64,
}

impl Blobs {
    fn new(alloc: Global) -> Blobs
        ensures metas { result.metas ≡ map.empty }
        ensures chains { result.chains ≡ map.empty }
        ensures slots { result.slots ≡ 0 }
    {
        Blobs {
            metas: Metas::new(alloc),
            chains: Chains::new(alloc),
            slots: 0,
        }
    }

    /// Adds the blob of a head, unless its map is too large with the others.
    fn add(&mut self, head: u32, blob: Blob) -> Result<(), LoadFault>
        requires { self.old.slots ≤ 2 ^ 24 }
        ensures metas { OnOk result (self.new.metas ≡ map.insert self.old.metas head blob.meta) }
        ensures chains { OnOk result (self.new.chains ≡ map.insert self.old.chains head blob.pages) }
        ensures slots { OnOk result (self.new.slots ≡ self.old.slots + length blob.meta.map) }
        ensures few { OnOk result (self.new.slots ≤ 2 ^ 24) }
        ensures fault { IfErr result (λ e. IsBlobRefused self.old.slots head blob.meta e) }
    {
        let slots = self.slots + blob.meta.map.as_slice().len() as u64;
        if slots > MOST_SLOTS {
            return Err(LoadFault::MapsTooLarge { slots });
        }
        self.metas.insert(head, blob.meta)?;
        self.chains.insert(head, blob.pages)?;
        self.slots = slots;
        Ok(())
    }
}

/// The blobs of these heads, or the first fault that one shows: of its chain, of its metadata, or of too many slots
/// together.
pub fn blobs_on<D: PageDisk>(
    alloc: Global,
    disk: &mut D,
    sup: &Super,
    heads: &Heads,
) -> Result<Blobs, LoadFault>
    requires faultless { IsFaultless sup.now }
    requires device { sup.now.device_pages ≡ D.pages disk.old }
    requires fits { PlacesFit sup.now.md_len heads.now }
    requires inside { sup.now.md_start + sup.now.md_len ≤ D.pages disk.old }

    // Where the device tells, they are what its image says.
    ensures found { IsTrue D.tells
        → IfOk result
        (λ b. AreWhole (region_look sup.now (D.now disk.old)) (region_of sup.now) heads.now (map.get b.metas)
        (map.get b.chains)) }
    ensures fault { IsTrue D.tells → IfErr result
        (λ e. IsHeadsFault (region_look sup.now (D.now disk.old)) (region_of sup.now) heads.now e) }

    // Whatever it tells, they are in order.
    ensures read { IfOk result (λ b. AreRead sup.now (map.get b.metas) (map.get b.chains)) }
    ensures few { IfOk result (λ b. slots_together sup.now.md_len (map.get b.metas) ≤ 2 ^ 24) }

    ensures counted { IfErr result (λ e. IsOnlyFault (D.read_faults disk.old) (D.read_faults disk.new) e) }
    ensures quiet { OnOk result (D.read_faults disk.new ≡ D.read_faults disk.old) }

    // Each page of their chains is read once; where the device tells, these have no page in common.
    ensures reads { IfOk result (λ b. D.reads disk.new
        ≤ D.reads disk.old + reads_to_test heads.now sup.now.md_len
        + pages_together sup.now.md_len (map.get b.chains)) }
    ensures at_ok { IsTrue D.tells
        → OnOk result (D.reads disk.new ≤ D.reads disk.old + reads_to_test heads.now sup.now.md_len + sup.now.md_len) }
    ensures at_most { IsTrue D.tells
        → D.reads disk.new ≤ D.reads disk.old + reads_to_test heads.now sup.now.md_len + 2 * sup.now.md_len }
    ensures same { OnlyRead D.PageDisk disk.old disk.new }
{
    let mut blobs = Blobs::new(alloc);
    for place in 0..sup.md_len {
        if let Some(blob) = blob_at(alloc, disk, sup, heads, place)? {
            blobs.add(place, blob)?;
        }
    }
    Ok(blobs)
}
