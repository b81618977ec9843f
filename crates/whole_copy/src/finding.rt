//! The volume that is to be copied.

ghost use Rattle.std.specs.Prelude.{IfNone, IfSome};
ghost use Rattle.super_block.specs.Faults.{IsFaultless};
ghost use Rattle.whole_copy.specs.Meant.{AreHeld, IsMeant, NoneIsMeant};

use blob_meta::{Metas, find};
use super_block::{Super, regions_are_placed};
use volume_model::VolumeRef;

/// A volume that a reference means.
#[derive(Clone, Copy, Debug)]
pub struct MeantVolume {
    /// The head of its blob.
    pub head: u32,
    /// How many pages it shows.
    pub pages: u64,
}

/// The volume that the reference means: the one at a head, or the one with the least head that has the name. `None`
/// comes exactly where it means none.
pub fn find_volume(metas: &Metas, sup: &Super, volume: &VolumeRef) -> Option<MeantVolume>
    requires faultless { IsFaultless sup.now }
    requires held { AreHeld sup.now metas.now }
    ensures some { IfSome result (IsMeant sup.now metas.now volume.now) }
    ensures none { IfNone result (NoneIsMeant sup.now metas.now volume.now) }
{
    regions_are_placed();
    let head = find(metas, sup, volume)?;
    let meta = metas.get(head)?;
    let pages = u64::from(sup.cluster_pages()) * u64::from(meta.map.len());
    Some(MeantVolume { head, pages })
}
