//! What recovery makes of the blobs that were read.

ghost use Rattle.std.specs.Prelude.{◌≡◌, ◌≤◌, ◌^◌, ℕ, OnOk, IfOk, IfErr};
ghost use Rattle.std.specs.FinMap as map;
ghost use Rattle.blob_meta.specs.Repairs.{HasHeadsBelow};
ghost use Rattle.blob_meta.specs.Resolving.{slots_together};
ghost use Rattle.running_store.specs.LoadedWhole.{AreMasks};
ghost use Rattle.running_store.specs.Recovered.{IsRecovered, chains_of, marked_blobs};
ghost use Rattle.super_block.specs.Faults.{IsFaultless};
ghost use Rattle.unclean_load.specs.Claiming.{AreChains, IsMaskFault, IsRecoveryFault};
ghost use Rattle.unclean_load.specs.Reading.{AreRead};
ghost use Rattle.unclean_load.specs.Sharing.{AreAllInside, copies};

use crate::fault::LoadFault;
use crate::masks::{used_heads, used_pages};
use crate::parents::check_parents;
use crate::sharing::used_clusters;
use crate::walking::Blobs;
use blob_meta::{Chains, Metas, ReplacementList, mark_of, resolve};
use out_of_memory::Memory;
use std::alloc::Global;
use super_block::{Masks, Super, regions_are_placed};
use volume_model::TryCopy;

/// What recovery makes of a store.
#[derive(Drop)]
pub struct Recovered {
    /// The metadata once it is resolved.
    pub metas: Metas,
    /// The blobs that recovery removes, as they were read.
    pub removed: Metas,
    /// The blobs with a mark, as they were read.
    pub marked: Metas,
    /// The chain of each blob that was read.
    pub chains: Chains,
    /// The repairs, in order.
    pub repairs: ReplacementList,
    /// What the blobs that stay claim.
    pub masks: Masks,
}

/// Copies of the blobs with a mark.
fn marked_of(alloc: Global, metas: &Metas, md_len: u32) -> Result<Metas, Memory>
    requires { HasHeadsBelow md_len (map.get metas.now) }
    ensures { IfOk result (λ m. (head : ℕ) → map.get m head ≡ marked_blobs (map.get metas.now) head) }
{
    let mut marked = Metas::new(alloc);
    let mut from = 0;
    while let Some(head) = metas.next_below(from, md_len) {
        if let Some(meta) = metas.get(head) {
            if mark_of(meta).is_some() {
                marked.insert(head, meta.try_copy(alloc)?)?;
            }
        }
        from = head + 1;
    }
    Ok(marked)
}

/// What the chains and the maps of these blobs claim, unless a cluster is in two slots.
fn masks_of(alloc: Global, sup: &Super, metas: &Metas, chains: &Chains) -> Result<Masks, LoadFault>
    requires faultless { IsFaultless sup.now }
    requires below { HasHeadsBelow sup.now.md_len (map.get metas.now) }
    requires inside { AreAllInside sup.now (map.get metas.now) }
    requires chains { AreChains sup.now.md_len (map.get chains.now) }
    ensures masks { IfOk result
        (λ m. AreMasks sup.now (map.get metas.now) (chains_of (map.get metas.now) (map.get chains.now)) m) }
    ensures alone { OnOk result ((cluster : ℕ) → copies sup.now.md_len (map.get metas.now) cluster ≤ 1) }
    ensures fault { IfErr result
        (λ e. IsMaskFault sup.now.md_len (map.get metas.now) (chains_of (map.get metas.now) (map.get chains.now)) e) }
{
    Ok(Masks {
        pages: used_pages(alloc, metas, chains, sup.md_len)?,
        clusters: used_clusters(alloc, sup, metas)?,
        blobs: used_heads(alloc, metas, sup.md_len)?,
    })
}

/// Resolves the blobs that were read, and tests what comes of it: each blob's parents, and that no cluster stands in
/// two slots.
pub fn recover(alloc: Global, sup: &Super, blobs: Blobs) -> Result<Recovered, LoadFault>
    requires faultless { IsFaultless sup.now }
    requires read { AreRead sup.now (map.get blobs.metas) (map.get blobs.chains) }
    requires few { slots_together sup.now.md_len (map.get blobs.metas) ≤ 2 ^ 24 }
    ensures recovered { IfOk result (λ r. IsRecovered sup.now (map.get blobs.metas) (map.get r.chains) r.metas r.removed
        r.marked r.repairs r.masks) }
    ensures chains { IfOk result (λ r. r.chains ≡ blobs.chains) }
    ensures fault { IfErr result
        (λ e. IsRecoveryFault sup.now.md_len (map.get blobs.metas) (map.get blobs.chains) e) }
{
    regions_are_placed();
    let _all = used_pages(alloc, &blobs.metas, &blobs.chains, sup.md_len)?;
    let marked = marked_of(alloc, &blobs.metas, sup.md_len)?;
    let resolved = resolve(alloc, blobs.metas)?;
    check_parents(alloc, &resolved.metas, sup.md_len)?;
    let masks = masks_of(alloc, sup, &resolved.metas, &blobs.chains)?;
    Ok(Recovered {
        metas: resolved.metas,
        removed: resolved.removed,
        marked,
        chains: blobs.chains,
        repairs: resolved.repairs,
        masks,
    })
}
