//! What the blobs that recovery removes have in use: nothing of it is handed out before each is erased.

ghost use Rattle.std.specs.Prelude.{◌≡◌, ◌<◌, ℕ, true, length, List, Some, None};
ghost use Rattle.std.specs.FinMap as map;
ghost use Rattle.blob_meta.specs.declared.meta.Meta.{Meta as AMeta};
ghost use Rattle.md_chain.specs.Chain.{is_among};
ghost use Rattle.store_core.specs.Removing.{masks_with, those_below, AreWith, FitMasks};
ghost use Rattle.store_model.specs.Places.{all_set};

use blob_meta::{Chains, Metas};
use job_begins::add_clusters;
use pools::Bits;
use super_block::Masks;
use volume_model::PlaceList;

/// Adds places to a set.
fn add_places(bits: &mut Bits, places: &PlaceList)
    requires { (place : ℕ) → is_among place places.now ≡ true → place < length bits.old }
    ensures { bits.new ≡ all_set bits.old places.now true }
{
    for place in places.as_slice() {
        bits.set(*place);
    }
}

/// Adds what the blob at a head has in use, where one of these is there.
fn add_blob(masks: &mut Masks, blobs: &Metas, chains: &Chains, head: u32)
    requires fit { FitMasks (map.get blobs.now) (map.get chains.now) masks.old }
    ensures none { map.get blobs.now head ≡ None → masks.new ≡ masks.old }
    ensures added { (m : AMeta) (chain : List ℕ)
        → map.get blobs.now head ≡ Some m → map.get chains.now head ≡ Some chain
        → masks.new ≡ masks_with masks.old head m chain }
{
    if let Some(meta) = blobs.get(head) {
        if let Some(chain) = chains.get(head) {
            add_places(&mut masks.pages, chain);
            add_clusters(&mut masks.clusters, &meta.map);
            masks.blobs.set(head);
        }
    }
}

/// The masks with all that these blobs have in use besides, whose heads are below a number.
pub(crate) fn with_blobs(masks: Masks, blobs: &Metas, chains: &Chains, end: u32) -> Masks
    requires fit { FitMasks (map.get blobs.now) (map.get chains.now) masks }
    ensures { AreWith (those_below (map.get blobs.now) end) (map.get chains.now) masks result }
{
    let mut masks = masks;
    for head in 0..end {
        add_blob(&mut masks, blobs, chains, head);
    }
    masks
}
