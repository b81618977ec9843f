//! Whether masks are what blobs claim.

ghost use Rattle.std.specs.Prelude.{◌≡◌, true, false, [], length, IfOk, IfErr};
ghost use Rattle.std.specs.FinMap as map;
ghost use Rattle.store_model.specs.Places.{Unclaimed, UsedClusters, UsedPages};
ghost use Rattle.super_block.specs.Faults.{IsFaultless};
ghost use Rattle.super_block.specs.Numbers.{clusters_of};
ghost use Rattle.unclean_load.specs.Claiming.{IsInTwo, IsPageFault};
ghost use Rattle.unclean_load.specs.Reading.{AreRead};

use crate::fault::LoadFault;
use crate::masks::used_pages;
use crate::sharing::claims_of;
use crate::walking::Blobs;
use bit_array::Bits;
use std::alloc::Global;
use super_block::{Super, regions_are_placed};

/// Whether two sets of numbers below one length are the same.
fn is_same(a: &Bits, b: &Bits) -> bool
    requires { length a.now ≡ length b.now }
    ensures same { result ≡ true → a.now ≡ b.now }
    ensures differs { result ≡ false → a.now ≡ b.now → ⊥ }
{
    for at in 0..a.len() {
        if a.get(at) != b.get(at) {
            return false;
        }
    }
    true
}

/// Whether the pages are those of the blobs' chains, and the clusters the fixed ones and those of the blobs' maps.
pub fn are_claimed(
    alloc: Global,
    sup: &Super,
    blobs: &Blobs,
    pages: &Bits,
    clusters: &Bits,
) -> Result<bool, LoadFault>
    requires faultless { IsFaultless sup.now }
    requires read { AreRead sup.now (map.get blobs.now.metas) (map.get blobs.now.chains) }
    requires pages { length pages.now ≡ sup.now.md_len }
    requires clusters { length clusters.now ≡ clusters_of sup.now }
    ensures claimed { IfOk result (λ are. are ≡ true
        → UsedPages sup.now.md_len pages.now (map.get blobs.now.chains) []
        × UsedClusters sup.now clusters.now (map.get blobs.now.metas) Unclaimed) }
    ensures not_claimed { IfOk result (λ are. are ≡ false
        → UsedPages sup.now.md_len pages.now (map.get blobs.now.chains) []
        → UsedClusters sup.now clusters.now (map.get blobs.now.metas) Unclaimed → ⊥) }
    ensures fault { IfErr result (λ e. IsPageFault (IsInTwo (map.get blobs.now.chains)) e) }
{
    regions_are_placed();
    let used = used_pages(alloc, &blobs.metas, &blobs.chains, sup.md_len)?;
    let claims = claims_of(alloc, sup, &blobs.metas)?;
    Ok(is_same(&used, pages) && is_same(&claims.clusters, clusters))
}
