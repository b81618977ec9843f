//! The mask of the clusters that the maps of a store have, and a cluster that stands in two slots.

ghost use Rattle.std.specs.Prelude.{◌≡◌, ◌+◌, ◌^◌, ◌<◌, ◌≤◌, ◌∷◌, [], ℕ, Some, length, OnOk, IfOk, IfErr};
ghost use Rattle.std.specs.FinMap as map;
ghost use Rattle.blob_meta.specs.Repairs.{HasHeadsBelow};
ghost use Rattle.store_model.specs.Places.{Unclaimed, UsedClusters};
ghost use Rattle.super_block.specs.Faults.{IsFaultless};
ghost use Rattle.super_block.specs.Numbers.{clusters_of, fixed_clusters_of};
ghost use Rattle.unclean_load.specs.Claiming.{IsClusterFault};
ghost use Rattle.unclean_load.specs.Sharing.{AreAllInside, AreCounted, AreInside, IsHolder, copies};
ghost use Rattle.unclean_load.specs.Sharing.{copies_in as copies_said};

use crate::fault::LoadFault;
use bit_array::Bits;
use blob_meta::Metas;
use descriptors::SlotMap;
use out_of_memory::Memory;
use std::alloc::Global;
use super_block::{Super, regions_are_placed};

/// The clusters that were claimed, and the least that was claimed twice.
#[derive(Drop)]
pub struct Claims {
    pub clusters: Bits,
    twice: Option<u32>,
}

impl Claims {
    /// The fixed clusters alone, of so many.
    fn new(alloc: Global, fixed: u32, clusters: u32) -> Result<Claims, Memory>
        requires { fixed ≤ clusters }
        ensures count { IfOk result (λ c. length c.clusters ≡ clusters) }
        ensures none { IfOk result (λ c. AreCounted fixed (λ _. 0) c.clusters c.twice) }
    {
        let mut bits = Bits::new(alloc, clusters)?;
        for cluster in 0..fixed {
            bits.set(cluster);
        }
        Ok(Claims {
            clusters: bits,
            twice: None,
        })
    }

    /// Claims a cluster for one more slot.
    fn claim(&mut self, cluster: u32)
        requires { cluster < length self.old.clusters }
        ensures count { length self.new.clusters ≡ length self.old.clusters }
        ensures claimed { (fixed : ℕ) (count : ℕ → ℕ) → fixed ≤ cluster
            → AreCounted fixed count self.old.clusters self.old.twice
            → AreCounted fixed (λ c. count c + copies_said c (Some cluster ∷ [])) self.new.clusters self.new.twice }
    {
        if !self.clusters.get(cluster) {
            self.clusters.set(cluster);
            return;
        }
        self.twice = match self.twice {
            Some(least) => Some(least.min(cluster)),
            None => Some(cluster),
        };
    }

    /// Claims the clusters of a map.
    fn add(&mut self, map: &SlotMap)
        requires { (c : ℕ) → 0 < copies_said c map.now → c < length self.old.clusters }
        ensures count { length self.new.clusters ≡ length self.old.clusters }
        ensures claimed { (fixed : ℕ) (count : ℕ → ℕ) → AreInside fixed (length self.old.clusters) map.now
            → AreCounted fixed count self.old.clusters self.old.twice
            → AreCounted fixed (λ c. count c + copies_said c map.now) self.new.clusters self.new.twice }
    {
        for slot in map.as_slice() {
            if let Some(cluster) = slot {
                self.claim(*cluster);
            }
        }
    }
}

/// The claims of all maps.
pub fn claims_of(alloc: Global, sup: &Super, metas: &Metas) -> Result<Claims, Memory>
    requires faultless { IsFaultless sup.now }
    requires inside { AreAllInside sup.now (map.get metas.now) }
    ensures count { IfOk result (λ c. length c.clusters ≡ clusters_of sup.now) }
    ensures counted { IfOk result
        (λ c. AreCounted (fixed_clusters_of sup.now) (copies sup.now.md_len (map.get metas.now)) c.clusters c.twice) }
{
    regions_are_placed();
    let mut claims = Claims::new(alloc, sup.fixed_clusters(), sup.clusters())?;
    let mut from = 0;
    while let Some(head) = metas.next_below(from, sup.md_len) {
        if let Some(meta) = metas.get(head) {
            claims.add(&meta.map);
        }
        from = head + 1;
    }
    Ok(claims)
}

/// How many slots of a map have the cluster.
fn copies_in(map: &SlotMap, cluster: u32) -> u32
    ensures count { result ≡ copies_said cluster map.now }
    ensures few { result ≤ 2 ^ 20 }
{
    let mut found = 0;
    for slot in map.as_slice() {
        if *slot == Some(cluster) {
            found += 1;
        }
    }
    found
}

/// The head whose map has the nth slot with the cluster, by heads upwards.
fn holder(metas: &Metas, md_len: u32, cluster: u32, n: u32) -> u32
    requires some { n ≤ copies md_len (map.get metas.now) cluster }
    requires above { 0 < n }
    requires few { n < 2 ^ 31 }
    ensures { IsHolder md_len (map.get metas.now) cluster n result }
{
    let mut found = 0;
    let mut from = 0;
    while let Some(head) = metas.next_below(from, md_len) {
        if let Some(meta) = metas.get(head) {
            found += copies_in(&meta.map, cluster);
            if found >= n {
                return head;
            }
        }
        from = head + 1;
    }
    unreachable!()
}

/// The clusters that the maps have, and the fixed ones, unless one stands in two slots.
pub fn used_clusters(alloc: Global, sup: &Super, metas: &Metas) -> Result<Bits, LoadFault>
    requires faultless { IsFaultless sup.now }
    requires below { HasHeadsBelow sup.now.md_len (map.get metas.now) }
    requires inside { AreAllInside sup.now (map.get metas.now) }
    ensures used { IfOk result (λ bits. UsedClusters sup.now bits (map.get metas.now) Unclaimed) }
    ensures alone { OnOk result ((cluster : ℕ) → copies sup.now.md_len (map.get metas.now) cluster ≤ 1) }
    ensures fault { IfErr result (λ e. IsClusterFault sup.now.md_len (map.get metas.now) e) }
{
    let claims = claims_of(alloc, sup, metas)?;
    let Some(cluster) = claims.twice else {
        return Ok(claims.clusters);
    };
    let a = holder(metas, sup.md_len, cluster, 1);
    let b = holder(metas, sup.md_len, cluster, 2);
    Err(LoadFault::Shared { cluster, a, b })
}
