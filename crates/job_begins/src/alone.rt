//! The clusters of a blob that no other blob has.

ghost use Rattle.std.specs.Prelude.{◌≡◌, ◌↔◌, ◌<◌, ℕ, true, length, option_copied, IfOk};
ghost use Rattle.std.specs.FinMap as map;
ghost use Rattle.bit_array.specs.Bits.{is_in};
ghost use Rattle.blob_meta.specs.declared.meta.Meta.{Meta as AMeta};
ghost use Rattle.blob_meta.specs.Faults.{clusters_held};
ghost use Rattle.md_chain.specs.Chain.{is_among};
ghost use Rattle.job_begins.specs.Alone.{AreChained, HaveRoom, IsMappedBeside, IsMissing};
ghost use Rattle.running_store.specs.StoreView.{base_of};
ghost use Rattle.store_model.specs.Places.{all_set, AreDistinct};

use bit_array::Bits;
use blob_meta::Meta;
use descriptors::SlotMap;
use out_of_memory::Memory;
use running_store::Running;
use std::alloc::Global;
use volume_model::PlaceList;

/// The blob at a head, as the device says it.
pub(crate) fn base_at<D>(running: &Running<D>, head: u32) -> Option<&Meta>
    ensures { option_copied result ≡ base_of running.now.metas running.now.marked head }
{
    match running.marked.get(head) {
        Some(meta) => Some(meta),
        None => running.metas.get(head),
    }
}

/// Adds the clusters of a map to a set.
pub fn add_clusters(clusters: &mut Bits, map: &SlotMap)
    requires { (c : ℕ) → is_among c (clusters_held map.now) ≡ true → c < length clusters.old }
    ensures { clusters.new ≡ all_set clusters.old (clusters_held map.now) true }
{
    for slot in map.as_slice() {
        if let Some(cluster) = slot {
            clusters.set(*cluster);
        }
    }
}

/// Adds the clusters of the blob at a head, where one is there.
fn add_at<D>(clusters: &mut Bits, running: &Running<D>, head: u32)
    requires { HaveRoom (base_of running.now.metas running.now.marked) (length clusters.old) }
    ensures count { length clusters.new ≡ length clusters.old }
    ensures there { (m : AMeta) → base_of running.now.metas running.now.marked head ≡ Some m
        → clusters.new ≡ all_set clusters.old (clusters_held m.map) true }
    ensures none { base_of running.now.metas running.now.marked head ≡ None → clusters.new ≡ clusters.old }
{
    if let Some(meta) = base_at(running, head) {
        add_clusters(clusters, &meta.map);
    }
}

/// The clusters of all blobs but that at a head.
pub(crate) fn clusters_beside<D>(running: &Running<D>, head: u32) -> Result<Bits, Memory>
    requires room { HaveRoom (base_of running.now.metas running.now.marked) (length running.now.clusters.bits) }
    requires chained { AreChained (base_of running.now.metas running.now.marked) (map.get running.now.chains) }
    ensures count { IfOk result (λ bits. length bits ≡ length running.now.clusters.bits) }
    ensures are { IfOk result (λ bits. (c : ℕ) → (is_in bits c ≡ true)
        ↔ IsMappedBeside running.now.sup.md_len (base_of running.now.metas running.now.marked) head c) }
{
    let mut clusters = Bits::new(running.alloc, running.clusters.bits().len())?;
    let md_len = running.sup.md_len;
    let mut from = 0;
    while let Some(other) = running.chains.next_below(from, md_len) {
        if other != head {
            add_at(&mut clusters, running, other);
        }
        from = other + 1;
    }
    Ok(clusters)
}

/// The clusters of a map that a set doesn't have, each once. The set has them then.
pub(crate) fn missing(
    alloc: Global,
    clusters: &mut Bits,
    map: &SlotMap,
) -> Result<PlaceList, Memory>
    requires { (c : ℕ) → is_among c (clusters_held map.now) ≡ true → c < length clusters.old }
    ensures once { IfOk result AreDistinct }
    ensures are { IfOk result (λ places. (c : ℕ) → (is_among c places ≡ true) ↔ IsMissing clusters.old map.now c) }
{
    let mut places = Vec::new(alloc);
    for slot in map.as_slice() {
        if let Some(cluster) = slot {
            if !clusters.get(*cluster) {
                clusters.set(*cluster);
                places.push(*cluster)?;
            }
        }
    }
    Ok(PlaceList::from_vec(places))
}
