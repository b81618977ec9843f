//! Clusters for slots that are to read as zeros.

ghost use Rattle.std.specs.Prelude.{◌≡◌, ◌<◌, [], true, All, length, IfOk, OnErr, OnOk};
ghost use Rattle.bit_array.specs.Bits.{is_in};
ghost use Rattle.store_model.specs.Jobs.{with_clusters, AreForZeros};
ghost use Rattle.store_model.specs.Places.{all_set};

use blob_meta::Meta;
use out_of_memory::Memory;
use pools::ClusterPool;
use running_store::{clear_places, take_places};
use std::alloc::Global;
use volume_model::{PlaceList, SlotList};

/// Takes the least clear cluster for each of these slots, in their order, and puts it there: all, or none where fewer
/// clusters are clear. It gives the clusters. After `Memory` the same clusters are in use as before.
pub(crate) fn fill_slots(
    alloc: Global,
    clusters: &mut ClusterPool,
    new: &mut Meta,
    slots: &SlotList,
) -> Result<PlaceList, Memory>
    requires unclaimed { clusters.old.claims ≡ [] }
    requires within { All (λ slot. slot < length new.old.map) slots.now }
    // Cluster 0 is none that a slot can hold.
    requires first { is_in clusters.old.bits 0 ≡ true }
    ensures claimed { IfOk result (AreForZeros clusters.old.bits slots.now) }
    ensures filled { IfOk result (λ claimed. new.new ≡ with_clusters new.old slots.now claimed) }
    ensures bits { IfOk result (λ claimed. clusters.new.bits ≡ all_set clusters.old.bits claimed true) }
    ensures memory { OnErr result (clusters.new.bits ≡ clusters.old.bits) }
    ensures unclaimed { clusters.new.claims ≡ [] }
{
    let count = slots.len();
    if (clusters.clear_count() as usize) < count {
        return Ok(PlaceList::new(alloc));
    }
    let claimed = take_places(alloc, clusters, count as u32)?;
    match put_clusters(new, slots, &claimed) {
        Ok(()) => Ok(claimed),
        Err(Memory) => {
            clear_places(clusters, &claimed);
            Err(Memory)
        }
    }
}

/// Puts a cluster into each of these slots, in order.
fn put_clusters(new: &mut Meta, slots: &SlotList, clusters: &PlaceList) -> Result<(), Memory>
    requires within { All (λ slot. slot < length new.old.map) slots.now }
    requires one_each { length clusters.now ≡ length slots.now }
    requires some { All (λ cluster. 0 < cluster) clusters.now }
    ensures { OnOk result (new.new ≡ with_clusters new.old slots.now clusters.now) }
{
    for at in 0..slots.len() {
        new.map
            .set(slots.as_slice()[at], Some(clusters.as_slice()[at]))?;
    }
    Ok(())
}
