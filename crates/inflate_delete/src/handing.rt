//! What a blob hands on to its clone when it is deleted.

ghost use Rattle.std.specs.Prelude.{◌≡◌, ◌<◌, ◌^◌, ◌++◌, ◌∷◌, [], length, IfOk, OnOk};
ghost use Rattle.std.specs.Option.{option_or};
ghost use Rattle.descriptors.specs.Slots.{IsSlot};
ghost use Rattle.blob_meta.specs.Parents.{slot};
ghost use Rattle.inflate_delete.specs.DeleteJobs as j;

use blob_meta::Meta;
use descriptors::SlotMap;
use out_of_memory::Memory;
use snapshots::{with_named, with_parent_of};
use std::alloc::Global;
use volume_model::TryCopy;

/// The cluster in a slot of a blob, `None` also past its last slot.
pub fn cluster_in(meta: &Meta, at: u32) -> Option<u32>
    ensures slot { result ≡ slot meta.now at }
    ensures filled { IsSlot result }
{
    match meta.map.as_slice().get(at as usize) {
        Some(slot) => *slot,
        None => None,
    }
}

/// The cluster in a slot of a blob, or else in that of another.
fn cluster_over(meta: &Meta, other: &Meta, at: u32) -> Option<u32>
    ensures slot { result ≡ option_or (slot meta.now at) (slot other.now at) }
    ensures filled { IsSlot result }
{
    match cluster_in(meta, at) {
        Some(cluster) => Some(cluster),
        None => cluster_in(other, at),
    }
}

/// Appends a slot to a map that has room for it.
fn push_slot(map: &mut SlotMap, slot: Option<u32>) -> Result<(), Memory>
    requires room { length map.old < 2 ^ 20 }
    requires filled { IsSlot slot }
    ensures { OnOk result (map.new ≡ map.old ++ slot ∷ []) }
{
    map.push_run(slot, 1)
}

/// The slots of a blob, of which those that are empty take what another has at the same places.
fn slots_over(alloc: Global, meta: &Meta, other: &Meta) -> Result<SlotMap, Memory>
    ensures { IfOk result (λ slots. slots ≡ j.slots_over meta.now other.now) }
{
    let count = meta.map.as_slice().len() as u32;
    let mut slots = SlotMap::new(alloc);
    for at in 0..count {
        push_slot(&mut slots, cluster_over(meta, other, at))?;
    }
    Ok(slots)
}

/// The blob while its clone takes over from it: marked as one that is being removed.
pub fn going_blob(alloc: Global, old: &Meta, clone: u32) -> Result<Meta, Memory>
    ensures { IfOk result (λ new. new ≡ j.going_blob old.now clone) }
{
    Ok(Meta {
        id: old.id,
        flags: old.flags,
        xattrs: old.xattrs.try_copy(alloc)?,
        internal: with_named(alloc, &old.internal, b"SNAPRM", clone)?,
        map: old.map.try_copy(alloc)?,
    })
}

/// The clone with the clusters and the parent of the blob.
pub fn heir_of(alloc: Global, clone: &Meta, old: &Meta) -> Result<Meta, Memory>
    ensures { IfOk result (λ new. new ≡ j.heir_of clone.now old.now) }
{
    Ok(Meta {
        id: clone.id,
        flags: clone.flags,
        xattrs: clone.xattrs.try_copy(alloc)?,
        internal: with_parent_of(alloc, &clone.internal, old)?,
        map: slots_over(alloc, clone, old)?,
    })
}
