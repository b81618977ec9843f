//! Plans of volumes that get another number of slots.

ghost use Rattle.std.specs.Prelude.{◌≡◌, ◌≤◌, ◌^◌, None, IfOk, IfErr};
ghost use Rattle.blob_meta.specs.Jobs.{resize_job};
ghost use Rattle.blob_meta.specs.ShownBy.{IsFirstRefusal};
ghost use Rattle.blob_meta.specs.Asked.{NamesThere};
ghost use Rattle.blob_meta.specs.SlotCounts.{AsksFewSlots, IsResize};
ghost use Rattle.lvol_store.specs.SlotPlans.{PlansResize, RefusesFirst};

use crate::slots::slots_from;
use blob_meta::{Job, Meta, Metas, find, refusal_of_resize, resized_meta};
use out_of_memory::Memory;
use std::alloc::Global;
use super_block::Super;
use volume_model::{Command, PlaceList, Reply};

/// The job that gives the blob at a head so many slots.
fn give_slots(alloc: Global, head: u32, old: &Meta, slots: u32) -> Result<Job, Memory>
    requires { slots ≤ 2 ^ 20 }
    ensures { IfOk result (λ job. job ≡ resize_job head old.now slots) }
{
    let len = old.map.len();
    let zero = if old.flags.is_thin() {
        PlaceList::new(alloc)
    } else {
        slots_from(alloc, len, slots.saturating_sub(len))?
    };
    let mut job = Job::of_one(alloc, head, resized_meta(alloc, old, slots)?)?;
    job.zero = zero;
    Ok(job)
}

/// The job of a resize that nothing refuses.
fn resize(alloc: Global, metas: &Metas, sup: &Super, command: &Command) -> Result<Job, Memory>
    requires resize { IsResize command.now }
    requires there { NamesThere metas.now sup.now command.now }
    requires few { AsksFewSlots command.now }
    ensures { IfOk result (PlansResize metas.now sup.now command.now) }
{
    let Command::Resize { volume, slots } = command else {
        unreachable!()
    };
    let Some(head) = find(metas, sup, volume) else {
        unreachable!()
    };
    let Some(old) = metas.get(head) else {
        unreachable!()
    };
    give_slots(alloc, head, old, *slots as u32)
}

/// Plans a resize of the blob that is meant: its map is cut to the asked slots, or empty ones are added behind, which
/// are filled by clusters of zeros where the blob isn't thin. No blob is made, so the head for a new one isn't used.
/// `Err` is the first cause for which the resize is refused, or `Memory`.
pub fn plan_resize(
    alloc: Global,
    metas: &Metas,
    sup: &Super,
    command: &Command,
    _new: u32,
) -> Result<Job, Reply>
    requires { IsResize command.now }
    ensures job { IfOk result (PlansResize metas.now sup.now command.now) }
    ensures unrefused { IfOk result (λ job. IsFirstRefusal metas.now sup.now command.now None) }
    ensures refused { IfErr result (RefusesFirst metas.now sup.now command.now) }
{
    match refusal_of_resize(metas, sup, command) {
        Some(reply) => Err(reply),
        None => resize(alloc, metas, sup, command).map_err(|_| Reply::Memory),
    }
}
