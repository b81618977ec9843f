//! Plans of clones.

ghost use Rattle.std.specs.Prelude.{◌≡◌, None, Some, IfOk, IfErr, IsSome};
ghost use Rattle.std.specs.FinMap as map;
ghost use Rattle.volume_model.specs.declared.command.Command.TheVariants as c;
ghost use Rattle.snapshots.specs.RefusedAt.{IsFirstAt, RefusesFirstAt};
ghost use Rattle.snapshots.specs.SnapshotJobs as j;
ghost use Rattle.snapshots.specs.SnapshotPlans.{PlansClone};

use crate::marks::with_named;
use crate::refusing::refusal_of_clone;
use blob_meta::{Job, Meta, Metas, new_meta};
use out_of_memory::Memory;
use std::alloc::Global;
use super_block::Super;
use volume_model::{Name, Reply, XattrList, named_xattrs};

/// The clone: without clusters, and with the blob for its parent.
fn new_clone(
    alloc: Global,
    parent: u32,
    old: &Meta,
    head: u32,
    xattrs: XattrList,
) -> Result<Meta, Memory>
    ensures { IfOk result (λ new. new ≡ j.new_clone parent old.now head xattrs) }
{
    let slots = old.map.as_slice().len() as u32;
    let mut new = new_meta(alloc, head, xattrs, false, slots)?;
    new.internal = with_named(alloc, &new.internal, b"SNAP", parent)?;
    Ok(new)
}

/// The job of a clone that nothing refuses.
fn clone_of(
    alloc: Global,
    metas: &Metas,
    volume: u32,
    old: &Meta,
    head: u32,
    name: &Name,
    uuid: [u8; 16],
) -> Result<Job, Memory>
    requires { map.get metas.now volume ≡ Some old.now }
    ensures { IfOk result (PlansClone metas.now volume head name.now uuid) }
{
    let xattrs = named_xattrs(alloc, name, uuid)?;
    let new = new_clone(alloc, volume, old, head, xattrs)?;
    Job::of_one(alloc, head, new)
}

/// Plans a clone of the blob at the head `volume`, which must be read-only: a thin blob at the head `new`, of this name
/// and uuid, with empty slots, whose parent the blob is. `Err` is the first cause for which the clone is refused, or
/// `Memory`.
pub fn plan_clone(
    alloc: Global,
    metas: &Metas,
    sup: &Super,
    volume: u32,
    new: u32,
    name: &Name,
    uuid: [u8; 16],
) -> Result<Job, Reply>
    requires { IsSome (map.get metas.now volume) }
    ensures job { IfOk result (PlansClone metas.now volume new name.now uuid) }
    ensures unrefused { IfOk result
        (λ job. IsFirstAt metas.now sup.now volume (λ meant. c.Clone meant name.now) None) }
    ensures refused { IfErr result
        (RefusesFirstAt metas.now sup.now volume (λ meant. c.Clone meant name.now)) }
{
    let Some(old) = metas.get(volume) else {
        unreachable!()
    };
    match refusal_of_clone(metas, sup, volume, old, name) {
        Some(reply) => Err(reply),
        None => clone_of(alloc, metas, volume, old, new, name, uuid).map_err(|_| Reply::Memory),
    }
}
