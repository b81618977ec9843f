//! Plans of snapshots.

ghost use Rattle.std.specs.Prelude.{◌≡◌, None, Some, IfOk, IfErr, IsSome};
ghost use Rattle.std.specs.FinMap as map;
ghost use Rattle.volume_model.specs.declared.command.Command.TheVariants as c;
ghost use Rattle.snapshots.specs.RefusedAt.{IsFirstAt, RefusesFirstAt};
ghost use Rattle.snapshots.specs.SnapshotJobs as j;
ghost use Rattle.snapshots.specs.SnapshotPlans.{PlansSnapshot};

use crate::marks::{with_named, with_parent_of};
use crate::refusing::refusal_of_snapshot;
use blob_meta::{Flags, Job, Meta, Metas, Replacement, ReplacementList, new_meta, without_marks};
use descriptors::SlotMap;
use out_of_memory::Memory;
use std::alloc::Global;
use super_block::Super;
use volume_model::{Name, PlaceList, Reply, TryCopy, XattrList, named_xattrs};

/// The snapshot as it begins: without clusters, and marked.
fn begun_snapshot(
    alloc: Global,
    volume: u32,
    old: &Meta,
    head: u32,
    xattrs: &XattrList,
) -> Result<Meta, Memory>
    ensures { IfOk result (λ new. new ≡ j.begun_snapshot volume old.now head xattrs.now) }
{
    let slots = old.map.as_slice().len() as u32;
    let mut new = new_meta(alloc, head, xattrs.try_copy(alloc)?, false, slots)?;
    new.internal = with_named(alloc, &new.internal, b"SNAPTMP", volume)?;
    Ok(new)
}

/// The snapshot with the map and the parent of the volume, still marked.
fn filled_snapshot(
    alloc: Global,
    volume: u32,
    old: &Meta,
    head: u32,
    xattrs: &XattrList,
) -> Result<Meta, Memory>
    ensures { IfOk result (λ new. new ≡ j.filled_snapshot volume old.now head xattrs.now) }
{
    let mut new = begun_snapshot(alloc, volume, old, head, xattrs)?;
    new.flags.invalid = if old.flags.is_thin() { 1 } else { 0 };
    new.internal = with_parent_of(alloc, &new.internal, old)?;
    new.map = old.map.try_copy(alloc)?;
    Ok(new)
}

/// The volume without its clusters, and with the snapshot for its parent.
fn emptied_volume(alloc: Global, old: &Meta, head: u32) -> Result<Meta, Memory>
    ensures { IfOk result (λ new. new ≡ j.emptied_volume old.now head) }
{
    let mut map = SlotMap::new(alloc);
    map.push_run(None, old.map.as_slice().len() as u32)?;
    Ok(Meta {
        id: old.id,
        flags: Flags {
            invalid: old.flags.invalid / 2 * 2 + 1,
            data_ro: old.flags.data_ro,
            md_ro: old.flags.md_ro,
        },
        xattrs: old.xattrs.try_copy(alloc)?,
        internal: with_named(alloc, &old.internal, b"SNAP", head)?,
        map,
    })
}

/// New metadata of the blob at a head.
fn replacement(head: u32, new: Meta) -> Replacement
    ensures { result ≡ record { head = head; new = Some new } }
{
    Replacement {
        head,
        new: Some(new),
    }
}

/// The job of a snapshot.
fn snapshot_job(
    alloc: Global,
    volume: u32,
    old: &Meta,
    head: u32,
    xattrs: &XattrList,
) -> Result<Job, Memory>
    ensures { IfOk result (λ job. job ≡ j.snapshot_job volume old.now head xattrs.now) }
{
    let begun = begun_snapshot(alloc, volume, old, head, xattrs)?;
    let filled = filled_snapshot(alloc, volume, old, head, xattrs)?;
    let done = without_marks(alloc, &filled)?;
    let mut list = ReplacementList::new(alloc);
    list.push(replacement(head, begun))?;
    list.push(replacement(head, filled))?;
    list.push(replacement(volume, emptied_volume(alloc, old, head)?))?;
    list.push(replacement(head, done))?;
    Ok(Job {
        list,
        commit: 3,
        zero: PlaceList::new(alloc),
        freeze: Some(volume),
    })
}

/// The job of a snapshot that nothing refuses.
fn snapshot(
    alloc: Global,
    metas: &Metas,
    volume: u32,
    old: &Meta,
    head: u32,
    name: &Name,
    uuid: [u8; 16],
) -> Result<Job, Memory>
    requires { map.get metas.now volume ≡ Some old.now }
    ensures { IfOk result (PlansSnapshot metas.now volume head name.now uuid) }
{
    let xattrs = named_xattrs(alloc, name, uuid)?;
    snapshot_job(alloc, volume, old, head, &xattrs)
}

/// Plans a snapshot of the blob at the head `volume`: a blob at the head `new`, of this name and uuid, which takes the
/// map and the parent of the volume, and is the volume's parent from then on. `Err` is the first cause for which the
/// snapshot is refused, or `Memory`.
pub fn plan_snapshot(
    alloc: Global,
    metas: &Metas,
    sup: &Super,
    volume: u32,
    new: u32,
    name: &Name,
    uuid: [u8; 16],
) -> Result<Job, Reply>
    requires { IsSome (map.get metas.now volume) }
    ensures job { IfOk result (PlansSnapshot metas.now volume new name.now uuid) }
    ensures unrefused { IfOk result
        (λ job. IsFirstAt metas.now sup.now volume (λ meant. c.Snapshot meant name.now) None) }
    ensures refused { IfErr result
        (RefusesFirstAt metas.now sup.now volume (λ meant. c.Snapshot meant name.now)) }
{
    let Some(old) = metas.get(volume) else {
        unreachable!()
    };
    match refusal_of_snapshot(metas, sup, volume, old, name) {
        Some(reply) => Err(reply),
        None => snapshot(alloc, metas, volume, old, new, name, uuid).map_err(|_| Reply::Memory),
    }
}
