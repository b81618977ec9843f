//! Plans of clones and snapshots.

ghost use Rattle.std.specs.Prelude.{None, IfOk, IfErr};
ghost use Rattle.blob_meta.specs.ShownBy.{IsFirstRefusal};
ghost use Rattle.lvol_store.specs.CopyPlans.{IsClone, IsSnapshot, ClonesAsAsked, SnapshotsAsAsked};
ghost use Rattle.lvol_store.specs.SlotPlans.{RefusesFirst};

use crate::creating::store_uuid;
use blob_meta::{Job, Metas, find};
use std::alloc::Global;
use super_block::Super;
use volume_model::{Command, Reply, uuid_of_new};

/// Plans a clone of the blob that is meant, which must be read-only: a thin blob at the head `new`, with as many empty
/// slots, whose parent that blob is; with the attributes `name` and `uuid`, the uuid being the name's in the store's.
/// `Err` is the first cause for which the clone is refused, or `Memory`.
pub fn plan_clone(
    alloc: Global,
    metas: &Metas,
    sup: &Super,
    command: &Command,
    new: u32,
) -> Result<Job, Reply>
    requires { IsClone command.now }
    ensures job { IfOk result (ClonesAsAsked metas.now sup.now new command.now) }
    ensures unrefused { IfOk result (λ job. IsFirstRefusal metas.now sup.now command.now None) }
    ensures refused { IfErr result (RefusesFirst metas.now sup.now command.now) }
{
    let Command::Clone { volume, name } = command else {
        unreachable!()
    };
    let Some(head) = find(metas, sup, volume) else {
        return Err(Reply::NoVolume);
    };
    let uuid = uuid_of_new(store_uuid(metas, sup), name, None);
    snapshots::plan_clone(alloc, metas, sup, head, new, name, uuid)
}

/// Plans a snapshot of the blob that is meant, which must be writable: a read-only blob at the head `new`, with its
/// clusters and its parent, which becomes its parent; with the attributes `name` and `uuid`, the uuid being the name's
/// in the store's. `Err` is the first cause for which the snapshot is refused, or `Memory`.
pub fn plan_snapshot(
    alloc: Global,
    metas: &Metas,
    sup: &Super,
    command: &Command,
    new: u32,
) -> Result<Job, Reply>
    requires { IsSnapshot command.now }
    ensures job { IfOk result (SnapshotsAsAsked metas.now sup.now new command.now) }
    ensures unrefused { IfOk result (λ job. IsFirstRefusal metas.now sup.now command.now None) }
    ensures refused { IfErr result (RefusesFirst metas.now sup.now command.now) }
{
    let Command::Snapshot { volume, name } = command else {
        unreachable!()
    };
    let Some(head) = find(metas, sup, volume) else {
        return Err(Reply::NoVolume);
    };
    let uuid = uuid_of_new(store_uuid(metas, sup), name, None);
    snapshots::plan_snapshot(alloc, metas, sup, head, new, name, uuid)
}
