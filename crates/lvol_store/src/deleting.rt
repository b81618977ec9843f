//! Plans of deletes.

ghost use Rattle.std.specs.Prelude.{None, IfOk, IfErr};
ghost use Rattle.blob_meta.specs.ShownBy.{IsFirstRefusal};
ghost use Rattle.lvol_store.specs.DeletePlans.{IsDelete, DeletesAsAsked};
ghost use Rattle.lvol_store.specs.SlotPlans.{RefusesFirst};

use blob_meta::{Job, Metas, find};
use std::alloc::Global;
use super_block::Super;
use volume_model::{Command, Reply};

/// Plans a delete of the blob that is meant: it is erased, and one clone of it takes over its clusters and its parent
/// first. `Err` is the first cause for which the delete is refused, or `Memory`.
pub fn plan_delete(
    alloc: Global,
    metas: &Metas,
    sup: &Super,
    command: &Command,
) -> Result<Job, Reply>
    requires { IsDelete command.now }
    ensures job { IfOk result (DeletesAsAsked metas.now sup.now command.now) }
    ensures unrefused { IfOk result (λ job. IsFirstRefusal metas.now sup.now command.now None) }
    ensures refused { IfErr result (RefusesFirst metas.now sup.now command.now) }
{
    let Command::Delete { volume } = command else {
        unreachable!()
    };
    let Some(head) = find(metas, sup, volume) else {
        return Err(Reply::NoVolume);
    };
    inflate_delete::plan_delete(alloc, metas, sup, head)
}
