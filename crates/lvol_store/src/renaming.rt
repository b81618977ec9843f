//! Plans of volumes that get another name.

ghost use Rattle.std.specs.Prelude.{◌≡◌, None, Some, IfOk, IfErr, IfSome};
ghost use Rattle.std.specs.FinMap as map;
ghost use Rattle.volume_model.specs.Machine.{IsCauseOfRefusal};
ghost use Rattle.volume_model.specs.Names.{IsName};
ghost use Rattle.volume_model.specs.declared.command.Command.TheVariants as c;
ghost use Rattle.blob_meta.specs.Jobs.{job_of_one};
ghost use Rattle.blob_meta.specs.ShownBy.{IsFirstRefusal};
ghost use Rattle.snapshots.specs.RefusedAt.{IsFirstAt};
ghost use Rattle.lvol_store.specs.RenamePlans.{renamed, IsRename, PlansRename};
ghost use Rattle.lvol_store.specs.SlotPlans.{RefusesFirst};

use blob_meta::{Job, Meta, Metas, find, is_super, is_taken};
use out_of_memory::Memory;
use std::alloc::Global;
use super_block::Super;
use volume_model::{Command, Name, Reply, TryCopy, with_nul};

/// The first cause for which the blob at a head isn't given the name; `None` exactly where nothing refuses it.
fn refusal_at(metas: &Metas, sup: &Super, head: u32, old: &Meta, name: &Name) -> Option<Reply>
    requires { map.get metas.now head ≡ Some old.now }
    ensures caused { IfSome result IsCauseOfRefusal }
    ensures first { IsFirstAt metas.now sup.now head (λ meant. c.Rename meant name.now) result }
{
    if is_super(sup, head) {
        Some(Reply::Reserved)
    } else if old.flags.is_read_only() {
        Some(Reply::ReadOnly)
    } else if is_taken(metas, sup, name) {
        Some(Reply::NameTaken)
    } else {
        None
    }
}

/// The job that gives the blob at a head the name, in place of that which was last synced.
fn rename(alloc: Global, head: u32, old: &Meta, name: &Name) -> Result<Job, Memory>
    ensures name { IsName name.now }
    ensures job { IfOk result (λ job. job ≡ job_of_one head (renamed old.now name.now)) }
{
    let value = with_nul(alloc, name.bytes())?;
    let new = Meta {
        id: old.id,
        flags: old.flags,
        xattrs: old.xattrs.with_value(alloc, b"name", value.as_slice())?,
        internal: old.internal.try_copy(alloc)?,
        map: old.map.try_copy(alloc)?,
    };
    Job::of_one(alloc, head, new)
}

/// Plans that the blob that is meant, by head or by name, gets another name: its metadata with that name, and all else
/// as it was last synced, so that what is pending stays so. No blob is made, so the head for a new one isn't used.
/// `Err` is the first cause for which the rename is refused, or `Memory`: `NoVolume` where no blob is meant, `Reserved`
/// for the super blob, `ReadOnly` for a blob that is read-only, and `NameTaken` where a blob other than the super blob,
/// be it this one, has the name.
pub fn plan_rename(
    alloc: Global,
    metas: &Metas,
    sup: &Super,
    command: &Command,
    _new: u32,
) -> Result<Job, Reply>
    requires { IsRename command.now }
    ensures job { IfOk result (PlansRename metas.now sup.now command.now) }
    ensures unrefused { IfOk result (λ job. IsFirstRefusal metas.now sup.now command.now None) }
    ensures refused { IfErr result (RefusesFirst metas.now sup.now command.now) }
{
    let Command::Rename { volume, name } = command else {
        unreachable!()
    };
    let Some(head) = find(metas, sup, volume) else {
        return Err(Reply::NoVolume);
    };
    let Some(old) = metas.get(head) else {
        unreachable!()
    };
    match refusal_at(metas, sup, head, old, name) {
        Some(reply) => Err(reply),
        None => rename(alloc, head, old, name).map_err(|_| Reply::Memory),
    }
}
