//! Plans of the commands that bring attributes to the disk.

ghost use Rattle.std.specs.Prelude.{◌≡◌, Some, None, OnOk, IfOk, IfErr, option_copied};
ghost use Rattle.std.specs.FinMap as map;
ghost use Rattle.blob_meta.specs.Asked.{IsAttributeCause, IsFirstCause, IsLiveOf, IsOnAttributes, NamesThere};
ghost use Rattle.blob_meta.specs.Find.{is_meant, IsLeast, IsThere};
ghost use Rattle.blob_meta.specs.Jobs.{job_of_one};
ghost use Rattle.lvol_store.specs.Plans.{IsPut, IsReadOnlyCommand, IsSync, GivesXattrs, MakesReadOnly};
ghost use Rattle.lvol_store.specs.Plans.{PlansPut, PlansReadOnly, PlansSync, RefusesPlan};

use blob_meta::{Flags, Job, Meta, Metas, find, refusal_of};
use out_of_memory::Memory;
use std::alloc::Global;
use super_block::Super;
use volume_model::{Command, Reply, TryCopy, VolumeRef, XattrList};

/// Whether nothing refuses the command; else the first cause.
fn pass(
    metas: &Metas,
    sup: &Super,
    live: Option<&XattrList>,
    command: &Command,
) -> Result<(), Reply>
    requires attributes { IsOnAttributes command.now }
    requires live { IsLiveOf metas.now sup.now (option_copied live) command.now }
    ensures there { OnOk result (NamesThere metas.now sup.now command.now) }
    ensures unrefused { OnOk result (IsFirstCause metas.now sup.now (option_copied live.entry) command.now None) }
    ensures refused { IfErr result
        (λ reply. IsAttributeCause reply
        × IsFirstCause metas.now sup.now (option_copied live.entry) command.now (Some reply)) }
{
    match refusal_of(metas, sup, live, command) {
        Some(reply) => Err(reply),
        None => Ok(()),
    }
}

/// The job that gives the blob at a head these attributes and flags in place of its own.
fn remake(
    alloc: Global,
    head: u32,
    old: &Meta,
    xattrs: XattrList,
    flags: Flags,
) -> Result<Job, Memory>
    ensures { IfOk result (λ job. job ≡ job_of_one head (record old.now { xattrs = xattrs; flags = flags })) }
{
    let new = Meta {
        id: old.id,
        flags,
        xattrs,
        internal: old.internal.try_copy(alloc)?,
        map: old.map.try_copy(alloc)?,
    };
    Job::of_one(alloc, head, new)
}

/// The volume that is meant: its head and its metadata.
fn meant<'a>(metas: &'a Metas, sup: &Super, volume: &VolumeRef) -> (u32, &'a Meta)
    requires { IsThere metas.now sup.now volume.now }
    ensures head { IsLeast (is_meant sup.now.super_blob metas.now volume.now) result.0 }
    ensures there { map.get metas.now result.0 ≡ Some result.1.now }
{
    let Some(head) = find(metas, sup, volume) else {
        unreachable!()
    };
    let Some(meta) = metas.get(head) else {
        unreachable!()
    };
    (head, meta)
}

/// The job that gives the volume that is meant these attributes.
fn give_xattrs(
    alloc: Global,
    metas: &Metas,
    sup: &Super,
    volume: &VolumeRef,
    xattrs: XattrList,
) -> Result<Job, Memory>
    requires { IsThere metas.now sup.now volume.now }
    ensures { IfOk result (GivesXattrs metas.now sup.now volume.now xattrs) }
{
    let (head, old) = meant(metas, sup, volume);
    remake(alloc, head, old, xattrs, old.flags)
}

/// The job that gives the volume that is meant these attributes, and makes it read-only.
fn make_read_only(
    alloc: Global,
    metas: &Metas,
    sup: &Super,
    volume: &VolumeRef,
    xattrs: XattrList,
) -> Result<Job, Memory>
    requires { IsThere metas.now sup.now volume.now }
    ensures { IfOk result (MakesReadOnly metas.now sup.now volume.now xattrs) }
{
    let (head, old) = meant(metas, sup, volume);
    remake(alloc, head, old, xattrs, old.flags.read_only())
}

/// The job of a put that nothing refuses.
fn put(
    alloc: Global,
    metas: &Metas,
    sup: &Super,
    live: Option<&XattrList>,
    command: &Command,
) -> Result<Job, Memory>
    requires put { IsPut command.now }
    requires live { IsLiveOf metas.now sup.now (option_copied live) command.now }
    requires there { NamesThere metas.now sup.now command.now }
    ensures { IfOk result (PlansPut metas.now sup.now (option_copied live.entry) command.now) }
{
    match (command, live) {
        (Command::Put { volume, key, value }, Some(live)) => give_xattrs(
            alloc,
            metas,
            sup,
            volume,
            live.with_value(alloc, key.bytes(), value.bytes())?,
        ),
        _ => unreachable!(),
    }
}

/// The job of a sync that nothing refuses.
fn sync(
    alloc: Global,
    metas: &Metas,
    sup: &Super,
    live: Option<&XattrList>,
    command: &Command,
) -> Result<Job, Memory>
    requires sync { IsSync command.now }
    requires live { IsLiveOf metas.now sup.now (option_copied live) command.now }
    requires there { NamesThere metas.now sup.now command.now }
    ensures { IfOk result (PlansSync metas.now sup.now (option_copied live.entry) command.now) }
{
    match (command, live) {
        (Command::Sync { volume }, Some(live)) => {
            give_xattrs(alloc, metas, sup, volume, live.try_copy(alloc)?)
        }
        _ => unreachable!(),
    }
}

/// The job of a readonly that nothing refuses.
fn readonly(
    alloc: Global,
    metas: &Metas,
    sup: &Super,
    live: Option<&XattrList>,
    command: &Command,
) -> Result<Job, Memory>
    requires readonly { IsReadOnlyCommand command.now }
    requires live { IsLiveOf metas.now sup.now (option_copied live) command.now }
    requires there { NamesThere metas.now sup.now command.now }
    ensures { IfOk result (PlansReadOnly metas.now sup.now (option_copied live.entry) command.now) }
{
    match (command, live) {
        (Command::ReadOnly { volume }, Some(live)) => {
            make_read_only(alloc, metas, sup, volume, live.try_copy(alloc)?)
        }
        _ => unreachable!(),
    }
}

/// Plans a put on the volume that is meant, by head or by name: its metadata with the live attributes, one of them set.
/// `live` is the live attributes, and `None` exactly where `find` gives no head. No blob is made, so the head for a new
/// one isn't used. `Err` is the first cause for which the put is refused, or `Memory`.
pub fn plan_put(
    alloc: Global,
    metas: &Metas,
    sup: &Super,
    command: &Command,
    _new: u32,
    live: Option<&XattrList>,
) -> Result<Job, Reply>
    requires put { IsPut command.now }
    requires live { IsLiveOf metas.now sup.now (option_copied live) command.now }
    ensures job { IfOk result (PlansPut metas.now sup.now (option_copied live.entry) command.now) }
    ensures unrefused { IfOk result
        (λ job. IsFirstCause metas.now sup.now (option_copied live.entry) command.now None) }
    ensures refused { IfErr result (RefusesPlan metas.now sup.now (option_copied live.entry) command.now) }
{
    pass(metas, sup, live, command)?;
    put(alloc, metas, sup, live, command).map_err(|_| Reply::Memory)
}

/// Plans a sync of the volume that is meant, by head or by name: its metadata with the live attributes. `live` is these
/// attributes, and `None` exactly where `find` gives no head. No blob is made, so the head for a new one isn't used.
/// `Err` is the first cause for which the sync is refused, or `Memory`.
pub fn plan_sync(
    alloc: Global,
    metas: &Metas,
    sup: &Super,
    command: &Command,
    _new: u32,
    live: Option<&XattrList>,
) -> Result<Job, Reply>
    requires sync { IsSync command.now }
    requires live { IsLiveOf metas.now sup.now (option_copied live) command.now }
    ensures job { IfOk result (PlansSync metas.now sup.now (option_copied live.entry) command.now) }
    ensures unrefused { IfOk result
        (λ job. IsFirstCause metas.now sup.now (option_copied live.entry) command.now None) }
    ensures refused { IfErr result (RefusesPlan metas.now sup.now (option_copied live.entry) command.now) }
{
    pass(metas, sup, live, command)?;
    sync(alloc, metas, sup, live, command).map_err(|_| Reply::Memory)
}

/// Plans that the volume that is meant, by head or by name, becomes read-only: its metadata with the live attributes,
/// and with bit 0 of `data_ro` set. `live` is these attributes, and `None` exactly where `find` gives no head. No blob
/// is made, so the head for a new one isn't used. `Err` is the first cause for which that is refused, or `Memory`.
pub fn plan_readonly(
    alloc: Global,
    metas: &Metas,
    sup: &Super,
    command: &Command,
    _new: u32,
    live: Option<&XattrList>,
) -> Result<Job, Reply>
    requires readonly { IsReadOnlyCommand command.now }
    requires live { IsLiveOf metas.now sup.now (option_copied live) command.now }
    ensures job { IfOk result (PlansReadOnly metas.now sup.now (option_copied live.entry) command.now) }
    ensures unrefused { IfOk result
        (λ job. IsFirstCause metas.now sup.now (option_copied live.entry) command.now None) }
    ensures refused { IfErr result (RefusesPlan metas.now sup.now (option_copied live.entry) command.now) }
{
    pass(metas, sup, live, command)?;
    readonly(alloc, metas, sup, live, command).map_err(|_| Reply::Memory)
}
