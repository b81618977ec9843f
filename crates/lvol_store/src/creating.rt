//! Plans of new volumes.

ghost use Rattle.std.specs.Prelude.{◌≡◌, ◌≤◌, ◌^◌, None, IfOk, IfErr, option_copied};
ghost use Rattle.std.specs.FinMap as map;
ghost use Rattle.std.specs.Option.{option_and_then};
ghost use Rattle.blob_meta.specs.Jobs.{create_job};
ghost use Rattle.blob_meta.specs.Parents.{head_of_id};
ghost use Rattle.blob_meta.specs.ShownBy.{IsFirstRefusal};
ghost use Rattle.blob_meta.specs.SlotCounts.{AsksFewSlots, HeadsFit, IsCreate};
ghost use Rattle.lvol_store.specs.SlotPlans.{IsStoreUuid, PlansCreate, RefusesFirst};

use crate::slots::slots_from;
use blob_meta::{Job, Meta, Metas, new_meta, refusal_of_create};
use out_of_memory::Memory;
use std::alloc::Global;
use super_block::Super;
use volume_model::{Command, PlaceList, Reply, XattrList, named_xattrs, uuid_of_new, uuid_said};

/// The metadata of the super blob, if there is one.
fn super_meta<'a>(metas: &'a Metas, sup: &Super) -> Option<&'a Meta>
    ensures { HeadsFit metas.now → option_copied result
        ≡ option_and_then (λ h. map.get metas.now h) (head_of_id sup.now.super_blob) }
{
    match sup.super_blob.checked_sub(1 << 32) {
        Some(head) => match u32::try_from(head) {
            Ok(head) => metas.get(head),
            Err(_) => None,
        },
        None => None,
    }
}

/// The store's uuid: what the super blob's attribute `uuid` says up to its first NUL; the nil uuid where there is no
/// super blob, or where it says none.
pub fn store_uuid(metas: &Metas, sup: &Super) -> [u8; 16]
    ensures { IsStoreUuid metas.now sup.now result }
{
    match super_meta(metas, sup) {
        Some(meta) => uuid_said(meta.xattrs.told(b"uuid")),
        None => uuid_said(&[]),
    }
}

/// The job that makes a blob.
fn make_blob(
    alloc: Global,
    head: u32,
    xattrs: XattrList,
    thick: bool,
    slots: u32,
) -> Result<Job, Memory>
    requires { slots ≤ 2 ^ 20 }
    ensures { IfOk result (λ job. job ≡ create_job head xattrs thick slots) }
{
    let zero = if thick {
        slots_from(alloc, 0, slots)?
    } else {
        PlaceList::new(alloc)
    };
    let mut job = Job::of_one(alloc, head, new_meta(alloc, head, xattrs, thick, slots)?)?;
    job.zero = zero;
    Ok(job)
}

/// The job of a create that nothing refuses.
fn create(
    alloc: Global,
    metas: &Metas,
    sup: &Super,
    command: &Command,
    new: u32,
) -> Result<Job, Memory>
    requires create { IsCreate command.now }
    requires few { AsksFewSlots command.now }
    ensures { IfOk result (PlansCreate metas.now sup.now new command.now) }
{
    let Command::Create {
        name,
        slots,
        thick,
        uuid,
    } = command
    else {
        unreachable!()
    };
    let uuid = uuid_of_new(store_uuid(metas, sup), name, *uuid);
    let xattrs = named_xattrs(alloc, name, uuid)?;
    make_blob(alloc, new, xattrs, *thick, *slots as u32)
}

/// Plans a create: a blob at the head `new`, of the asked slots, which are filled by clusters of zeros where it is
/// thick; with the attributes `name` and `uuid`, the uuid being the given one or else the name's in the store's. `Err`
/// is the first cause for which the create is refused, or `Memory`.
pub fn plan_create(
    alloc: Global,
    metas: &Metas,
    sup: &Super,
    command: &Command,
    new: u32,
) -> Result<Job, Reply>
    requires { IsCreate command.now }
    ensures job { IfOk result (PlansCreate metas.now sup.now new command.now) }
    ensures unrefused { IfOk result (λ job. IsFirstRefusal metas.now sup.now command.now None) }
    ensures refused { IfErr result (RefusesFirst metas.now sup.now command.now) }
{
    match refusal_of_create(metas, sup, command) {
        Some(reply) => Err(reply),
        None => create(alloc, metas, sup, command, new).map_err(|_| Reply::Memory),
    }
}
