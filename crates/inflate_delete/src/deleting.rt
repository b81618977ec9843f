//! Plans of deletes.

ghost use Rattle.std.specs.Prelude.{◌≡◌, ◌≤◌, None, Some, length, IfOk, IfErr, IsSome};
ghost use Rattle.std.specs.FinMap as map;
ghost use Rattle.std.specs.List.{All};
ghost use Rattle.volume_model.specs.declared.command.Command.TheVariants as c;
ghost use Rattle.snapshots.specs.RefusedAt.{IsFirstAt, RefusesFirstAt};
ghost use Rattle.inflate_delete.specs.Clones.{AreClones};
ghost use Rattle.inflate_delete.specs.DeleteJobs as j;
ghost use Rattle.inflate_delete.specs.DeletePlans.{IsDeleteJob};

use crate::clones::clones_of;
use crate::handing::{going_blob, heir_of};
use crate::refusing::refusal_of_delete;
use blob_meta::{Job, Meta, Metas, Replacement, ReplacementList};
use out_of_memory::Memory;
use std::alloc::Global;
use super_block::Super;
use volume_model::{PlaceList, Reply};

/// The job that erases the blob at a head.
fn erase_job(alloc: Global, head: u32) -> Result<Job, Memory>
    ensures { IfOk result (λ job. job ≡ j.erase_job head) }
{
    let mut list = ReplacementList::new(alloc);
    list.push(Replacement { head, new: None })?;
    Ok(Job {
        list,
        commit: 1,
        zero: PlaceList::new(alloc),
        freeze: None,
    })
}

/// The job that erases the blob at a head after its one clone has taken over from it.
fn delete_job(alloc: Global, head: u32, old: &Meta, clone: u32, heir: &Meta) -> Result<Job, Memory>
    ensures { IfOk result (λ job. job ≡ j.delete_job head old.now clone heir.now) }
{
    let going = going_blob(alloc, old, clone)?;
    let heir = heir_of(alloc, heir, old)?;
    let mut list = ReplacementList::new(alloc);
    list.push(Replacement {
        head,
        new: Some(going),
    })?;
    list.push(Replacement {
        head: clone,
        new: Some(heir),
    })?;
    list.push(Replacement { head, new: None })?;
    Ok(Job {
        list,
        commit: 2,
        zero: PlaceList::new(alloc),
        freeze: None,
    })
}

/// The job of a delete that nothing refuses, of a blob with these clones.
fn delete(
    alloc: Global,
    metas: &Metas,
    volume: u32,
    old: &Meta,
    clones: &[u32],
) -> Result<Job, Memory>
    requires there { map.get metas.now volume ≡ Some old.now }
    requires clones { AreClones metas.now volume clones.now }
    requires few { length clones.now ≤ 1 }
    requires heirs { All (λ k. IsSome (map.get metas.now k)) clones.now }
    ensures { IfOk result (IsDeleteJob metas.now volume) }
{
    match clones {
        [] => erase_job(alloc, volume),
        [clone] => {
            let Some(heir) = metas.get(*clone) else {
                unreachable!()
            };
            delete_job(alloc, volume, old, *clone, heir)
        }
        _ => unreachable!(),
    }
}

/// Plans a delete of the blob at the head `volume`. One without clones is erased. One with one clone hands on to it the
/// clusters of the slots that the clone hasn't filled, and the parent, and then it is erased. `Err` is the first cause
/// for which the delete is refused, or `Memory`.
pub fn plan_delete(alloc: Global, metas: &Metas, sup: &Super, volume: u32) -> Result<Job, Reply>
    requires { IsSome (map.get metas.now volume) }
    ensures job { IfOk result (IsDeleteJob metas.now volume) }
    ensures unrefused { IfOk result
        (λ job. IsFirstAt metas.now sup.now volume (λ meant. c.Delete meant) None) }
    ensures refused { IfErr result (RefusesFirstAt metas.now sup.now volume (λ meant. c.Delete meant)) }
{
    let Some(old) = metas.get(volume) else {
        unreachable!()
    };
    let clones = clones_of(alloc, metas, volume)?;
    match refusal_of_delete(metas, sup, volume, old, clones.as_slice()) {
        Some(reply) => Err(reply),
        None => delete(alloc, metas, volume, old, clones.as_slice()).map_err(|_| Reply::Memory),
    }
}
