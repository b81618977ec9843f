//! Plans of inflates and decouples.

ghost use Rattle.std.specs.Prelude.{◌≡◌, None, IfOk, IfErr};
ghost use Rattle.blob_meta.specs.ShownBy.{IsFirstRefusal};
ghost use Rattle.inflate_delete.specs.Fills.{command_of};
ghost use Rattle.lvol_store.specs.FillPlans.{FillsAsAsked, IsFill};
ghost use Rattle.lvol_store.specs.SlotPlans.{RefusesFirst};

use blob_meta::{Job, Metas, find};
use inflate_delete::{Fill, FillKind};
use std::alloc::Global;
use super_block::Super;
use volume_model::{Command, Reply, VolumeRef};

/// What an inflate or a decouple does next.
#[derive(Drop)]
pub enum FillPlan {
    /// The slot of this number is filled.
    Slot(u32),
    /// No slot is left to fill: this is its last job.
    Last(Job),
}

/// Why the command fills slots, and of which volume.
fn fill_asked(command: &Command) -> (FillKind, &VolumeRef)
    requires { IsFill command.now }
    ensures { command.now ≡ command_of result.0 result.1.now }
{
    match command {
        Command::Inflate { volume } => (FillKind::Inflate, volume),
        Command::Decouple { volume } => (FillKind::Decouple, volume),
        _ => unreachable!(),
    }
}

/// Plans the next step of an inflate or a decouple of the blob that is meant: the least slot that it has to fill, or,
/// where it has none, the job at its end. `Err` is the first cause for which the command is refused, or `Memory`.
pub fn plan_fill(
    alloc: Global,
    metas: &Metas,
    sup: &Super,
    command: &Command,
) -> Result<FillPlan, Reply>
    requires { IsFill command.now }
    ensures plan { IfOk result (FillsAsAsked metas.now sup.now command.now) }
    ensures unrefused { IfOk result (λ plan. IsFirstRefusal metas.now sup.now command.now None) }
    ensures refused { IfErr result (RefusesFirst metas.now sup.now command.now) }
{
    let (kind, volume) = fill_asked(command);
    let Some(head) = find(metas, sup, volume) else {
        return Err(Reply::NoVolume);
    };
    let fill = Fill::plan(metas, sup, head, kind)?;
    match fill.next(metas) {
        Some(slot) => Ok(FillPlan::Slot(slot)),
        None => match fill.last_job(alloc, metas) {
            Ok(job) => Ok(FillPlan::Last(job)),
            Err(reply) => Err(reply),
        },
    }
}
