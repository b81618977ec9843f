//! What is to be done for a message.

ghost use Rattle.std.specs.Prelude.{◌≡◌, ◌↔◌, None, IfOk, IfErr, IsFalse, IsSome, IsTrue};
ghost use Rattle.blob_meta.specs.Repairs.{HasNoMarks};
ghost use Rattle.store_model.specs.Cases.{IsRefusedBy};
ghost use Rattle.store_model.specs.Repairing.{IsRepaired};
ghost use Rattle.store_model.specs.Rows.{IsForMetadata, Posted};
ghost use Rattle.lvol_store.specs.FillPlans.{IsFill};
ghost use Rattle.md_thread.specs.Tasks.{IsFillPlanOf, IsPlanOf, IsTaskOf};
ghost use Rattle.running_store.specs.StoreView.{base_of, rows_of, state_of};

use blob_meta::{Job, least_heads_are_meant};
use lvol_store::{
    FillPlan, plan_clone, plan_create, plan_delete, plan_fill, plan_put, plan_readonly,
    plan_rename, plan_resize, plan_snapshot, plan_sync,
};
use page_disk::PageDisk;
use std::alloc::Global;
use store_core::{MdRight, Plant, Request, plans};
use volume_model::{Command, Msg, Reply};

/// What is to be done for a message.
#[derive(Drop)]
pub(crate) enum Task {
    /// Nothing: its row isn't posted under its number any more.
    Nothing,
    /// The insert that it asks for is begun.
    Insert,
    /// Its command is answered in memory.
    Answer,
    /// Its command is refused so.
    Refuse(Reply),
    /// This job is begun for its command.
    Begin(Job),
    /// A cluster is claimed for this slot, which is filled next for its command.
    Claim(u32),
}

/// Whether a message asks for an insert. It asks for none where its row isn't posted under its number any more.
pub(crate) fn is_insert<D: PageDisk>(plant: &Plant<D>, right: &MdRight, msg: Msg) -> bool
    requires right { right.now ≡ plant.now.right }
    ensures insert { IsTrue result → IsSome (rows_of plant.now.at.rows msg.channel).claim }
    ensures command { IsFalse result → (rows_of plant.now.at.rows msg.channel).stage ≡ Posted msg.serial
        → (rows_of plant.now.at.rows msg.channel).claim ≡ None }
{
    matches!(plant.request(right, msg), Ok(Request::Insert))
}

/// Whether slots are filled for a command: an inflate or a decouple.
fn is_fill(command: &Command) -> bool
    ensures { IsTrue result ↔ IsFill command.now }
{
    matches!(command, Command::Inflate { .. } | Command::Decouple { .. })
}

/// What is planned next for an inflate or a decouple, or why it is refused.
fn planned_fill<D: PageDisk>(
    alloc: Global,
    plant: &Plant<D>,
    command: &Command,
) -> Result<FillPlan, Reply>
    requires fill { IsFill command.now }
    requires runs { plant.now.at.stopped ≡ None }
    requires unmarked { HasNoMarks (base_of plant.now.at.metas plant.now.at.marked) }
    ensures plan { IfOk result (IsFillPlanOf D.PageDisk plant.now.at command.now) }
    ensures refused { IfErr result (IsRefusedBy (state_of D.PageDisk plant.now.at) command.now) }
{
    plans::<D>();
    plant.keeps();
    plant.resolves();
    plan_fill(alloc, plant.metas(), plant.sup(), command)
}

/// The job that is planned for a command which no slots are filled for, or why it is refused; `None` for a command that
/// is answered in memory.
fn planned<D: PageDisk>(
    alloc: Global,
    plant: &Plant<D>,
    command: &Command,
) -> Option<Result<Job, Reply>>
    requires for_metadata { IsForMetadata command.now }
    requires unfilled { ¬ IsFill command.now }
    requires runs { plant.now.at.stopped ≡ None }
    requires unmarked { HasNoMarks (base_of plant.now.at.metas plant.now.at.marked) }
    ensures { IsPlanOf D.PageDisk plant.now.at command.now result }
{
    plans::<D>();
    least_heads_are_meant();
    plant.keeps();
    plant.resolves();
    let (metas, sup, new) = (plant.metas(), plant.sup(), plant.next_head());
    match command {
        Command::Put { .. } => {
            let live = plant.live_of(command);
            Some(plan_put(alloc, metas, sup, command, new, live))
        }
        Command::Sync { .. } => {
            let live = plant.live_of(command);
            Some(plan_sync(alloc, metas, sup, command, new, live))
        }
        Command::ReadOnly { .. } => {
            let live = plant.live_of(command);
            Some(plan_readonly(alloc, metas, sup, command, new, live))
        }
        Command::Create { .. } => Some(plan_create(alloc, metas, sup, command, new)),
        Command::Resize { .. } => Some(plan_resize(alloc, metas, sup, command, new)),
        Command::Clone { .. } => Some(plan_clone(alloc, metas, sup, command, new)),
        Command::Snapshot { .. } => Some(plan_snapshot(alloc, metas, sup, command, new)),
        Command::Delete { .. } => Some(plan_delete(alloc, metas, sup, command)),
        Command::Rename { .. } => Some(plan_rename(alloc, metas, sup, command, new)),
        _ => None,
    }
}

/// What is to be done for a message. On a stopped store its command is refused as that.
pub(crate) fn task_of<D: PageDisk>(
    alloc: Global,
    plant: &Plant<D>,
    right: &MdRight,
    msg: Msg,
) -> Task
    requires right { right.now ≡ plant.now.right }
    requires no_job { plant.now.at.job ≡ None }
    requires repaired { IsRepaired (state_of D.PageDisk plant.now.at) }
    ensures { IsTaskOf D.PageDisk plant.now.at msg result }
{
    plant.keeps();
    let command = match plant.request(right, msg) {
        Ok(Request::Meta(command)) => command,
        Ok(Request::Insert) => return Task::Insert,
        Err(_) => return Task::Nothing,
    };
    if let Some(at) = plant.stopped() {
        return Task::Refuse(Reply::Stopped(at));
    }
    if is_fill(command) {
        return match planned_fill(alloc, plant, command) {
            Ok(FillPlan::Slot(slot)) => Task::Claim(slot),
            Ok(FillPlan::Last(job)) => Task::Begin(job),
            Err(reply) => Task::Refuse(reply),
        };
    }
    match planned(alloc, plant, command) {
        None => Task::Answer,
        Some(Ok(job)) => Task::Begin(job),
        Some(Err(reply)) => Task::Refuse(reply),
    }
}
