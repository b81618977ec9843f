//! The one turn of the store that serves a message.

ghost use Rattle.std.specs.Prelude.{◌≡◌, ◌≢◌, ◌<◌, None};
ghost use Rattle.channel_turns.specs.FillTurns.{IsNextToFill};
ghost use Rattle.md_thread.specs.Leading.{TurnsOnceOrStays};
ghost use Rattle.md_thread.specs.Tasks.{FillMoves, ServesMessage};
ghost use Rattle.md_thread.specs.declared.serving.Served.TheVariants.{Done};
ghost use Rattle.running_store.specs.Requests.{IsPostedBy};
ghost use Rattle.running_store.specs.Stages.{is_stage};
ghost use Rattle.running_store.specs.Steps.{Asks};
ghost use Rattle.running_store.specs.StoreView.{rows_of, state_of};
ghost use Rattle.running_store.specs.declared.rows.RowStage.TheVariants.{Over};
ghost use Rattle.store_model.specs.Repairing.{IsRepaired};
ghost use Rattle.store_model.specs.Rows.{fill_row, Posted};

use crate::tasks::{Task, task_of};
use page_disk::PageDisk;
use std::alloc::Global;
use store_core::{ClaimTurn, MdRight, Plant};
use store_model::state_turns;
use volume_model::Msg;

/// Whether a fill goes on.
#[derive(Clone, Copy)]
pub(crate) enum Filling {
    /// It does.
    GoesOn,
    /// It has ended: its last job has begun, or its command is logged.
    Ended,
}

/// What has become of a message that was served.
#[derive(Clone, Copy)]
pub(crate) enum Served {
    /// It is done with.
    Done,
    /// Its command has become the fill, whose first turn was made.
    Fills(Filling),
}

/// Claims a cluster on the fill's row, which isn't used, for the slot that is filled next for a message's command.
pub(crate) fn claim_slot<D: PageDisk>(
    plant: &mut Plant<D>,
    right: &mut MdRight,
    msg: Msg,
    slot: u32,
) -> Filling
    requires right { right.old ≡ plant.old.right }
    requires posted { IsPostedBy plant.old.at.rows msg }
    requires over { is_stage (rows_of plant.old.at.rows fill_row) fill_row ≡ Over }
    requires no_job { plant.old.at.job ≡ None }
    requires runs { plant.old.at.stopped ≡ None }
    requires repaired { IsRepaired (state_of D.PageDisk plant.old.at) }
    requires next { Asks plant.old.at msg.channel
        (λ command. IsNextToFill (state_of D.PageDisk plant.old.at) command slot) }
    ensures moves { FillMoves D.tells (state_of D.PageDisk plant.old.at) (state_of D.PageDisk plant.new.at) msg.channel
        result }
    ensures leads { TurnsOnceOrStays D.tells (state_of D.PageDisk plant.old.at) (state_of D.PageDisk plant.new.at) }
    ensures repaired { IsRepaired (state_of D.PageDisk plant.new.at) }
    ensures opening { plant.new.opening ≡ plant.old.opening }
    ensures right { (right.new ≡ right.old) × (plant.new.right ≡ plant.old.right) }
{
    state_turns();
    plant.keeps();
    match plant.claim_fill(right, msg, slot) {
        ClaimTurn::Claimed => Filling::GoesOn,
        ClaimTurn::Logged => Filling::Ended,
        _ => unreachable!(),
    }
}

/// Serves a message by one turn: its command is answered or refused, its job or its insert begins, or its fill. Nothing
/// is done where its row isn't posted under its number any more. While the fill's row is used an insert alone is begun.
pub(crate) fn serve<D: PageDisk>(
    alloc: Global,
    plant: &mut Plant<D>,
    right: &mut MdRight,
    msg: Msg,
) -> Served
    requires right { right.old ≡ plant.old.right }
    requires over { IsPostedBy plant.old.at.rows msg
        → is_stage (rows_of plant.old.at.rows fill_row) fill_row ≡ Over }
    requires no_job { plant.old.at.job ≡ None }
    requires repaired { IsRepaired (state_of D.PageDisk plant.old.at) }
    ensures turn { msg.channel < 16 → (rows_of plant.old.at.rows msg.channel).stage ≡ Posted msg.serial
        → ServesMessage D.PageDisk plant.old.at plant.new.at msg.channel result }
    ensures stale { (rows_of plant.old.at.rows msg.channel).stage ≢ Posted msg.serial
        → (plant.new ≡ plant.old) × (result ≡ Done) }
    ensures leads { TurnsOnceOrStays D.tells (state_of D.PageDisk plant.old.at) (state_of D.PageDisk plant.new.at) }
    ensures repaired { IsRepaired (state_of D.PageDisk plant.new.at) }
    ensures opening { plant.new.opening ≡ plant.old.opening }
    ensures right { (right.new ≡ right.old) × (plant.new.right ≡ plant.old.right) }
{
    state_turns();
    plant.keeps();
    match task_of(alloc, plant, right, msg) {
        Task::Nothing => {}
        Task::Insert => {
            plant.begin_insert(right, msg);
        }
        Task::Answer => plant.answer(right, msg),
        Task::Refuse(reply) => plant.refuse(right, msg, reply),
        Task::Begin(job) => {
            plant.begin_job(right, msg, job);
        }
        Task::Claim(slot) => return Served::Fills(claim_slot(plant, right, msg, slot)),
    }
    Served::Done
}
