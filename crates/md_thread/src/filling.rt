//! The turns of a fill.

ghost use Rattle.std.specs.Prelude.{◌≡◌, ◌<◌, ℕ, None, Some};
ghost use Rattle.md_thread.specs.Leading.{TurnsOnceOrStays};
ghost use Rattle.md_thread.specs.Tasks.{FillMoves};
ghost use Rattle.running_store.specs.Requests.{IsPostedBy};
ghost use Rattle.running_store.specs.Stages.{is_stage};
ghost use Rattle.running_store.specs.StoreView.{rows_of, state_of};
ghost use Rattle.running_store.specs.declared.rows.RowStage.TheVariants.{Over};
ghost use Rattle.store_model.specs.Repairing.{IsRepaired};
ghost use Rattle.store_model.specs.Rows.{fill_row};

use crate::serving::{Filling, Served, serve};
use page_disk::PageDisk;
use std::alloc::Global;
use store_core::{CopyTurn, FILL_ROW, InsertTurn, MdRight, Plant, RowStage, SendTurn};
use store_model::state_turns;
use volume_model::Msg;

/// The next turn of the fill of a message's command, while the fill's row isn't used. The command is planned anew, so
/// that it may be refused by now.
fn between_slots<D: PageDisk>(
    alloc: Global,
    plant: &mut Plant<D>,
    right: &mut MdRight,
    msg: Msg,
) -> Filling
    requires right { right.old ≡ plant.old.right }
    requires over { is_stage (rows_of plant.old.at.rows fill_row) fill_row ≡ Over }
    requires no_job { plant.old.at.job ≡ None }
    requires repaired { IsRepaired (state_of D.PageDisk plant.old.at) }
    ensures moves { msg.channel < 16 → IsPostedBy plant.old.at.rows msg
        → FillMoves D.tells (state_of D.PageDisk plant.old.at) (state_of D.PageDisk plant.new.at) msg.channel result }
    ensures leads { TurnsOnceOrStays D.tells (state_of D.PageDisk plant.old.at) (state_of D.PageDisk plant.new.at) }
    ensures repaired { IsRepaired (state_of D.PageDisk plant.new.at) }
    ensures opening { plant.new.opening ≡ plant.old.opening }
    ensures right { (right.new ≡ right.old) × (plant.new.right ≡ plant.old.right) }
{
    state_turns();
    plant.keeps();
    match serve(alloc, plant, right, msg) {
        Served::Fills(filling) => filling,
        Served::Done => Filling::Ended,
    }
}

/// The next turn of the fill of a message's command, by the stage of the fill's row: a page is copied, the insert is
/// posted or begins, what was decided is taken, or the next slot begins.
pub(crate) fn fill_turn<D: PageDisk>(
    alloc: Global,
    plant: &mut Plant<D>,
    right: &mut MdRight,
    msg: Msg,
) -> Filling
    requires right { right.old ≡ plant.old.right }
    requires no_job { plant.old.at.job ≡ None }
    requires repaired { IsRepaired (state_of D.PageDisk plant.old.at) }
    ensures moves { msg.channel < 16 → IsPostedBy plant.old.at.rows msg
        → ((channel : ℕ) → plant.old.at.filling ≡ Some channel → channel ≡ msg.channel)
        → FillMoves D.tells (state_of D.PageDisk plant.old.at) (state_of D.PageDisk plant.new.at) msg.channel result }
    ensures leads { TurnsOnceOrStays D.tells (state_of D.PageDisk plant.old.at) (state_of D.PageDisk plant.new.at) }
    ensures repaired { IsRepaired (state_of D.PageDisk plant.new.at) }
    ensures opening { plant.new.opening ≡ plant.old.opening }
    ensures right { (right.new ≡ right.old) × (plant.new.right ≡ plant.old.right) }
{
    state_turns();
    plant.keeps();
    match plant.stage(FILL_ROW) {
        RowStage::Over => between_slots(alloc, plant, right, msg),
        RowStage::Copy { .. } => match plant.copy_page(FILL_ROW) {
            CopyTurn::Lost => Filling::GoesOn,
            CopyTurn::Copied(_) => Filling::GoesOn,
            CopyTurn::Logged => Filling::Ended,
        },
        RowStage::Ready => match plant.send_ready(FILL_ROW) {
            SendTurn::Post(_) => Filling::GoesOn,
            SendTurn::Logged => Filling::Ended,
        },
        RowStage::Posted(own) => match plant.begin_insert(right, own) {
            InsertTurn::Began => Filling::GoesOn,
            InsertTurn::Decided => Filling::GoesOn,
            InsertTurn::Logged => Filling::Ended,
        },
        RowStage::Decided => {
            plant.settle(FILL_ROW);
            Filling::GoesOn
        }
        _ => unreachable!(),
    }
}
