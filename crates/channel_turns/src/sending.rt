//! The insert of a row whose pages are all copied, which is posted for the metadata thread.

ghost use Rattle.std.specs.Prelude.{◌≡◌, ◌<◌, None};
ghost use Rattle.volume_model.specs.declared.reply.Msg.{Msg as AMsg};
ghost use Rattle.store_model.specs.Cases as kind;
ghost use Rattle.store_model.specs.Rows.{Ready};
ghost use Rattle.channel_turns.specs.declared.sending.SendTurn.TheVariants.{Logged, Post};
ghost use Rattle.running_store.specs.TurnMade.{TurnMade, TurnsAs};
ghost use Rattle.channel_turns.specs.ClaimTurns.{HoldsClaim, IsOfSend, RowsSent};
ghost use Rattle.running_store.specs.RunningState.{IsRunning};
ghost use Rattle.running_store.specs.Running.{view_of, InOrder};
ghost use Rattle.running_store.specs.StoreView.{state_of};
ghost use Rattle.store_model.specs.Filling.{FillStands};

use crate::turns::post_row;
use page_disk::PageDisk;
use running_store::{Running, Stage, flush_once, give_up, halt_work, stop_here};
use volume_model::{Msg, Reply};

/// What the end of a copy comes to.
#[derive(Clone, Copy)]
pub enum SendTurn {
    /// The copies are safe from a crash, and the insert is posted by this message.
    Post(Msg),
    /// The command that the row works for is logged, and the claim given back.
    Logged,
}

/// Flushes the copies of a row and posts its insert, or, where the flush failed and the store stops, logs the command
/// that it works for as failed.
fn send<D: PageDisk>(running: &mut Running<D>, row: u8) -> SendTurn
    requires order { InOrder D.PageDisk running.old }
    requires row { row < 17 }
    requires holds { HoldsClaim D.PageDisk (view_of running.old) row Ready }
    requires running { IsRunning (state_of D.PageDisk (view_of running.old)) }
    requires fill { FillStands (state_of D.PageDisk (view_of running.old)) }
    requires runs { running.old.stopped ≡ None }
    ensures sent { (msg : AMsg) → result ≡ Post msg
        → TurnMade D.PageDisk (view_of running.old) (view_of running.new) kind.sends }
    ensures message { (msg : AMsg) → result ≡ Post msg
        → msg ≡ record { channel = row; serial = running.old.serial } }
    ensures logged { result ≡ Logged
        → TurnsAs D.PageDisk IsOfSend (view_of running.old) (view_of running.new) }
    ensures rows { RowsSent result running.old.filling running.old.rows.items running.new.rows.items row }
    ensures order { InOrder D.PageDisk running.new }
{
    if flush_once(&mut running.disk).is_err() {
        stop_here(running);
        give_up(running, row, Reply::Fault, Stage::Idle);
        return SendTurn::Logged;
    }
    SendTurn::Post(post_row(running, row))
}

/// Posts the insert of a row, or, on a stopped store, logs the command that it works for as that.
pub fn send_or_halt<D: PageDisk>(running: &mut Running<D>, row: u8) -> SendTurn
    requires order { InOrder D.PageDisk running.old }
    requires row { row < 17 }
    requires holds { HoldsClaim D.PageDisk (view_of running.old) row Ready }
    requires running { IsRunning (state_of D.PageDisk (view_of running.old)) }
    requires fill { FillStands (state_of D.PageDisk (view_of running.old)) }
    ensures sent { (msg : AMsg) → result ≡ Post msg
        → TurnMade D.PageDisk (view_of running.old) (view_of running.new) kind.sends }
    ensures message { (msg : AMsg) → result ≡ Post msg
        → msg ≡ record { channel = row; serial = running.old.serial } }
    ensures logged { result ≡ Logged
        → TurnsAs D.PageDisk IsOfSend (view_of running.old) (view_of running.new) }
    ensures rows { RowsSent result running.old.filling running.old.rows.items running.new.rows.items row }
    ensures order { InOrder D.PageDisk running.new }
{
    if running.stopped.is_some() {
        halt_work(running, row, Stage::Idle);
        SendTurn::Logged
    } else {
        send(running, row)
    }
}
