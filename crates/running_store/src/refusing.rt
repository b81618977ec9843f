//! Commands that are refused, and commands of a stopped store.

ghost use Rattle.std.specs.Prelude.{◌≡◌, ◌≢◌, ◌<◌, ℕ, None, Some, IsSome};
ghost use Rattle.volume_model.specs.declared.reply.Reply.TheVariants.{Stopped as AStopped};
ghost use Rattle.store_model.specs.Cases.{IsRefusedBy};
ghost use Rattle.store_model.specs.Cases as kind;
ghost use Rattle.running_store.specs.TurnMade.{TurnMade};
ghost use Rattle.running_store.specs.Running.{view_of, InOrder};
ghost use Rattle.running_store.specs.StoreView.{rows_of, state_of};
ghost use Rattle.running_store.specs.GivingBack.{halting, HasGivenUp, WaitsHere};
ghost use Rattle.running_store.specs.Stages.{stage_seen};
ghost use Rattle.store_model.specs.Cases.Halt.{MayLog, stage_after};
ghost use Rattle.store_model.specs.Claiming.{Works};
ghost use Rattle.store_model.specs.Filling.{FillStands};
ghost use Rattle.running_store.specs.Steps.{decided, gone_on, Asks, IsPostedAt, log_with, OnlyRow, refused_with};

use crate::giving_back::give_up;
use crate::logging::log;
use crate::running::Running;
use crate::stages::Stage;
use page_disk::PageDisk;
use volume_model::Reply;

/// Logs the refusal of the posted command of a channel, for which the fill's row doesn't work.
pub(crate) fn refuse<D: PageDisk>(running: &mut Running<D>, channel: u8, reply: Reply)
    requires order { InOrder D.PageDisk running.old }
    requires channel { channel < 16 }
    requires posted { IsPostedAt (view_of running.old) channel }
    requires unfilled { running.old.filling ≢ Some channel }
    requires why { Asks (view_of running.old) channel
        (λ command. IsRefusedBy (state_of D.PageDisk (view_of running.old)) command reply) }
    requires runs { running.old.stopped ≡ None }
    ensures case { TurnMade D.PageDisk (view_of running.old) (view_of running.new) kind.refuses }
    ensures told { Asks (view_of running.old) channel (λ command.
        running.new.entries.items ≡ log_with running.old.entries.items channel command reply) }
    ensures row { OnlyRow running.old.rows.items running.new.rows.items channel
        (decided (rows_of running.old.rows.items channel)) }
    ensures order { InOrder D.PageDisk running.new }
{
    log(running, channel, reply);
}

/// Logs the posted command of a channel, for which the fill's row doesn't work, on a stopped store.
pub fn halt<D: PageDisk>(running: &mut Running<D>, channel: u8)
    requires order { InOrder D.PageDisk running.old }
    requires channel { channel < 16 }
    requires posted { IsPostedAt (view_of running.old) channel }
    requires unfilled { running.old.filling ≢ Some channel }
    requires stopped { IsSome running.old.stopped }
    ensures case { TurnMade D.PageDisk (view_of running.old) (view_of running.new) kind.halts }
    ensures told { (at : ℕ) → running.old.stopped ≡ Some at → Asks (view_of running.old) channel (λ command.
        running.new.entries.items ≡ log_with running.old.entries.items channel command (AStopped at)) }
    ensures row { OnlyRow running.old.rows.items running.new.rows.items channel
        (decided (rows_of running.old.rows.items channel)) }
    ensures order { InOrder D.PageDisk running.new }
{
    match running.stopped {
        Some(at) => log(running, channel, Reply::Stopped(at)),
        None => unreachable!(),
    }
}

/// Logs the first command of a channel in a turn of the channel's own, on a stopped store; a claim is given back.
pub fn halt_here<D: PageDisk>(running: &mut Running<D>, channel: u8)
    requires order { InOrder D.PageDisk running.old }
    requires channel { channel < 16 }
    requires waits { WaitsHere (view_of running.old) channel }
    requires stopped { IsSome running.old.stopped }
    ensures case { TurnMade D.PageDisk (view_of running.old) (view_of running.new) kind.halts }
    ensures row { OnlyRow running.old.rows.items running.new.rows.items channel
        (gone_on (rows_of running.old.rows.items channel)) }
    ensures order { InOrder D.PageDisk running.new }
{
    match running.stopped {
        Some(at) => give_up(running, channel, Reply::Stopped(at), Stage::Idle),
        None => unreachable!(),
    }
}

/// Logs the command that a row works for on a stopped store, in a turn of that row, which goes on at this stage; its
/// claim, if it has one, is given back.
pub fn halt_work<D: PageDisk>(running: &mut Running<D>, row: u8, next: Stage)
    requires order { InOrder D.PageDisk running.old }
    requires works { Works (state_of D.PageDisk (view_of running.old)) row }
    requires fill { FillStands (state_of D.PageDisk (view_of running.old)) }
    requires may { MayLog (rows_of running.old.rows.items row).stage }
    requires next { stage_seen next ≡ stage_after (rows_of running.old.rows.items row).stage }
    requires stopped { IsSome running.old.stopped }
    ensures case { TurnMade D.PageDisk (view_of running.old) (view_of running.new) (halting row) }
    ensures rows { HasGivenUp running.old.filling running.old.rows.items running.new.rows.items row
        (stage_seen next) }
    ensures order { InOrder D.PageDisk running.new }
{
    match running.stopped {
        Some(at) => give_up(running, row, Reply::Stopped(at), next),
        None => unreachable!(),
    }
}

/// Logs the refusal of the posted command of a channel, or, on a stopped store, that it is stopped.
pub fn refuse_or_halt<D: PageDisk>(running: &mut Running<D>, channel: u8, reply: Reply)
    requires order { InOrder D.PageDisk running.old }
    requires channel { channel < 16 }
    requires posted { IsPostedAt (view_of running.old) channel }
    requires unfilled { running.old.filling ≢ Some channel }
    requires why { running.old.stopped ≡ None → Asks (view_of running.old) channel
        (λ command. IsRefusedBy (state_of D.PageDisk (view_of running.old)) command reply) }
    ensures refused { running.old.stopped ≡ None
        → TurnMade D.PageDisk (view_of running.old) (view_of running.new) kind.refuses }
    ensures halted { IsSome running.old.stopped
        → TurnMade D.PageDisk (view_of running.old) (view_of running.new) kind.halts }
    ensures told { Asks (view_of running.old) channel (λ command. running.new.entries.items
        ≡ log_with running.old.entries.items channel command (refused_with running.old.stopped reply)) }
    ensures row { OnlyRow running.old.rows.items running.new.rows.items channel
        (decided (rows_of running.old.rows.items channel)) }
    ensures order { InOrder D.PageDisk running.new }
{
    if running.stopped.is_some() {
        halt(running, channel);
    } else {
        refuse(running, channel, reply);
    }
}
