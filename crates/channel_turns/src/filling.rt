//! The turns that the fill's row alone has: its claim of a cluster for the slot that is to be filled next, and its end.

ghost use Rattle.std.specs.Prelude.{◌≡◌, ◌<◌, None, Some, IsSome};
ghost use Rattle.super_block.specs.Faults.{IsFaultless};
ghost use Rattle.super_block.specs.Numbers.{cluster_pages_of};
ghost use Rattle.store_model.specs.Cases as kind;
ghost use Rattle.store_model.specs.Filling.{unused_row, AsksForFill, FillStands};
ghost use Rattle.store_model.specs.Rows.{fill_row, Idle};
ghost use Rattle.channel_turns.specs.declared.claiming.ClaimTurn.TheVariants.{Claimed, Logged};
ghost use Rattle.channel_turns.specs.FillTurns.{ClaimsFillOrNot, FillsOf, IsNextToFill, RowsFilling};
ghost use Rattle.running_store.specs.TurnMade.{TurnMade};
ghost use Rattle.running_store.specs.RunningState.{IsRunning};
ghost use Rattle.running_store.specs.Running.{view_of, InOrder};
ghost use Rattle.running_store.specs.StoreView.{rows_of, state_of};
ghost use Rattle.running_store.specs.Steps.{decided, Asks, IsPostedAt, OnlyRow};

use crate::claiming::{ClaimTurn, hold_least};
use blob_meta::find;
use page_disk::PageDisk;
use running_store::{FILL_ROW, Running, Stage, first_of, give_back, log};
use volume_model::{Command, Reply, VolumeRef};

/// The volume whose slots an inflate or a decouple fills.
fn filled_volume(command: &Command) -> &VolumeRef
    requires { AsksForFill command.now }
    ensures { FillsOf command.now result.now }
{
    match command {
        Command::Inflate { volume } | Command::Decouple { volume } => volume,
        _ => unreachable!(),
    }
}

/// Claims the least clear cluster on the fill's row, for the slot that is to be filled next for the posted command of a
/// channel, or, where none is clear, logs it as `Full`.
fn claim_next<D: PageDisk>(running: &mut Running<D>, channel: u8, slot: u32) -> ClaimTurn
    requires order { InOrder D.PageDisk running.old }
    requires channel { channel < 16 }
    requires posted { IsPostedAt (view_of running.old) channel }
    requires unused { rows_of running.old.rows.items fill_row ≡ unused_row }
    requires no_job { running.old.job ≡ None }
    requires next { Asks (view_of running.old) channel
        (λ command. IsNextToFill (state_of D.PageDisk (view_of running.old)) command slot) }
    requires running { IsRunning (state_of D.PageDisk (view_of running.old)) }
    requires faultless { IsFaultless running.old.sup }
    requires runs { running.old.stopped ≡ None }
    ensures case { ClaimsFillOrNot D.PageDisk (view_of running.old) (view_of running.new) result }
    ensures works { result ≡ Claimed → running.new.filling ≡ Some channel }
    ensures rows { RowsFilling result (cluster_pages_of running.old.sup) running.old.rows.items running.new.rows.items
        channel }
    ensures order { InOrder D.PageDisk running.new }
{
    let volume = filled_volume(first_of(running.rows.as_slice(), channel));
    let Some(head) = find(&running.metas, &running.sup, volume) else {
        unreachable!()
    };
    if hold_least(running, FILL_ROW, head, slot) {
        running.filling = Some(channel);
        ClaimTurn::Claimed
    } else {
        log(running, channel, Reply::Full);
        ClaimTurn::Logged
    }
}

/// Logs the posted inflate or decouple of a channel on a stopped store, where its next slot would be claimed.
fn halt_fill<D: PageDisk>(running: &mut Running<D>, channel: u8, at: u32)
    requires order { InOrder D.PageDisk running.old }
    requires channel { channel < 16 }
    requires posted { IsPostedAt (view_of running.old) channel }
    requires unused { rows_of running.old.rows.items fill_row ≡ unused_row }
    requires fills { Asks (view_of running.old) channel AsksForFill }
    requires fill { FillStands (state_of D.PageDisk (view_of running.old)) }
    requires stopped { running.old.stopped ≡ Some at }
    ensures case { TurnMade D.PageDisk (view_of running.old) (view_of running.new) kind.halts_fill }
    ensures row { OnlyRow running.old.rows.items running.new.rows.items channel
        (decided (rows_of running.old.rows.items channel)) }
    ensures order { InOrder D.PageDisk running.new }
{
    log(running, channel, Reply::Stopped(at));
}

/// Claims a cluster for the slot that is to be filled next for the posted inflate or decouple of a channel, on the
/// fill's row, which works for that command from now on; or, on a stopped store, logs the command as that.
pub fn claim_fill_or_halt<D: PageDisk>(
    running: &mut Running<D>,
    channel: u8,
    slot: u32,
) -> ClaimTurn
    requires order { InOrder D.PageDisk running.old }
    requires channel { channel < 16 }
    requires posted { IsPostedAt (view_of running.old) channel }
    requires unused { rows_of running.old.rows.items fill_row ≡ unused_row }
    requires no_job { running.old.job ≡ None }
    requires fills { Asks (view_of running.old) channel AsksForFill }
    requires next { running.old.stopped ≡ None → Asks (view_of running.old) channel
        (λ command. IsNextToFill (state_of D.PageDisk (view_of running.old)) command slot) }
    requires running { IsRunning (state_of D.PageDisk (view_of running.old)) }
    requires fill { FillStands (state_of D.PageDisk (view_of running.old)) }
    requires faultless { IsFaultless running.old.sup }
    ensures claims { running.old.stopped ≡ None
        → ClaimsFillOrNot D.PageDisk (view_of running.old) (view_of running.new) result }
    ensures halted { IsSome running.old.stopped
        → (result ≡ Logged) × TurnMade D.PageDisk (view_of running.old) (view_of running.new) kind.halts_fill }
    ensures works { result ≡ Claimed → running.new.filling ≡ Some channel }
    ensures rows { RowsFilling result (cluster_pages_of running.old.sup) running.old.rows.items running.new.rows.items
        channel }
    ensures order { InOrder D.PageDisk running.new }
{
    match running.stopped {
        Some(at) => {
            halt_fill(running, channel, at);
            ClaimTurn::Logged
        }
        None => claim_next(running, channel, slot),
    }
}

/// The fill's row gives its claim back, if it has one, and works for no command any more.
pub fn end_fill<D: PageDisk>(running: &mut Running<D>)
    requires order { InOrder D.PageDisk running.old }
    requires no_job { running.old.job ≡ None }
    ensures case { TurnMade D.PageDisk (view_of running.old) (view_of running.new) kind.ends_fill }
    ensures row { OnlyRow running.old.rows.items running.new.rows.items fill_row
        (record (rows_of running.old.rows.items fill_row) { stage = Idle; claim = None }) }
    ensures order { InOrder D.PageDisk running.new }
{
    give_back(running, FILL_ROW, Stage::Idle);
    running.filling = None;
}
