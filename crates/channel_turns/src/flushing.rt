//! A channel's flush.

ghost use Rattle.std.specs.Prelude.{◌≡◌, ◌<◌, None};
ghost use Rattle.channel_turns.specs.ChannelTurns.{IsOfFlush, WaitsToFlush};
ghost use Rattle.running_store.specs.TurnMade.{TurnsAs};
ghost use Rattle.running_store.specs.RunningState.{IsRunning};
ghost use Rattle.running_store.specs.Running.{view_of, InOrder};
ghost use Rattle.running_store.specs.StoreView.{rows_of, state_of};
ghost use Rattle.running_store.specs.Steps.{gone_on, OnlyRow};

use page_disk::PageDisk;
use running_store::{Running, flush_once, halt_here, log_here, stop_here};
use volume_model::Reply;

/// Flushes for the first command of a channel, which is logged as done, or, where the flush failed and the store stops,
/// as failed.
fn flush<D: PageDisk>(running: &mut Running<D>, channel: u8)
    requires order { InOrder D.PageDisk running.old }
    requires channel { channel < 16 }
    requires waits { WaitsToFlush (view_of running.old) channel }
    requires running { IsRunning (state_of D.PageDisk (view_of running.old)) }
    requires runs { running.old.stopped ≡ None }
    ensures case { TurnsAs D.PageDisk IsOfFlush (view_of running.old) (view_of running.new) }
    ensures row { OnlyRow running.old.rows.items running.new.rows.items channel
        (gone_on (rows_of running.old.rows.items channel)) }
    ensures order { InOrder D.PageDisk running.new }
{
    if flush_once(&mut running.disk).is_err() {
        stop_here(running);
        log_here(running, channel, Reply::Fault);
    } else {
        log_here(running, channel, Reply::Ok);
    }
}

/// Flushes for the first command of a channel, or, on a stopped store, logs that it is stopped.
pub fn flush_or_halt<D: PageDisk>(running: &mut Running<D>, channel: u8)
    requires order { InOrder D.PageDisk running.old }
    requires channel { channel < 16 }
    requires waits { WaitsToFlush (view_of running.old) channel }
    requires running { IsRunning (state_of D.PageDisk (view_of running.old)) }
    ensures case { TurnsAs D.PageDisk IsOfFlush (view_of running.old) (view_of running.new) }
    ensures row { OnlyRow running.old.rows.items running.new.rows.items channel
        (gone_on (rows_of running.old.rows.items channel)) }
    ensures order { InOrder D.PageDisk running.new }
{
    if running.stopped.is_some() {
        halt_here(running, channel);
    } else {
        flush(running, channel);
    }
}
