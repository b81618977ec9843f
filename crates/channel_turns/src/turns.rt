//! Turns that change a row, and no more.

ghost use Rattle.std.specs.Prelude.{None, ◌≡◌, ◌<◌, [], IfSome, IsErr};
ghost use Rattle.store_model.specs.Cases as kind;
ghost use Rattle.store_model.specs.Rows.{Decided, Decision, Ended, Idle, Posted};
ghost use Rattle.running_store.specs.Running.{view_of, InOrder};
ghost use Rattle.running_store.specs.StoreView.{rows_of};
ghost use Rattle.running_store.specs.TurnMade.{TurnMade};
ghost use Rattle.channel_turns.specs.ClaimTurns.{row_posted};
ghost use Rattle.running_store.specs.Steps.{OnlyRow, WaitsForMetadata};

use page_disk::PageDisk;
use running_store::{Running, rest};
use volume_model::Msg;

/// A row is posted under the next number.
pub(crate) fn post_row<D: PageDisk>(running: &mut Running<D>, row: u8) -> Msg
    requires order { InOrder D.PageDisk running.old }
    requires row { row < 17 }
    ensures posted { view_of running.new ≡ row_posted (view_of running.old) row }
    ensures message { result ≡ record { channel = row; serial = running.old.serial } }
    ensures row { OnlyRow running.old.rows.items running.new.rows.items row
        (record (rows_of running.old.rows.items row) { stage = Posted running.old.serial }) }
    ensures order { InOrder D.PageDisk running.new }
{
    let serial = running.serial;
    running.rows[row as usize].post(serial);
    running.serial = serial.wrapping_add(1);
    Msg {
        channel: row,
        serial,
    }
}

/// Posts the first command of a channel under the next number.
pub fn post<D: PageDisk>(running: &mut Running<D>, channel: u8) -> Msg
    requires order { InOrder D.PageDisk running.old }
    requires channel { channel < 16 }
    requires waits { WaitsForMetadata (view_of running.old) channel }
    ensures case { TurnMade D.PageDisk (view_of running.old) (view_of running.new) kind.posts }
    ensures message { result ≡ record { channel = channel; serial = running.old.serial } }
    ensures row { OnlyRow running.old.rows.items running.new.rows.items channel
        (record (rows_of running.old.rows.items channel) { stage = Posted running.old.serial }) }
    ensures order { InOrder D.PageDisk running.new }
{
    post_row(running, channel)
}

/// Whoever waits for a row has the word of what is decided of it.
pub(crate) fn settle<D: PageDisk>(running: &mut Running<D>, row: u8)
    requires order { InOrder D.PageDisk running.old }
    requires row { row < 17 }
    requires decided { (outcome : Decision) × ((rows_of running.old.rows.items row).stage ≡ Decided outcome) }
    requires unclaimed { (rows_of running.old.rows.items row).claim ≡ None }
    ensures case { TurnMade D.PageDisk (view_of running.old) (view_of running.new) kind.settles }
    ensures row { OnlyRow running.old.rows.items running.new.rows.items row
        (record (rows_of running.old.rows.items row) { stage = Idle }) }
    ensures order { InOrder D.PageDisk running.new }
{
    running.rows[row as usize].settle();
    rest(&mut running.filling, row);
}

/// A channel without commands ends.
pub fn end<D: PageDisk>(running: &mut Running<D>, channel: u8)
    requires order { InOrder D.PageDisk running.old }
    requires channel { channel < 16 }
    requires over { rows_of running.old.rows.items channel ≡ record { left = []; stage = Idle; claim = None } }
    ensures case { TurnMade D.PageDisk (view_of running.old) (view_of running.new) kind.ends }
    ensures row { OnlyRow running.old.rows.items running.new.rows.items channel
        (record (rows_of running.old.rows.items channel) { stage = Ended }) }
    ensures order { InOrder D.PageDisk running.new }
{
    running.rows[channel as usize].end();
}
