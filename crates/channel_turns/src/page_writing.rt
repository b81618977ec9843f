//! A channel's write of a page.

ghost use Rattle.std.specs.Prelude.{◌≡◌, ◌<◌, None, false};
ghost use Rattle.std.specs.FinMap as map;
ghost use Rattle.std.specs.FinSet as set;
ghost use Rattle.std.specs.Option.{option_and_then, option_map_or};
ghost use Rattle.super_block.specs.Faults.{IsFaultless};
ghost use Rattle.super_block.specs.Numbers.{cluster_pages_of};
ghost use Rattle.blob_meta.specs.Pages as pages;
ghost use Rattle.channel_turns.specs.declared.page_writing.WriteTurn.TheVariants.{Empty, Frozen, Logged};
ghost use Rattle.store_model.specs.Cases as kind;
ghost use Rattle.channel_turns.specs.ChannelTurns.{row_written, IsFrozenFor, IsOfWrite, WaitsToWrite, WritesNow};
ghost use Rattle.running_store.specs.TurnMade.{TurnMade, TurnsAs};
ghost use Rattle.running_store.specs.RunningState.{IsRunning};
ghost use Rattle.running_store.specs.Running.{view_of, InOrder};
ghost use Rattle.running_store.specs.StoreView.{rows_of, state_of};
ghost use Rattle.running_store.specs.Steps.{gone_on, Asks, OnlyRow};
ghost use Rattle.store_model.specs.Rows.{Idle};

use blob_meta::{Metas, find, own_place, refusal_of_write};
use io_freeze::Guards;
use page_disk::{Page, PageDisk};
use running_store::{Running, Stage, first_of, halt_here, log_here, stop_here, write_one};
use super_block::Super;
use volume_model::{Command, Reply, page_of};

/// What a write of a page comes to.
#[derive(Clone, Copy)]
pub enum WriteTurn {
    /// Its blob is frozen, and nothing is done; the same call is made again.
    Frozen,
    /// Nothing refuses it, and its slot is empty: a cluster is to be claimed for it.
    Empty,
    /// It is logged.
    Logged,
}

/// Whether the blob at a head, if a head is given, is frozen.
pub(crate) fn is_frozen(guards: &Guards, head: Option<u32>) -> bool
    ensures { result ≡ option_map_or (set.contains guards.now.frozen) head false }
{
    match head {
        Some(head) => guards.is_frozen(head),
        None => false,
    }
}

/// Where the cluster in the slot of a page of the blob at a head lies on the device; `None` where the slot is empty.
pub(crate) fn place_in(metas: &Metas, sup: &Super, head: Option<u32>, page: u64) -> Option<u64>
    requires { IsFaultless sup.now }
    ensures { result ≡ option_and_then (λ h.
        option_and_then (λ m. pages.own_place (cluster_pages_of sup.now) m page) (map.get metas.now h)) head }
{
    own_place(metas.get(head?)?, sup.cluster_pages(), page)
}

/// Writes a page to its place, for the first command of a channel, which is logged as done, or, where the write failed
/// and the store stops, as failed.
fn put_page<D: PageDisk>(running: &mut Running<D>, channel: u8, place: u64, content: &Page)
    requires order { InOrder D.PageDisk running.old }
    requires channel { channel < 16 }
    requires writes { WritesNow D.PageDisk (view_of running.old) channel place content.now }
    requires running { IsRunning (state_of D.PageDisk (view_of running.old)) }
    requires inside { place < D.pages running.old.disk }
    ensures case { TurnsAs D.PageDisk IsOfWrite (view_of running.old) (view_of running.new) }
    ensures row { OnlyRow running.old.rows.items running.new.rows.items channel
        (gone_on (rows_of running.old.rows.items channel)) }
    ensures order { InOrder D.PageDisk running.new }
{
    if write_one(&mut running.disk, place, content).is_err() {
        stop_here(running);
        log_here(running, channel, Reply::Fault);
    } else {
        log_here(running, channel, Reply::Ok);
    }
}

/// Writes a page for the first command of a channel, or says why that isn't done.
fn write_page<D: PageDisk>(running: &mut Running<D>, channel: u8) -> WriteTurn
    requires order { InOrder D.PageDisk running.old }
    requires channel { channel < 16 }
    requires waits { WaitsToWrite (view_of running.old) channel Idle }
    requires running { IsRunning (state_of D.PageDisk (view_of running.old)) }
    requires faultless { IsFaultless running.old.sup }
    requires runs { running.old.stopped ≡ None }
    ensures frozen { result ≡ Frozen
        → Asks (view_of running.old) channel (IsFrozenFor (state_of D.PageDisk (view_of running.old))) }
    ensures kept { result ≡ Frozen → view_of running.new ≡ view_of running.old }
    ensures empty { result ≡ Empty
        → TurnMade D.PageDisk (view_of running.old) (view_of running.new) kind.finds_empty }
    ensures logged { result ≡ Logged
        → TurnsAs D.PageDisk IsOfWrite (view_of running.old) (view_of running.new) }
    ensures row { OnlyRow running.old.rows.items running.new.rows.items channel
        (row_written result (rows_of running.old.rows.items channel)) }
    ensures order { InOrder D.PageDisk running.new }
{
    let Command::Write { volume, page, word } = first_of(&running.rows, channel) else {
        unreachable!()
    };
    let (page, content) = (*page, page_of(word));
    let head = find(&running.metas, &running.sup, volume);
    if is_frozen(&running.guards, head) {
        return WriteTurn::Frozen;
    }
    if let Some(reply) = refusal_of_write(&running.metas, &running.sup, head, page) {
        log_here(running, channel, reply);
        return WriteTurn::Logged;
    }
    let Some(place) = place_in(&running.metas, &running.sup, head, page) else {
        running.rows[channel as usize].go_to(Stage::Claiming);
        return WriteTurn::Empty;
    };
    put_page(running, channel, place, &content);
    WriteTurn::Logged
}

/// Writes a page for the first command of a channel, or, on a stopped store, logs that it is stopped.
pub fn write_or_halt<D: PageDisk>(running: &mut Running<D>, channel: u8) -> WriteTurn
    requires order { InOrder D.PageDisk running.old }
    requires channel { channel < 16 }
    requires waits { WaitsToWrite (view_of running.old) channel Idle }
    requires running { IsRunning (state_of D.PageDisk (view_of running.old)) }
    requires faultless { IsFaultless running.old.sup }
    ensures frozen { result ≡ Frozen
        → Asks (view_of running.old) channel (IsFrozenFor (state_of D.PageDisk (view_of running.old))) }
    ensures kept { result ≡ Frozen → view_of running.new ≡ view_of running.old }
    ensures empty { result ≡ Empty
        → TurnMade D.PageDisk (view_of running.old) (view_of running.new) kind.finds_empty }
    ensures logged { result ≡ Logged
        → TurnsAs D.PageDisk IsOfWrite (view_of running.old) (view_of running.new) }
    ensures row { OnlyRow running.old.rows.items running.new.rows.items channel
        (row_written result (rows_of running.old.rows.items channel)) }
    ensures order { InOrder D.PageDisk running.new }
{
    if running.stopped.is_some() {
        halt_here(running, channel);
        WriteTurn::Logged
    } else {
        write_page(running, channel)
    }
}
