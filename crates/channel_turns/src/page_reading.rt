//! A channel's read of a page.

ghost use Rattle.std.specs.Prelude.{◌≡◌, ◌<◌, ◌+◌, ◌≤◌, ◌^◌, None, IfSome};
ghost use Rattle.std.specs.FinMap as map;
ghost use Rattle.std.specs.Option.{option_and_then};
ghost use Rattle.super_block.specs.Faults.{IsFaultless};
ghost use Rattle.super_block.specs.Numbers.{cluster_pages_of};
ghost use Rattle.blob_meta.specs.Pages as pages;
ghost use Rattle.blob_meta.specs.SlotCounts.{HeadsFit};
ghost use Rattle.channel_turns.specs.declared.page_reading.ReadTurn.TheVariants.{Frozen, Logged};
ghost use Rattle.channel_turns.specs.ChannelTurns.{IsFrozenFor, IsOfRead, ReadsNow, WaitsToRead};
ghost use Rattle.running_store.specs.TurnMade.{TurnsAs};
ghost use Rattle.running_store.specs.RunningState.{IsRunning};
ghost use Rattle.running_store.specs.Running.{view_of, InOrder};
ghost use Rattle.running_store.specs.StoreView.{rows_of, state_of};
ghost use Rattle.running_store.specs.Steps.{gone_on, Asks, OnlyRow};

use crate::page_writing::is_frozen;
use blob_meta::{Metas, find, place_read, refusal_of_read};
use page_disk::PageDisk;
use running_store::{Running, first_of, halt_here, log_content, log_here, read_at};
use super_block::Super;
use volume_model::{Command, Reply};

/// What a read of a page comes to.
#[derive(Clone, Copy)]
pub enum ReadTurn {
    /// Its blob is frozen, and nothing is done; the same call is made again.
    Frozen,
    /// It is logged.
    Logged,
}

/// Where a page of the blob at a head is read on the device, through its parents; `None` where it reads as zeros.
fn place_for(metas: &Metas, sup: &Super, head: Option<u32>, page: u64) -> Option<u64>
    requires faultless { IsFaultless sup.now }
    requires few { sup.now.md_len ≤ 2 ^ 20 }
    ensures { HeadsFit metas.now → result ≡ option_and_then (λ h.
        pages.place_read (cluster_pages_of sup.now) (map.get metas.now) (sup.now.md_len + 1) h page) head }
{
    place_read(metas, sup.cluster_pages(), sup.md_len + 1, head?, page)
}

/// Reads a page from its place, or zeros, for the first command of a channel, which is logged with the content, or as
/// failed.
fn get_page<D: PageDisk>(running: &mut Running<D>, channel: u8, place: Option<u64>)
    requires order { InOrder D.PageDisk running.old }
    requires channel { channel < 16 }
    requires reads { ReadsNow D.PageDisk (view_of running.old) channel place }
    requires inside { IfSome place (λ n. n < D.pages running.old.disk) }
    ensures case { TurnsAs D.PageDisk IsOfRead (view_of running.old) (view_of running.new) }
    ensures row { OnlyRow running.old.rows.items running.new.rows.items channel
        (gone_on (rows_of running.old.rows.items channel)) }
    ensures order { InOrder D.PageDisk running.new }
{
    let mut content = [0; 4096];
    if read_at(&mut running.disk, place, &mut content).is_err() {
        log_here(running, channel, Reply::ReadFault);
    } else {
        log_content(running, channel, &content);
    }
}

/// Reads a page for the first command of a channel, or logs why that isn't done.
fn read_page<D: PageDisk>(running: &mut Running<D>, channel: u8) -> ReadTurn
    requires order { InOrder D.PageDisk running.old }
    requires channel { channel < 16 }
    requires waits { WaitsToRead (view_of running.old) channel }
    requires running { IsRunning (state_of D.PageDisk (view_of running.old)) }
    requires faultless { IsFaultless running.old.sup }
    requires runs { running.old.stopped ≡ None }
    ensures frozen { result ≡ Frozen
        → Asks (view_of running.old) channel (IsFrozenFor (state_of D.PageDisk (view_of running.old))) }
    ensures kept { result ≡ Frozen → view_of running.new ≡ view_of running.old }
    ensures logged { result ≡ Logged
        → TurnsAs D.PageDisk IsOfRead (view_of running.old) (view_of running.new) }
    ensures row { result ≡ Logged → OnlyRow running.old.rows.items running.new.rows.items channel
        (gone_on (rows_of running.old.rows.items channel)) }
    ensures order { InOrder D.PageDisk running.new }
{
    let Command::Read { volume, page } = first_of(&running.rows, channel) else {
        unreachable!()
    };
    let page = *page;
    let head = find(&running.metas, &running.sup, volume);
    if is_frozen(&running.guards, head) {
        return ReadTurn::Frozen;
    }
    if let Some(reply) = refusal_of_read(&running.metas, &running.sup, head, page) {
        log_here(running, channel, reply);
        return ReadTurn::Logged;
    }
    let place = place_for(&running.metas, &running.sup, head, page);
    get_page(running, channel, place);
    ReadTurn::Logged
}

/// Reads a page for the first command of a channel, or, on a stopped store, logs that it is stopped.
pub fn read_or_halt<D: PageDisk>(running: &mut Running<D>, channel: u8) -> ReadTurn
    requires order { InOrder D.PageDisk running.old }
    requires channel { channel < 16 }
    requires waits { WaitsToRead (view_of running.old) channel }
    requires running { IsRunning (state_of D.PageDisk (view_of running.old)) }
    requires faultless { IsFaultless running.old.sup }
    ensures frozen { result ≡ Frozen
        → Asks (view_of running.old) channel (IsFrozenFor (state_of D.PageDisk (view_of running.old))) }
    ensures kept { result ≡ Frozen → view_of running.new ≡ view_of running.old }
    ensures logged { result ≡ Logged
        → TurnsAs D.PageDisk IsOfRead (view_of running.old) (view_of running.new) }
    ensures row { result ≡ Logged → OnlyRow running.old.rows.items running.new.rows.items channel
        (gone_on (rows_of running.old.rows.items channel)) }
    ensures order { InOrder D.PageDisk running.new }
{
    if running.stopped.is_some() {
        halt_here(running, channel);
        ReadTurn::Logged
    } else {
        read_page(running, channel)
    }
}
