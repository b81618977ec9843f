//! The claim of a cluster, for a channel's write that has found its slot empty.

ghost use Rattle.std.specs.Prelude.{◌≡◌, ◌⊎◌, ◌<◌, ◌/◌, ◌^◌, [], true, false, slice_set, None, IfNone, IfSome, IsSome};
ghost use Rattle.std.specs.FinMap as map;
ghost use Rattle.bit_array.specs.Bits.{IsFull, IsLeastClear};
ghost use Rattle.super_block.specs.Faults.{IsFaultless};
ghost use Rattle.super_block.specs.Numbers.{cluster_pages_of};
ghost use Rattle.store_model.specs.Cases as kind;
ghost use Rattle.store_model.specs.Rows.{Claiming};
ghost use Rattle.channel_turns.specs.declared.claiming.ClaimTurn.TheVariants.{Claimed, Filled, Frozen, Logged};
ghost use Rattle.channel_turns.specs.ChannelTurns.{IsFrozenFor, WaitsToWrite};
ghost use Rattle.running_store.specs.TurnMade.{TurnMade, TurnsAs};
ghost use Rattle.channel_turns.specs.ClaimTurns.{row_claimed, ClaimsNow, HoldsLeast, IsOfClaim};
ghost use Rattle.running_store.specs.RunningState.{IsRunning};
ghost use Rattle.running_store.specs.Running.{view_of, InOrder};
ghost use Rattle.running_store.specs.StoreView.{rows_of, state_of};
ghost use Rattle.running_store.specs.Steps.{Asks, OnlyRow};

use crate::page_writing::{is_frozen, place_in};
use blob_meta::{find, refusal_of_write};
use page_disk::PageDisk;
use pools::ClusterPool;
use running_store::{OpenClaim, Running, Stage, first_of, halt_here, log_here};
use super_block::Super;
use volume_model::{Command, Reply};

/// What a claim comes to.
#[derive(Clone, Copy)]
pub enum ClaimTurn {
    /// Its blob is frozen, and nothing is done; the same call is made again.
    Frozen,
    /// Its slot has a cluster by now, and the write begins again.
    Filled,
    /// The write is logged.
    Logged,
    /// The row holds a claim, and is to copy the slot's pages.
    Claimed,
}

/// The slot of a page.
fn slot_of(sup: &Super, page: u64) -> u32
    requires faultless { IsFaultless sup.now }
    requires low { page / cluster_pages_of sup.now < 2 ^ 32 }
    ensures { result ≡ page / cluster_pages_of sup.now }
{
    (page / u64::from(sup.cluster_pages())) as u32
}

/// Takes the least clear cluster, which doesn't stay claimed in the pool; `None` exactly where none is clear.
fn take_cluster(clusters: &mut ClusterPool) -> Option<u32>
    requires { clusters.old.claims ≡ [] }
    ensures least { IfSome result (IsLeastClear clusters.old.bits) }
    ensures bits { IfSome result (λ cluster. clusters.new.bits ≡ slice_set clusters.old.bits cluster true) }
    ensures full { IfNone result (IsFull clusters.old.bits × (clusters.new ≡ clusters.old)) }
    ensures unclaimed { clusters.new.claims ≡ [] }
{
    let Some(claim) = clusters.claim() else {
        return None;
    };
    Some(clusters.keep(claim))
}

/// A row holds a claim on the least clear cluster from now on, for a slot of the blob at a head; `false` exactly where
/// none is clear.
pub(crate) fn hold_least<D: PageDisk>(
    running: &mut Running<D>,
    row: u8,
    head: u32,
    slot: u32,
) -> bool
    requires order { InOrder D.PageDisk running.old }
    requires row { row < 17 }
    requires there { IsSome (map.get running.old.guards.generations head) }
    requires faultless { IsFaultless running.old.sup }
    ensures held { result ≡ true → HoldsLeast (view_of running.old) (view_of running.new) row head slot }
    ensures full { result ≡ false
        → IsFull running.old.clusters.bits × (view_of running.new ≡ view_of running.old) }
    ensures order { InOrder D.PageDisk running.new }
{
    let Some(generation) = running.guards.generation(head) else {
        unreachable!()
    };
    let Some(cluster) = take_cluster(&mut running.clusters) else {
        return false;
    };
    let pages = running.sup.cluster_pages();
    let claim = OpenClaim {
        cluster,
        head,
        slot,
        generation,
    };
    running.rows[row as usize].hold(claim, pages);
    true
}

/// Claims the least clear cluster for an empty slot of the blob at a head, or, where none is clear, logs the write as
/// `Full`.
fn claim_least<D: PageDisk>(
    running: &mut Running<D>,
    channel: u8,
    head: u32,
    slot: u32,
) -> ClaimTurn
    requires order { InOrder D.PageDisk running.old }
    requires channel { channel < 16 }
    requires claims { ClaimsNow D.PageDisk (view_of running.old) channel head slot }
    requires faultless { IsFaultless running.old.sup }
    ensures claimed { result ≡ Claimed
        → TurnMade D.PageDisk (view_of running.old) (view_of running.new) kind.claims }
    ensures logged { result ≡ Logged
        → TurnsAs D.PageDisk IsOfClaim (view_of running.old) (view_of running.new) }
    ensures other { (result ≡ Claimed) ⊎ (result ≡ Logged) }
    ensures row { OnlyRow running.old.rows.items running.new.rows.items channel
        (row_claimed result (cluster_pages_of running.old.sup) (rows_of running.new.rows.items channel).claim
        (rows_of running.old.rows.items channel)) }
    ensures order { InOrder D.PageDisk running.new }
{
    if hold_least(running, channel, head, slot) {
        ClaimTurn::Claimed
    } else {
        log_here(running, channel, Reply::Full);
        ClaimTurn::Logged
    }
}

/// Claims a cluster for the first command of a channel, or says why that isn't done.
fn claim<D: PageDisk>(running: &mut Running<D>, channel: u8) -> ClaimTurn
    requires order { InOrder D.PageDisk running.old }
    requires channel { channel < 16 }
    requires waits { WaitsToWrite (view_of running.old) channel Claiming }
    requires running { IsRunning (state_of D.PageDisk (view_of running.old)) }
    requires faultless { IsFaultless running.old.sup }
    requires runs { running.old.stopped ≡ None }
    ensures frozen { result ≡ Frozen
        → Asks (view_of running.old) channel (IsFrozenFor (state_of D.PageDisk (view_of running.old))) }
    ensures kept { result ≡ Frozen → view_of running.new ≡ view_of running.old }
    ensures filled { result ≡ Filled
        → TurnMade D.PageDisk (view_of running.old) (view_of running.new) kind.finds_filled }
    ensures claimed { result ≡ Claimed
        → TurnMade D.PageDisk (view_of running.old) (view_of running.new) kind.claims }
    ensures logged { result ≡ Logged
        → TurnsAs D.PageDisk IsOfClaim (view_of running.old) (view_of running.new) }
    ensures row { OnlyRow running.old.rows.items running.new.rows.items channel
        (row_claimed result (cluster_pages_of running.old.sup) (rows_of running.new.rows.items channel).claim
        (rows_of running.old.rows.items channel)) }
    ensures order { InOrder D.PageDisk running.new }
{
    let Command::Write { volume, page, .. } = first_of(&running.rows, channel) else {
        unreachable!()
    };
    let page = *page;
    let head = find(&running.metas, &running.sup, volume);
    if is_frozen(&running.guards, head) {
        return ClaimTurn::Frozen;
    }
    if let Some(_) = place_in(&running.metas, &running.sup, head, page) {
        running.rows[channel as usize].go_to(Stage::Idle);
        return ClaimTurn::Filled;
    }
    if let Some(reply) = refusal_of_write(&running.metas, &running.sup, head, page) {
        log_here(running, channel, reply);
        return ClaimTurn::Logged;
    }
    let Some(head) = head else { unreachable!() };
    let slot = slot_of(&running.sup, page);
    claim_least(running, channel, head, slot)
}

/// Claims a cluster for the first command of a channel, or, on a stopped store, logs that it is stopped.
pub fn claim_or_halt<D: PageDisk>(running: &mut Running<D>, channel: u8) -> ClaimTurn
    requires order { InOrder D.PageDisk running.old }
    requires channel { channel < 16 }
    requires waits { WaitsToWrite (view_of running.old) channel Claiming }
    requires running { IsRunning (state_of D.PageDisk (view_of running.old)) }
    requires faultless { IsFaultless running.old.sup }
    ensures frozen { result ≡ Frozen
        → Asks (view_of running.old) channel (IsFrozenFor (state_of D.PageDisk (view_of running.old))) }
    ensures kept { result ≡ Frozen → view_of running.new ≡ view_of running.old }
    ensures filled { result ≡ Filled
        → TurnMade D.PageDisk (view_of running.old) (view_of running.new) kind.finds_filled }
    ensures claimed { result ≡ Claimed
        → TurnMade D.PageDisk (view_of running.old) (view_of running.new) kind.claims }
    ensures logged { result ≡ Logged
        → TurnsAs D.PageDisk IsOfClaim (view_of running.old) (view_of running.new) }
    ensures row { OnlyRow running.old.rows.items running.new.rows.items channel
        (row_claimed result (cluster_pages_of running.old.sup) (rows_of running.new.rows.items channel).claim
        (rows_of running.old.rows.items channel)) }
    ensures order { InOrder D.PageDisk running.new }
{
    if running.stopped.is_some() {
        halt_here(running, channel);
        ClaimTurn::Logged
    } else {
        claim(running, channel)
    }
}
