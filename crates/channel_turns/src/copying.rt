//! The copy of a page into the cluster that a row has claimed.

ghost use Rattle.std.specs.Prelude.{◌≡◌, ◌≢◌, ◌↔◌, ◌<◌, ◌+◌, ◌*◌, ℕ, None, Some, IfSome, IsTrue};
ghost use Rattle.std.specs.FinMap as map;
ghost use Rattle.super_block.specs.Faults.{IsFaultless};
ghost use Rattle.store_model.specs.Cases as kind;
ghost use Rattle.store_model.specs.Cases.Copy.{stage_left};
ghost use Rattle.channel_turns.specs.declared.copying.CopyTurn.TheVariants.{Copied, Logged, Lost};
ghost use Rattle.running_store.specs.TurnMade.{TurnMade, TurnsAs};
ghost use Rattle.channel_turns.specs.ClaimTurns.{CopiesNow, IsOfCopy, RowsCopied, WaitsToCopy};
ghost use Rattle.running_store.specs.RunningState.{IsRunning};
ghost use Rattle.running_store.specs.Running.{view_of, InOrder};
ghost use Rattle.running_store.specs.Stages.{stage_seen};
ghost use Rattle.running_store.specs.StoreView.{state_of};
ghost use Rattle.store_model.specs.Filling.{FillStands};

use blob_meta::place_read;
use io_freeze::Guards;
use page_disk::PageDisk;
use running_store::{
    OpenClaim, Running, Stage, give_back, give_up, halt_work, read_at, rest, stop_here, write_one,
};
use volume_model::Reply;

/// What a copy of a page comes to.
#[derive(Clone, Copy)]
pub enum CopyTurn {
    /// The claim's blob is gone, or was emptied or copied since: the claim is given back, and the write begins again;
    /// the fill's row works for no command any more.
    Lost,
    /// The page is copied, and so many are left.
    Copied(u32),
    /// The command that the row works for is logged, and the claim given back.
    Logged,
}

/// Whether a claim's blob has the generation still that it had at the claim.
fn is_current(guards: &Guards, claim: &OpenClaim) -> bool
    ensures { IsTrue result ↔ (map.get guards.now.generations claim.now.head ≡ Some claim.now.generation) }
{
    match guards.generation(claim.head) {
        Some(generation) => generation == claim.generation,
        None => false,
    }
}

/// A page of a cluster on the device, or of a slot in its blob, with so many pages in each.
fn page_in(pages: u32, cluster: u32, page: u32) -> u64
    ensures { result ≡ cluster * pages + page }
{
    u64::from(cluster) * u64::from(pages) + u64::from(page)
}

/// The stage of a row that has so many pages left to copy.
fn stage_with(left: u32) -> Stage
    ensures { stage_seen result ≡ stage_left left }
{
    match left {
        0 => Stage::Ready,
        _ => Stage::Copying(left),
    }
}

/// Reads a page from a place, or zeros, and writes it to its place in the claimed cluster, so that so many are left.
/// Where one of these fails the command that the row works for is logged as that.
fn copy_to<D: PageDisk>(
    running: &mut Running<D>,
    row: u8,
    from: Option<u64>,
    to: u64,
    left: u32,
) -> CopyTurn
    requires order { InOrder D.PageDisk running.old }
    requires row { row < 17 }
    requires copies { CopiesNow D.PageDisk (view_of running.old) row from to left }
    requires running { IsRunning (state_of D.PageDisk (view_of running.old)) }
    requires fill { FillStands (state_of D.PageDisk (view_of running.old)) }
    requires from { IfSome from (λ n. n < D.pages running.old.disk) }
    requires to { to < D.pages running.old.disk }
    ensures copied { (count : ℕ) → result ≡ Copied count
        → TurnMade D.PageDisk (view_of running.old) (view_of running.new) kind.copies }
    ensures logged { result ≡ Logged
        → TurnsAs D.PageDisk IsOfCopy (view_of running.old) (view_of running.new) }
    ensures other { result ≢ Lost }
    ensures rows { RowsCopied result running.old.filling running.old.rows.items running.new.rows.items row }
    ensures order { InOrder D.PageDisk running.new }
{
    let mut content = [0; 4096];
    if read_at(&mut running.disk, from, &mut content).is_err() {
        give_up(running, row, Reply::ReadFault, Stage::Idle);
        return CopyTurn::Logged;
    }
    if write_one(&mut running.disk, to, &content).is_err() {
        stop_here(running);
        give_up(running, row, Reply::Fault, Stage::Idle);
        return CopyTurn::Logged;
    }
    running.rows[row as usize].go_to(stage_with(left));
    CopyTurn::Copied(left)
}

/// Copies the next page of a row's slot, or gives its claim back where its blob isn't the same any more.
fn copy_next<D: PageDisk>(running: &mut Running<D>, row: u8) -> CopyTurn
    requires order { InOrder D.PageDisk running.old }
    requires row { row < 17 }
    requires waits { WaitsToCopy D.PageDisk (view_of running.old) row }
    requires running { IsRunning (state_of D.PageDisk (view_of running.old)) }
    requires fill { FillStands (state_of D.PageDisk (view_of running.old)) }
    requires faultless { IsFaultless running.old.sup }
    requires runs { running.old.stopped ≡ None }
    ensures lost { result ≡ Lost
        → TurnMade D.PageDisk (view_of running.old) (view_of running.new) kind.loses_copy }
    ensures copied { (count : ℕ) → result ≡ Copied count
        → TurnMade D.PageDisk (view_of running.old) (view_of running.new) kind.copies }
    ensures logged { result ≡ Logged
        → TurnsAs D.PageDisk IsOfCopy (view_of running.old) (view_of running.new) }
    ensures rows { RowsCopied result running.old.filling running.old.rows.items running.new.rows.items row }
    ensures order { InOrder D.PageDisk running.new }
{
    let own = &running.rows[row as usize];
    let Some(claim) = own.claim() else {
        unreachable!()
    };
    let Some(left) = own.to_copy() else {
        unreachable!()
    };
    if !is_current(&running.guards, &claim) {
        give_back(running, row, Stage::Idle);
        rest(&mut running.filling, row);
        return CopyTurn::Lost;
    }
    let pages = running.sup.cluster_pages();
    let page = pages - left;
    let from = place_read(
        &running.metas,
        pages,
        running.sup.md_len + 1,
        claim.head,
        page_in(pages, claim.slot, page),
    );
    let to = page_in(pages, claim.cluster, page);
    copy_to(running, row, from, to, left - 1)
}

/// Copies the next page of a row's slot, or, on a stopped store, logs the command that it works for as that.
pub fn copy_or_halt<D: PageDisk>(running: &mut Running<D>, row: u8) -> CopyTurn
    requires order { InOrder D.PageDisk running.old }
    requires row { row < 17 }
    requires waits { WaitsToCopy D.PageDisk (view_of running.old) row }
    requires running { IsRunning (state_of D.PageDisk (view_of running.old)) }
    requires fill { FillStands (state_of D.PageDisk (view_of running.old)) }
    requires faultless { IsFaultless running.old.sup }
    ensures lost { result ≡ Lost
        → TurnMade D.PageDisk (view_of running.old) (view_of running.new) kind.loses_copy }
    ensures copied { (count : ℕ) → result ≡ Copied count
        → TurnMade D.PageDisk (view_of running.old) (view_of running.new) kind.copies }
    ensures logged { result ≡ Logged
        → TurnsAs D.PageDisk IsOfCopy (view_of running.old) (view_of running.new) }
    ensures rows { RowsCopied result running.old.filling running.old.rows.items running.new.rows.items row }
    ensures order { InOrder D.PageDisk running.new }
{
    if running.stopped.is_some() {
        halt_work(running, row, Stage::Idle);
        CopyTurn::Logged
    } else {
        copy_next(running, row)
    }
}
