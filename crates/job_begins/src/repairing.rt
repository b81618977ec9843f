//! The begin of a repair: what recovery found is made good, one blob at a time.

ghost use Rattle.std.specs.Prelude.{◌≡◌, ◌↔◌, ◌<◌, [], None, Some, IfErr, IfNone, IfOk, IfSome, IsSome, IsTrue};
ghost use Rattle.std.specs.Prelude.{false, OnErr};
ghost use Rattle.std.specs.FinMap as map;
ghost use Rattle.blob_meta.specs.Repairs.{repairs};
ghost use Rattle.job_begins.specs.Repairs.{with_repair, IsDue, IsLackForRepair, RepairsOrNot};
ghost use Rattle.running_store.specs.Jobs.{IsHeaded};
ghost use Rattle.running_store.specs.Blobs.{blobs_of, WillBeKept};
ghost use Rattle.running_store.specs.Running.{view_of, InOrder};
ghost use Rattle.running_store.specs.RunningState.{IsRunning};
ghost use Rattle.running_store.specs.StoreView.{base_of, state_of};
ghost use Rattle.store_model.specs.Cases.BeginRepair.{BeginsRepair};

use crate::alone::{base_at, clusters_beside, missing};
use crate::preparing::{items_of, pages_needed, places_behind, prepare};
use blob_meta::Meta;
use out_of_memory::Memory;
use page_disk::PageDisk;
use running_store::{Erasure, Running, RunningJob, Serves, Work};
use std::collections::VecDeque;
use volume_model::TryCopy;

/// What the begin of a repair comes to.
#[derive(Clone, Copy)]
pub enum RepairTurn {
    /// The job runs that makes the first repair that is left.
    Began,
    /// No repair is left.
    Clean,
    /// The first repair that is left gives the blob at this head other metadata; so many pages are clear, and it wants
    /// more.
    NoPage { head: u32, has: u32, wants: u32 },
    /// Memory ran out.
    Memory,
}

impl From<Memory> for RepairTurn {
    ghost use Rattle.std.specs.Prelude.{◌≡◌};
    ghost use Rattle.job_begins.specs.declared.repairing.RepairTurn.TheVariants as repair;

    ghost from_gives = { λ _ turn. turn ≡ repair.Memory };

    fn from(_memory: Memory) -> RepairTurn {
        RepairTurn::Memory
    }
}

/// Begins the first repair that is left, of a store that runs no job: a blob that is kept loses its marks, or, where no
/// such is left, one is erased.
pub fn begin_repair<D: PageDisk>(running: &mut Running<D>) -> RepairTurn
    requires order { InOrder D.PageDisk running.old }
    requires running { IsRunning (state_of D.PageDisk (view_of running.old)) }
    requires runs { running.old.stopped ≡ None }
    requires no_job { running.old.job ≡ None }
    ensures case { RepairsOrNot D.PageDisk (view_of running.old) (view_of running.new) result }
    ensures rows { running.new.rows ≡ running.old.rows }
    ensures order { InOrder D.PageDisk running.new }
{
    let Some(head) = due_head(running) else {
        return RepairTurn::Clean;
    };
    match repair_of(running, head) {
        Ok(job) => {
            running.job = Some(job.with_mark(running.is_clean));
            RepairTurn::Began
        }
        Err(turn) => turn,
    }
}

/// The head of the first repair that is left: the least marked blob that is kept, or else the least that is removed.
fn due_head<D: PageDisk>(running: &Running<D>) -> Option<u32>
    requires order { InOrder D.PageDisk running.now }
    requires running { IsRunning (state_of D.PageDisk (view_of running.now)) }
    ensures due { IfSome result
        (IsDue running.now.sup.md_len (base_of running.now.metas running.now.marked)) }
    ensures there { IfSome result
        (λ head. IsSome (base_of running.now.metas running.now.marked head)) }
    ensures none { IfNone result
        (repairs running.now.sup.md_len (base_of running.now.metas running.now.marked) ≡ []) }
{
    let first = running.marked.next_from(0)?;
    for head in first..running.sup.md_len {
        if is_kept(running, head) {
            return Some(head);
        }
    }
    Some(first)
}

/// Whether a blob has a mark, and is kept.
fn is_kept<D>(running: &Running<D>, head: u32) -> bool
    ensures { IsTrue result ↔ (IsSome (map.get running.now.marked head) × IsSome (map.get running.now.metas head)) }
{
    running.marked.get(head).is_some() && running.metas.get(head).is_some()
}

/// The job of the repair that is due, of the blob at this head, once its pages are taken. `Err` says what it lacks, and
/// nothing is taken then.
fn repair_of<D: PageDisk>(running: &mut Running<D>, head: u32) -> Result<RunningJob, RepairTurn>
    requires order { InOrder D.PageDisk running.old }
    requires running { IsRunning (state_of D.PageDisk (view_of running.old)) }
    requires runs { running.old.stopped ≡ None }
    requires no_job { running.old.job ≡ None }
    requires due { IsDue running.old.sup.md_len (base_of running.old.metas running.old.marked) head }
    requires there { IsSome (base_of running.old.metas running.old.marked head) }
    ensures begins { IfOk result (λ job. BeginsRepair (state_of D.PageDisk (view_of running.old))
        (state_of D.PageDisk (with_repair (view_of running.new) job))) }
    ensures unmarked { IfOk result (λ job. job.marks ≡ false) }
    ensures headed { IfOk result IsHeaded }
    ensures kept { IfOk result (WillBeKept (blobs_of running.new)) }
    ensures lack { IfErr result (IsLackForRepair (state_of D.PageDisk (view_of running.old)) head) }
    ensures same { OnErr result (running.new ≡ running.old) }
    ensures disk { running.new.disk ≡ running.old.disk }
    ensures rows { running.new.rows ≡ running.old.rows }
    ensures order { InOrder D.PageDisk running.new }
{
    match running.metas.get(head) {
        Some(new) => {
            let new = new.try_copy(running.alloc)?;
            mend(running, head, new)
        }
        None => erase(running, head),
    }
}

/// The job that gives a blob that is kept its metadata without marks.
fn mend<D: PageDisk>(
    running: &mut Running<D>,
    head: u32,
    new: Meta,
) -> Result<RunningJob, RepairTurn>
    requires order { InOrder D.PageDisk running.old }
    requires running { IsRunning (state_of D.PageDisk (view_of running.old)) }
    requires runs { running.old.stopped ≡ None }
    requires no_job { running.old.job ≡ None }
    requires due { IsDue running.old.sup.md_len (base_of running.old.metas running.old.marked) head }
    requires kept { map.get running.old.metas head ≡ Some new }
    ensures begins { IfOk result (λ job. BeginsRepair (state_of D.PageDisk (view_of running.old))
        (state_of D.PageDisk (with_repair (view_of running.new) job))) }
    ensures unmarked { IfOk result (λ job. job.marks ≡ false) }
    ensures headed { IfOk result IsHeaded }
    ensures kept { IfOk result (WillBeKept (blobs_of running.new)) }
    ensures lack { IfErr result (IsLackForRepair (state_of D.PageDisk (view_of running.old)) head) }
    ensures same { OnErr result (running.new ≡ running.old) }
    ensures disk { running.new.disk ≡ running.old.disk }
    ensures rows { running.new.rows ≡ running.old.rows }
    ensures order { InOrder D.PageDisk running.new }
{
    let items = items_of(running.alloc, &new)?;
    let has = running.pages.clear_count();
    let wants = pages_needed(&items, false);
    if has < wants {
        return Err(RepairTurn::NoPage { head, has, wants });
    }
    let alloc = running.alloc;
    match prepare(
        alloc,
        &running.chains,
        &mut running.pages,
        head,
        &new,
        false,
    ) {
        Ok(prepared) => Ok(prepared.alone(alloc, Serves::Repair, head, new)),
        Err(_) => Err(RepairTurn::Memory),
    }
}

/// The job that erases a blob that is removed.
fn erase<D: PageDisk>(running: &Running<D>, head: u32) -> Result<RunningJob, RepairTurn>
    requires order { InOrder D.PageDisk running.now }
    requires running { IsRunning (state_of D.PageDisk (view_of running.now)) }
    requires runs { running.now.stopped ≡ None }
    requires no_job { running.now.job ≡ None }
    requires due { IsDue running.now.sup.md_len (base_of running.now.metas running.now.marked) head }
    requires there { IsSome (base_of running.now.metas running.now.marked head) }
    requires removed { map.get running.now.metas head ≡ None }
    ensures begins { IfOk result (λ job. BeginsRepair (state_of D.PageDisk (view_of running.now))
        (state_of D.PageDisk (with_repair (view_of running.now) job))) }
    ensures unmarked { IfOk result (λ job. job.marks ≡ false) }
    ensures headed { IfOk result IsHeaded }
    ensures kept { IfOk result (WillBeKept (blobs_of running.now)) }
    ensures lack { IfErr result (IsLackForRepair (state_of D.PageDisk (view_of running.now)) head) }
{
    let old = places_behind(running.alloc, &running.chains, head)?;
    let mut beside = clusters_beside(running, head)?;
    let Some(meta) = base_at(running, head) else {
        unreachable!()
    };
    let freed = missing(running.alloc, &mut beside, &meta.map)?;
    Ok(RunningJob {
        serves: Serves::Repair,
        marks: false,
        work: Work::Removing(Erasure {
            head,
            commit: None,
            freed,
        }),
        old,
        later: VecDeque::new(running.alloc),
    })
}
