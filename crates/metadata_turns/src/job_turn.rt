//! The turns of the running job.

ghost use Rattle.std.specs.Prelude.{◌≡◌, ◌+◌, Some, None, IsSome, false};
ghost use Rattle.metadata_turns.specs.JobTurns.{answer_of, with_job, IsAtWork, TurnsJob};
ghost use Rattle.running_store.specs.Blobs.{blobs_of, WillBeKept};
ghost use Rattle.running_store.specs.Jobs.{job_seen, waits_for_job, IsHeaded};
ghost use Rattle.super_block.specs.Faults.{IsFaultless};
ghost use Rattle.metadata_turns.specs.RowsWork.{RowsWork};
ghost use Rattle.metadata_turns.specs.declared.job_turn.JobTurn.TheVariants.{Stopped};
ghost use Rattle.running_store.specs.RunningState.{IsRunning};
ghost use Rattle.running_store.specs.Running.{view_of, InOrder};
ghost use Rattle.running_store.specs.StoreView.{state_of};

use crate::head_turns::{remove_head, replace_head};
use crate::marking::mark;
use crate::page_turns::{erase, free, write_fresh, zero};
use page_disk::PageDisk;
use running_store::{
    Decision, LaidReplacement, Running, RunningJob, Serves, Stage, Work, give_up, waiting_for,
};
use std::collections::VecDeque;
use super_block::Super;
use volume_model::{PlaceList, Reply};

/// What a turn of the running job leaves.
#[derive(Clone, Copy)]
pub enum JobTurn {
    /// The job runs on.
    More,
    /// It is done.
    Done,
    /// A write or a flush failed, and the store stopped behind so many entries of the log.
    Stopped(u32),
}

/// What a job has beside its next replacement: for whom it is done, and which channel waits for it; the places that
/// stood behind the head before that, and the replacements that come behind it.
#[derive(Drop)]
pub(crate) struct Beside {
    pub(crate) serves: Serves,
    pub(crate) waiting: Option<u8>,
    pub(crate) old: PlaceList,
    pub(crate) later: VecDeque<LaidReplacement>,
}

impl Beside {
    ghost use Rattle.std.specs.Prelude.{◌≡◌, [], IfSome};
    ghost use Rattle.std.specs.Option.{option_map, option_map_or};
    ghost use Rattle.store_model.specs.Phases.{erasing};
    ghost use Rattle.running_store.specs.Jobs.{job_left, job_seen, phases_in, to_come, IsHeaded, MayFollow};

    /// The job with this work.
    pub(crate) fn at(self, work: Work) -> RunningJob
        ensures { result ≡ record {
          serves = self.serves;
          marks = false;
          work = work;
          old = self.old;
          later = self.later;
        } }
    {
        let Beside {
            serves,
            waiting: _,
            old,
            later,
        } = self;
        RunningJob {
            serves,
            marks: false,
            work,
            old,
            later,
        }
    }

    /// The job behind its replacement, if something is left of it.
    pub(crate) fn behind(self) -> Option<RunningJob>
        requires { MayFollow self.serves self.later.items }
        ensures seen { option_map job_seen result
            ≡ job_left self.serves (erasing self.old self.old (phases_in self.later.items)) }
        ensures headed { IfSome result IsHeaded }
        ensures coming { option_map_or to_come result [] ≡ self.later.items }
    {
        RunningJob::behind(self.serves, self.old, self.later)
    }
}

/// A turn of the running job: its next device calls, and what follows from them.
pub(crate) fn job_turn<D: PageDisk>(running: &mut Running<D>) -> JobTurn
    requires order { InOrder D.PageDisk running.old }
    requires faultless { IsFaultless running.old.sup }
    requires runs { IsSome running.old.job }
    requires not_stopped { running.old.stopped ≡ None }
    requires running { IsRunning (state_of D.PageDisk (view_of running.old)) }
    requires work { RowsWork (state_of D.PageDisk (view_of running.old)) }
    ensures case { TurnsJob D.PageDisk (view_of running.old) (view_of running.new) }
    ensures answer { result ≡ answer_of (view_of running.new) }
    ensures order { InOrder D.PageDisk running.new }
{
    let waiting = waiting_for(&running.job);
    let Some(job) = running.job.take() else {
        return JobTurn::Done;
    };
    if job.marks {
        return mark(running, job, waiting);
    }
    work_on(running, job, waiting)
}

/// The next phase of a job, where the store is marked as in use.
fn work_on<D: PageDisk>(running: &mut Running<D>, job: RunningJob, waiting: Option<u8>) -> JobTurn
    requires order { InOrder D.PageDisk running.old }
    requires unmarked { job.marks ≡ false }
    requires headed { IsHeaded job }
    requires waits { waiting ≡ waits_for_job (job_seen job) }
    requires kept { WillBeKept (blobs_of running.old) job }
    requires at_work { IsAtWork D.PageDisk (view_of running.old) (job_seen job) }
    ensures case { TurnsJob D.PageDisk (with_job (view_of running.old) (job_seen job)) (view_of running.new) }
    ensures answer { result ≡ answer_of (view_of running.new) }
    ensures order { InOrder D.PageDisk running.new }
{
    let RunningJob {
        serves,
        marks: _,
        work,
        old,
        later,
    } = job;
    let beside = Beside {
        serves,
        waiting,
        old,
        later,
    };
    match work {
        Work::Zeroing { planned, zeroed } => zero(running, beside, planned, zeroed),
        Work::Writing { planned, written } => {
            let fresh = planned.pages.len() - 1;
            if written < fresh {
                write_fresh(running, beside, planned, written)
            } else {
                replace_head(running, beside, planned)
            }
        }
        Work::Removing(erasure) => remove_head(running, beside, erasure),
        Work::Erasing { erased } => {
            let last = beside.old.len() - 1;
            if erased < last {
                erase(running, beside, erased)
            } else {
                free(running, beside, erased)
            }
        }
    }
}

/// A turn of the running job, or, on a stopped store, its end.
pub fn job_turn_or_end<D: PageDisk>(running: &mut Running<D>) -> JobTurn
    requires order { InOrder D.PageDisk running.old }
    requires faultless { IsFaultless running.old.sup }
    requires runs { IsSome running.old.job }
    requires running { IsRunning (state_of D.PageDisk (view_of running.old)) }
    requires work { RowsWork (state_of D.PageDisk (view_of running.old)) }
    ensures case { TurnsJob D.PageDisk (view_of running.old) (view_of running.new) }
    ensures answer { result ≡ answer_of (view_of running.new) }
    ensures order { InOrder D.PageDisk running.new }
{
    match running.stopped {
        Some(at) => break_down(running, at),
        None => job_turn(running),
    }
}

/// Ends the job of a stopped store. No device call is made, and what waits for it is logged as stopped: its command, if
/// it has no entry yet, or that which the row of its insert works for, whose claim is given back.
fn break_down<D: PageDisk>(running: &mut Running<D>, at: u32) -> JobTurn
    requires order { InOrder D.PageDisk running.old }
    requires runs { IsSome running.old.job }
    requires stopped { running.old.stopped ≡ Some at }
    requires running { IsRunning (state_of D.PageDisk (view_of running.old)) }
    requires work { RowsWork (state_of D.PageDisk (view_of running.old)) }
    ensures case { TurnsJob D.PageDisk (view_of running.old) (view_of running.new) }
    ensures answer { result ≡ Stopped at }
    ensures stopped { running.new.stopped ≡ Some at }
    ensures order { InOrder D.PageDisk running.new }
{
    let waiting = waiting_for(&running.job);
    running.job = None;
    if let Some(row) = waiting {
        give_up(
            running,
            row,
            Reply::Stopped(at),
            Stage::Decided(Decision::Answered),
        );
    }
    JobTurn::Stopped(at)
}

/// What a turn has left of the job.
pub(crate) fn turn_of<D>(running: &Running<D>) -> JobTurn
    ensures { result ≡ answer_of (view_of running.now) }
{
    match running.stopped {
        Some(at) => JobTurn::Stopped(at),
        None => {
            if running.job.is_some() {
                JobTurn::More
            } else {
                JobTurn::Done
            }
        }
    }
}

/// The page of the device at a place of the metadata region.
pub(crate) fn page_at(sup: &Super, place: u32) -> u64
    ensures { result ≡ sup.now.md_start + place }
{
    u64::from(sup.md_start) + u64::from(place)
}
