//! The turn of a job in which the store is marked as in use.

ghost use Rattle.std.specs.Prelude.{◌≡◌, true};
ghost use Rattle.running_store.specs.Blobs.{blobs_of, WillBeKept};
ghost use Rattle.running_store.specs.Jobs.{job_seen, waits_for_job, IsHeaded};
ghost use Rattle.running_store.specs.Running.{view_of, InOrder};
ghost use Rattle.super_block.specs.Faults.{IsFaultless};
ghost use Rattle.metadata_turns.specs.JobTurns.{answer_of, with_job, IsAtWork, TurnsJob};

use crate::job_turn::JobTurn;
use crate::telling::fail_job;
use page_disk::PageDisk;
use running_store::{Running, RunningJob, mark_in_use};

/// Marks the store as in use, before all else that the job does.
pub(crate) fn mark<D: PageDisk>(
    running: &mut Running<D>,
    job: RunningJob,
    waiting: Option<u8>,
) -> JobTurn
    requires order { InOrder D.PageDisk running.old }
    requires faultless { IsFaultless running.old.sup }
    requires marks { job.marks ≡ true }
    requires headed { IsHeaded job }
    requires waits { waiting ≡ waits_for_job (job_seen job) }
    requires kept { WillBeKept (blobs_of running.old) job }
    requires at_work { IsAtWork D.PageDisk (view_of running.old) (job_seen job) }
    ensures case { TurnsJob D.PageDisk (with_job (view_of running.old) (job_seen job)) (view_of running.new) }
    ensures answer { result ≡ answer_of (view_of running.new) }
    ensures order { InOrder D.PageDisk running.new }
{
    if mark_in_use(&mut running.disk, &mut running.sup).is_err() {
        return fail_job(running, job.serves, waiting);
    }
    running.is_clean = false;
    running.job = Some(job.with_mark(false));
    JobTurn::More
}
