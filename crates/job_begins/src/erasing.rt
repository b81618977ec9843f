//! The begin of a job that erases a blob and replaces no other: the delete of a volume without clones.

ghost use Rattle.std.specs.Prelude.{◌≡◌, ◌<◌, false, None, Some, IfOk};
ghost use Rattle.inflate_delete.specs.DeleteJobs.{erase_job};
ghost use Rattle.job_begins.specs.Asks.{IsAskedFor};
ghost use Rattle.job_begins.specs.Begins.{with_begun};
ghost use Rattle.job_begins.specs.JobBegins.{CanBegin};
ghost use Rattle.running_store.specs.Blobs.{blobs_of, WillBeKept};
ghost use Rattle.running_store.specs.Jobs.{IsHeaded};
ghost use Rattle.running_store.specs.Running.{view_of};
ghost use Rattle.running_store.specs.Steps.{Asks};
ghost use Rattle.running_store.specs.StoreView.{state_of};
ghost use Rattle.store_model.specs.Cases.{Begins};

use crate::alone::{base_at, clusters_beside, missing};
use crate::preparing::places_behind;
use out_of_memory::Memory;
use page_disk::PageDisk;
use running_store::{Commit, EntryChange, Erasure, Running, RunningJob, Serves, Work};
use std::collections::VecDeque;
use volume_model::PlaceList;

/// The job that erases the blob at `head` as its commit: its attributes are gone then too.
pub(crate) fn erasing_job<D: PageDisk>(
    running: &Running<D>,
    channel: u8,
    head: u32,
) -> Result<RunningJob, Memory>
    requires can { CanBegin D.PageDisk running.now channel }
    requires asks { Asks (view_of running.now) channel
        (λ command. IsAskedFor (state_of D.PageDisk (view_of running.now)) command (erase_job head)) }
    ensures begins { IfOk result (λ job. Begins (state_of D.PageDisk (view_of running.now))
        (state_of D.PageDisk (with_begun (view_of running.now) channel job))) }
    ensures unmarked { IfOk result (λ job. job.marks ≡ false) }
    ensures headed { IfOk result IsHeaded }
    ensures kept { IfOk result (WillBeKept (blobs_of running.now)) }
{
    let alloc = running.alloc;
    let old = places_behind(alloc, &running.chains, head)?;
    let mut beside = clusters_beside(running, head)?;
    let Some(meta) = base_at(running, head) else {
        unreachable!()
    };
    let freed = missing(alloc, &mut beside, &meta.map)?;
    let commit = Commit {
        made: None,
        live: Some(EntryChange {
            head,
            value: None,
            room: None,
        }),
        renews: PlaceList::new(alloc),
        shows: None,
    };
    Ok(RunningJob {
        serves: Serves::Command {
            channel,
            freeze: None,
        },
        marks: false,
        work: Work::Removing(Erasure {
            head,
            commit: Some(commit),
            freed,
        }),
        old,
        later: VecDeque::new(alloc),
    })
}
