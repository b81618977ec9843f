//! The store stops in a turn of a channel.

ghost use Rattle.std.specs.Prelude.{◌≡◌};
ghost use Rattle.std.specs.Option.{option_map};
ghost use Rattle.running_store.specs.Jobs.{job_seen};
ghost use Rattle.running_store.specs.Steps.{freeze_in, stopped_here};
ghost use Rattle.running_store.specs.Running.{view_of, InOrder};

use crate::freezing::release;
use crate::job::RunningJob;
use crate::running::Running;
use page_disk::PageDisk;

/// The blob that the running job freezes.
fn frozen_by(job: &Option<RunningJob>) -> Option<u32>
    ensures { result ≡ freeze_in (option_map job_seen job.now) }
{
    match job {
        Some(running) => running.serves.freeze(),
        None => None,
    }
}

/// The store stops behind the entries so far, and the blob that its job freezes is released. The job stays: its next
/// turn ends it.
pub fn stop_here<D: PageDisk>(running: &mut Running<D>)
    requires order { InOrder D.PageDisk running.old }
    ensures stopped { view_of running.new ≡ stopped_here (view_of running.old) }
    ensures order { InOrder D.PageDisk running.new }
{
    release(&mut running.guards, frozen_by(&running.job));
    running.stopped = Some(running.entries.len() as u32);
}
