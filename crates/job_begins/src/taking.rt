//! The pages of a job, taken at once, and the job that is laid on them.

ghost use Rattle.std.specs.Prelude.{◌≡◌, ◌<◌, [], length, false, Some, IfErr, IfOk, OnErr};
ghost use Rattle.std.specs.FinMap as map;
ghost use Rattle.std.specs.List.{AllByRecursion};
ghost use Rattle.job_begins.specs.JobPages.{ArePagesTaken, IsShort};
ghost use Rattle.job_begins.specs.JobSteps.{needs_together, AreLaidOn, IsJobOn, IsStep, IsStepFor};
ghost use Rattle.running_store.specs.Jobs.{job_left, job_seen, phases_in, to_come, IsHeaded};
ghost use Rattle.running_store.specs.declared.job.Serves.TheVariants as whom;

use crate::steps::{Step, lay_all, pages_within};
use blob_meta::Chains;
use out_of_memory::Memory;
use pools::PagePool;
use running_store::{RunningJob, Serves, clear_places, take_places};
use std::alloc::Global;
use std::collections::VecDeque;
use volume_model::{PlaceList, Reply};

/// The job of a channel's command that makes these replacements and freezes this blob, once its pages are taken. `Err`
/// says what it lacks, and nothing is taken then.
pub(crate) fn job_on_pages(
    alloc: Global,
    chains: &Chains,
    pages: &mut PagePool,
    steps: Vec<Step>,
    channel: u8,
    freeze: Option<u32>,
) -> Result<RunningJob, Reply>
    requires some { 0 < length steps.items }
    requires steps { AllByRecursion (IsStepFor (whom.Command channel freeze)) steps.items }
    requires unclaimed { pages.old.claims ≡ [] }
    ensures job { IfOk result
        (IsJobOn (map.get chains.now) steps.items (whom.Command channel freeze) pages.old.bits pages.new.bits) }
    ensures lack { IfErr result (IsShort (needs_together steps.items) pages.old.bits) }
    ensures same { OnErr result (pages.new ≡ pages.old) }
    ensures unclaimed { pages.new.claims ≡ [] }
{
    let taken = take_pages(alloc, pages, steps.as_slice())?;
    match lay_job(alloc, chains, steps, taken.as_slice(), channel, freeze) {
        Ok(job) => Ok(job),
        Err(Memory) => {
            clear_places(pages, &taken);
            Err(Reply::Memory)
        }
    }
}

/// Takes the pages of these replacements, the least clear ones: `NoPage` where fewer are clear, and else `Memory`; none
/// is taken then.
fn take_pages(alloc: Global, pages: &mut PagePool, steps: &[Step]) -> Result<PlaceList, Reply>
    requires steps { AllByRecursion IsStep steps.now }
    requires unclaimed { pages.old.claims ≡ [] }
    ensures taken { IfOk result (ArePagesTaken (needs_together steps.now) pages.old.bits pages.new.bits) }
    ensures lack { IfErr result (IsShort (needs_together steps.now) pages.old.bits) }
    ensures same { OnErr result (pages.new ≡ pages.old) }
    ensures unclaimed { pages.new.claims ≡ [] }
{
    let Some(count) = pages_within(steps, pages.clear_count()) else {
        return Err(Reply::NoPage);
    };
    Ok(take_places(alloc, pages, count)?)
}

/// The job of these replacements, on these pages.
fn lay_job(
    alloc: Global,
    chains: &Chains,
    steps: Vec<Step>,
    taken: &[u32],
    channel: u8,
    freeze: Option<u32>,
) -> Result<RunningJob, Memory>
    requires some { 0 < length steps.items }
    requires steps { AllByRecursion (IsStepFor (whom.Command channel freeze)) steps.items }
    requires places { length taken.now ≡ needs_together steps.items }
    ensures laid { IfOk result (λ job. AreLaidOn (map.get chains.now) steps.items taken.now (to_come job)) }
    ensures seen { IfOk result
        (λ job. Some (job_seen job) ≡ job_left (whom.Command channel freeze) (phases_in (to_come job))) }
    ensures headed { IfOk result IsHeaded }
    ensures unmarked { IfOk result (λ job. job.marks ≡ false) }
{
    let laid = lay_all(alloc, chains, VecDeque::from_vec(steps), taken)?;
    let serves = Serves::Command { channel, freeze };
    let Some(job) = RunningJob::next(serves, VecDeque::from_vec(laid)) else {
        unreachable!()
    };
    Ok(job)
}
