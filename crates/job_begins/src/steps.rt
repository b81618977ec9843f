//! The replacements of a job before and after they are laid on pages.

ghost use Rattle.std.specs.Prelude.{◌≡◌, ◌≤◌, ◌<◌, drop, length, IfNone, IfOk, IfSome};
ghost use Rattle.std.specs.FinMap as map;
ghost use Rattle.std.specs.List.{AllByRecursion};
ghost use Rattle.job_begins.specs.JobSteps.{behind, chained, chains_after, head_of, needs_of, needs_together};
ghost use Rattle.job_begins.specs.JobSteps.{AreLaidOn, IsLaidOn, IsStep};
ghost use Rattle.store_model.specs.Maps.{Chains as AChains};

use crate::drafts::Draft;
use crate::preparing::places_from;
use blob_meta::Chains;
use out_of_memory::Memory;
use running_store::{Change, Erasure, LaidReplacement};
use std::alloc::Global;
use std::collections::VecDeque;
use volume_model::PlaceList;

/// A replacement of a job, before pages are taken for it.
#[derive(Drop)]
pub(crate) enum Step {
    /// A blob gets new metadata.
    Writes(Draft),
    /// A blob is erased.
    Erases(Erasure),
}

impl Step {
    /// The head of its blob.
    fn head(&self) -> u32
        ensures { result ≡ head_of self.now }
    {
        match self {
            Step::Writes(draft) => draft.head,
            Step::Erases(erasure) => erasure.head,
        }
    }

    /// How many pages it takes.
    fn needs(&self) -> u32
        requires { IsStep self.now }
        ensures { result ≡ needs_of self.now }
    {
        match self {
            Step::Writes(draft) => draft.needs(),
            Step::Erases(_) => 0,
        }
    }

    /// It is laid on these pages, in place of those that stand behind its head.
    fn lay(self, alloc: Global, taken: &[u32], old: PlaceList) -> Result<LaidReplacement, Memory>
        requires step { IsStep self }
        requires places { length taken.now ≡ needs_of self }
        ensures { IfOk result (IsLaidOn old self taken.now) }
    {
        match self {
            Step::Writes(draft) => {
                let planned = draft.lay(alloc, taken)?;
                Ok(LaidReplacement {
                    change: Change::Writes(planned),
                    old,
                })
            }
            Step::Erases(erasure) => Ok(LaidReplacement {
                change: Change::Erases(erasure),
                old,
            }),
        }
    }
}

/// How many pages the replacements take together, unless that is more than so many.
pub(crate) fn pages_within(steps: &[Step], most: u32) -> Option<u32>
    requires { AllByRecursion IsStep steps.now }
    ensures within { IfSome result (λ count. (count ≡ needs_together steps.now) × (count ≤ most)) }
    ensures more { IfNone result (most < needs_together steps.now) }
{
    let mut count = 0;
    for step in steps {
        let needs = step.needs();
        if most - count < needs {
            return None;
        }
        count += needs;
    }
    Some(count)
}

/// The places of a chain behind its head.
fn behind_first(alloc: Global, chain: &PlaceList) -> Result<PlaceList, Memory>
    ensures { IfOk result (λ places. places ≡ drop 1 chain.now) }
{
    if chain.len() == 0 {
        return Ok(PlaceList::new(alloc));
    }
    places_from(alloc, &chain.as_slice()[1..])
}

/// The places behind a head once a change is made, where before it these are there.
fn places_once(
    alloc: Global,
    change: &Change,
    head: u32,
    places: PlaceList,
) -> Result<PlaceList, Memory>
    ensures { IfOk result (λ after. (chains : AChains) → places ≡ behind chains head
        → after ≡ behind (chained chains change.now) head) }
{
    match change {
        Change::Writes(planned) => {
            if planned.head == head {
                return behind_first(alloc, &planned.chain);
            }
        }
        Change::Erases(erasure) => {
            if erasure.head == head {
                return Ok(PlaceList::new(alloc));
            }
        }
    }
    Ok(places)
}

/// The places behind a head once these replacements are made.
fn places_behind_all(
    alloc: Global,
    chains: &Chains,
    laid: &[LaidReplacement],
    head: u32,
) -> Result<PlaceList, Memory>
    ensures { IfOk result (λ places. places ≡ behind (chains_after (map.get chains.now) laid.now) head) }
{
    let mut places = match chains.get(head) {
        Some(chain) => behind_first(alloc, chain)?,
        None => PlaceList::new(alloc),
    };
    for one in laid {
        places = places_once(alloc, &one.change, head, places)?;
    }
    Ok(places)
}

/// The replacements, each on its own of the pages that are taken, in their order, and in place of what stands behind
/// its head by then.
pub(crate) fn lay_all(
    alloc: Global,
    chains: &Chains,
    mut steps: VecDeque<Step>,
    taken: &[u32],
) -> Result<Vec<LaidReplacement>, Memory>
    requires steps { AllByRecursion IsStep steps.items }
    requires places { length taken.now ≡ needs_together steps.items }
    ensures { IfOk result (λ laid. AreLaidOn (map.get chains.now) steps.items taken.now laid.items) }
{
    let mut laid = Vec::new(alloc);
    let mut at = 0;
    while let Some(step) = steps.pop_front() {
        let old = places_behind_all(alloc, chains, laid.as_slice(), step.head())?;
        let end = at + step.needs() as usize;
        let one = step.lay(alloc, &taken[at..end], old)?;
        laid.push(one)?;
        at = end;
    }
    Ok(laid)
}
