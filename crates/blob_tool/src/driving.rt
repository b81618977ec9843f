//! How a run is driven: by a schedule, a step at a time, or by threads.

ghost use Rattle.std.specs.Prelude.{◌≡◌, ◌≢◌, length};
ghost use Rattle.blob_tool.specs.Runs.{FollowsDrive, HasEndedRun};
ghost use Rattle.channels.specs.declared.stepwise.RunEnd.TheVariants.{Memory};
ghost use Rattle.running_store.specs.StoreView.{state_of};
ghost use Rattle.store_model.specs.Repairing.{IsRepaired};

use channels::{RunEnd, run_stepwise};
use page_disk::PageDisk;
use script_lang::Schedule;
use std::alloc::Global;
use std::sync::Wait;
use std::thread::Threads;
use store_core::{MdRight, Plant};
use worker_threads::{Gate, run_threads};

/// How a run is driven.
#[derive(Debug, Drop)]
pub enum Drive {
    /// By the steps of this schedule, and then in rounds of the channels and the metadata thread.
    Stepwise(Schedule),
    /// By a thread for each channel and one for the metadata.
    Threads,
}

/// Drives a store, of which nothing is left to repair, to the end of its run. `Memory` comes before its first step: then
/// nothing was done. By threads it may wait, and each worker asks the gate before each step.
pub(crate) fn drive_store<D: PageDisk + Send, G: Gate + Sync, R: Threads + Wait + Sync>(
    rt: &R,
    alloc: Global,
    by: &Drive,
    plant: Plant<D>,
    right: MdRight,
    gate: &G,
) -> (Plant<D>, MdRight, RunEnd)
    requires right { right ≡ plant.right }
    requires seventeen { length plant.opening.rows ≡ 17 }
    requires repaired { IsRepaired (state_of D.PageDisk plant.at) }
    ensures follows { FollowsDrive D.PageDisk by.now plant.at result.0.at }
    ensures ended { result.2 ≢ Memory → HasEndedRun result.0.at }
    ensures memory { result.2 ≡ Memory → result.0 ≡ plant }
    ensures opening { result.0.opening ≡ plant.opening }
    ensures right { (result.1 ≡ plant.right) × (result.0.right ≡ plant.right) }
{
    match by {
        Drive::Stepwise(schedule) => run_stepwise(alloc, plant, right, schedule),
        Drive::Threads => {
            let (plant, right, end, _handled) = run_threads(rt, alloc, plant, right, gate);
            (plant, right, end)
        }
    }
}

/// The same without threads, so that it never waits: where threads are asked for it makes rounds, which is one of the
/// orders to which threads may come.
pub(crate) fn drive_in_rounds<D: PageDisk>(
    alloc: Global,
    by: &Drive,
    plant: Plant<D>,
    right: MdRight,
) -> (Plant<D>, MdRight, RunEnd)
    requires right { right ≡ plant.right }
    requires seventeen { length plant.opening.rows ≡ 17 }
    requires repaired { IsRepaired (state_of D.PageDisk plant.at) }
    ensures follows { FollowsDrive D.PageDisk by.now plant.at result.0.at }
    ensures ended { HasEndedRun result.0.at }
    ensures end { result.2 ≢ Memory }
    ensures opening { result.0.opening ≡ plant.opening }
    ensures right { (result.1 ≡ plant.right) × (result.0.right ≡ plant.right) }
{
    match by {
        Drive::Stepwise(schedule) => run_stepwise(alloc, plant, right, schedule),
        Drive::Threads => run_stepwise(alloc, plant, right, &Schedule::new(alloc)),
    }
}
