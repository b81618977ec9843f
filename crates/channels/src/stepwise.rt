//! A run by a schedule, a step at a time.

ghost use Rattle.std.specs.Prelude.{◌≡◌, ℕ, ◌<◌, None, length};
ghost use Rattle.md_thread.specs.Leading.{Leads};
ghost use Rattle.store_model.specs.Filling.{unused_row};
ghost use Rattle.store_model.specs.Rows.{fill_row};
ghost use Rattle.store_model.specs.Repairing.{IsRepaired};
ghost use Rattle.running_store.specs.StoreView.{rows_of, state_of};
ghost use Rattle.channels.specs.Actors.{actors_in_run};
ghost use Rattle.channels.specs.RunEnds.{run_end_of, ended_row};
ghost use Rattle.channels.specs.StepwiseRuns.{RunsStepwise};

use crate::driver::Driver;
use page_disk::PageDisk;
use script_lang::Schedule;
use std::alloc::Global;
use store_core::{MdRight, Plant};
use store_model::state_turns;

/// How a run ended. But for want of memory all channels have, each with all its commands answered.
#[derive(Clone, Copy, Debug, PartialEq, Eq)]
pub enum RunEnd {
    /// No write or flush failed.
    Ended,
    /// One failed, in the turn behind so many entries; commands behind it were answered that the store has stopped.
    Stopped(u32),
    /// Memory ran out before its first step: nothing was done. No run a step at a time ends so.
    Memory,
}

/// Runs a store, of which nothing is left to repair, to its end: the steps of a schedule, and then rounds of channels 0
/// to 15 and the metadata thread until all have ended. Rows may be at any stage, as others have left them that ran it
/// before: the metadata thread takes the store over with the command that slots are filled for, ends what is done for
/// it with its first step, behind the job that runs, and serves it anew. `alloc` serves the jobs of commands alone.
pub fn run_stepwise<D: PageDisk>(
    alloc: Global,
    plant: Plant<D>,
    right: MdRight,
    schedule: &Schedule,
) -> (Plant<D>, MdRight, RunEnd)
    requires right { right ≡ plant.right }
    requires seventeen { length plant.opening.rows ≡ 17 }
    requires repaired { IsRepaired (state_of D.PageDisk plant.at) }
    ensures follows { RunsStepwise D.tells (actors_in_run schedule.now) (state_of D.PageDisk plant.at)
        (state_of D.PageDisk result.0.at) }
    ensures leads { Leads D.tells (state_of D.PageDisk plant.at) (state_of D.PageDisk result.0.at) }
    ensures ended { (channel : ℕ) → channel < 16 → rows_of result.0.at.rows channel ≡ ended_row }
    ensures unused { rows_of result.0.at.rows fill_row ≡ unused_row }
    ensures no_job { result.0.at.job ≡ None }
    ensures repaired { IsRepaired (state_of D.PageDisk result.0.at) }
    ensures end { result.2 ≡ run_end_of result.0.at.stopped }
    ensures opening { result.0.opening ≡ plant.opening }
    ensures right { (result.1 ≡ right) × (result.0.right ≡ plant.right) }
{
    state_turns();
    let mut driver = Driver::new(plant, right);
    driver.run(alloc, schedule);
    let (plant, right) = driver.into_parts();
    plant.keeps();
    let end = match plant.stopped() {
        Some(at) => RunEnd::Stopped(at),
        None => RunEnd::Ended,
    };
    (plant, right, end)
}
