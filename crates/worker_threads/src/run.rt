//! A run by threads.

ghost use Rattle.std.specs.Prelude.{◌≡◌, ◌≢◌, ◌⊎◌, ◌↔◌, ℕ, ◌<◌, Some, None, IfSome, length};
ghost use Rattle.std.specs.Thread.{IsSend, IsSync};
ghost use Rattle.channels.specs.RunEnds.{ended_row, run_end_of};
ghost use Rattle.channels.specs.declared.stepwise.RunEnd.TheVariants.{Memory};
ghost use Rattle.md_queue.specs.QueueEnds.{AreAllOf, IsHandled};
ghost use Rattle.md_thread.specs.Holding.{HaveEnded};
ghost use Rattle.md_thread.specs.Leading.{Leads};
ghost use Rattle.running_store.specs.StoreView.{rows_of, state_of};
ghost use Rattle.store_model.specs.Filling.{unused_row};
ghost use Rattle.store_model.specs.Repairing.{IsRepaired};
ghost use Rattle.store_model.specs.Rows.{fill_row};
ghost use Rattle.worker_threads.specs.LockedStores.{right_of};
ghost use Rattle.worker_threads.specs.contracts.shared_store.SharedStore as shared_type;

use crate::counting::count_workers;
use crate::crew::Crew;
use crate::gate::Gate;
use crate::joining::{join_workers, push_all};
use crate::locked_store::{GivenStore, LockedStore};
use crate::run_memory::RunMemory;
use crate::shared_store::SharedStore;
use crate::starting::Starter;
use channels::{RunEnd, run_stepwise};
use md_queue::{Handled, MdReceiver, SenderList, close};
use page_disk::PageDisk;
use script_lang::Schedule;
use std::alloc::Global;
use std::marker::Brand;
use std::sync::Wait;
use std::thread;
use std::thread::Threads;
use store_core::{MdRight, Plant};

/// Starts the workers, is the metadata thread beside them, and joins them. All ends of the queue come back, and the
/// right.
fn run_beside<
    's,
    E,
    D: PageDisk + Send,
    O: GivenStore<D> + Send + Sync,
    G: Gate + Sync,
    R: Threads + Wait + Sync,
>(starter: &Starter<'s, E, D, O, G, R>, crew: Crew) -> (SenderList, MdReceiver, MdRight)
    requires shared { IsSync (shared_type.the_row D.row O.row D.PageDisk O.GivenStore) }
    requires right { crew.metadata.right ≡ right_of O.given }
    ensures ends { AreAllOf result.0 result.1 }
    ensures right { result.2 ≡ crew.metadata.right }
{
    let Crew {
        channels,
        metadata,
        memory,
    } = crew;
    let RunMemory {
        handles,
        senders,
        receiver,
    } = memory;
    let (handles, unused) = starter.start_all(&channels, senders, handles);
    let (right, receiver) = metadata.run(starter.rt, starter.shared, receiver);
    let senders = push_all(join_workers(starter.rt, handles), unused);
    (senders, receiver, right)
}

/// Runs the threads in a scope, which ends once they have.
fn run_crew<
    D: PageDisk + Send,
    O: GivenStore<D> + Send + Sync,
    G: Gate + Sync,
    R: Threads + Wait + Sync,
>(rt: &R, shared: &SharedStore<D, O>, gate: &G, crew: Crew) -> (SenderList, MdReceiver, MdRight)
    requires shared { IsSync (shared_type.the_row D.row O.row D.PageDisk O.GivenStore) }
    requires right { crew.metadata.right ≡ right_of O.given }
    ensures ends { AreAllOf result.0 result.1 }
    ensures right { result.2 ≡ crew.metadata.right }
{
    thread::scope(
        thread::scope_env(),
        rt,
        move |scope| -> (SenderList, MdReceiver, MdRight)
            requires { IsSync R.row × IsSync G.row × IsSend D.row × IsSend O.row × IsSync O.row
                × IsSync (shared_type.the_row D.row O.row D.PageDisk O.GivenStore)
                × (crew.metadata.right ≡ right_of O.given) }
            ensures { AreAllOf result.0 result.1 × (result.2 ≡ crew.metadata.right) }
        {
            let starter = Starter {
                scope,
                rt,
                shared,
                gate,
            };
            run_beside(&starter, crew)
        },
    )
}

/// Runs a store that has a name, until the workers and the metadata thread have ended.
fn run_given<
    D: PageDisk + Send,
    O: GivenStore<D> + Send + Sync,
    G: Gate + Sync,
    R: Threads + Wait + Sync,
>(
    rt: &R,
    alloc: Global,
    plant: Plant<D>,
    right: MdRight,
    gate: &G,
    memory: RunMemory,
) -> (Plant<D>, MdRight, Handled)
    requires given { O.given ≡ Some plant }
    requires right { right ≡ plant.right }
    requires repaired { IsRepaired (state_of D.PageDisk plant.at) }
    ensures opening { result.0.opening ≡ plant.opening }
    ensures right { (result.0.right ≡ plant.right) × (result.1 ≡ plant.right) }
    ensures leads { Leads D.tells (state_of D.PageDisk plant.at) (state_of D.PageDisk result.0.at) }
    ensures repaired { IsRepaired (state_of D.PageDisk result.0.at) }
    ensures handled { IsHandled result.2 }
{
    let crew = Crew::new(alloc, &plant, right, memory);
    let shared = SharedStore::new(LockedStore::<D, O>::new(plant));
    let (senders, receiver, right) = run_crew(rt, &shared, gate, crew);
    let plant = shared.into_store().into_plant();
    (plant, right, close(rt, senders, receiver))
}

/// Runs a store, of which nothing is left to repair, by threads: a worker for each channel up to the greatest that
/// hasn't ended, and the metadata thread, with the store behind a lock; messages are sent through a queue of eight.
/// Rows may be at any stage, as for `run_stepwise`. Once all are joined it makes the steps that are left, one at a
/// time: none as a rule, but where a worker couldn't be started all end early. A worker asks the gate before each step.
/// `alloc` serves the queue, the workers and the jobs of commands.
///
/// Besides the store and its right it hands back how the run ended, and what became of the queue's messages: `None`
/// where every channel had ended, so that there was no queue and no worker, and at `RunEnd::Memory`. That comes only
/// before the first step. It may wait, and no clause says that it returns, or that threads ran beside each other.
pub fn run_threads<D: PageDisk + Send, G: Gate + Sync, R: Threads + Wait + Sync>(
    rt: &R,
    alloc: Global,
    plant: Plant<D>,
    right: MdRight,
    gate: &G,
) -> (Plant<D>, MdRight, RunEnd, Option<Handled>)
    requires right { right ≡ plant.right }
    requires seventeen { length plant.opening.rows ≡ 17 }
    requires repaired { IsRepaired (state_of D.PageDisk plant.at) }
    ensures opening { result.0.opening ≡ plant.opening }
    ensures right { (result.0.right ≡ plant.right) × (result.1 ≡ plant.right) }
    ensures leads { Leads D.tells (state_of D.PageDisk plant.at) (state_of D.PageDisk result.0.at) }
    ensures ended { result.2 ≢ Memory → (channel : ℕ) → channel < 16
        → rows_of result.0.at.rows channel ≡ ended_row }
    ensures unused { result.2 ≢ Memory → rows_of result.0.at.rows fill_row ≡ unused_row }
    ensures no_job { result.2 ≢ Memory → result.0.at.job ≡ None }
    ensures repaired { IsRepaired (state_of D.PageDisk result.0.at) }
    ensures end { result.2 ≢ Memory → result.2 ≡ run_end_of result.0.at.stopped }
    ensures memory { result.2 ≡ Memory → result.0 ≡ plant }
    ensures handled { IfSome result.3 IsHandled }
    ensures none { (result.3 ≡ None) ↔ (result.2 ≡ Memory) ⊎ HaveEnded plant.at.rows }
{
    let schedule = Schedule::new(alloc);
    let workers = count_workers(&plant);
    if workers == 0 {
        let (plant, right, end) = run_stepwise(alloc, plant, right, &schedule);
        return (plant, right, end, None);
    }
    let Ok(memory) = RunMemory::take(alloc, workers) else {
        return (plant, right, RunEnd::Memory, None);
    };
    let (joined, right, handled) = run_given::<D, Brand, G, R>(
        rt, alloc, plant, right, gate, memory,
    );
    let (plant, right, end) = run_stepwise(alloc, joined, right, &schedule);
    (plant, right, end, Some(handled))
}
