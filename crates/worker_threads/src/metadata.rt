//! The metadata thread's loop.

ghost use Rattle.std.specs.Prelude.{◌≡◌};
ghost use Rattle.worker_threads.specs.LockedStores.{right_of};
ghost use Rattle.worker_threads.specs.Senders.{IsSameReceiver};

use crate::locked_store::GivenStore;
use crate::shared_store::SharedStore;
use crossbeam_utils::Backoff;
use md_queue::{MdReceiver, Receiving};
use md_thread::{MdState, Next, Turn};
use page_disk::PageDisk;
use std::alloc::Global;
use std::sync::Wait;
use store_core::{MdRight, Plant};

/// The metadata thread: what it keeps between its steps, and the right to change metadata. Neither goes to another
/// thread than that of the run's call. `alloc` serves the jobs of commands.
#[derive(Drop)]
pub(crate) struct MetadataThread {
    alloc: Global,
    state: MdState,
    right: MdRight,
}

impl MetadataThread {
    /// A metadata thread that takes a store over.
    pub(crate) fn new<D: PageDisk>(
        alloc: Global,
        plant: &Plant<D>,
        right: MdRight,
    ) -> MetadataThread
        ensures { result.right ≡ right }
    {
        MetadataThread {
            alloc,
            state: MdState::taking_over(plant),
            right,
        }
    }

    /// Makes its steps, until every channel has ended or all are to end. The right comes back, and the receiver.
    pub(crate) fn run<D: PageDisk, O: GivenStore<D>, R: Wait>(
        mut self,
        rt: &R,
        shared: &SharedStore<D, O>,
        receiver: MdReceiver,
    ) -> (MdRight, MdReceiver)
        requires right { self.right ≡ right_of O.given }
        ensures right { result.0 ≡ self.right }
        ensures receiver { IsSameReceiver receiver result.1 }
    {
        let backoff = Backoff::new();
        let mut inbox = Receiving::new(rt, receiver);
        for _ in rt.forever() {
            if shared.is_to_end() {
                break;
            }
            match self.step(rt, shared, &mut inbox) {
                None => break,
                Some(Turn::Moved) => backoff.reset(),
                Some(Turn::Idle) => backoff.snooze(),
            }
        }
        (self.right, inbox.into_receiver())
    }

    /// One turn of the store; or where none is due a look into the queue, for which it has no lock: `Idle` where it
    /// finds no message. `None` where every channel has ended.
    fn step<'a, D: PageDisk, O: GivenStore<D>, R: Wait>(
        &mut self,
        rt: &R,
        shared: &SharedStore<D, O>,
        inbox: &mut Receiving<'a, R>,
    ) -> Option<Turn>
        requires right { self.old.right ≡ right_of O.given }
        ensures right { self.new.right ≡ self.old.right }
        ensures receiver { IsSameReceiver inbox.old inbox.new }
    {
        // The lock is free again behind this line.
        let turn = shared
            .store
            .lock(rt)
            .serve(self.alloc, &mut self.state, &mut self.right);
        if let Turn::Moved = turn {
            return Some(Turn::Moved);
        }
        if let Next::Ended = self.state.md_next() {
            return None;
        }
        self.state.md_take(inbox);
        if self.state.holds() {
            return Some(Turn::Moved);
        }
        Some(Turn::Idle)
    }
}
