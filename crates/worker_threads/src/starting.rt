//! The start of the workers.

ghost use Rattle.std.specs.Prelude.{◌≡◌, ◌<◌, ◌≤◌, ◌+◌, [], ◌++◌, length, map, vec_capacity, IfErr, IfOk};
ghost use Rattle.std.specs.Thread.{IsSync};
ghost use Rattle.worker_threads.specs.Senders.{end_given, end_of, ends_of, AreNumbered, AreOfOneLine};
ghost use Rattle.worker_threads.specs.contracts.shared_store.SharedStore as shared_type;

use crate::gate::Gate;
use crate::joining::push_all;
use crate::locked_store::GivenStore;
use crate::shared_store::SharedStore;
use crate::worker::Worker;
use channels::Channel;
use md_queue::{MdSender, SenderList};
use page_disk::PageDisk;
use std::snapshot::Snapshot;
use std::sync::Wait;
use std::thread::{Promise, PromisedHandle, Scope, Threads};

/// What a worker promises: it hands the sender back that it was given.
#[derive(Drop)]
pub(crate) struct SameEnd(Snapshot<MdSender>);

impl Promise<MdSender> for SameEnd {
    ghost use Rattle.std.specs.Prelude.{◌≡◌};
    ghost use Rattle.worker_threads.specs.Senders.{end_of};

    ghost kept_by = { λ promise back. end_of back ≡ end_of promise.0.value };
}

/// A worker that was started.
pub(crate) type WorkerHandle = PromisedHandle<MdSender, SameEnd>;

/// Starts workers in a scope: each has the runtime, the store that all share, and the gate.
#[derive(Drop)]
pub(crate) struct Starter<
    's,
    E,
    D: PageDisk + Send,
    O: GivenStore<D> + Send + Sync,
    G: Gate + Sync,
    R: Threads + Wait + Sync,
> {
    pub(crate) scope: &'s Scope<'s, E>,
    pub(crate) rt: &'s R,
    pub(crate) shared: &'s SharedStore<D, O>,
    pub(crate) gate: &'s G,
}

impl<
    's,
    E,
    D: PageDisk + Send,
    O: GivenStore<D> + Send + Sync,
    G: Gate + Sync,
    R: Threads + Wait + Sync,
> Starter<'s, E, D, O, G, R> {
    /// Starts a worker. Where it can't be started all threads are to end, and its sender comes back.
    fn start(&self, worker: Worker, sender: MdSender) -> Result<WorkerHandle, MdSender>
        requires shared { IsSync (shared_type.the_row D.row O.row D.PageDisk O.GivenStore) }
        requires serves { sender.channel ≡ worker.channel }
        ensures started { IfOk result (λ handle. end_given handle ≡ end_of sender) }
        ensures refused { IfErr result (λ back. end_of back ≡ end_of sender) }
    {
        let rt = self.rt;
        let shared = self.shared;
        let gate = self.gate;
        match self.scope.spawn_with(
            SameEnd(Snapshot::of(&sender)),
            move || -> MdSender
                requires { sender.channel ≡ worker.channel }
                ensures { end_of result ≡ end_of sender }
            { worker.run(rt, shared, gate, sender) },
        ) {
            Ok(handle) => Ok(handle),
            Err(refused) => {
                shared.end_threads();
                Err((refused.value)())
            }
        }
    }

    /// Starts a worker for each sender, until one can't be started. The handles come back, and the senders of the
    /// workers that weren't started.
    pub(crate) fn start_all(
        &self,
        channels: &[Channel; 16],
        mut senders: SenderList,
        mut handles: Vec<WorkerHandle>,
    ) -> (Vec<WorkerHandle>, SenderList)
        requires shared { IsSync (shared_type.the_row D.row O.row D.PageDisk O.GivenStore) }
        requires numbered { AreNumbered channels.now }
        requires senders { AreOfOneLine 0 senders }
        requires few { length senders ≤ 16 }
        requires none { handles.items ≡ [] }
        requires room { length senders ≤ vec_capacity handles }
        ensures same { map end_given result.0.items ++ ends_of result.1 ≡ ends_of senders }
        ensures count { length result.0.items + length result.1 ≡ length senders }
    {
        for channel in 0..16_u8 {
            let Some(sender) = senders.take_first() else {
                break;
            };
            let worker = Worker::new(channel, channels[usize::from(channel)]);
            match self.start(worker, sender) {
                Ok(handle) => handles.push_reserved(handle),
                Err(back) => {
                    let mut unused = SenderList::new();
                    unused.push(back);
                    return (handles, push_all(unused, senders));
                }
            }
        }
        (handles, senders)
    }
}
