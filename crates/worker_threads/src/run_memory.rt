//! What a run by threads takes memory for.

ghost use Rattle.std.specs.Prelude.{◌≡◌, ◌<◌, ◌≤◌, [], length, vec_capacity};
ghost use Rattle.md_queue.specs.QueueEnds.{AreAllOf};
ghost use Rattle.worker_threads.specs.Senders.{all_of_prop};

use crate::starting::WorkerHandle;
use md_queue::{MdReceiver, SenderList, make};
use out_of_memory::Memory;
use std::alloc::Global;

/// What a run by threads takes memory for before its first step: room for the handles of its workers, and a queue with
/// all its ends.
#[derive(Drop)]
pub(crate) struct RunMemory {
    pub(crate) handles: Vec<WorkerHandle>,
    pub(crate) senders: SenderList,
    pub(crate) receiver: MdReceiver,
    ghost ends: { AreAllOf senders receiver } by { all_of_prop senders receiver },
    ghost few: { length senders ≤ 16 },
    ghost none: { handles.items ≡ [] },
    ghost room: { length senders ≤ vec_capacity handles },
}

impl RunMemory {
    /// Takes it for this number of workers.
    pub(crate) fn take(alloc: Global, workers: u8) -> Result<RunMemory, Memory>
        requires some { 0 < workers }
        requires few { workers ≤ 16 }
    {
        let handles = Vec::with_capacity(alloc, 16)?;
        let (senders, receiver) = make(alloc, workers)?;
        Ok(RunMemory {
            handles,
            senders,
            receiver,
        })
    }
}
