//! The workers are joined, and hand their senders back.

ghost use Rattle.std.specs.Prelude.{◌≡◌, ◌≤◌, ◌+◌, ◌++◌, length, map};
ghost use Rattle.worker_threads.specs.Senders.{end_given, ends_of};

use crate::starting::WorkerHandle;
use md_queue::SenderList;
use std::thread::Threads;

/// Joins the workers, and takes their senders back, in the order of the handles.
pub(crate) fn join_workers<R: Threads>(rt: &R, handles: Vec<WorkerHandle>) -> SenderList
    requires few { length handles.items ≤ 16 }
    ensures { ends_of result ≡ map end_given handles.items }
{
    let mut senders = SenderList::new();
    for handle in handles {
        senders.push(handle.join(rt));
    }
    senders
}

/// Puts senders behind others.
pub(crate) fn push_all(senders: SenderList, others: SenderList) -> SenderList
    requires room { length senders + length others ≤ 16 }
    ensures { result ≡ senders ++ others }
{
    let mut senders = senders;
    let mut others = others;
    while let Some(sender) = others.take_first() {
        senders.push(sender);
    }
    senders
}
