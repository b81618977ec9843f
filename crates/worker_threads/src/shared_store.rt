//! What the threads share.

use crate::locked_store::{GivenStore, LockedStore};
use page_disk::PageDisk;
use std::sync::Mutex;
use std::sync::atomic::{AtomicBool, Ordering};

/// What the threads share: the store behind its lock, and whether they are to end before their next step.
pub(crate) struct SharedStore<D: PageDisk, O: GivenStore<D>> {
    pub(crate) store: Mutex<LockedStore<D, O>>,
    stop: AtomicBool,
}

impl<D: PageDisk, O: GivenStore<D>> SharedStore<D, O> {
    /// The store, for threads that are to go on.
    pub(crate) fn new(store: LockedStore<D, O>) -> SharedStore<D, O> {
        SharedStore {
            store: Mutex::new(store),
            stop: AtomicBool::new(false),
        }
    }

    /// From now on each thread is to end before its next step.
    pub(crate) fn end_threads(&self) {
        self.stop.store(true, Ordering::SeqCst);
    }

    /// Whether the threads are to end.
    pub(crate) fn is_to_end(&self) -> bool {
        self.stop.load(Ordering::SeqCst)
    }

    /// The store, once no thread shares it any more.
    pub(crate) fn into_store(self) -> LockedStore<D, O> {
        let SharedStore { store, stop: _ } = self;
        store.into_inner()
    }
}
