//! The threads of a run, before they start.

ghost use Rattle.std.specs.Prelude.{◌≡◌};
ghost use Rattle.worker_threads.specs.Senders.{AreNumbered};

use crate::metadata::MetadataThread;
use crate::run_memory::RunMemory;
use channels::{Channel, channels_of};
use page_disk::PageDisk;
use std::alloc::Global;
use store_core::{MdRight, Plant};

/// The threads of a run before they start: the channels at the stages of their rows, the metadata thread, and what
/// memory was taken for.
#[derive(Drop)]
pub(crate) struct Crew {
    pub(crate) channels: [Channel; 16],
    pub(crate) metadata: MetadataThread,
    pub(crate) memory: RunMemory,
    ghost numbered: { AreNumbered channels },
}

impl Crew {
    /// The threads that take a store over.
    pub(crate) fn new<D: PageDisk>(
        alloc: Global,
        plant: &Plant<D>,
        right: MdRight,
        memory: RunMemory,
    ) -> Crew
        ensures { result.metadata.right ≡ right }
    {
        Crew {
            channels: channels_of(plant),
            metadata: MetadataThread::new(alloc, plant, right),
            memory,
        }
    }
}
