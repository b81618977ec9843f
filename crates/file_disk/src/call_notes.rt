//! The writes and syncs of a file so far, which only clauses read.

ghost use Rattle.std.specs.Prelude.{◌≡◌, ◌∷◌, []};
ghost use Rattle.file_disk.specs.FileCalls.{DidWrite, DidSync};
ghost use Rattle.file_disk.specs.Notes.{calls_noted};

use crate::run_notes::RunNotes;
use page_disk::{Page, WriteKind};
use std::snapshot::Snapshot;

/// The last call, and, without memory of their own, the calls before it and the pages that it wrote.
pub enum CallNotes {
    /// No call yet.
    Opened,
    /// A write of a run of pages from this offset on, and whether it took them all.
    Wrote(Snapshot<CallNotes>, u64, Snapshot<RunNotes>, WriteKind, bool),
    /// A sync, and whether it answered Ok.
    Synced(Snapshot<CallNotes>, bool),
}

impl CallNotes {
    /// Those of no call.
    pub fn new() -> CallNotes
        ensures { calls_noted result ≡ [] }
    {
        CallNotes::Opened
    }

    /// Notes a write.
    pub fn note_write(&mut self, pages: &[Page], offset: u64, kind: WriteKind, took: bool)
        ensures { calls_noted self.new ≡ DidWrite offset pages.now kind took ∷ calls_noted self.old }
    {
        let run = RunNotes::of(pages);
        *self = CallNotes::Wrote(Snapshot::of(self), offset, Snapshot::of(&run), kind, took);
    }

    /// Notes a sync.
    pub fn note_sync(&mut self, ok: bool)
        ensures { calls_noted self.new ≡ DidSync ok ∷ calls_noted self.old }
    {
        *self = CallNotes::Synced(Snapshot::of(self), ok);
    }
}

impl Drop for CallNotes {
    fn drop(self) {
        match self {
            CallNotes::Opened => {}
            CallNotes::Wrote(_, _, _, _, _) => {}
            CallNotes::Synced(_, _) => {}
        }
    }
}
