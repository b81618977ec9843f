//! The pages of one write, which only clauses read.

ghost use Rattle.std.specs.Prelude.{◌≡◌};
ghost use Rattle.file_disk.specs.Notes.{pages_noted};

use page_disk::Page;
use std::snapshot::Snapshot;

/// The last page, and, without memory of its own, the pages before it.
pub enum RunNotes {
    /// No page yet.
    Begun,
    /// One page more.
    Went(Snapshot<RunNotes>, Snapshot<Page>),
}

impl RunNotes {
    /// The notes of these pages.
    pub fn of(pages: &[Page]) -> RunNotes
        ensures { pages_noted result ≡ pages.now }
    {
        let mut notes = RunNotes::Begun;
        for page in pages {
            notes = RunNotes::Went(Snapshot::of(&notes), Snapshot::of(page));
        }
        notes
    }
}

impl Drop for RunNotes {
    fn drop(self) {
        match self {
            RunNotes::Begun => {}
            RunNotes::Went(_, _) => {}
        }
    }
}
