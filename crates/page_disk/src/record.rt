// A call in the record of a disk in memory.
use crate::{Page, WriteKind};

/// A write or a flush that a disk in memory has done.
#[derive(Drop)]
pub enum Call {
    /// This content was written to this page.
    Write {
        page: u64,
        content: Page,
        kind: WriteKind,
    },

    /// All that was written before is safe from a crash.
    Flush,
}
