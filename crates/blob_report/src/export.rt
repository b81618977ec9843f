//! The line that an export prints.

ghost use Rattle.std.specs.Prelude.{◌≡◌, IfOk};
ghost use Rattle.blob_report.specs.ExportText.{export_text};

use crate::entry::push_reply;
use crate::pieces::Piece::{Long, Words};
use crate::pieces::push_pieces;
use out_of_memory::Memory;
use std::alloc::Global;
use volume_model::Reply;

/// What an export comes to.
#[derive(Clone, Copy, Debug, PartialEq, Eq)]
pub enum ExportLine {
    /// So many pages were written, all that the volume shows.
    Exported(u64),
    /// No volume is meant.
    NoVolume,
    /// The volume has more pages than the target.
    OutOfRange,
}

impl ExportLine {
    /// The line, with its LF: `exported N`, or `no volume` or `out of range`, as a reply to a command says it.
    pub fn render(self, alloc: Global) -> Result<Vec<u8>, Memory>
        ensures { IfOk result (λ text. text.items ≡ export_text self) }
    {
        let mut text = Vec::new(alloc);
        match self {
            ExportLine::Exported(pages) => {
                push_pieces(&[Words(b"exported "), Long(pages)], &mut text)?
            }
            ExportLine::NoVolume => push_reply(&Reply::NoVolume, &mut text)?,
            ExportLine::OutOfRange => push_reply(&Reply::OutOfRange, &mut text)?,
        }
        text.push(b'\n')?;
        Ok(text)
    }
}
