//! The line that tells how much space a store has.

ghost use Rattle.std.specs.Prelude.{◌≡◌, ◌++◌, OnOk, OnErr};
ghost use Rattle.blob_report.specs.Text.{space_text};

use crate::pieces::Piece::{Number, Words};
use crate::pieces::push_pieces;
use out_of_memory::Memory;
use volume_model::Df;

/// Appends the line `clusters T free F pages T free F`, with its LF: of the clusters and of the metadata pages, how
/// many there are and how many are free. After `Memory` nothing is appended.
pub fn space_line(space: Df, into: &mut Vec<u8>) -> Result<(), Memory>
    ensures ok { OnOk result (into.new.items ≡ into.old.items ++ space_text space) }
    ensures memory { OnErr result (into.new.items ≡ into.old.items) }
{
    let pieces = [
        Words(b"clusters "),
        Number(space.clusters),
        Words(b" free "),
        Number(space.free_clusters),
        Words(b" pages "),
        Number(space.pages),
        Words(b" free "),
        Number(space.free_pages),
        Words(b"\n"),
    ];
    push_pieces(&pieces, into)
}
