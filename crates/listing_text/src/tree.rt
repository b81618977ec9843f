//! A listing as a tree.

ghost use Rattle.std.specs.Prelude.{◌≡◌, ◌++◌, map as each, IfOk, OnErr, OnOk};
ghost use Rattle.blob_report.specs.Text.{writing_text};
ghost use Rattle.listing_text.specs.Drawing.{node_of, nodes_of};
ghost use Rattle.listing_text.specs.Listing as facts;
ghost use Rattle.listing_text.specs.Tree as said;

use crate::drawing::{VolumeLine, draw_tree};
use blob_meta::{Meta, Metas, is_super, parent_of};
use blob_report::Piece::{Long, Number, Shown, Words};
use blob_report::{filled, push_pieces};
use out_of_memory::Memory;
use running_store::Loaded;
use std::alloc::Global;
use super_block::Super;

/// Whether a volume can be written, as a word.
fn writing(read_only: bool) -> &'static [u8]
    ensures { result.now ≡ writing_text read_only }
{
    if read_only { b" ro" } else { b" rw" }
}

/// Appends a volume's head and its name. After `Memory` nothing is appended.
fn push_named(head: u32, meta: &Meta, into: &mut Vec<u8>) -> Result<(), Memory>
    ensures ok { OnOk result (into.new.items ≡ into.old.items ++ said.named_words (facts.volume_facts head meta.now)) }
    ensures memory { OnErr result (into.new.items ≡ into.old.items) }
{
    let pieces = [
        Words(b"@"),
        Number(head),
        Words(b" "),
        Shown(meta.xattrs.told(b"name")),
    ];
    push_pieces(&pieces, into)
}

/// Appends what stands behind a volume's name. After `Memory` nothing is appended.
fn push_slots(slots: u32, own: usize, read_only: bool, into: &mut Vec<u8>) -> Result<(), Memory>
    ensures ok { OnOk result (into.new.items ≡ into.old.items ++ said.slots_words slots own read_only) }
    ensures memory { OnErr result (into.new.items ≡ into.old.items) }
{
    let pieces = [
        Words(b" slots "),
        Number(slots),
        Words(b" own "),
        Long(own as u64),
        Words(writing(read_only)),
        Words(b"\n"),
    ];
    push_pieces(&pieces, into)
}

/// The line of the volume at a head.
fn line_of(alloc: Global, head: u32, meta: &Meta) -> Result<VolumeLine, Memory>
    ensures { IfOk result (λ line. node_of line ≡ said.node_by (facts.volume_facts head meta.now)) }
{
    let mut words = Vec::new(alloc);
    push_named(head, meta, &mut words)?;
    let own = filled(meta.map.as_slice());
    push_slots(meta.map.len(), own, meta.flags.is_read_only(), &mut words)?;
    Ok(VolumeLine {
        head,
        parent: parent_of(meta),
        words,
    })
}

/// Adds the line of the volume at a head, if one is there.
fn push_line(
    alloc: Global,
    sup: &Super,
    metas: &Metas,
    head: u32,
    into: &mut Vec<VolumeLine>,
) -> Result<(), Memory>
    ensures { OnOk result (nodes_of into.new.items ≡ nodes_of into.old.items
        ++ each said.node_by (facts.volume_at sup.now metas.now head)) }
{
    if is_super(sup, head) {
        return Ok(());
    }
    if let Some(meta) = metas.get(head) {
        into.push(line_of(alloc, head, meta)?)?;
    }
    Ok(())
}

/// The lines of the volumes, by ascending head.
fn volume_lines(alloc: Global, sup: &Super, metas: &Metas) -> Result<Vec<VolumeLine>, Memory>
    ensures { IfOk result (λ lines. nodes_of lines.items
        ≡ each said.node_by (facts.volumes_below sup.now metas.now sup.now.md_len)) }
{
    let mut lines = Vec::new(alloc);
    let end = sup.md_len;
    let mut from = 0;
    while let Some(head) = metas.next_below(from, end) {
        push_line(alloc, sup, metas, head, &mut lines)?;
        from = head + 1;
    }
    Ok(lines)
}

/// The listing of a loaded store as a tree: each volume below its parent.
pub(crate) fn render_tree<D>(alloc: Global, loaded: &Loaded<D>) -> Result<Vec<u8>, Memory>
    ensures { IfOk result (λ text. text.items ≡ said.tree_of (facts.listing_of loaded.now)) }
{
    let lines = volume_lines(alloc, &loaded.sup, &loaded.metas)?;
    draw_tree(alloc, &lines)
}
