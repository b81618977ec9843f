//! The lines of the blobs of a store.

ghost use Rattle.std.specs.Prelude.{◌≡◌, ◌++◌, ◌≤◌, count_by, is_some, length, take, OnOk, OnErr};
ghost use Rattle.blob_report.specs.StoreText as said;

use crate::pieces::Piece::{Head, Long, Number, Shown, Words};
use crate::pieces::push_pieces;
use crate::volume::{filling, writing};
use blob_meta::{Meta, parent_of};
use out_of_memory::Memory;

/// How many slots of a map hold a cluster.
pub fn filled(slots: &[Option<u32>]) -> usize
    ensures count { result ≡ count_by is_some slots.now }
    ensures within { result ≤ length slots.now }
{
    slots.iter().filter(|slot| slot.is_some()).count()
}

/// Appends a blob's head, its name and its uuid. After `Memory` nothing is appended.
fn push_named(head: u32, meta: &Meta, into: &mut Vec<u8>) -> Result<(), Memory>
    ensures ok { OnOk result (into.new.items ≡ into.old.items ++ said.named_text head meta.now) }
    ensures memory { OnErr result (into.new.items ≡ into.old.items) }
{
    let pieces = [
        Words(b"@"),
        Number(head),
        Words(b" "),
        Shown(meta.xattrs.told(b"name")),
        Words(b" "),
        Shown(meta.xattrs.told(b"uuid")),
    ];
    push_pieces(&pieces, into)
}

/// Appends what stands behind the name and the uuid of a volume. After `Memory` nothing is appended.
fn push_slots(meta: &Meta, into: &mut Vec<u8>) -> Result<(), Memory>
    ensures ok { OnOk result (into.new.items ≡ into.old.items ++ said.slots_text meta.now) }
    ensures memory { OnErr result (into.new.items ≡ into.old.items) }
{
    let pieces = [
        Words(b" slots "),
        Number(meta.map.len()),
        Words(b" own "),
        Long(filled(meta.map.as_slice()) as u64),
        Words(b" parent "),
        Head(parent_of(meta)),
        Words(filling(meta.flags.is_thin())),
        Words(writing(meta.flags.is_read_only())),
        Words(b"\n"),
    ];
    push_pieces(&pieces, into)
}

/// Appends the line of the super blob. After `Memory` what was there still stands first.
pub fn push_super(head: u32, meta: &Meta, into: &mut Vec<u8>) -> Result<(), Memory>
    ensures ok { OnOk result (into.new.items ≡ into.old.items ++ said.super_line head meta.now) }
    ensures kept { take (length into.old.items) into.new.items ≡ into.old.items }
{
    into.extend_from_slice(b"super ")?;
    push_named(head, meta, into)?;
    into.push(b'\n')?;
    Ok(())
}

/// Appends the line of a volume. After `Memory` what was there still stands first.
pub fn push_volume(head: u32, meta: &Meta, into: &mut Vec<u8>) -> Result<(), Memory>
    ensures ok { OnOk result (into.new.items ≡ into.old.items ++ said.volume_line head meta.now) }
    ensures kept { take (length into.old.items) into.new.items ≡ into.old.items }
{
    push_named(head, meta, into)?;
    push_slots(meta, into)
}
