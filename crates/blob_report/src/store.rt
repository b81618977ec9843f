//! The printed text of a loaded store.

ghost use Rattle.std.specs.Prelude.{◌≡◌, ◌==◌, ◌++◌, length, position, take, OnOk, OnErr};
ghost use Rattle.std.specs.List.{before_first};
ghost use Rattle.super_block.specs.Faults.{IsFaultless};
ghost use Rattle.blob_report.specs.StoreText as said;

use crate::blob::{push_super, push_volume};
use crate::pieces::Piece::{Number, Shown, Words};
use crate::pieces::push_pieces;
use bit_array::Bits;
use blob_meta::{Metas, is_super};
use out_of_memory::Memory;
use running_store::Loaded;
use super_block::{Masks, Super};
use volume_model::Df;

/// The place of the first NUL.
fn first_nul(bytes: &[u8]) -> Option<usize>
    ensures { result ≡ position (λ b. b == 0) bytes.now }
{
    bytes.iter().position(|b| *b == 0)
}

/// The bytes before the first NUL, or all where there is none.
fn until_nul(bytes: &[u8]) -> &[u8]
    ensures { result.now ≡ before_first (λ b. b == 0) bytes.now }
{
    match first_nul(bytes) {
        Some(end) => &bytes[..end],
        None => bytes,
    }
}

/// The kind of a store, up to its first NUL.
pub fn store_kind(sup: &Super) -> &[u8]
    ensures { result.now ≡ before_first (λ b. b == 0) sup.now.bstype }
{
    until_nul(&sup.bstype)
}

/// How many places of a mask are clear.
fn clear_count(mask: &Bits) -> u32
    ensures { result ≡ said.places_free mask.now }
{
    mask.len() - mask.count()
}

/// How many clusters and metadata pages there are, and how many are clear.
pub fn space_of(sup: &Super, masks: &Masks) -> Df
    requires { IsFaultless sup.now }
    ensures { result ≡ said.space_of sup.now masks.now }
{
    Df {
        free_clusters: clear_count(&masks.clusters),
        clusters: sup.clusters(),
        free_pages: clear_count(&masks.pages),
        pages: sup.md_len,
    }
}

/// 1 for a store that is clean, 0 for any other.
fn clean_digit(sup: &Super) -> u32
    ensures { result ≡ said.clean_digit sup.now }
{
    if sup.clean == 1 { 1 } else { 0 }
}

/// Appends the line of a store of this kind. After `Memory` nothing is appended.
fn push_line(
    kind: &[u8],
    cluster_size: u32,
    space: Df,
    clean: u32,
    into: &mut Vec<u8>,
) -> Result<(), Memory>
    ensures ok { OnOk result (into.new.items ≡ into.old.items ++ said.line_of kind.now cluster_size space clean) }
    ensures memory { OnErr result (into.new.items ≡ into.old.items) }
{
    let pieces = [
        Words(b"store type "),
        Shown(kind),
        Words(b" cluster "),
        Number(cluster_size),
        Words(b" clusters "),
        Number(space.clusters),
        Words(b" free "),
        Number(space.free_clusters),
        Words(b" pages "),
        Number(space.pages),
        Words(b" free "),
        Number(space.free_pages),
        Words(b" clean "),
        Number(clean),
        Words(b"\n"),
    ];
    push_pieces(&pieces, into)
}

/// Appends the line of a store, whose kind counts up to its first NUL. After `Memory` nothing is appended.
fn push_store(sup: &Super, masks: &Masks, into: &mut Vec<u8>) -> Result<(), Memory>
    requires { IsFaultless sup.now }
    ensures ok { OnOk result (into.new.items ≡ into.old.items ++ said.store_line sup.now masks.now) }
    ensures memory { OnErr result (into.new.items ≡ into.old.items) }
{
    push_line(
        store_kind(sup),
        sup.cluster_size,
        space_of(sup, masks),
        clean_digit(sup),
        into,
    )
}

/// The head of the super blob: `None` where the super block names none of the metadata region.
pub fn super_head(sup: &Super) -> Option<u32>
    ensures { result ≡ said.super_head sup.now }
{
    match sup.super_blob.checked_sub(1 << 32) {
        Some(head) if head < u64::from(sup.md_len) => Some(head as u32),
        _ => None,
    }
}

/// Appends the line of the super blob, if there is one. After `Memory` what was there still stands first.
fn push_super_line(sup: &Super, metas: &Metas, into: &mut Vec<u8>) -> Result<(), Memory>
    ensures ok { OnOk result (into.new.items ≡ into.old.items ++ said.super_text sup.now metas.now) }
    ensures kept { take (length into.old.items) into.new.items ≡ into.old.items }
{
    let Some(head) = super_head(sup) else {
        return Ok(());
    };
    match metas.get(head) {
        Some(meta) => push_super(head, meta, into),
        None => Ok(()),
    }
}

/// Appends the line of the volume at a head, if one is there. After `Memory` what was there still stands first.
fn push_volume_line(sup: &Super, metas: &Metas, head: u32, into: &mut Vec<u8>) -> Result<(), Memory>
    ensures ok { OnOk result (into.new.items ≡ into.old.items ++ said.volume_text sup.now metas.now head) }
    ensures kept { take (length into.old.items) into.new.items ≡ into.old.items }
{
    if is_super(sup, head) {
        return Ok(());
    }
    match metas.get(head) {
        Some(meta) => push_volume(head, meta, into),
        None => Ok(()),
    }
}

/// Appends the text of a store. After `Memory` what was there still stands first.
fn push_text(sup: &Super, metas: &Metas, masks: &Masks, into: &mut Vec<u8>) -> Result<(), Memory>
    requires { IsFaultless sup.now }
    ensures ok { OnOk result (into.new.items ≡ into.old.items ++ said.text_of_store sup.now metas.now masks.now) }
    ensures kept { take (length into.old.items) into.new.items ≡ into.old.items }
{
    push_store(sup, masks, into)?;
    push_super_line(sup, metas, into)?;
    let end = sup.md_len;
    let mut from = 0;
    while let Some(head) = metas.next_below(from, end) {
        push_volume_line(sup, metas, head, into)?;
        from = head + 1;
    }
    Ok(())
}

/// Appends the text of a loaded store: a line for the store, one for its super blob, if it has one, and one for each
/// volume, by ascending head. After `Memory` nothing is appended.
pub fn render_store<D>(loaded: &Loaded<D>, into: &mut Vec<u8>) -> Result<(), Memory>
    requires { IsFaultless loaded.now.sup }
    ensures ok { OnOk result (into.new.items ≡ into.old.items ++ said.store_text loaded.now) }
    ensures memory { OnErr result (into.new.items ≡ into.old.items) }
{
    let length = into.len();
    let pushed = push_text(&loaded.sup, &loaded.metas, &loaded.masks, into);
    if pushed.is_err() {
        into.truncate(length);
    }
    pushed
}
