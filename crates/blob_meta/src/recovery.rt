//! What recovery makes of metadata in which snapshots may be half made or half removed.

ghost use Rattle.std.specs.Prelude.{◌≡◌, ◌++◌, ◌∷◌, ◌==◌, ◌&&◌, [], ℕ, None, IfOk, OnOk, is_some, if◌then◌else◌};
ghost use Rattle.std.specs.Prelude.{map as map_list};
ghost use Rattle.std.specs.Option.{option_map};
ghost use Rattle.std.specs.List.{list_any};
ghost use Rattle.std.specs.FinMap as map;
ghost use Rattle.blob_meta.specs.Repairs.{after, with_replacement, has_kept_mark, is_removed, removed as removed_of};
ghost use Rattle.blob_meta.specs.Repairs.{AreHeadsWhere, AreRepairs};
ghost use Rattle.blob_meta.specs.Resolving.{resolved, without_marks as lifted};
ghost use Rattle.blob_meta.specs.SlotCounts.{HeadsFit};

use crate::head_map::Metas;
use crate::job::{Replacement, ReplacementList};
use crate::marks::{keeps, without_marks};
use crate::meta::Meta;
use out_of_memory::Memory;
use std::alloc::Global;
use volume_model::{PlaceList, TryCopy};

/// What recovery makes of metadata.
#[derive(Drop)]
pub struct Resolved {
    /// The metadata once it is repaired.
    pub metas: Metas,
    /// The blobs that recovery removes, as they were.
    pub removed: Metas,
    /// First the kept marks, then the erasures, of each the heads ascending.
    pub repairs: ReplacementList,
}

/// The heads of the marked blobs, ascending.
#[derive(Drop)]
struct MarkedHeads {
    kept: PlaceList,
    removed: PlaceList,
}

impl MarkedHeads {
    /// Adds the head where its blob is marked.
    fn push_marked(&mut self, metas: &Metas, head: u32) -> Result<(), Memory>
        ensures kept { OnOk result (HeadsFit metas.now → self.new.kept
            ≡ self.old.kept ++ (if has_kept_mark (map.get metas.now) head then head ∷ [] else [])) }
        ensures removed { OnOk result (HeadsFit metas.now → self.new.removed
            ≡ self.old.removed ++ (if is_removed (map.get metas.now) head then head ∷ [] else [])) }
    {
        match keeps(metas, head) {
            Some(true) => self.kept.push(head),
            Some(false) => self.removed.push(head),
            None => Ok(()),
        }
    }
}

fn marked_heads(alloc: Global, metas: &Metas) -> Result<MarkedHeads, Memory>
    ensures kept { IfOk result (λ marked. AreHeadsWhere metas.now has_kept_mark marked.kept) }
    ensures removed { IfOk result (λ marked. AreHeadsWhere metas.now is_removed marked.removed) }
{
    let mut marked = MarkedHeads {
        kept: PlaceList::new(alloc),
        removed: PlaceList::new(alloc),
    };
    let mut from = 0;
    while let Some(head) = metas.next_from(from) {
        marked.push_marked(metas, head)?;
        if head == u32::MAX {
            return Ok(marked);
        }
        from = head + 1;
    }
    Ok(marked)
}

/// What recovery makes of the blob at the head of a kept mark.
fn lifted_at(alloc: Global, metas: &Metas, head: u32) -> Result<Option<Meta>, Memory>
    ensures { IfOk result (λ new. new ≡ option_map lifted (map.get metas.now head)) }
{
    match metas.get(head) {
        Some(meta) => Ok(Some(without_marks(alloc, meta)?)),
        None => Ok(None),
    }
}

/// Adds the repairs of these kept marks.
fn push_liftings(
    alloc: Global,
    list: &mut ReplacementList,
    metas: &Metas,
    kept: &[u32],
) -> Result<(), Memory>
    ensures { OnOk result (list.new ≡ list.old ++ map_list
        (λ head. record { head = head; new = option_map lifted (map.get metas.now head) }) kept.now) }
{
    for head in kept {
        list.push(Replacement {
            head: *head,
            new: lifted_at(alloc, metas, *head)?,
        })?;
    }
    Ok(())
}

/// Adds the erasures of these removed blobs.
fn push_erasures(list: &mut ReplacementList, removed: &[u32]) -> Result<(), Memory>
    ensures { OnOk result (list.new ≡ list.old ++ map_list (λ head. record { head = head; new = None }) removed.now) }
{
    for head in removed {
        list.push(Replacement {
            head: *head,
            new: None,
        })?;
    }
    Ok(())
}

/// Makes one replacement.
fn replace(alloc: Global, metas: &mut Metas, replacement: &Replacement) -> Result<(), Memory>
    ensures { OnOk result ((h : ℕ) → map.get metas.new h ≡ with_replacement (map.get metas.old) replacement.now h) }
{
    match &replacement.new {
        Some(new) => metas.insert(replacement.head, new.try_copy(alloc)?)?,
        None => {
            let _erased = metas.remove(replacement.head);
        }
    }
    Ok(())
}

/// Makes these replacements.
fn replace_all(alloc: Global, metas: &mut Metas, list: &[Replacement]) -> Result<(), Memory>
    ensures { OnOk result ((h : ℕ) → map.get metas.new h ≡ after (map.get metas.old) list.now h) }
{
    for replacement in list {
        replace(alloc, metas, replacement)?;
    }
    Ok(())
}

/// Moves what a map has at a head, if it has it, into another map.
fn move_out(metas: &mut Metas, taken: &mut Metas, head: u32) -> Result<(), Memory>
    ensures left { OnOk result ((h : ℕ) → map.get metas.new h ≡ (if h == head then None else map.get metas.old h)) }
    ensures taken { OnOk result ((h : ℕ) → map.get taken.new h
        ≡ (if (h == head) && is_some (map.get metas.old h) then map.get metas.old h else map.get taken.old h)) }
{
    if let Some(meta) = metas.remove(head) {
        taken.insert(head, meta)?;
    }
    Ok(())
}

/// Takes these heads out, and gives what they had.
fn take_out(alloc: Global, metas: &mut Metas, heads: &[u32]) -> Result<Metas, Memory>
    ensures left { OnOk result ((h : ℕ) → map.get metas.new h
        ≡ (if list_any (λ x. h == x) heads.now then None else map.get metas.old h)) }
    ensures taken { IfOk result (λ taken. (h : ℕ) → map.get taken h
        ≡ (if list_any (λ x. h == x) heads.now then map.get metas.old h else None)) }
{
    let mut taken = Metas::new(alloc);
    for head in heads {
        move_out(metas, &mut taken, *head)?;
    }
    Ok(taken)
}

/// What recovery makes of metadata: a marked blob loses its marks and is read-only where the blob that its mark names
/// is there and has it for its parent, and is removed elsewhere; all others are as they are. Every choice is by the
/// metadata as given. `Memory` hands nothing back.
pub fn resolve(alloc: Global, metas: Metas) -> Result<Resolved, Memory>
    ensures metas { IfOk result (λ r. HeadsFit metas → (h : ℕ) → map.get r.metas h ≡ resolved (map.get metas) h) }
    ensures removed { IfOk result (λ r. HeadsFit metas
        → (h : ℕ) → map.get r.removed h ≡ removed_of (map.get metas) h) }
    ensures repairs { IfOk result (λ r. AreRepairs metas r.repairs) }
{
    let marked = marked_heads(alloc, &metas)?;
    let mut repairs = ReplacementList::new(alloc);
    push_liftings(alloc, &mut repairs, &metas, marked.kept.as_slice())?;
    push_erasures(&mut repairs, marked.removed.as_slice())?;
    let mut metas = metas;
    let removed = take_out(alloc, &mut metas, marked.removed.as_slice())?;
    replace_all(alloc, &mut metas, repairs.as_slice())?;
    Ok(Resolved {
        metas,
        removed,
        repairs,
    })
}
