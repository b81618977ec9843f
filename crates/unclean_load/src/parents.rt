//! Whether every blob's parent is there and read-only, and following parents never comes back.

ghost use Rattle.std.specs.Prelude.{◌≡◌, ◌<◌, ◌+◌, ℕ, Some, None, length, true, false, replicate};
ghost use Rattle.std.specs.Prelude.{IfSome, IfNone, IsSome, OnOk, IfOk, IfErr};
ghost use Rattle.std.specs.FinMap as map;
ghost use Rattle.blob_meta.specs.Repairs.{HasHeadsBelow};
ghost use Rattle.blob_meta.specs.SlotCounts.{HeadsFit};
ghost use Rattle.unclean_load.specs.Parents.{ComesBack, HasRightParent, HaveRightParents, IsParentFault, parent_at};
ghost use Rattle.unclean_load.specs.Walks.{AreWalked, ParentsEnd, HaveLongMarks, ShowsOwnParent, is_writable_at};

use crate::fault::LoadFault;
use blob_meta::{Meta, Metas, parent_of};
use out_of_memory::Memory;
use page_fields::u64_of;
use std::alloc::Global;

/// The parent of the blob at a place, where both blobs are there.
fn parent_there(metas: &Metas, place: u32) -> Option<u32>
    requires { HeadsFit metas.now }
    ensures some { IfSome result (λ p. parent_at (map.get metas.now) place ≡ Some p) }
    ensures there { IfSome result (λ p. IsSome (map.get metas.now p)) }
    ensures none { IfNone result ((p : ℕ) → parent_at (map.get metas.now) place ≡ Some p
        → map.get metas.now p ≡ None) }
{
    let Ok(parent) = u32::try_from(parent_of(metas.get(place)?)?) else {
        return None;
    };
    match metas.get(parent) {
        Some(_) => Some(parent),
        None => None,
    }
}

/// Whether the blob at a place can be written.
fn is_writable(metas: &Metas, place: u32) -> bool
    ensures { result ≡ is_writable_at (map.get metas.now) place }
{
    match metas.get(place) {
        Some(blob) => !blob.flags.is_read_only(),
        None => false,
    }
}

/// Tests that SNAP, where the blob at a head has it, names a blob that is there and read-only.
fn check_parent(metas: &Metas, head: u32, meta: &Meta) -> Result<(), LoadFault>
    requires fit { HeadsFit metas.now }
    requires long { HaveLongMarks (map.get metas.now) }
    requires there { map.get metas.now head ≡ Some meta.now }
    ensures right { OnOk result (HasRightParent (map.get metas.now) meta.now) }
    ensures fault { IfErr result (λ e. ShowsOwnParent (map.get metas.now) head meta.now e) }
{
    let Some(id) = meta.internal.value_of(b"SNAP") else {
        return Ok(());
    };
    let Some(parent) = parent_there(metas, head) else {
        return Err(LoadFault::NoParentBlob {
            blob: head,
            parent: u64_of(id.bytes()),
        });
    };
    if is_writable(metas, parent) {
        return Err(LoadFault::WritableParent { blob: head, parent });
    }
    Ok(())
}

/// Where walks along parents came: for each place, the head from which the first walk began that came there.
#[derive(Drop)]
struct Walks {
    begun: Vec<Option<u32>>,
}

impl Walks {
    /// No walk so far.
    fn new(alloc: Global, md_len: u32) -> Result<Walks, Memory>
        ensures { IfOk result (λ w. w.begun.items ≡ replicate md_len None) }
    {
        Ok(Walks {
            begun: vec![in alloc; None; md_len as usize]?,
        })
    }

    /// Follows parents from a head until it comes to a place where a walk was before, or goes no further. Whether it
    /// came to a place of its own a second time.
    fn comes_back(&mut self, metas: &Metas, head: u32) -> bool
        requires below { HasHeadsBelow (length self.old.begun.items) (map.get metas.now) }
        requires fit { HeadsFit metas.now }
        requires there { IsSome (map.get metas.now head) }
        requires walked { AreWalked (map.get metas.now) self.old.begun.items head }
        ensures count { length self.new.begun.items ≡ length self.old.begun.items }
        ensures back { result ≡ true → ComesBack (map.get metas.now) head }
        ensures ends { result ≡ false → ParentsEnd (map.get metas.now) head }
        ensures walked { result ≡ false → AreWalked (map.get metas.now) self.new.begun.items (head + 1) }
    {
        let mut at = head;
        while self.begun[at as usize].is_none() {
            self.begun[at as usize] = Some(head);
            match parent_there(metas, at) {
                Some(parent) => at = parent,
                None => return false,
            }
        }
        self.begun[at as usize] == Some(head)
    }
}

/// Tests each blob's parents, heads upwards: that the parent is there, that it is read-only, and that following parents
/// never comes back.
pub fn check_parents(alloc: Global, metas: &Metas, md_len: u32) -> Result<(), LoadFault>
    requires below { HasHeadsBelow md_len (map.get metas.now) }
    requires long { HaveLongMarks (map.get metas.now) }
    ensures right { OnOk result (HaveRightParents (map.get metas.now)) }
    ensures fault { IfErr result (λ e. IsParentFault (map.get metas.now) e) }
{
    let mut walks = Walks::new(alloc, md_len)?;
    let mut from = 0;
    while let Some(head) = metas.next_below(from, md_len) {
        if let Some(meta) = metas.get(head) {
            check_parent(metas, head, meta)?;
            if walks.comes_back(metas, head) {
                return Err(LoadFault::ParentLoop { blob: head });
            }
        }
        from = head + 1;
    }
    Ok(())
}
