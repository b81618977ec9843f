//! The clones of a blob.

ghost use Rattle.std.specs.Prelude.{◌≡◌, ◌<◌, ◌^◌, ◌++◌, ◌∷◌, [], length, if◌then◌else◌, IfOk, OnOk, IsSome};
ghost use Rattle.std.specs.Prelude.{option_copied};
ghost use Rattle.std.specs.FinMap as map;
ghost use Rattle.std.specs.List.{All};
ghost use Rattle.inflate_delete.specs.Clones.{AreClones, is_clone, only_blob as only_said};

use blob_meta::{Meta, Metas, parent_of};
use out_of_memory::Memory;
use std::alloc::Global;
use volume_model::PlaceList;

/// Whether the parent of the blob at one head is the one at another.
fn is_clone_of(metas: &Metas, clone: u32, head: u32) -> bool
    ensures { result ≡ is_clone (map.get metas.now) head clone }
{
    match metas.get(clone) {
        Some(meta) => parent_of(meta) == Some(u64::from(head)),
        None => false,
    }
}

/// Appends a head, if it is that of a clone. `Memory` also where a reply couldn't count that many.
fn add_clone(clones: &mut PlaceList, metas: &Metas, clone: u32, head: u32) -> Result<(), Memory>
    requires { length clones.old < 2 ^ 32 }
    ensures added { OnOk result (clones.new ≡ clones.old
        ++ (if is_clone (map.get metas.now) head clone then clone ∷ [] else [])) }
    ensures few { OnOk result (length clones.new < 2 ^ 32) }
{
    if !is_clone_of(metas, clone, head) {
        return Ok(());
    }
    if clones.len() >= u32::MAX as usize {
        return Err(Memory);
    }
    clones.push(clone)
}

/// The heads of the blobs whose parent is the one at this head, in order, fewer than 2^32.
pub fn clones_of(alloc: Global, metas: &Metas, head: u32) -> Result<PlaceList, Memory>
    ensures clones { IfOk result (AreClones metas.now head) }
    ensures there { IfOk result (All (λ k. IsSome (map.get metas.now k))) }
    ensures few { IfOk result (λ clones. length clones < 2 ^ 32) }
{
    let mut clones = PlaceList::new(alloc);
    let mut from = 0;
    while let Some(next) = metas.next_from(from) {
        add_clone(&mut clones, metas, next, head)?;
        if next == u32::MAX {
            return Ok(clones);
        }
        from = next + 1;
    }
    Ok(clones)
}

/// The metadata of the one clone, if there is one alone.
pub fn only_blob<'a>(metas: &'a Metas, heads: &[u32]) -> Option<&'a Meta>
    ensures { option_copied result ≡ only_said metas.now heads.now }
{
    match heads {
        [head] => metas.get(*head),
        _ => None,
    }
}
