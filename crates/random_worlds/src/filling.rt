//! What inflates and decouples take of what is clear.

use crate::asks::Ask;
use crate::chains::{Lack, replace_chain};
use crate::marks::{clear_count, give_back, take_least};
use crate::states::{State, Volume, named};
use std::alloc::Global;
use std::test::Fail;

/// Puts the least clear cluster into an empty slot of a volume, whose chain is written anew. Nothing changes where too
/// little is clear.
pub fn insert(
    alloc: Global,
    next: &mut State,
    name: u8,
    slot: usize,
) -> Result<Option<Lack>, Fail> {
    if clear_count(&next.used_clusters) == 0 {
        return Ok(Some(Lack::Clusters));
    }
    let cluster = take_least(&mut next.used_clusters)?;
    next.set_slot(name, slot, Some(cluster))?;
    let lack = replace_chain(alloc, next, name)?;
    if lack.is_some() {
        give_back(&mut next.used_clusters, cluster);
        next.set_slot(name, slot, None)?;
    }
    Ok(lack)
}

/// Whether a slot is filled for what is asked: for an inflate where it is empty, for a decouple where moreover the
/// parent's own map holds it.
fn is_filled(state: &State, ask: &Ask, volume: &Volume, slot: usize) -> bool {
    let is_empty = matches!(volume.map.get(slot), Some(None));
    is_empty && (matches!(ask, Ask::Inflate { .. }) || state.is_held_above(volume, slot))
}

/// The slots that are filled for what is asked.
fn slots_to_fill(alloc: Global, state: &State, ask: &Ask, name: u8) -> Result<Vec<usize>, Fail> {
    let volume = named(&state.volumes, name)?;
    let mut slots = Vec::new(alloc);
    for slot in 0..volume.map.len() {
        if is_filled(state, ask, volume, slot) {
            slots.push(slot)?;
        }
    }
    Ok(slots)
}

/// An inflate or a decouple: slot by slot, and at the end the volume has no parent, or its parent's parent. Where too
/// little is clear, the slots that were filled stay filled.
pub fn fill(alloc: Global, next: &mut State, ask: &Ask, name: u8) -> Result<Option<Lack>, Fail> {
    let slots = slots_to_fill(alloc, next, ask, name)?;
    for slot in &slots {
        if let Some(lack) = insert(alloc, next, name, *slot)? {
            return Ok(Some(lack));
        }
        next.settle();
    }
    end_fill(alloc, next, ask, name)
}

/// The last step of an inflate or a decouple: nothing changes where too little is clear.
fn end_fill(alloc: Global, next: &mut State, ask: &Ask, name: u8) -> Result<Option<Lack>, Fail> {
    let mut ended = next.copy(alloc)?;
    ended.change(alloc, ask, 0)?;
    let lack = replace_chain(alloc, &mut ended, name)?;
    if lack.is_none() {
        *next = ended;
    }
    Ok(lack)
}
