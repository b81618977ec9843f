//! What commands take of what is clear, and what they give back.

use crate::asks::Ask;
use crate::chains::{Lack, replace_chain, runs_in, tail_length};
use crate::families::{clone, delete, snapshot};
use crate::filling::{fill, insert};
use crate::marks::{clear_count, give_back, take, take_least};
use crate::states::{CLUSTER_PAGES, State, named};
use std::alloc::Global;
use std::test::Fail;

/// The slots that are added to a volume: those of a thick one hold the least clear clusters. `false` where too few are
/// clear; the slots are empty then.
fn added_slots(
    alloc: Global,
    clusters: &mut [bool],
    thick: bool,
    count: u64,
) -> Result<(Vec<Option<u32>>, bool), Fail> {
    let has_room = !thick || clear_count(clusters) as u64 >= count;
    let mut slots = Vec::new(alloc);
    for _ in 0..count {
        slots.push(if thick && has_room {
            Some(take_least(clusters)?)
        } else {
            None
        })?;
    }
    Ok((slots, has_room))
}

/// Makes a volume of this name: its chain is the least clear metadata pages, so many behind its head.
pub fn make(alloc: Global, next: &mut State, ask: &Ask, new: u8, tail: usize) -> Result<(), Fail> {
    let head = take_least(&mut next.used_pages)?;
    let places = take(alloc, &mut next.used_pages, tail)?;
    next.change(alloc, ask, head)?;
    next.set_tail(new, &places)
}

fn create(
    alloc: Global,
    next: &mut State,
    ask: &Ask,
    slots: u64,
    thick: bool,
) -> Result<Option<Lack>, Fail> {
    let (map, has_room) = added_slots(alloc, &mut next.used_clusters, thick, slots)?;
    let tail = tail_length(&[], &[], runs_in(&map));
    if clear_count(&next.used_pages) <= tail {
        return Ok(Some(Lack::Pages));
    }
    if !has_room {
        return Ok(Some(Lack::Clusters));
    }
    let name = ask.name().ok_or("no name")?;
    make(alloc, next, ask, name, tail)?;
    next.find_mut(name)?.map = map;
    Ok(None)
}

/// Clears the clusters of a map behind so many slots.
fn give_back_behind(clusters: &mut [bool], map: &[Option<u32>], slots: usize) {
    for slot in map.iter().skip(slots) {
        if let Some(cluster) = slot {
            give_back(clusters, *cluster);
        }
    }
}

/// Cuts a volume's map to so many slots: the clusters of the others are clear.
fn cut(next: &mut State, name: u8, slots: usize) -> Result<(), Fail> {
    let volume = named(&next.volumes, name)?;
    give_back_behind(&mut next.used_clusters, &volume.map, slots);
    next.find_mut(name)?.map.truncate(slots);
    Ok(())
}

/// Gives a volume's map so many slots: a thick volume's new ones hold the least clear clusters. `false` where too few
/// are clear.
fn change_map(alloc: Global, next: &mut State, name: u8, slots: u64) -> Result<bool, Fail> {
    let volume = named(&next.volumes, name)?;
    let (thick, had) = (volume.thick, volume.map.len() as u64);
    if slots <= had {
        cut(next, name, slots as usize)?;
        return Ok(true);
    }
    let more = slots.saturating_sub(had);
    let (added, has_room) = added_slots(alloc, &mut next.used_clusters, thick, more)?;
    next.find_mut(name)?.map.extend_from_slice(&added)?;
    Ok(has_room)
}

fn resize(
    alloc: Global,
    next: &mut State,
    ask: &Ask,
    name: u8,
    slots: u64,
) -> Result<Option<Lack>, Fail> {
    let has_room = change_map(alloc, next, name, slots)?;
    next.change(alloc, ask, 0)?;
    match replace_chain(alloc, next, name)? {
        None if !has_room => Ok(Some(Lack::Clusters)),
        lack => Ok(lack),
    }
}

/// A write: where its slot is empty, the least clear cluster comes there first.
fn write(
    alloc: Global,
    next: &mut State,
    ask: &Ask,
    name: u8,
    page: usize,
) -> Result<Option<Lack>, Fail> {
    let slot = page / CLUSTER_PAGES;
    let is_empty = named(&next.volumes, name)?.map.get(slot) == Some(&None);
    if is_empty {
        if let Some(lack) = insert(alloc, next, name, slot)? {
            return Ok(Some(lack));
        }
    }
    next.change(alloc, ask, 0)?;
    Ok(None)
}

/// Does what is asked for, which plain volumes don't refuse, or gives what is too little: the state is of no use then,
/// but behind an inflate or a decouple, where the slots that were filled stay filled.
pub fn apply(alloc: Global, next: &mut State, ask: &Ask) -> Result<Option<Lack>, Fail> {
    match *ask {
        Ask::Create { slots, thick, .. } => create(alloc, next, ask, slots, thick),
        Ask::Resize { name, slots } => resize(alloc, next, ask, name, slots),
        Ask::Write { name, page, .. } => write(alloc, next, ask, name, page as usize),
        Ask::Put { name, .. }
        | Ask::Sync { name }
        | Ask::ReadOnly { name }
        | Ask::Rename { new: name, .. } => {
            next.change(alloc, ask, 0)?;
            replace_chain(alloc, next, name)
        }
        Ask::Snapshot { name, new } => snapshot(alloc, next, ask, name, new),
        Ask::Clone { name, new } => clone(alloc, next, ask, name, new),
        Ask::Delete { name } => delete(alloc, next, ask, name),
        Ask::Inflate { name } | Ask::Decouple { name } => fill(alloc, next, ask, name),
        _ => {
            next.change(alloc, ask, 0)?;
            Ok(None)
        }
    }
}
