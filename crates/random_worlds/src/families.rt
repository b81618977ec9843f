//! What snapshots, clones and deletes take of what is clear, and what they give back. Each gives what is too little;
//! the state is of no use then.

use crate::asks::Ask;
use crate::chains::{Lack, SNAP, SNAPRM, SNAPTMP, internal_of, runs_in, tail_length};
use crate::marks::{clear_count, give_back, give_back_all, take};
use crate::space::make;
use crate::states::{State, Volume, named};
use std::alloc::Global;
use std::test::Fail;

/// How many pages a snapshot takes beside its head: for chains that don't stay, the new volume's first one and its
/// second, which has the map; for the chain of the volume without its clusters; and for the new one's last.
fn snapshot_needs(volume: &Volume) -> [usize; 3] {
    let filled: &[usize] = if volume.parent.is_some() {
        &[SNAPTMP, SNAP]
    } else {
        &[SNAPTMP]
    };
    let runs = runs_in(&volume.map);
    let empty = volume.map.len().min(1);
    let passing = tail_length(&[], &[SNAPTMP], empty);
    [
        passing.saturating_add(tail_length(&[], filled, runs)),
        tail_length(&volume.synced, &[SNAP], empty),
        tail_length(&[], internal_of(volume), runs),
    ]
}

/// A snapshot: all its pages are taken at once, and those of the chains that don't stay are clear behind it.
pub fn snapshot(
    alloc: Global,
    next: &mut State,
    ask: &Ask,
    name: u8,
    new: u8,
) -> Result<Option<Lack>, Fail> {
    let [passing, emptied, made] = snapshot_needs(named(&next.volumes, name)?);
    let needs = passing.saturating_add(emptied).saturating_add(made);
    if clear_count(&next.used_pages) <= needs {
        return Ok(Some(Lack::Pages));
    }
    let taken = take(alloc, &mut next.used_pages, needs.saturating_add(1))?;
    let tails = snapshot_tails(&taken, passing, emptied)?;
    lay_snapshot(alloc, next, ask, (name, new), &tails)?;
    Ok(None)
}

/// The pages that a snapshot takes: its head, those of the chains that don't stay, and the new tails of the volume's
/// chain and of its own.
#[derive(Clone, Copy)]
struct SnapshotTails<'a> {
    head: u32,
    passing: &'a [u32],
    emptied: &'a [u32],
    made: &'a [u32],
}

/// The pages that are taken, the head first, as far as so many don't stay and so many are the volume's.
fn snapshot_tails(
    taken: &[u32],
    passing: usize,
    emptied: usize,
) -> Result<SnapshotTails<'_>, Fail> {
    let (head, rest) = taken.split_first().ok_or("no head")?;
    let (passing, staying) = rest.split_at_checked(passing).ok_or("no chain")?;
    let (emptied, made) = staying.split_at_checked(emptied).ok_or("no chain")?;
    Ok(SnapshotTails {
        head: *head,
        passing,
        emptied,
        made,
    })
}

/// Makes the snapshot of a volume, both of these names, on the pages that are taken.
fn lay_snapshot(
    alloc: Global,
    next: &mut State,
    ask: &Ask,
    (name, new): (u8, u8),
    tails: &SnapshotTails,
) -> Result<(), Fail> {
    give_back_all(&mut next.used_pages, tails.passing);
    next.clear_tail(name)?;
    next.change(alloc, ask, tails.head)?;
    next.set_tail(name, tails.emptied)?;
    next.set_tail(new, tails.made)
}

/// A clone.
pub fn clone(
    alloc: Global,
    next: &mut State,
    ask: &Ask,
    name: u8,
    new: u8,
) -> Result<Option<Lack>, Fail> {
    let slots = named(&next.volumes, name)?.map.len();
    let tail = tail_length(&[], &[SNAP], slots.min(1));
    if clear_count(&next.used_pages) <= tail {
        return Ok(Some(Lack::Pages));
    }
    make(alloc, next, ask, new, tail)?;
    Ok(None)
}

/// The map of a clone that takes over from its parent: its empty slots have the parent's clusters.
fn heir_map(
    alloc: Global,
    map: &[Option<u32>],
    parent: &[Option<u32>],
) -> Result<Vec<Option<u32>>, Fail> {
    let mut slots = Vec::new(alloc);
    for (at, slot) in map.iter().enumerate() {
        let below = match parent.get(at) {
            Some(below) => *below,
            None => None,
        };
        slots.push(if slot.is_some() { *slot } else { below })?;
    }
    Ok(slots)
}

/// Clears the clusters of a map that another map doesn't have.
fn give_back_clusters(clusters: &mut [bool], map: &[Option<u32>], heir: &[Option<u32>]) {
    for slot in map {
        if let Some(cluster) = slot {
            if !heir.contains(slot) {
                give_back(clusters, *cluster);
            }
        }
    }
}

/// Clears the whole chain of a volume, and its clusters, without those of an heir's map.
fn erase(next: &mut State, name: u8, heir: &[Option<u32>]) -> Result<(), Fail> {
    let gone = named(&next.volumes, name)?;
    give_back_all(&mut next.used_pages, &gone.chain);
    give_back_clusters(&mut next.used_clusters, &gone.map, heir);
    Ok(())
}

/// A delete: a volume without clones is erased, and else its one clone takes over from it first.
pub fn delete(alloc: Global, next: &mut State, ask: &Ask, name: u8) -> Result<Option<Lack>, Fail> {
    let gone = named(&next.volumes, name)?;
    let clone = match next.first_clone(gone) {
        Some(clone) => clone.name,
        None => {
            erase(next, name, &[])?;
            next.change(alloc, ask, 0)?;
            return Ok(None);
        }
    };
    hand_over(alloc, next, ask, name, clone)
}

/// How many pages a delete takes behind heads: for the last chain of the volume that goes, and for the new one of its
/// clone with this map.
fn delete_needs(gone: &Volume, heir: &Volume, map: &[Option<u32>]) -> (usize, usize) {
    let marked: &[usize] = if gone.parent.is_some() {
        &[SNAP, SNAPRM]
    } else {
        &[SNAPRM]
    };
    (
        tail_length(&gone.synced, marked, runs_in(&gone.map)),
        tail_length(&heir.synced, internal_of(gone), runs_in(map)),
    )
}

/// A delete of a volume with one clone. The pages of both new chains are taken at once.
fn hand_over(
    alloc: Global,
    next: &mut State,
    ask: &Ask,
    name: u8,
    clone: u8,
) -> Result<Option<Lack>, Fail> {
    let gone = named(&next.volumes, name)?;
    let heir = named(&next.volumes, clone)?;
    let map = heir_map(alloc, &heir.map, &gone.map)?;
    let (going, staying) = delete_needs(gone, heir, &map);
    let needs = going.saturating_add(staying);
    if clear_count(&next.used_pages) < needs {
        return Ok(Some(Lack::Pages));
    }
    erase_for(alloc, next, (name, clone), &map, (going, needs))?;
    end_hand_over(alloc, next, ask, clone, map)
}

/// The last step of a delete of a volume with one clone, which has this map from then on.
fn end_hand_over(
    alloc: Global,
    next: &mut State,
    ask: &Ask,
    clone: u8,
    map: Vec<Option<u32>>,
) -> Result<Option<Lack>, Fail> {
    next.change(alloc, ask, 0)?;
    next.find_mut(clone)?.map = map;
    Ok(None)
}

/// Erases a volume for its clone, an heir with this map: takes so many pages, of which the first ones, so many, don't
/// stay, and the others are the new tail of the clone's chain.
fn erase_for(
    alloc: Global,
    next: &mut State,
    (name, clone): (u8, u8),
    map: &[Option<u32>],
    (going, needs): (usize, usize),
) -> Result<(), Fail> {
    let taken = take(alloc, &mut next.used_pages, needs)?;
    let (marked, tail) = taken.split_at_checked(going).ok_or("no chain")?;
    give_back_all(&mut next.used_pages, marked);
    erase(next, name, map)?;
    next.replace_tail(clone, tail)
}
