//! Which places of a store are in use: a mark is set where one is.

use bit_array::Bits;
use std::alloc::Global;
use std::test::Fail;

/// As many marks as there are places, of which the first ones are set.
pub fn first_set(alloc: Global, places: u32, set: u32) -> Result<Vec<bool>, Fail> {
    let mut marks = Vec::new(alloc);
    for place in 0..places {
        marks.push(place < set)?;
    }
    Ok(marks)
}

/// How many of the marks are not set.
pub fn clear_count(marks: &[bool]) -> usize {
    let mut count = 0usize;
    for is_set in marks {
        if !*is_set {
            count = count.wrapping_add(1);
        }
    }
    count
}

/// Sets the first mark that is not set, and gives its place.
pub fn take_least(marks: &mut [bool]) -> Result<u32, Fail> {
    let mut at = 0u32;
    for mark in marks.iter_mut() {
        if !*mark {
            *mark = true;
            return Ok(at);
        }
        at = at.wrapping_add(1);
    }
    Err(Fail::new("no mark is clear"))
}

/// Sets the first marks that are not set, so many, and gives their places.
pub fn take(alloc: Global, marks: &mut [bool], count: usize) -> Result<Vec<u32>, Fail> {
    let mut places = Vec::new(alloc);
    for _ in 0..count {
        places.push(take_least(marks)?)?;
    }
    Ok(places)
}

/// Clears the mark of a place.
pub fn give_back(marks: &mut [bool], place: u32) {
    if let Some(mark) = marks.get_mut(place as usize) {
        *mark = false;
    }
}

/// Clears the marks of some places.
pub fn give_back_all(marks: &mut [bool], places: &[u32]) {
    for place in places {
        give_back(marks, *place);
    }
}

/// The first place at which a mask says otherwise than the marks, and what it says.
fn first_other(mask: &Bits, marks: &[bool]) -> Option<(u32, bool)> {
    for (place, is_set) in (0..mask.len()).zip(marks.iter()) {
        if (place < mask.len() && mask.get(place)) != *is_set {
            return Some((place, !*is_set));
        }
    }
    None
}

/// Expects that the marks are those of a mask.
pub fn expect_marks(mask: &Bits, marks: &[bool]) -> Result<(), Fail> {
    match first_other(mask, marks) {
        Some((place, found)) => { Err(Fail::new(format_args!("place {place} is in use: {found}"))) }
        None => Ok(()),
    }
}

/// How many slots of a map hold a cluster.
pub fn filled_count(map: &[Option<u32>]) -> usize {
    let mut count = 0usize;
    for slot in map {
        if slot.is_some() {
            count = count.wrapping_add(1);
        }
    }
    count
}
