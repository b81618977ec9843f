//! Random scripts in which families of volumes grow, deep and wide.

use random_plays::{Play, number_in_family, play_of};
use std::alloc::Global;
use std::test::Fail;

/// The script with this place, and the number of its store: from 4 to 10 lines, on 4 or on 12 names.
pub fn family_at(alloc: Global, place: u64) -> Result<(u64, Play), Fail> {
    let number = number_in_family(place);
    let names = if place % 3 == 0 { 12 } else { 4 };
    let play = play_of(alloc, number, (place % 7).wrapping_add(4), Some(names))?;
    Ok((number, play))
}
