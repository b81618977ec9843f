//! What a crash may leave of a store: one of some states.

use page_disk::MemDisk;
use random_worlds::{State, shown_of};
use std::alloc::Global;
use std::test::Fail;
use test_runs::{Ran, Status, run};

/// Loads a store, and expects that it has one of some states. Tells whether a repair is left.
fn expect_state(alloc: Global, states: &[State], fixed: u32, disk: MemDisk) -> Result<bool, Fail> {
    let mut shown = shown_of(alloc, disk)?;
    let mut is_known = false;
    for state in states {
        shown.expect_claimed(state, fixed)?;
        is_known = is_known || shown.is(alloc, state, false)?;
    }
    if !is_known {
        return Err(Fail::new("another state is left"));
    }
    Ok(shown.is_marked)
}

/// The device behind a run without commands, which makes the repairs that are left.
fn repaired(alloc: Global, disk: MemDisk) -> Result<MemDisk, Fail> {
    let Ran {
        status,
        out: _,
        disk,
    } = run(alloc, b"", disk)?;
    if !matches!(status, Status::Good) {
        return Err(Fail::new(format_args!("the repairs ended with {status:?}")));
    }
    Ok(disk.crash(0)?)
}

/// Expects that what each crash leaves of a device is one of some states, and is so once it is repaired.
pub fn expect_left(
    alloc: Global,
    states: &[State],
    fixed: u32,
    disk: &MemDisk,
) -> Result<(), Fail> {
    for pick in 0..4 {
        if expect_state(alloc, states, fixed, disk.crash(pick)?)? {
            let whole = repaired(alloc, disk.crash(pick)?)?;
            if expect_state(alloc, states, fixed, whole)? {
                return Err(Fail::new("a repair is left"));
            }
        }
    }
    Ok(())
}

/// The number of a script that is stopped: its store has four metadata pages, or three.
pub fn number_at(place: u64) -> u64 {
    place
        .wrapping_mul(8)
        .wrapping_add(2)
        .wrapping_add(place % 2)
}

/// The number of a script in which families grow: its store has 16 metadata pages, or 32.
pub fn number_in_family(place: u64) -> u64 {
    place
        .wrapping_mul(4)
        .wrapping_add(place % 2)
        .wrapping_add(1000)
}
