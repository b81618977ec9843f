//! Random scripts that are run whole.

use crate::endings::Endings;
use crate::families::family_at;
use page_disk::MemDisk;
use random_plays::{Play, new_stores, number_in_family, play, play_of, size_of, store_for};
use random_worlds::expect_volumes;
use std::alloc::Global;
use std::test::Fail;

/// The lines of a play, one behind the other.
fn printed_of(alloc: Global, lines: &[Vec<u8>]) -> Result<Vec<u8>, Fail> {
    let mut printed = Vec::new(alloc);
    for line in lines {
        printed.extend_from_slice(line)?;
    }
    Ok(printed)
}

/// Expects that what a run left is loaded as its last state, with each page, and that nothing else is in use.
fn expect_last(alloc: Global, done: &Play, fixed: u32, disk: MemDisk) -> Result<(), Fail> {
    let last = done.states.last().ok_or("no state")?;
    let shown = expect_volumes(alloc, last, fixed, disk)?;
    shown.expect_chains(last)?;
    shown.expect_in_use(last)
}

/// Runs a script for the store of a number on a new one, and expects each answer and what is left. Notes the endings
/// that its lines have.
fn expect_whole(
    alloc: Global,
    number: u64,
    done: &Play,
    stores: &[MemDisk],
    endings: &mut Endings,
) -> Result<(), Fail> {
    let (_, fixed) = size_of(number);
    let printed = printed_of(alloc, &done.lines)?;
    let disk = play(alloc, &done.script, &printed, store_for(number, stores)?)?;
    endings.note(&printed);
    expect_last(alloc, done, fixed, disk.crash(1)?)
}

/// Runs the scripts of these numbers, and expects that they meet each ending.
fn expect_all(alloc: Global, numbers: (u64, u64)) -> Result<(), Fail> {
    let (from, end) = numbers;
    let stores = new_stores(alloc)?;
    let mut endings = Endings::new();
    for number in from..end {
        let done = play_of(alloc, number, (number % 15).wrapping_add(6), None)?;
        expect_whole(alloc, number, &done, &stores, &mut endings)?;
    }
    endings.expect_all(false)
}

#[test]
fn each_answer_is_that_of_plain_volumes(rt: HostRuntime) -> Result<(), Fail> {
    expect_all(rt.alloc(), (0, 100))
}

#[test]
fn each_answer_of_other_scripts_is_that_of_plain_volumes(rt: HostRuntime) -> Result<(), Fail> {
    expect_all(rt.alloc(), (100, 200))
}

/// Runs the scripts of these places in which families grow.
fn expect_families(alloc: Global, places: (u64, u64)) -> Result<(), Fail> {
    let (from, end) = places;
    let stores = new_stores(alloc)?;
    let mut endings = Endings::new();
    for place in from..end {
        let (number, done) = family_at(alloc, place)?;
        expect_whole(alloc, number, &done, &stores, &mut endings)?;
    }
    Ok(())
}

#[test]
fn each_answer_in_small_families_is_that_of_plain_volumes(rt: HostRuntime) -> Result<(), Fail> {
    expect_families(rt.alloc(), (0, 250))
}

#[test]
fn each_answer_in_other_small_families_is_that_of_plain_volumes(
    rt: HostRuntime,
) -> Result<(), Fail> {
    expect_families(rt.alloc(), (250, 500))
}

/// On the larger stores long scripts that make deep and wide families.
#[test]
fn each_answer_in_families_is_that_of_plain_volumes(rt: HostRuntime) -> Result<(), Fail> {
    let alloc = rt.alloc();
    let stores = new_stores(alloc)?;
    let mut endings = Endings::new();
    for place in 0..40u64 {
        let number = number_in_family(place);
        let done = play_of(alloc, number, 50, Some(12))?;
        expect_whole(alloc, number, &done, &stores, &mut endings)?;
    }
    endings.expect_all(true)
}
