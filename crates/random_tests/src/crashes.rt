//! Random scripts, and power that fails at each call of the device.

use crate::families::family_at;
use page_disk::{FaultDisk, MemDisk, PageDisk};
use random_plays::{Play, Ran, Status, expect_left, new_store, number_at, play_of, run, size_of};
use random_worlds::State;
use std::alloc::Global;
use std::test::Fail;

/// How many commands of a play are answered by what was printed, before the one that stopped the store.
fn answered(lines: &[Vec<u8>], printed: &[u8]) -> usize {
    let mut rest = printed;
    let mut count = 0usize;
    for line in lines {
        match rest.strip_prefix(line.as_slice()) {
            Some(after) => rest = after,
            None => return count,
        }
        count = count.wrapping_add(1);
    }
    count
}

/// Whether the first line of a text, if it has one, tells a fault, or that the store has stopped behind so many
/// commands: what fails behind the commit of a job has no line.
fn begins_with_fault(alloc: Global, printed: &[u8], count: usize) -> Result<bool, Fail> {
    let stopped = format!(in alloc; " stopped {count}")?;
    Ok(match printed.split(|byte| *byte == b'\n').next() {
        Some(line) => {
            line.is_empty() || line.ends_with(b" fault") || line.ends_with(stopped.as_bytes())
        }
        None => true,
    })
}

/// What is left of a run that stops: how many commands were answered by then, whether the run ended well, and the
/// device.
#[derive(Drop)]
struct Left {
    count: usize,
    is_good: bool,
    disk: MemDisk,
}

/// What is left after so many calls of the device; behind the commands that were answered only one may have met the
/// fault.
fn stopped(alloc: Global, done: &Play, calls: u64, disk: MemDisk) -> Result<Left, Fail> {
    let Ran { status, out, disk } = run(alloc, &done.script, FaultDisk::stopping(disk, calls))?;
    let count = answered(&done.lines, out.bytes());
    let mut length = 0usize;
    for line in done.lines.iter().take(count) {
        length = length.saturating_add(line.len());
    }
    match out.bytes().get(length..) {
        Some(rest) if begins_with_fault(alloc, rest, count)? => Ok(Left {
            count,
            is_good: matches!(status, Status::Good),
            disk: disk.into_inner(),
        }),
        _ => Err(Fail::new(format_args!("another answer than {count} is wanted in {calls} calls"))),
    }
}

/// The states with so many commands of a play done, and with one more.
fn states_at(done: &Play, count: usize) -> Result<&[State], Fail> {
    let rest = done.states.get(count..).ok_or("no state")?;
    Ok(rest.get(..2).unwrap_or(rest))
}

/// Expects that whenever power fails in a run of a play on a new store for its number, also in the mark of a store in
/// use with which its first job begins, in three calls, and in the unload at its end, each command that was answered is
/// done. Where a call leaves nothing else than the one before it, the crashes are the same.
fn expect_crashes(alloc: Global, number: u64, done: &Play) -> Result<(), Fail> {
    let (md_pages, fixed) = size_of(number);
    let store = new_store(alloc, md_pages)?;
    let mut before = None;
    for calls in 0..1000 {
        let Left {
            count,
            is_good,
            disk,
        } = stopped(alloc, done, calls, store.crash(0)?)?;
        if before != Some((count, disk.clock())) {
            expect_left(alloc, states_at(done, count)?, fixed, &disk)?;
        }
        before = Some((count, disk.clock()));
        if is_good {
            return Ok(());
        }
    }
    Err(Fail::new("the script makes more calls"))
}

/// Stops each of the scripts with these places, on stores of few metadata pages.
fn expect_all(alloc: Global, places: (u64, u64)) -> Result<(), Fail> {
    let (from, end) = places;
    for place in from..end {
        let number = number_at(place);
        let family = if place % 3 == 0 { Some(12) } else { None };
        let done = play_of(alloc, number, (place % 4).wrapping_add(3), family)?;
        expect_crashes(alloc, number, &done)?;
    }
    Ok(())
}

/// Stops one in five of the scripts with these places in which families grow.
fn expect_families(alloc: Global, places: (u64, u64)) -> Result<(), Fail> {
    let (from, end) = places;
    for place in (from..end).step_by(5) {
        let (number, done) = family_at(alloc, place)?;
        expect_crashes(alloc, number, &done)?;
    }
    Ok(())
}

#[test]
fn each_crash_leaves_what_was_answered(rt: HostRuntime) -> Result<(), Fail> {
    expect_all(rt.alloc(), (0, 7))
}

#[test]
fn each_crash_of_seven_others_leaves_what_was_answered(rt: HostRuntime) -> Result<(), Fail> {
    expect_all(rt.alloc(), (7, 14))
}

#[test]
fn each_crash_of_the_last_six_leaves_what_was_answered(rt: HostRuntime) -> Result<(), Fail> {
    expect_all(rt.alloc(), (14, 20))
}

#[test]
fn each_crash_of_the_first_families_leaves_what_was_answered(rt: HostRuntime) -> Result<(), Fail> {
    expect_families(rt.alloc(), (0, 50))
}

#[test]
fn each_crash_of_the_second_families_leaves_what_was_answered(rt: HostRuntime) -> Result<(), Fail> {
    expect_families(rt.alloc(), (50, 100))
}

#[test]
fn each_crash_of_the_third_families_leaves_what_was_answered(rt: HostRuntime) -> Result<(), Fail> {
    expect_families(rt.alloc(), (100, 150))
}

#[test]
fn each_crash_of_the_fourth_families_leaves_what_was_answered(rt: HostRuntime) -> Result<(), Fail> {
    expect_families(rt.alloc(), (150, 200))
}

#[test]
fn each_crash_of_the_fifth_families_leaves_what_was_answered(rt: HostRuntime) -> Result<(), Fail> {
    expect_families(rt.alloc(), (200, 250))
}

#[test]
fn each_crash_of_the_sixth_families_leaves_what_was_answered(rt: HostRuntime) -> Result<(), Fail> {
    expect_families(rt.alloc(), (250, 300))
}

#[test]
fn each_crash_of_the_seventh_families_leaves_what_was_answered(
    rt: HostRuntime,
) -> Result<(), Fail> {
    expect_families(rt.alloc(), (300, 350))
}

#[test]
fn each_crash_of_the_eighth_families_leaves_what_was_answered(rt: HostRuntime) -> Result<(), Fail> {
    expect_families(rt.alloc(), (350, 400))
}

#[test]
fn each_crash_of_the_ninth_families_leaves_what_was_answered(rt: HostRuntime) -> Result<(), Fail> {
    expect_families(rt.alloc(), (400, 450))
}

#[test]
fn each_crash_of_the_last_families_leaves_what_was_answered(rt: HostRuntime) -> Result<(), Fail> {
    expect_families(rt.alloc(), (450, 500))
}
