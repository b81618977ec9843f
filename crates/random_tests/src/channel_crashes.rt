//! Random scripts on many channels, and power that fails at each call of the device.

use crate::channel_plays::ChannelPlay;
use crate::replays::Replay;
use page_disk::{FaultDisk, MemDisk, PageDisk};
use random_plays::{Ran, Status, expect_left, new_stores, number_at};
use std::alloc::Global;
use std::test::Fail;

/// What a run leaves that stops, or that ends well: what it printed, the log replayed, and the device.
#[derive(Drop)]
struct Left {
    is_good: bool,
    printed: Vec<u8>,
    replay: Replay,
    disk: MemDisk,
}

/// What the run of a play leaves after so many calls of the device.
fn left_after(alloc: Global, play: &ChannelPlay, calls: u64) -> Result<Left, Fail> {
    let ran = play.run(alloc, FaultDisk::stopping(play.store()?, calls))?;
    let replay = play.replayed(alloc, &ran, true)?;
    let Ran { status, out, disk } = ran;
    Ok(Left {
        is_good: matches!(status, Status::Good),
        printed: Vec::from_slice(alloc, out.bytes())?,
        replay,
        disk: disk.into_inner(),
    })
}

/// Whether nothing else is left than before.
fn is_same(left: &Left, before: &Option<Left>) -> bool {
    match before {
        Some(before) => {
            left.disk.clock() == before.disk.clock()
                && left.printed.as_slice() == before.printed.as_slice()
        }
        None => false,
    }
}

/// Expects that whenever power fails in a run of a play, each command that was answered is done. Where a call leaves
/// nothing else than the one before it, the crashes are the same.
fn expect_stops(alloc: Global, play: &ChannelPlay) -> Result<(), Fail> {
    let mut before = None;
    for calls in 0..2000 {
        let left = left_after(alloc, play, calls)?;
        if left.is_good {
            return Ok(());
        }
        if !is_same(&left, &before) {
            expect_left(
                alloc,
                &left.replay.states_left(alloc)?,
                play.fixed(),
                &left.disk,
            )?;
        }
        before = Some(left);
    }
    Err(Fail::new("the script makes more calls"))
}

/// Stops the plays with these places, such that families grow or others.
fn expect_all(rt: HostRuntime, places: (u64, u64), in_family: bool) -> Result<(), Fail> {
    let alloc = rt.alloc();
    let (from, end) = places;
    let stores = new_stores(alloc)?;
    for place in from..end {
        let play = if in_family {
            ChannelPlay::in_family(alloc, place, &stores)?
        } else {
            ChannelPlay::drawn(alloc, number_at(place), &stores)?
        };
        if let Err(why) = expect_stops(alloc, &play) {
            play.tell(rt);
            return Err(why);
        }
    }
    Ok(())
}

#[test]
fn each_crash_on_many_channels_leaves_what_was_answered(rt: HostRuntime) -> Result<(), Fail> {
    expect_all(rt, (0, 10), false)
}

#[test]
fn each_crash_of_ten_others_leaves_what_was_answered(rt: HostRuntime) -> Result<(), Fail> {
    expect_all(rt, (10, 20), false)
}

#[test]
fn each_crash_of_the_last_ten_leaves_what_was_answered(rt: HostRuntime) -> Result<(), Fail> {
    expect_all(rt, (20, 30), false)
}

#[test]
fn each_crash_of_families_leaves_what_was_answered(rt: HostRuntime) -> Result<(), Fail> {
    expect_all(rt, (70, 80), true)
}

#[test]
fn each_crash_of_ten_other_families_leaves_what_was_answered(rt: HostRuntime) -> Result<(), Fail> {
    expect_all(rt, (80, 90), true)
}
