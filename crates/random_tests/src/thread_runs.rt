//! Random scripts on many channels that are run by threads: whole, where power fails at a call of the device, and where
//! one write fails.

use crate::channel_plays::ChannelPlay;
use page_disk::{CallKind, Fail as FailingCall, FaultDisk, MemDisk, PageDisk};
use random_plays::{Ran, expect_left, new_stores};
use random_worlds::expect_volumes;
use std::alloc::Global;
use std::sync::Wait;
use std::test::Fail;
use std::thread::Threads;

/// What becomes of the device in a run.
#[derive(Clone, Copy, Debug)]
enum Device {
    /// No call of it fails.
    Sound,
    /// Power fails behind a number of calls.
    Stops,
    /// One write fails.
    FailsOnce,
}

/// Expects each answer of a play, in the order in which they are printed, and that its volumes are left and no claim.
fn expect_whole<R: Threads + Wait + Sync>(
    rt: &R,
    alloc: Global,
    play: &ChannelPlay,
) -> Result<(), Fail> {
    let ran = play.run_on_threads(rt, alloc, play.store()?)?;
    let mut replay = play.replayed(alloc, &ran, false)?;
    replay.world.expect_pages(alloc)?;
    expect_volumes(alloc, &replay.world.state, play.fixed(), ran.disk.crash(1)?)?;
    Ok(())
}

/// Expects of a run on a device that may fail that each command that was answered is done.
fn expect_answered<R: Threads + Wait + Sync>(
    rt: &R,
    alloc: Global,
    play: &ChannelPlay,
    disk: FaultDisk<MemDisk>,
) -> Result<(), Fail> {
    let ran = play.run_on_threads(rt, alloc, disk)?;
    let replay = play.replayed(alloc, &ran, true)?;
    let Ran { disk, .. } = ran;
    let states = replay.states_left(alloc)?;
    expect_left(alloc, &states, play.fixed(), &disk.into_inner())
}

/// Expects of a play on such a device what is to come of it.
fn expect_on<R: Threads + Wait + Sync>(
    rt: &R,
    alloc: Global,
    play: &ChannelPlay,
    number: u64,
    device: Device,
) -> Result<(), Fail> {
    let at = number.wrapping_mul(37) % 150;
    match device {
        Device::Sound => expect_whole(rt, alloc, play),
        Device::Stops => expect_answered(rt, alloc, play, FaultDisk::stopping(play.store()?, at)),
        Device::FailsOnce => {
            let fail = FailingCall {
                kind: CallKind::Write,
                nth: at / 4 + 1,
            };
            let fails = vec![in alloc; fail]?;
            expect_answered(rt, alloc, play, FaultDisk::new(play.store()?, fails))
        }
    }
}

/// Runs the plays of these numbers, and gives the first that fails, and why.
fn first_bad<R: Threads + Wait + Sync>(
    rt: &R,
    alloc: Global,
    numbers: (u64, u64),
    device: Device,
) -> Result<Option<(ChannelPlay, Fail)>, Fail> {
    let (from, end) = numbers;
    let stores = new_stores(alloc)?;
    for number in from..end {
        let play = ChannelPlay::drawn(alloc, number, &stores)?;
        if let Err(why) = expect_on(rt, alloc, &play, number, device) {
            return Ok(Some((play, why)));
        }
    }
    Ok(None)
}

/// Fails where a play has, and prints it.
fn expect_none(rt: HostRuntime, bad: Option<(ChannelPlay, Fail)>) -> Result<(), Fail> {
    let Some((play, why)) = bad else {
        return Ok(());
    };
    play.tell(rt);
    Err(why)
}

#[test]
fn each_answer_by_threads_is_that_of_plain_volumes(rt: HostRuntime) -> Result<(), Fail> {
    let bad = first_bad(&rt, rt.alloc(), (0, 200), Device::Sound)?;
    expect_none(rt, bad)
}

#[test]
fn each_crash_by_threads_leaves_what_was_answered(rt: HostRuntime) -> Result<(), Fail> {
    let bad = first_bad(&rt, rt.alloc(), (0, 50), Device::Stops)?;
    expect_none(rt, bad)
}

#[test]
fn a_failed_write_by_threads_leaves_what_was_answered(rt: HostRuntime) -> Result<(), Fail> {
    let bad = first_bad(&rt, rt.alloc(), (50, 100), Device::FailsOnce)?;
    expect_none(rt, bad)
}
