//! Random scripts on many channels that are run whole, by random schedules.

use crate::channel_plays::ChannelPlay;
use page_disk::PageDisk;
use random_plays::new_stores;
use random_worlds::expect_volumes;
use std::alloc::Global;
use std::test::Fail;

/// Expects each answer of a play, and that its volumes are left and no claim: as much is clear as a last `df` told.
fn expect_run(alloc: Global, play: &ChannelPlay) -> Result<(), Fail> {
    let ran = play.run(alloc, play.store()?)?;
    let mut replay = play.replayed(alloc, &ran, false)?;
    replay.world.expect_pages(alloc)?;
    let shown = expect_volumes(alloc, &replay.world.state, play.fixed(), ran.disk.crash(1)?)?;
    match &replay.last_space {
        Some(space) => shown.expect_free(space),
        None if play.ends_with_df() => Err(Fail::new("a df isn't last")),
        None => Ok(()),
    }
}

/// Runs the plays of these numbers.
fn expect_all(rt: HostRuntime, numbers: (u64, u64)) -> Result<(), Fail> {
    let alloc = rt.alloc();
    let (from, end) = numbers;
    let stores = new_stores(alloc)?;
    for number in from..end {
        let play = ChannelPlay::drawn(alloc, number, &stores)?;
        if let Err(why) = expect_run(alloc, &play) {
            play.tell(rt);
            return Err(why);
        }
    }
    Ok(())
}

#[test]
fn each_answer_on_many_channels_is_that_of_plain_volumes(rt: HostRuntime) -> Result<(), Fail> {
    expect_all(rt, (0, 100))
}

#[test]
fn each_answer_of_a_second_hundred_is_that_of_plain_volumes(rt: HostRuntime) -> Result<(), Fail> {
    expect_all(rt, (100, 200))
}

#[test]
fn each_answer_of_a_third_hundred_is_that_of_plain_volumes(rt: HostRuntime) -> Result<(), Fail> {
    expect_all(rt, (200, 300))
}

#[test]
fn each_answer_of_a_fourth_hundred_is_that_of_plain_volumes(rt: HostRuntime) -> Result<(), Fail> {
    expect_all(rt, (300, 400))
}

#[test]
fn each_answer_of_a_fifth_hundred_is_that_of_plain_volumes(rt: HostRuntime) -> Result<(), Fail> {
    expect_all(rt, (400, 500))
}
