//! Stores, and random scripts that run on them on many channels.

use crate::channel_scripts::{ChannelScript, Size, drawn_making, drawn_script, small};
use crate::replays::Replay;
use crate::schedules::push_schedule;
use page_disk::{MemDisk, PageDisk};
use random_plays::{
    Call, Ran, Status, number_at, number_in_family, perform, perform_on_threads, run, size_of,
    store_for,
};
use random_worlds::{Draws, World};
use std::alloc::Global;
use std::sync::Wait;
use std::test::Fail;
use std::thread::Threads;

/// A store, the script that made its volumes, and what that printed.
#[derive(Drop)]
struct Making {
    store: MemDisk,
    script: ChannelScript,
    printed: Vec<u8>,
}

/// A script, the words of the call that runs it, by a schedule or by none, and whether the run ends with a `df`.
#[derive(Drop)]
struct Drawn {
    script: ChannelScript,
    line: String,
    ends_with_df: bool,
}

/// A store with its volumes, and a script that is to run on it.
#[derive(Drop)]
pub struct ChannelPlay {
    number: u64,
    making: Making,
    drawn: Drawn,
}

/// A run of this size but for the channels, which are drawn, by no schedule; a channel alone ends with its `df`.
fn without_schedule(alloc: Global, draws: &mut Draws, size: Size) -> Result<Drawn, Fail> {
    let channels = draws.below(16).wrapping_add(1);
    let size = Size { channels, ..size };
    Ok(Drawn {
        script: drawn_script(alloc, draws, &size, 0)?,
        line: String::from_str(alloc, "run store.img")?,
        ends_with_df: channels == 1,
    })
}

/// Such a run by a schedule that is drawn, where the other channels end before the one with the `df` has its first
/// step.
fn by_schedule(alloc: Global, draws: &mut Draws, size: Size) -> Result<Drawn, Fail> {
    let channels = draws.below(15).wrapping_add(1);
    let size = Size { channels, ..size };
    let script = drawn_script(alloc, draws, &size, 15)?;
    let mut line = String::from_str(alloc, "run store.img --schedule ")?;
    push_schedule(alloc, draws, channels, &mut line)?;
    Ok(Drawn {
        script,
        line,
        ends_with_df: true,
    })
}

/// How many lines are drawn for the play of a number, with or without a family: few where it is stopped.
fn drawn_length(draws: &mut Draws, number: u64, family: Option<u64>) -> u64 {
    if family.is_some() {
        draws.below(4).wrapping_add(5)
    } else if number == number_at(number / 8) {
        draws.below(3).wrapping_add(2)
    } else {
        draws.below(20).wrapping_add(4)
    }
}

/// The store behind a script that makes so many volumes.
fn made_store(
    alloc: Global,
    draws: &mut Draws,
    creates: u64,
    store: MemDisk,
) -> Result<Making, Fail> {
    let script = drawn_making(alloc, draws, creates)?;
    if script.text.is_empty() {
        return Ok(Making {
            store,
            script,
            printed: Vec::new(alloc),
        });
    }
    let Ran {
        status: _,
        out,
        disk,
    } = run(alloc, &script.text, store)?;
    Ok(Making {
        store: disk.crash(0)?,
        script,
        printed: Vec::from_slice(alloc, out.bytes())?,
    })
}

impl ChannelPlay {
    /// The play of a number.
    pub fn drawn(alloc: Global, number: u64, stores: &[MemDisk]) -> Result<ChannelPlay, Fail> {
        ChannelPlay::of(alloc, number, None, stores)
    }

    /// The play of a place in which families of four volumes grow.
    pub fn in_family(alloc: Global, place: u64, stores: &[MemDisk]) -> Result<ChannelPlay, Fail> {
        ChannelPlay::of(alloc, number_in_family(place), Some(4), stores)
    }

    /// The play of a number, maybe such that families of so many volumes grow. In half of them the volumes are made by
    /// a script of their own.
    fn of(
        alloc: Global,
        number: u64,
        family: Option<u64>,
        stores: &[MemDisk],
    ) -> Result<ChannelPlay, Fail> {
        let mut draws = Draws::new(number);
        let creates = draws.below(3).wrapping_add(1);
        let (made, left) = if draws.is_zero(2) {
            (creates, 0)
        } else {
            (0, creates)
        };
        let making = made_store(alloc, &mut draws, made, store_for(number, stores)?)?;
        let size = Size {
            channels: 1,
            creates: left,
            lines: drawn_length(&mut draws, number, family),
            family,
        };
        let drawn = if draws.is_zero(3) {
            without_schedule(alloc, &mut draws, size)?
        } else {
            by_schedule(alloc, &mut draws, size)?
        };
        Ok(ChannelPlay {
            number,
            making,
            drawn,
        })
    }

    /// A copy of the store.
    pub fn store(&self) -> Result<MemDisk, Fail> {
        Ok(self.making.store.crash(0)?)
    }

    /// Whether the run ends with a `df`.
    pub fn ends_with_df(&self) -> bool {
        self.drawn.ends_with_df
    }

    /// How many clusters the store takes itself.
    pub fn fixed(&self) -> u32 {
        size_of(self.number).1
    }

    /// What comes of the script on a device.
    pub fn run<D: PageDisk + Drop + Send>(&self, alloc: Global, disk: D) -> Result<Ran<D>, Fail> {
        let Drawn { script, line, .. } = &self.drawn;
        perform(alloc, &Call::new(line.as_str(), &script.text), disk)
    }

    /// What comes of the script on a device by threads, a channel each.
    pub fn run_on_threads<R: Threads + Wait + Sync, D: PageDisk + Drop + Send>(
        &self,
        rt: &R,
        alloc: Global,
        disk: D,
    ) -> Result<Ran<D>, Fail> {
        let call = Call::new("run store.img --threads", &self.drawn.script.text);
        perform_on_threads(rt, alloc, &call, disk)
    }

    /// The volumes that were made, before the script.
    fn opened(&self, alloc: Global) -> Result<World, Fail> {
        let (md_pages, fixed) = size_of(self.number);
        let Making {
            script,
            printed,
            ..
        } = &self.making;
        let mut replay = Replay::new(World::new(alloc, md_pages, fixed)?);
        replay.replay(alloc, script, printed, false)?;
        replay.expect_whole(script)?;
        Ok(replay.into_world())
    }

    /// The log of a run of the script, replayed. Fails where a line tells what plain volumes don't, or a command isn't
    /// told, or the status says something else.
    pub fn replayed<D: Drop>(
        &self,
        alloc: Global,
        ran: &Ran<D>,
        may_fail: bool,
    ) -> Result<Replay, Fail> {
        let Ran { status, out, .. } = ran;
        let mut replay = Replay::new(self.opened(alloc)?);
        replay.replay(alloc, &self.drawn.script, out.bytes(), may_fail)?;
        let is_whole = match *status {
            Status::Good => true,
            Status::Device { at } if may_fail && at == replay.answered() => !out.bytes().is_empty(),
            _ => return Err(Fail::new(format_args!("the run ended with {status:?}"))),
        };
        if is_whole {
            replay.expect_whole(&self.drawn.script)?;
        }
        Ok(replay)
    }

    /// Prints what a reader needs to see why a play failed: the scripts and the words of the call.
    pub fn tell(&self, rt: HostRuntime) {
        let making = str::from_utf8(&self.making.script.text).unwrap_or("");
        let script = str::from_utf8(&self.drawn.script.text).unwrap_or("");
        let line = self.drawn.line.as_str();
        let _printed = println!(rt; "{}:\n{making}---\n{script}---\n{line}", self.number);
    }
}
