//! The log of a run on many channels, replayed on plain volumes.

use crate::channel_scripts::{ChannelScript, Request};
use blob_report::render_entry;
use random_worlds::{Ask, State, World, command_of};
use script_lang::number_below;
use std::alloc::Global;
use std::test::Fail;
use volume_model::{Df, Entry, Reply};

/// Where a store stopped: behind so many entries, and in what, unless that had its entry before.
#[derive(Clone, Copy)]
struct Stop {
    at: u32,
    met: Option<Ask>,
}

/// Plain volumes on which a log is replayed: how many entries there were of each channel, and of all, where the store
/// stopped, if it did, and the space that the last entry told, if it did.
#[derive(Drop)]
pub struct Replay {
    pub world: World,
    nexts: [u32; 16],
    entries: u32,
    stop: Option<Stop>,
    pub last_space: Option<Df>,
}

/// The text of an entry: its channel, its index, and what it tells.
type Parts<'a> = (u8, u32, &'a [u8]);

/// The number at the begin of a text, below an end, and what stands behind it and a space.
fn number_before(end: u64, text: &[u8]) -> Result<(u64, &[u8]), Fail> {
    let place = text
        .iter()
        .position(|byte| *byte == b' ')
        .ok_or("no space")?;
    let digits = text.get(..place).ok_or("no number")?;
    let rest = text.get(place.saturating_add(1)..).ok_or("no text")?;
    Ok((number_below(end, digits).ok_or("no number")?, rest))
}

/// The texts of the entries of a log, without their ends: a line each, and behind one that lists volumes those of the
/// volumes.
fn texts_of(alloc: Global, printed: &[u8]) -> Result<Vec<Vec<u8>>, Fail> {
    let mut texts: Vec<Vec<u8>> = Vec::new(alloc);
    for line in printed.split(|byte| *byte == b'\n') {
        if line.starts_with(b"volume ") {
            let text = texts.last_mut().ok_or("no entry")?;
            text.push(b'\n')?;
            text.extend_from_slice(line)?;
        } else if !line.is_empty() {
            texts.push(Vec::from_slice(alloc, line)?)?;
        }
    }
    Ok(texts)
}

/// The parts of the text of an entry.
fn parts_of(line: &[u8]) -> Result<Parts<'_>, Fail> {
    let (channel, rest) = number_before(16, line)?;
    let (index, told) = number_before(1 << 17, rest)?;
    Ok((
        u8::try_from(channel).unwrap_or(0),
        u32::try_from(index).unwrap_or(0),
        told,
    ))
}

/// Whether what is asked for may read pages of volumes.
fn copies_or_reads(ask: &Ask) -> bool {
    matches!(
        ask,
        Ask::Read { .. } | Ask::Write { .. } | Ask::Inflate { .. } | Ask::Decouple { .. }
    )
}

impl Replay {
    /// No entry yet, of a store with these volumes, all of whose attributes are synced.
    pub fn new(world: World) -> Replay {
        Replay {
            world,
            nexts: [0; 16],
            entries: 0,
            stop: None,
            last_space: None,
        }
    }

    /// The volumes as they are now.
    pub fn into_world(self) -> World {
        let Replay {
            world,
            nexts: _,
            entries: _,
            stop: _,
            last_space: _,
        } = self;
        world
    }

    /// How many entries there were, up to the failure of the device.
    pub fn answered(&self) -> u32 {
        match self.stop {
            Some(stop) => stop.at,
            None => self.entries,
        }
    }

    /// What the next command of a channel asks for, its volume told by its name. Its entry has this index.
    fn next_ask(&mut self, script: &ChannelScript, channel: u8, index: u32) -> Result<Ask, Fail> {
        let next = self
            .nexts
            .get_mut(usize::from(channel))
            .ok_or("no channel")?;
        let list = script.lists.get(usize::from(channel)).ok_or("no channel")?;
        let request = list.get(index as usize).ok_or("no such command")?;
        if *next != index {
            return Err(Fail::new(format_args!("{index} comes in place of {next}")));
        }
        *next = next.wrapping_add(1);
        let Request { ask, head } = *request;
        match head {
            Some(head) => Ok(ask.of(self.world.state.name_at(head))),
            None => Ok(ask),
        }
    }

    /// The reply that the line of a command may tell, where calls of the device may fail: one write or flush fails, and
    /// then each command finds that the store has stopped; a read may fail before.
    fn reply(
        &mut self,
        alloc: Global,
        ask: &Ask,
        told: &[u8],
        may_fail: bool,
    ) -> Result<Reply, Fail> {
        if let Some(stop) = self.stop {
            return Ok(Reply::Stopped(stop.at));
        }
        let at = self.entries;
        match told {
            b"fault" if may_fail => {
                self.stop = Some(Stop {
                    at,
                    met: Some(*ask),
                });
                Ok(Reply::Fault)
            }
            [b's', b't', b'o', b'p', b'p', b'e', b'd', ..] if may_fail => {
                self.stop = Some(Stop { at, met: None });
                Ok(Reply::Stopped(at))
            }
            b"read fault" if may_fail && copies_or_reads(ask) => Ok(Reply::ReadFault),
            _ => self.world.follow(alloc, ask, told),
        }
    }

    /// Replays the entry that a text tells, and expects the text.
    fn replay_text(
        &mut self,
        alloc: Global,
        script: &ChannelScript,
        text: &[u8],
        may_fail: bool,
    ) -> Result<(), Fail> {
        let (channel, index, told) = parts_of(text)?;
        let ask = self.next_ask(script, channel, index)?;
        let reply = self.reply(alloc, &ask, told, may_fail)?;
        self.last_space = match &reply {
            Reply::Df(space) => Some(*space),
            _ => None,
        };
        let entry = Entry {
            channel,
            index,
            command: command_of(alloc, &ask)?,
            reply,
        };
        let mut wanted = Vec::new(alloc);
        render_entry(&entry, &mut wanted)?;
        if wanted.strip_suffix(b"\n") != Some(text) {
            return Err(Fail::new(format_args!(
                "{channel} {index} {}: {:?}",
                ask.verb(),
                entry.reply
            )));
        }
        self.entries = self.entries.wrapping_add(1);
        Ok(())
    }

    /// Replays a log, and expects each entry.
    pub fn replay(
        &mut self,
        alloc: Global,
        script: &ChannelScript,
        printed: &[u8],
        may_fail: bool,
    ) -> Result<(), Fail> {
        let texts = texts_of(alloc, printed)?;
        for text in &texts {
            self.replay_text(alloc, script, text, may_fail)?;
        }
        Ok(())
    }

    /// Expects that each channel's commands have all been told.
    pub fn expect_whole(&self, script: &ChannelScript) -> Result<(), Fail> {
        for (next, list) in self.nexts.iter().zip(script.lists.iter()) {
            if *next as usize != list.len() {
                return Err(Fail::new(format_args!("{next} entries are told of {}", list.len())));
            }
        }
        Ok(())
    }

    /// The states that may be left on the device: that of the log, and that with the command done that met the fault,
    /// where plain volumes don't refuse it.
    pub fn states_left(&self, alloc: Global) -> Result<Vec<State>, Fail> {
        let mut states = vec![in alloc; self.world.state.copy(alloc)?]?;
        let Some(Stop { met: Some(ask), .. }) = self.stop else {
            return Ok(states);
        };
        self.world.push_done(alloc, &ask, &mut states)?;
        Ok(states)
    }
}
