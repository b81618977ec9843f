//! Random scripts on many channels.

use random_worlds::{Ask, Draws, drawn, drawn_count, drawn_in_family, push_line};
use std::alloc::Global;
use std::test::Fail;

/// What a command asks for. Its volume is told by a head, if there is one here, and else by its name.
#[derive(Clone, Copy)]
pub struct Request {
    pub ask: Ask,
    pub head: Option<u32>,
}

/// A script: its text, and of each of 16 channels what the commands of each channel ask for.
#[derive(Drop)]
pub struct ChannelScript {
    pub text: Vec<u8>,
    pub lists: Vec<Vec<Request>>,
}

/// How large a script is: on how many channels, with how many creates and other lines, and of how many volumes families
/// are to grow; without that number they do in one of three scripts, of twelve.
#[derive(Clone, Copy)]
pub struct Size {
    pub channels: u64,
    pub creates: u64,
    pub lines: u64,
    pub family: Option<u64>,
}

/// A draw as a number of one byte.
pub fn small(number: u64) -> u8 {
    u8::try_from(number).unwrap_or(0)
}

/// A write of a page in the first slots of two volumes, on which many channels meet.
fn drawn_write(draws: &mut Draws) -> Ask {
    Ask::Write {
        name: if draws.is_zero(2) { b'a' } else { b'b' },
        page: draws.below(12),
        word: draws.below(1 << 20),
    }
}

/// What is drawn: two of five times such a write, and else what makes families of so many volumes grow, or anything.
fn drawn_request(draws: &mut Draws, family: Option<u64>) -> Request {
    let ask = if draws.below(5) < 2 {
        drawn_write(draws)
    } else if let Some(names) = family {
        drawn_in_family(draws, names)
    } else {
        drawn(draws)
    };
    let by_head = draws.is_zero(6) && ask.name().is_some() && !matches!(ask, Ask::Create { .. });
    Request {
        ask,
        head: if by_head {
            Some(u32::from(small(draws.below(4))))
        } else {
            None
        },
    }
}

/// A create of the volume with this number.
fn drawn_create(draws: &mut Draws, number: u64) -> Request {
    let name = match number {
        0 => b'a',
        1 => b'b',
        2 => b'c',
        _ => b'd',
    };
    Request {
        ask: Ask::Create {
            name,
            slots: draws.below(5).wrapping_add(1),
            thick: draws.is_zero(4),
        },
        head: None,
    }
}

impl ChannelScript {
    /// The script without commands.
    pub fn new(alloc: Global) -> Result<ChannelScript, Fail> {
        let mut lists = Vec::new(alloc);
        for _ in 0..16 {
            lists.push(Vec::new(alloc))?;
        }
        Ok(ChannelScript {
            text: Vec::new(alloc),
            lists,
        })
    }

    /// Appends a line, a read or a write for so many pages.
    fn push(
        &mut self,
        alloc: Global,
        channel: u8,
        request: Request,
        count: u64,
    ) -> Result<(), Fail> {
        let Request { ask, head } = request;
        push_line(alloc, &mut self.text, channel, (&ask, head), count)?;
        let list = self
            .lists
            .get_mut(usize::from(channel))
            .ok_or("no channel")?;
        for at in 0..count {
            list.push(Request {
                ask: ask.nth(at),
                head,
            })?;
        }
        Ok(())
    }

    /// Appends a `df`.
    fn push_df(&mut self, alloc: Global, channel: u8) -> Result<(), Fail> {
        let request = Request {
            ask: Ask::Df,
            head: None,
        };
        self.push(alloc, channel, request, 1)
    }

    /// Appends creates of so many volumes on the first of the channels.
    fn push_creates(
        &mut self,
        alloc: Global,
        draws: &mut Draws,
        channels: u64,
        creates: u64,
    ) -> Result<(), Fail> {
        for number in 0..creates {
            let channel = small(draws.below(channels));
            let request = drawn_create(draws, number);
            self.push(alloc, channel, request, 1)?;
        }
        Ok(())
    }

    /// Appends the lines behind the creates.
    fn push_drawn(&mut self, alloc: Global, draws: &mut Draws, size: &Size) -> Result<(), Fail> {
        let family = match size.family {
            None if draws.is_zero(3) => Some(12),
            family => family,
        };
        for _ in 0..size.lines {
            let channel = small(draws.below(size.channels));
            let request = drawn_request(draws, family);
            let count = drawn_count(draws, &request.ask);
            self.push(alloc, channel, request, count)?;
        }
        Ok(())
    }
}

/// A script of channel 0 that makes so many volumes.
pub fn drawn_making(alloc: Global, draws: &mut Draws, creates: u64) -> Result<ChannelScript, Fail> {
    let mut script = ChannelScript::new(alloc)?;
    script.push_creates(alloc, draws, 1, creates)?;
    Ok(script)
}

/// A script of this size on the first of the channels, and a `df` behind it on some channel.
pub fn drawn_script(
    alloc: Global,
    draws: &mut Draws,
    size: &Size,
    last: u8,
) -> Result<ChannelScript, Fail> {
    let mut script = ChannelScript::new(alloc)?;
    script.push_creates(alloc, draws, size.channels, size.creates)?;
    script.push_drawn(alloc, draws, size)?;
    script.push_df(alloc, last)?;
    Ok(script)
}
