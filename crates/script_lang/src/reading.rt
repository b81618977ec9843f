//! Reading a schedule from its text, byte by byte.

ghost use Rattle.std.specs.Prelude.{◌≡◌, ◌+◌, ◌*◌, ◌≤◌, ◌<◌, ◌^◌, ◌++◌, ◌∷◌, [], List, length, Bool, true, false};
ghost use Rattle.std.specs.Prelude.{Option, Some, None, IfOk, IfErr, Result, Ok, Err};
ghost use Rattle.script_lang.specs.declared.schedule.Actor.{Actor};
ghost use Rattle.script_lang.specs.Reading.{reading, fits as fits_said, goes_on_as_number as number_said, after_start};
ghost use Rattle.script_lang.specs.Reading.{after_actor, with_count, after_count, ended_at, ended, with_comma};
ghost use Rattle.script_lang.specs.Reading.{within_part, reading_after, HasRoomAt, HasRoom, ReadsOn, ReadsToEnd};
ghost use Rattle.script_lang.specs.Schedules.{IsSchedule, RefusesSchedule, WhyNoSchedule};

use crate::schedule::{Actor, Part, Schedule, ScheduleFault};
use out_of_memory::Memory;
use std::alloc::Global;
use volume_model::ListOf;

/// The most steps that a schedule may have.
const MAX_STEPS: u32 = 1 << 16;

/// What was read last within a part: nothing of the next actor, an actor, or a `*` and the digits of a count.
#[derive(Clone, Copy)]
enum Place {
    Start,
    Named(Actor),
    Times(u32),
}

/// A schedule whose text is being read: its parts that have ended, the actors of the part that has not, and what was
/// read last.
#[derive(Drop)]
struct Reading {
    schedule: Schedule,
    actors: ListOf<Actor>,
    place: Place,
}

/// Whether a `1` goes on to a channel from 10 to 15.
fn goes_on_as_number(actor: Actor, byte: u8) -> bool
    ensures { result ≡ number_said actor byte }
{
    match actor {
        Actor::Channel(channel) => channel == 1 && byte >= b'0' && byte <= b'5',
        Actor::Metadata => false,
    }
}

impl Reading {
    /// Nothing is read yet.
    fn new(alloc: Global) -> Reading
        ensures { result ≡ reading [] [] Place.Start }
    {
        Reading {
            schedule: Schedule::new(alloc),
            actors: ListOf::new(alloc),
            place: Place::Start,
        }
    }

    /// Whether a byte begins an actor.
    fn start(&mut self, byte: u8) -> bool
        requires { HasRoomAt self.old.schedule self.old.actors Place.Start }
        ensures said { ReadsOn (after_start self.old.schedule self.old.actors byte) self.new result }
        ensures room { result ≡ true → HasRoom self.new }
    {
        if byte == b'm' {
            self.place = Place::Named(Actor::Metadata);
            return true;
        }
        if byte >= b'0' && byte <= b'9' {
            self.place = Place::Named(Actor::Channel(byte - b'0'));
            return true;
        }
        false
    }

    /// Whether a byte that is no comma goes on after an actor.
    fn go_on(&mut self, actor: Actor, byte: u8) -> Result<bool, Memory>
        requires { HasRoomAt self.old.schedule self.old.actors (Place.Named actor) }
        ensures said { IfOk result (ReadsOn (after_actor self.old.schedule self.old.actors actor byte) self.new) }
        ensures room { IfOk result (λ goes. goes ≡ true → HasRoom self.new) }
    {
        if byte == b'+' {
            if self.schedule.len() + self.actors.len() as u32 + 2 > MAX_STEPS {
                return Ok(false);
            }
            self.actors.push(actor)?;
            self.place = Place::Start;
            return Ok(true);
        }
        if byte == b'*' {
            self.actors.push(actor)?;
            self.place = Place::Times(0);
            return Ok(true);
        }
        if goes_on_as_number(actor, byte) {
            self.place = Place::Named(Actor::Channel(byte - 38));
            return Ok(true);
        }
        Ok(false)
    }

    /// Whether a byte that is no comma goes on after a `*` and the digits of a count.
    fn count(&mut self, count: u32, byte: u8) -> bool
        requires { HasRoomAt self.old.schedule self.old.actors (Place.Times count) }
        ensures said { ReadsOn (after_count self.old.schedule self.old.actors count byte) self.new result }
        ensures room { result ≡ true → HasRoom self.new }
    {
        if byte < b'0' || byte > b'9' {
            return false;
        }
        let count = count * 10 + u32::from(byte - b'0');
        if count < 1 || count > MAX_STEPS {
            return false;
        }
        let steps = u64::from(count) * self.actors.len() as u64;
        if u64::from(self.schedule.len()) + steps > u64::from(MAX_STEPS) {
            return false;
        }
        self.place = Place::Times(count);
        true
    }

    /// Ends the part, if it may end here.
    fn end(&mut self, alloc: Global) -> Result<bool, Memory>
        requires { HasRoom self.old }
        ensures said { IfOk result (ReadsToEnd (ended self.old) self.new) }
        ensures few { IfOk result (λ ends. length self.new.schedule ≤ 2 ^ 16) }
    {
        let count = match self.place {
            Place::Start => return Ok(false),
            Place::Named(actor) => {
                self.actors.push(actor)?;
                1
            }
            Place::Times(count) => count,
        };
        if count == 0 {
            return Ok(false);
        }
        let actors = ListOf::from_vec(self.actors.take_all(alloc));
        self.schedule.push(Part { actors, count })?;
        self.place = Place::Start;
        Ok(true)
    }

    /// Whether a byte goes on; after `false` and `Memory` nothing is known of the reading.
    fn byte(&mut self, alloc: Global, byte: u8) -> Result<bool, Memory>
        requires { HasRoom self.old }
        ensures said { IfOk result (ReadsOn (reading_after self.old byte) self.new) }
        ensures room { IfOk result (λ goes. goes ≡ true → HasRoom self.new) }
    {
        if byte == b',' {
            return Ok(self.end(alloc)? && self.schedule.len() < MAX_STEPS);
        }
        match self.place {
            Place::Start => Ok(self.start(byte)),
            Place::Named(actor) => self.go_on(actor, byte),
            Place::Times(count) => Ok(self.count(count, byte)),
        }
    }
}

/// The schedule of a text: parts separated by commas, where a part is actors joined by `+`, then optionally `*` and a
/// count from 1 to 65,536: these actors in order, so many times. An actor is the number of a channel, 0 to 15 in
/// decimal without leading zero, or `m` for the metadata thread. The steps are at most 65,536 in all.
///
/// `BadSchedule` gives the place of the first byte at which no schedule goes on.
pub fn parse_schedule(alloc: Global, text: &[u8]) -> Result<Schedule, ScheduleFault>
    ensures found { IfOk result (λ schedule. IsSchedule text.now schedule) }
    ensures one { IfOk result (λ schedule. (steps : List Actor) → IsSchedule text.now steps → steps ≡ schedule) }
    ensures refused { IfErr result (RefusesSchedule text.now) }
    ensures why { IfErr result (WhyNoSchedule text.now) }
{
    let mut reading = Reading::new(alloc);
    let mut at = 0;
    for byte in text {
        if !reading.byte(alloc, *byte)? {
            return Err(ScheduleFault::BadSchedule { at });
        }
        at += 1;
    }
    if !reading.end(alloc)? {
        return Err(ScheduleFault::BadSchedule { at });
    }
    Ok(reading.schedule)
}
