//! Schedules: who makes each step of a run.

ghost use Rattle.std.specs.Prelude.{◌≡◌, ◌+◌, ◌*◌, ◌≤◌, ◌^◌, [], ◌++◌, length, OnOk, OnErr};
ghost use Rattle.script_lang.specs.Schedules.{repeated, written_out};

use out_of_memory::Memory;
use std::alloc::Global;
use std::marker::Model;
use thiserror::Error;
use volume_model::ListOf;

/// Who makes a step: a channel, or the metadata thread.
#[derive(Clone, Copy, Debug, PartialEq, Eq)]
pub enum Actor {
    Channel(u8),
    Metadata,
}

/// Actors in order, so many times.
#[derive(Debug, Drop)]
pub struct Part {
    pub actors: ListOf<Actor>,
    pub count: u32,
}

/// Who makes each step of a run: at most 65,536 steps, kept as parts. Contracts see the list of all steps written out.
#[derive(Debug, Drop)]
pub struct Schedule {
    parts: ListOf<Part>,
    steps: u32,
}

impl Model for Schedule {
    ghost use Rattle.std.specs.Prelude.{◌≡◌, ◌≤◌, ◌^◌, List, length};
    ghost use Rattle.script_lang.specs.declared.schedule.Actor.{Actor};
    ghost use Rattle.script_lang.specs.Schedules.{written_out};

    ghost Value = { List Actor };

    ghost view = { λ s. written_out s.parts };

    ghost invariant = { λ s. (s.steps ≡ length (written_out s.parts)) × (s.steps ≤ 2 ^ 16) };
}

impl Schedule {
    /// The schedule without steps.
    #[tactic(auto, unfolding(crate::specs::Schedules::written_out))]
    pub fn new(alloc: Global) -> Schedule
        ensures { result ≡ [] }
    {
        Schedule {
            parts: ListOf::new(alloc),
            steps: 0,
        }
    }

    /// How many steps it has.
    pub fn len(&self) -> u32
        ensures len { result ≡ length self.now }
        ensures few { result ≤ 2 ^ 16 }
    {
        self.steps
    }

    /// Its parts, which written out one after the other are its steps.
    pub fn parts(&self) -> &[Part]
        ensures { written_out result.now ≡ self.now }
    {
        self.parts.as_slice()
    }

    /// Appends the steps of a part. After `Memory` the schedule is as before.
    pub fn push(&mut self, part: Part) -> Result<(), Memory>
        requires counted { 1 ≤ part.count }
        requires room { length self.old + part.count * length part.actors ≤ 2 ^ 16 }
        ensures ok { OnOk result (self.new ≡ self.old ++ repeated part.count part.actors) }
        ensures few { OnOk result (length self.new ≤ 2 ^ 16) }
        ensures memory { OnErr result (self.new ≡ self.old) }
    {
        let more = part.count * part.actors.len() as u32;
        self.parts.push(part)?;
        self.steps += more;
        Ok(())
    }
}

/// Why a text is no schedule.
#[derive(Debug, Drop, Error)]
pub enum ScheduleFault {
    /// The place, from 0, of the first byte at which no schedule goes on; the text's length where it ends too early.
    #[error("byte {at}: no schedule goes on so")]
    BadSchedule { at: u32 },
    /// Memory ran out.
    #[error("no memory")]
    Memory,
}

impl From<Memory> for ScheduleFault {
    ghost use Rattle.std.specs.Prelude.{◌≡◌};
    ghost use Rattle.script_lang.specs.declared.schedule.ScheduleFault.TheVariants.{Memory};

    ghost from_gives = { λ _ e. e ≡ Memory };

    fn from(_want: Memory) -> ScheduleFault {
        ScheduleFault::Memory
    }
}
