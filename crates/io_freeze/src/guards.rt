//! Guards of the blobs of a store.

use crate::rows::{Row, place_of};
use out_of_memory::Memory;
use std::alloc::Global;
use std::marker::Model;

/// Which heads are held, which of these are frozen, and the generation of each, a number that no head had before.
/// Contracts see a finite map from the held heads to their generations, the set of the frozen heads, the number that
/// was drawn last, and how many heads can be held. No call but `new` takes memory.
#[derive(Drop)]
pub struct Guards {
    rows: Vec<Row>,
    drawn: u64,
    room: u32,
}

impl Model for Guards {
    ghost use Rattle.std.specs.Prelude.{vec_capacity};
    ghost use Rattle.io_freeze.specs.Guards.{GuardsState, guards_code};

    ghost Value = { GuardsState };

    ghost coded = { guards_code };

    ghost use Rattle.io_freeze.specs.Rows.{AreGuardRows, frozen_in, generations_in};

    ghost view = { λ g.
        record {
          generations = generations_in g.rows.items;
          frozen = frozen_in g.rows.items;
          drawn = g.drawn;
          room = g.room;
        } };

    ghost invariant = { λ g. AreGuardRows g.rows.items (vec_capacity g.rows) g.drawn g.room };
}

impl Guards {
    ghost use Rattle.std.specs.Prelude.{◌≡◌, ◌+◌, ◌<◌, ◌≤◌, ◌-◌, ◌^◌, ◌&&◌, nat_lt, None, IsSome, IsTrue, IfOk, IfSome};
    ghost use Rattle.std.specs.Prelude.{false};
    ghost use Rattle.std.specs.FinMap as map;
    ghost use Rattle.std.specs.FinSet as set;
    ghost use Rattle.io_freeze.specs.Guards.{frozen_at, no_guards, released, guard_removed, renewed};

    /// No head is held, and there is room for this many.
    pub fn new(alloc: Global, room: u32) -> Result<Guards, Memory>
        ensures { IfOk result (λ guards. guards ≡ no_guards room) }
    {
        Ok(Guards {
            rows: Vec::with_capacity(alloc, room as usize)?,
            drawn: 0,
            room,
        })
    }

    /// Whether one head more can be held: there is room for it, and a number is left for it.
    pub fn can_add(&self) -> bool
        ensures { result ≡ (nat_lt (map.len self.now.generations) self.now.room && nat_lt self.now.drawn (2 ^ 64 - 1)) }
    {
        (self.rows.len() as u64) < u64::from(self.room) && self.drawn < u64::MAX
    }

    /// Whether a number is left for a new generation.
    pub fn can_renew(&self) -> bool
        ensures { result ≡ nat_lt self.now.drawn (2 ^ 64 - 1) }
    {
        self.drawn < u64::MAX
    }

    /// Whether so many numbers are left for new generations.
    pub fn can_draw(&self, count: u32) -> bool
        ensures { result ≡ nat_lt (self.now.drawn + count) (2 ^ 64) }
    {
        self.drawn <= u64::MAX - u64::from(count)
    }

    /// Holds a head. It isn't frozen, and its generation is a number above every one drawn before.
    pub fn add(&mut self, head: u32)
        requires room { map.len self.old.generations < self.old.room }
        requires absent { map.get self.old.generations head ≡ None }
        requires numbers_left { self.old.drawn < 2 ^ 64 - 1 }
        ensures added { self.new ≡ renewed self.old head }
        ensures not_frozen { set.contains self.new.frozen head ≡ false }
    {
        let Err(place) = place_of(&self.rows, head) else {
            unreachable!()
        };
        self.drawn += 1;
        let row = Row {
            head,
            generation: self.drawn,
            frozen: false,
        };
        if self.rows.insert(place, row).is_err() {
            unreachable!()
        }
    }

    /// Holds a head no longer, and ends its freeze. A head that isn't held stays so.
    pub fn remove(&mut self, head: u32)
        ensures { self.new ≡ guard_removed self.old head }
    {
        if let Ok(place) = place_of(&self.rows, head) {
            self.rows.remove(place);
        }
    }

    /// Freezes a head that is held.
    pub fn freeze(&mut self, head: u32)
        requires { IsSome (map.get self.old.generations head) }
        ensures { self.new ≡ frozen_at self.old head }
    {
        let Ok(place) = place_of(&self.rows, head) else {
            unreachable!()
        };
        self.rows[place].frozen = true;
    }

    /// Ends the freeze of a head. A head that isn't frozen stays so.
    pub fn release(&mut self, head: u32)
        ensures { self.new ≡ released self.old head }
    {
        if let Ok(place) = place_of(&self.rows, head) {
            self.rows[place].frozen = false;
        }
    }

    /// Whether a head is frozen; one that isn't held is not.
    pub fn is_frozen(&self, head: u32) -> bool
        ensures frozen { result ≡ set.contains self.now.frozen head }
        ensures held { IsTrue result → IsSome (map.get self.now.generations head) }
    {
        match place_of(&self.rows, head) {
            Ok(place) => self.rows[place].frozen,
            Err(_) => false,
        }
    }

    /// Gives a head that is held a new generation, a number above every one drawn before.
    pub fn renew(&mut self, head: u32)
        requires held { IsSome (map.get self.old.generations head) }
        requires numbers_left { self.old.drawn < 2 ^ 64 - 1 }
        ensures { self.new ≡ renewed self.old head }
    {
        let Ok(place) = place_of(&self.rows, head) else {
            unreachable!()
        };
        self.drawn += 1;
        self.rows[place].generation = self.drawn;
    }

    /// The generation of a head; None exactly where it isn't held.
    pub fn generation(&self, head: u32) -> Option<u64>
        ensures value { result ≡ map.get self.now.generations head }
        ensures drawn { IfSome result (λ number. number ≤ self.now.drawn) }
    {
        match place_of(&self.rows, head) {
            Ok(place) => Some(self.rows[place].generation),
            Err(_) => None,
        }
    }
}
