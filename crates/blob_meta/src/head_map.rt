//! Finite maps from the heads of blobs.

ghost use Rattle.std.specs.Prelude.{◌≡◌, ◌+◌, ◌<◌, ◌≤◌, ℕ, OnOk, OnErr, IfOk, IfSome, IfNone, None, option_copied};
ghost use Rattle.std.specs.FinMap as map;
ghost use Rattle.blob_meta.specs.Heads.{IsNextFrom, HasNoKeyFrom, IsNextNamed, HasNoNameFrom};

use crate::entries::{insert_entry, move_all, named_from, place_of, start_of};
use crate::meta::Meta;
use crate::naming::HasName;
use out_of_memory::Memory;
use std::alloc::Global;
use std::marker::Model;
use volume_model::PlaceList;

/// A finite map from heads, which are places of metadata pages, to values that may have names. Contracts see it as that
/// map. Only `insert` of a new head and `room` take memory.
#[derive(Drop)]
pub struct HeadMap<V: HasName> {
    entries: Vec<(u32, V)>,
    // The checksum of the name of each entry's value, in the order of the entries.
    sums: Vec<u32>,
}

impl<V: HasName> Model for HeadMap<V> {
    ghost use Rattle.std.specs.Ordering.{nat_cmp};
    ghost use Rattle.std.specs.FinMap as map;
    ghost use Rattle.std.specs.Coded.{coded_ℕ};
    ghost use Rattle.blob_meta.specs.Heads.{AreKept};

    ghost Value = { map.FinMap nat_cmp V };

    ghost coded = { map.code coded_ℕ V.code };

    ghost view = { λ a. map.from_sorted a.entries.items };

    ghost invariant = { λ a. AreKept V.name_of a.entries.items a.sums.items };
}

/// Memory for a map from heads; contracts see for how many heads. It is taken while want of memory can still be
/// answered, for an `insert_in` that can't answer it.
#[derive(Drop)]
pub struct Room<V> {
    entries: Vec<(u32, V)>,
    sums: Vec<u32>,
}

impl<V> Model for Room<V> {
    ghost use Rattle.std.specs.Prelude.{ℕ, vec_capacity};
    ghost use Rattle.std.specs.Coded.{coded_ℕ};
    ghost use Rattle.blob_meta.specs.Heads.{IsRoom};

    ghost Value = { ℕ };

    ghost coded = { coded_ℕ };

    ghost view = { λ a. vec_capacity a.entries };

    ghost invariant = { λ a. IsRoom a.entries.items a.sums.items (vec_capacity a.entries) (vec_capacity a.sums) };
}

impl<V: HasName + Drop> HeadMap<V> {
    /// The map that has no head.
    pub fn new(alloc: Global) -> HeadMap<V>
        ensures { result ≡ map.empty }
    {
        HeadMap {
            entries: Vec::new(alloc),
            sums: Vec::new(alloc),
        }
    }

    /// What the map has at a head; `None` exactly where it doesn't have the head.
    pub fn get(&self, head: u32) -> Option<&V>
        ensures { option_copied result ≡ map.get self.now head }
    {
        match place_of(&self.entries, head) {
            Ok(place) => Some(&self.entries[place].1),
            Err(_) => None,
        }
    }

    /// Gives the head this value, whatever it had. After `Memory`, which comes only for a head that the map doesn't
    /// have, the map is as before.
    pub fn insert(&mut self, head: u32, value: V) -> Result<(), Memory>
        ensures ok { OnOk result (self.new ≡ map.insert self.old head value) }
        ensures absent { OnErr result (map.get self.old head ≡ None) }
        ensures memory { OnErr result (self.new ≡ self.old) }
    {
        insert_entry(&mut self.entries, &mut self.sums, head, value)
    }

    /// Room for one head more than the map has.
    pub fn room(&self, alloc: Global) -> Result<Room<V>, Memory>
        ensures { IfOk result (λ room. room ≡ map.len self.now + 1) }
    {
        Ok(Room {
            entries: Vec::with_capacity(alloc, self.entries.len() + 1)?,
            sums: Vec::with_capacity(alloc, self.sums.len() + 1)?,
        })
    }

    /// Gives the head this value, whatever it had, and takes no memory: the map moves into this room.
    pub fn insert_in(&mut self, room: Room<V>, head: u32, value: V)
        requires { map.len self.old < room }
        ensures { self.new ≡ map.insert self.old head value }
    {
        let Room {
            mut entries,
            mut sums,
        } = room;
        move_all(&mut self.entries, &mut entries);
        move_all(&mut self.sums, &mut sums);
        if insert_entry(&mut entries, &mut sums, head, value).is_err() {
            unreachable!()
        }
        self.entries = entries;
        self.sums = sums;
    }

    /// Takes the head out, and gives what it had; `None` exactly where the map didn't have it.
    pub fn remove(&mut self, head: u32) -> Option<V>
        ensures value { result ≡ map.get self.old head }
        ensures removed { self.new ≡ map.remove self.old head }
    {
        match place_of(&self.entries, head) {
            Ok(place) => {
                self.sums.remove(place);
                Some(self.entries.remove(place).1)
            }
            Err(_) => None,
        }
    }

    /// The least head of the map that isn't below `head`; `None` exactly where there is none.
    pub fn next_from(&self, head: u32) -> Option<u32>
        ensures some { IfSome result (λ next. IsNextFrom self.now head next) }
        ensures none { IfNone result (HasNoKeyFrom self.now head) }
    {
        match place_of(&self.entries, head) {
            Ok(_) => Some(head),
            Err(place) => match self.entries.get(place) {
                Some(entry) => Some(entry.0),
                None => None,
            },
        }
    }

    /// The least head of the map from a place on that is below an end; `None` exactly where there is none. A walk over
    /// the heads asks for it, and not at each place: places are many, and few of them are heads.
    pub fn next_below(&self, from: u32, end: u32) -> Option<u32>
        ensures some { IfSome result (λ next. IsNextFrom self.now from next) }
        ensures below { IfSome result (λ next. next < end) }
        ensures none { IfNone result ((head : ℕ) → from ≤ head → head < end → map.get self.now head ≡ None) }
    {
        let head = self.next_from(from)?;
        if head < end { Some(head) } else { None }
    }

    /// The least head, from `head` on, whose value has the name; `None` exactly where there is none.
    pub(crate) fn next_named(&self, name: &[u8], head: u32) -> Option<u32>
        ensures some { IfSome result (λ next. IsNextNamed V.name_of name.now self.now head next) }
        ensures none { IfNone result (HasNoNameFrom V.name_of name.now self.now head) }
    {
        let first = start_of(&self.entries, head);
        match named_from(&self.entries, &self.sums, first, name) {
            Some(place) => Some(self.entries[place].0),
            None => None,
        }
    }
}

/// The metadata of each blob, by its head.
pub type Metas = HeadMap<Meta>;

/// The places of each blob's chain of metadata pages, the head first, by the head.
pub type Chains = HeadMap<PlaceList>;
