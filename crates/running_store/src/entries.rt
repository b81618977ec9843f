//! Entries of maps of blobs that are given without taking memory, since their room was taken before.

ghost use Rattle.std.specs.Prelude.{◌≡◌, not, is_some, IfOk};
ghost use Rattle.std.specs.FinMap as map;
ghost use Rattle.running_store.specs.Places.{HasPlace};

use blob_meta::{HasName, HeadMap, Room};
use out_of_memory::Memory;
use std::alloc::Global;

/// What a map of blobs has at a head from a commit on: a value, with room for it where the map doesn't have the head
/// before; or nothing, where the blob is gone.
pub struct EntryChange<V> {
    pub head: u32,
    pub value: Option<V>,
    pub room: Option<Room<V>>,
}

// By hand, so that to let one go is one call where control leaves, and not four cases.
impl<V: Drop> Drop for EntryChange<V> {
    fn drop(self) {
        let EntryChange {
            head: _,
            value: _,
            room: _,
        } = self;
    }
}

impl<V: HasName + Drop> EntryChange<V> {
    ghost use Rattle.running_store.specs.Places.{with_change, HasPlaceFor};

    /// Makes the change.
    pub fn make(self, entries: &mut HeadMap<V>)
        requires { HasPlaceFor entries.old self }
        ensures { entries.new ≡ with_change entries.old self }
    {
        let EntryChange { head, value, room } = self;
        match value {
            Some(value) => put(entries, room, head, value),
            None => {
                entries.remove(head);
            }
        }
    }
}

/// Gives a head this value, and takes no memory: the map has the head, or moves into this room.
pub fn put<V: HasName + Drop>(entries: &mut HeadMap<V>, room: Option<Room<V>>, head: u32, value: V)
    requires { HasPlace entries.old head room }
    ensures { entries.new ≡ map.insert entries.old head value }
{
    match room {
        Some(room) => entries.insert_in(room, head, value),
        None => match entries.insert(head, value) {
            Ok(()) => {}
            Err(Memory) => unreachable!(),
        },
    }
}

/// Room for a head, where the map doesn't have it.
pub fn place<V: HasName + Drop>(
    alloc: Global,
    entries: &HeadMap<V>,
    head: u32,
) -> Result<Option<Room<V>>, Memory>
    ensures place { IfOk result (HasPlace entries.now head) }
    ensures absent { IfOk result (λ room. is_some room ≡ not (is_some (map.get entries.now head))) }
{
    if entries.get(head).is_some() {
        return Ok(None);
    }
    Ok(Some(entries.room(alloc)?))
}
