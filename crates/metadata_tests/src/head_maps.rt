//! Maps from heads to values that have no name.

ghost use Rattle.std.specs.Prelude.{[]};

use blob_meta::{HasName, HeadMap};
use std::alloc::Global;
use std::test::Fail;
use volume_model::Memory;

/// A value that has no name.
#[derive(Clone, Copy, Debug, PartialEq, Eq)]
struct Number(u64);

impl HasName for Number {
    ghost name_of = { λ _. [] };

    fn name(&self) -> &[u8] {
        &[]
    }
}

/// The map in which heads are given these values, one after another.
fn filled(alloc: Global, values: &[(u32, u64)]) -> Result<HeadMap<Number>, Memory> {
    let mut map = HeadMap::new(alloc);
    for (head, value) in values {
        map.insert(*head, Number(*value))?;
    }
    Ok(map)
}

/// What a map has at a head.
fn number_at(map: &HeadMap<Number>, head: u32) -> Option<u64> {
    map.get(head).map(|number| number.0)
}

#[test]
fn a_map_from_heads_keeps_what_it_is_given(rt: HostRuntime) -> Result<(), Fail> {
    let mut map = filled(rt.alloc(), &[(7, 1), (3, 2), (7, 3)])?;
    assert!(rt; number_at(&map, 7) == Some(3) && number_at(&map, 4).is_none());
    assert!(rt; map.next_from(3) == Some(3) && map.next_from(4) == Some(7));
    assert!(rt; map.next_from(8).is_none());
    assert!(rt; map.remove(3) == Some(Number(2)) && map.remove(3).is_none());
    assert!(rt; map.next_from(0) == Some(7));
    Ok(())
}

#[test]
fn a_map_from_heads_moves_into_its_room(rt: HostRuntime) -> Result<(), Fail> {
    let mut map = filled(rt.alloc(), &[(7, 1), (3, 2)])?;
    for (head, value) in [(5, 3), (7, 4)] {
        let room = map.room(rt.alloc())?;
        map.insert_in(room, head, Number(value));
    }
    assert!(rt; number_at(&map, 3) == Some(2) && number_at(&map, 5) == Some(3));
    assert!(rt; number_at(&map, 7) == Some(4));
    assert!(rt; map.next_from(4) == Some(5) && map.next_from(6) == Some(7));
    Ok(())
}
