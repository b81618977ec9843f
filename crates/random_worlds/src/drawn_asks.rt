//! What lines ask for, drawn.

use crate::asks::Ask;
use crate::attributes::Attribute;
use crate::draws::Draws;

/// The number of slots that is drawn: from one on or from none on up to six, seldom too many.
fn drawn_slots(draws: &mut Draws, least: u64) -> u64 {
    if draws.is_zero(24) {
        return 1048577;
    }
    draws.below(6).wrapping_add(least)
}

/// The attribute that is drawn: of four keys, short or nearly half a page long, seldom longer than a page has room for.
fn drawn_attribute(draws: &mut Draws) -> Attribute {
    let key = drawn_key(draws);
    let length = match draws.below(24) {
        0 => 4063,
        1 => 4062,
        2 => 0,
        3..14 => 2040,
        _ => 3,
    };
    let letter = if draws.is_zero(2) { b'x' } else { b'y' };
    Attribute {
        key,
        letter,
        length,
    }
}

/// The key that is drawn, seldom a reserved one.
fn drawn_key(draws: &mut Draws) -> u8 {
    match draws.below(13) {
        0..4 => b'i',
        4..8 => b'j',
        8..12 => b'k',
        _ => b'n',
    }
}

/// The name that is drawn, of four or of all.
fn drawn_name(draws: &mut Draws) -> u8 {
    match draws.below(20) {
        0..6 => b'a',
        6..11 => b'b',
        11..14 => b'c',
        14..16 => b'd',
        _ => drawn_letter(draws, 12),
    }
}

/// The name that is drawn, of the first so many.
fn drawn_letter(draws: &mut Draws, names: u64) -> u8 {
    u8::try_from(draws.below(names).wrapping_add(97)).unwrap_or(b'z')
}

/// What is drawn of the verbs by which families grow and shrink: a snapshot or an inflate of this volume, or what is
/// done with any of so many.
fn drawn_relation(draws: &mut Draws, name: u8, names: u64) -> Ask {
    let any = drawn_letter(draws, names);
    let new = drawn_letter(draws, names);
    match draws.below(25) {
        0..9 => Ask::Snapshot { name, new },
        9..14 => Ask::Clone { name: any, new },
        14..18 => Ask::Delete { name: any },
        18..20 => Ask::Inflate { name },
        20..23 => Ask::Decouple { name: any },
        23 => Ask::Rename { name: any, new },
        _ => Ask::ReadOnly { name: any },
    }
}

/// What is drawn of the verbs that change metadata, or of a `df`.
fn drawn_change(draws: &mut Draws, name: u8) -> Ask {
    match draws.below(9) {
        0 | 1 => Ask::Create {
            name,
            slots: drawn_slots(draws, 1),
            thick: !draws.is_zero(3),
        },
        2 | 3 => Ask::Resize {
            name,
            slots: drawn_slots(draws, 0),
        },
        4..7 => Ask::Put {
            name,
            attribute: drawn_attribute(draws),
        },
        7 => Ask::Sync { name },
        _ => Ask::Df,
    }
}

/// What is drawn where families are to grow: more than half of it by the verbs on them, on one volume or on any of so
/// many.
pub fn drawn_in_family(draws: &mut Draws, names: u64) -> Ask {
    let name = if draws.is_zero(2) {
        b'a'
    } else {
        drawn_letter(draws, names)
    };
    match draws.below(20) {
        0..11 => drawn_relation(draws, name, names),
        11..16 => Ask::Write {
            name,
            page: draws.below(22),
            word: draws.below(1 << 20),
        },
        16..19 => Ask::Resize {
            name,
            slots: drawn_slots(draws, 0),
        },
        _ => drawn(draws),
    }
}

/// What is drawn.
pub fn drawn(draws: &mut Draws) -> Ask {
    let name = drawn_name(draws);
    match draws.below(28) {
        0..6 => drawn_relation(draws, name, 12),
        6..13 => drawn_change(draws, name),
        13..20 => Ask::Write {
            name,
            page: draws.below(22),
            word: draws.below(1 << 20),
        },
        20..22 => Ask::Read {
            name,
            page: draws.below(22),
        },
        22 => Ask::Flush,
        23 => Ask::Set {
            name,
            attribute: drawn_attribute(draws),
        },
        24 => Ask::Remove {
            name,
            key: drawn_key(draws),
        },
        25 => Ask::Get {
            name,
            key: drawn_key(draws),
        },
        26 => Ask::Info { name },
        _ => Ask::List,
    }
}

/// How many pages a line asks for, if it is a read or a write.
pub fn drawn_count(draws: &mut Draws, ask: &Ask) -> u64 {
    match ask {
        Ask::Read { .. } | Ask::Write { .. } if draws.is_zero(3) => draws.below(5).wrapping_add(1),
        _ => 1,
    }
}
