//! Which commands plain volumes refuse.

use crate::asks::Ask;
use crate::attributes::{Attribute, has};
use crate::states::{State, Volume};

/// The most slots that a volume may have.
const MOST_SLOTS: u64 = 1 << 20;

/// Whether an attribute may be set, of a volume that is there.
fn may_set(attribute: Attribute) -> bool {
    attribute.key != b'n' && attribute.length <= 4062
}

/// Whether a volume may have so many slots: where its parent has more than itself, it doesn't grow.
fn may_resize(state: &State, volume: &Volume, slots: u64) -> bool {
    let has = volume.slots();
    let is_shorter = match state.parent_of(volume) {
        Some(parent) => parent.slots() > has,
        None => false,
    };
    slots <= MOST_SLOTS && (slots <= has as u64 || !is_shorter)
}

/// Whether a volume may be deleted: it has one clone at most, and isn't shorter than that and its own parent.
fn may_delete(state: &State, volume: &Volume) -> bool {
    let is_short = match (state.parent_of(volume), state.first_clone(volume)) {
        (Some(parent), Some(clone)) => {
            volume.slots() < parent.slots() && volume.slots() < clone.slots()
        }
        _ => false,
    };
    state.clone_count(volume) <= 1 && !is_short
}

/// Whether a volume may be decoupled: it has a parent, which isn't shorter than the volume and its own parent.
fn may_decouple(state: &State, volume: &Volume) -> bool {
    let Some(parent) = state.parent_of(volume) else {
        return false;
    };
    let is_short = match state.parent_of(parent) {
        Some(above) => parent.slots() < above.slots() && parent.slots() < volume.slots(),
        None => false,
    };
    !is_short
}

/// Whether what is asked for changes something of this volume, not read-only, as far as not too little is clear.
fn is_done_of(state: &State, ask: &Ask, volume: &Volume) -> bool {
    match ask {
        Ask::Resize { slots, .. } => may_resize(state, volume, *slots),
        Ask::Write { page, .. } => *page < volume.pages.len() as u64,
        Ask::Set { attribute, .. } | Ask::Put { attribute, .. } => may_set(*attribute),
        Ask::Remove { key, .. } => has(&volume.live, *key),
        Ask::Snapshot { new, .. } | Ask::Rename { new, .. } => state.find(*new).is_none(),
        Ask::Decouple { .. } => may_decouple(state, volume),
        Ask::Sync { .. } | Ask::ReadOnly { .. } | Ask::Inflate { .. } => true,
        _ => false,
    }
}

/// Whether what is asked for changes something, as far as not too little is clear.
pub fn is_done(state: &State, ask: &Ask) -> bool {
    let meant = match ask.name() {
        Some(name) => state.find(name),
        None => return matches!(ask, Ask::Flush),
    };
    match (*ask, meant) {
        (Ask::Create { slots, .. }, None) => slots <= MOST_SLOTS,
        (Ask::Clone { new, .. }, Some(volume)) => volume.read_only && state.find(new).is_none(),
        (Ask::Delete { .. }, Some(volume)) => may_delete(state, volume),
        (_, Some(volume)) => !volume.read_only && is_done_of(state, ask, volume),
        _ => false,
    }
}
