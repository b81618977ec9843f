//! How many slots blobs have, and how many they may have.

ghost use Rattle.std.specs.Prelude.{◌≡◌, ◌≤◌, ◌^◌};
ghost use Rattle.std.specs.Bool.{OnFalse};
ghost use Rattle.volume_model.specs.Volumes.{Fixed, Volumes};
ghost use Rattle.volume_model.specs.Refusals.{is_too_large as large_said};
ghost use Rattle.blob_meta.specs.SlotCounts as s;
ghost use Rattle.blob_meta.specs.SlotCounts.{HasSlots, HeadsFit};

use crate::head_map::Metas;
use crate::meta::Meta;
use crate::parent::parent_of;

/// The most slots of one blob.
const MOST_SLOTS: u64 = 1 << 20;

/// The most slots of all blobs together.
const MOST_SLOTS_IN_ALL: u64 = 1 << 24;

/// The slots of the blob at a head, 0 where there is none.
fn slots_at(metas: &Metas, head: u32) -> u32
    ensures { result ≡ s.slots_at metas.now head }
{
    match metas.get(head) {
        Some(meta) => meta.map.len(),
        None => 0,
    }
}

/// The slots of all blobs together.
pub fn all_slots(metas: &Metas) -> u64
    ensures { HasSlots metas.now result }
{
    let mut all = 0;
    let mut from = 0;
    while let Some(head) = metas.next_from(from) {
        all += u64::from(slots_at(metas, head));
        if head == u32::MAX {
            return all;
        }
        from = head + 1;
    }
    all
}

/// Whether so many slots are too many, by themselves or beside so many others.
pub fn is_too_large(slots: u64, others: u64) -> bool
    ensures large { (f : Fixed) (v : Volumes) → result ≡ large_said f v slots others }
    ensures few { OnFalse result (slots ≤ 2 ^ 20) }
{
    slots > MOST_SLOTS || others > MOST_SLOTS_IN_ALL - slots
}

/// Whether the blob has a parent with more slots than itself.
pub fn has_longer_parent(metas: &Metas, meta: &Meta) -> bool
    ensures { HeadsFit metas.now → result ≡ s.has_longer_parent metas.now meta.now }
{
    match parent_of(meta) {
        Some(parent) => match u32::try_from(parent) {
            Ok(head) => meta.map.len() < slots_at(metas, head),
            Err(_) => false,
        },
        None => false,
    }
}
