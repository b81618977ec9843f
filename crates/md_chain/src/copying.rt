//! Copies of items.

ghost use Rattle.std.specs.Prelude.{◌≡◌, IfOk};

use descriptors::Item;
use out_of_memory::Memory;
use std::alloc::Global;
use volume_model::TryCopy;

/// A copy of an item, equal to it.
pub fn copy_of(alloc: Global, item: &Item) -> Result<Item, Memory>
    ensures { IfOk result (λ copy. copy ≡ item.now) }
{
    Ok(match item {
        Item::Rle(runs) => Item::Rle(runs.try_copy(alloc)?),
        Item::Xattr { key, value } => Item::Xattr {
            key: key.try_copy(alloc)?,
            value: value.try_copy(alloc)?,
        },
        Item::Flags {
            invalid,
            data_ro,
            md_ro,
        } => Item::Flags {
            invalid: *invalid,
            data_ro: *data_ro,
            md_ro: *md_ro,
        },
        Item::InternalXattr { key, value } => Item::InternalXattr {
            key: key.try_copy(alloc)?,
            value: value.try_copy(alloc)?,
        },
        Item::Unknown { kind } => Item::Unknown { kind: *kind },
    })
}
