//! The items by which metadata is written.

ghost use Rattle.std.specs.Prelude.{◌≡◌, ◌+◌, ◌^◌, ◌++◌, ℕ, List, [], IfOk, OnOk};
ghost use Rattle.descriptors.specs.declared.item.Item.{Item as AnItem};
ghost use Rattle.blob_meta.specs.declared.meta.Meta.{Meta as AMeta};
ghost use Rattle.blob_meta.specs.Says.{without_bit_1, meta_of};
ghost use Rattle.blob_meta.specs.Items.{internal_bit, flags_item as flags_written, xattr_items, internal_items};
ghost use Rattle.blob_meta.specs.Items.{run_items, IsItemsOf, HasDistinctNames};

use crate::meta::Meta;
use descriptors::{Item, ItemList, SlotMap, runs_of};
use out_of_memory::Memory;
use std::alloc::Global;
use volume_model::{TryCopy, Xattr};

fn flags_item(meta: &Meta) -> Item
    ensures { result ≡ flags_written meta.now }
{
    let invalid = meta.flags.invalid;
    let bit = if meta.internal.len() > 0 { 2 } else { 0 };
    Item::Flags {
        invalid: invalid - 2 * (invalid / 2 % 2) + bit,
        data_ro: meta.flags.data_ro,
        md_ro: meta.flags.md_ro,
    }
}

fn push_xattrs(alloc: Global, items: &mut ItemList, xattrs: &[Xattr]) -> Result<(), Memory>
    ensures { OnOk result (items.new ≡ items.old ++ xattr_items xattrs.now) }
{
    for xattr in xattrs {
        let key = xattr.key.try_copy(alloc)?;
        let value = xattr.value.try_copy(alloc)?;
        items.push(Item::Xattr { key, value })?;
    }
    Ok(())
}

fn push_internal(alloc: Global, items: &mut ItemList, xattrs: &[Xattr]) -> Result<(), Memory>
    ensures { OnOk result (items.new ≡ items.old ++ internal_items xattrs.now) }
{
    for xattr in xattrs {
        let key = xattr.key.try_copy(alloc)?;
        let value = xattr.value.try_copy(alloc)?;
        items.push(Item::InternalXattr { key, value })?;
    }
    Ok(())
}

/// The items of the metadata: flags, attributes, internal attributes and the longest runs of the map, each in its
/// order.
pub fn to_items(alloc: Global, meta: &Meta) -> Result<ItemList, Memory>
    ensures { IfOk result (λ items. IsItemsOf meta.now items) }
{
    let mut items = ItemList::new(alloc);
    items.push(flags_item(meta))?;
    push_xattrs(alloc, &mut items, meta.xattrs.as_slice())?;
    push_internal(alloc, &mut items, meta.internal.as_slice())?;
    let runs = runs_of(alloc, &meta.map)?;
    if runs.len() > 0 {
        items.push(Item::Rle(runs))?;
    }
    Ok(items)
}

/// The items of metadata say that metadata, where bit 1 of `invalid` is 0 and no two names of a list are equal.
pub fn items_say()
    ensures { (head : ℕ) (m : AMeta) (items : List AnItem) → m.id ≡ 2 ^ 32 + head
        → without_bit_1 m.flags.invalid ≡ m.flags.invalid →
        HasDistinctNames m.xattrs → HasDistinctNames m.internal → IsItemsOf m items → meta_of head items ≡ m }
{}
