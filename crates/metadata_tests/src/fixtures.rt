//! What several tests share.

ghost use Rattle.std.specs.Prelude.{◌≡◌, IfOk};
ghost use Rattle.descriptors.specs.declared.item.Item.TheVariants.{InternalXattr, Xattr};
ghost use Rattle.super_block.specs.Faults.{IsFaultless};

use descriptors::Item;
use std::alloc::Global;
use std::fmt::Debug;
use std::process::Abort;
use std::test::Fail;
use super_block::{Layout, Super, SuperFault};
use volume_model::{Blobtext, Memory, RunList, SlotRun};

/// Expects that a text is the one that is wanted.
pub(crate) fn expect_text(rt: &impl Abort, found: &String, wanted: &str) {
    assert!(rt; found.as_str() == wanted, "{found}");
}

/// The derived text of a value.
pub(crate) fn text_of<T: Debug>(alloc: Global, value: &T) -> Result<String, Fail> {
    Ok(format!(in alloc; "{value:?}")?)
}

/// A store of 64 pages with clusters of 4 pages and 16 metadata pages, which begin at page 4: its clusters 0 to 4 are
/// fixed, and 15 is the last.
pub(crate) fn small(super_blob: u64) -> Result<Super, SuperFault>
    ensures { IfOk result IsFaultless }
{
    Ok(Layout::plan(64, 4, Some(16))?.new_super(super_blob, [0; 16]))
}

/// Three clusters from 5 on, two empty slots, and cluster 9.
pub(crate) const THREE_RUNS: [SlotRun; 3] = [
    SlotRun {
        cluster: 5,
        length: 3,
    },
    SlotRun {
        cluster: 0,
        length: 2,
    },
    SlotRun {
        cluster: 9,
        length: 1,
    },
];

/// The list of these runs.
pub(crate) fn list_of(alloc: Global, runs: &[SlotRun]) -> Result<RunList, Memory>
    ensures { IfOk result (λ list. list ≡ runs.now) }
{
    Ok(RunList::from_vec(Vec::from_slice(alloc, runs)?))
}

/// An attribute.
pub(crate) fn attribute(alloc: Global, key: &[u8], value: &[u8]) -> Result<Item, Memory>
    ensures { IfOk result (λ item. item ≡ Xattr key.now value.now) }
{
    let key = Blobtext::new(alloc, key)?;
    let value = Blobtext::new(alloc, value)?;
    Ok(Item::Xattr { key, value })
}

/// An internal attribute.
pub(crate) fn internal_attribute(alloc: Global, key: &[u8], value: &[u8]) -> Result<Item, Memory>
    ensures { IfOk result (λ item. item ≡ InternalXattr key.now value.now) }
{
    let key = Blobtext::new(alloc, key)?;
    let value = Blobtext::new(alloc, value)?;
    Ok(Item::InternalXattr { key, value })
}
