//! The parent over which a blob's slots are filled.

ghost use Rattle.std.specs.Prelude.{◌≡◌, option_copied};
ghost use Rattle.std.specs.FinMap as map;
ghost use Rattle.blob_meta.specs.SlotCounts.{HeadsFit};
ghost use Rattle.inflate_delete.specs.Fills.{parent_blob as blob_said};

use blob_meta::{Meta, Metas, parent_of};

/// The blob's direct parent, if it has one that is there.
pub fn parent_blob<'a>(metas: &'a Metas, meta: &Meta) -> Option<&'a Meta>
    ensures { HeadsFit metas.now → option_copied result ≡ blob_said (map.get metas.now) meta.now }
{
    match u32::try_from(parent_of(meta)?) {
        Ok(head) => metas.get(head),
        Err(_) => None,
    }
}
