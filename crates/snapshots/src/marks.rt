//! Internal attributes that name another blob by its id.

ghost use Rattle.std.specs.Prelude.{◌≡◌, IfOk};
ghost use Rattle.snapshots.specs.Marks as m;

use blob_meta::Meta;
use out_of_memory::Memory;
use page_fields::bytes_of_u64;
use std::alloc::Global;
use volume_model::XattrList;

/// A copy of internal attributes in which this one names the blob at a head.
pub fn with_named(
    alloc: Global,
    internal: &XattrList,
    key: &[u8],
    head: u32,
) -> Result<XattrList, Memory>
    ensures { IfOk result (λ list. list ≡ m.with_named internal.now key.now head) }
{
    internal.with_value(alloc, key, &bytes_of_u64((1 << 32) + u64::from(head)))
}

/// A copy of internal attributes which name the parent of this blob, or none where it has none.
pub fn with_parent_of(alloc: Global, internal: &XattrList, meta: &Meta) -> Result<XattrList, Memory>
    ensures { IfOk result (λ list. list ≡ m.with_parent_of internal.now meta.now) }
{
    match meta.internal.value_of(b"SNAP") {
        Some(id) => internal.with_value(alloc, b"SNAP", id.bytes()),
        None => internal.without(alloc, b"SNAP"),
    }
}
