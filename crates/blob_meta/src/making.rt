//! Metadata that commands make.

ghost use Rattle.std.specs.Prelude.{◌≡◌, ◌≤◌, ◌-◌, ◌^◌, ◌++◌, length, replicate, take, None, IfOk};
ghost use Rattle.blob_meta.specs.Jobs as j;

use crate::meta::{Flags, Meta};
use descriptors::SlotMap;
use out_of_memory::Memory;
use std::alloc::Global;
use volume_model::{TryCopy, XattrList};

/// The metadata of a new blob at a head: these attributes, and at most 2^20 slots, all empty.
pub fn new_meta(
    alloc: Global,
    head: u32,
    xattrs: XattrList,
    thick: bool,
    slots: u32,
) -> Result<Meta, Memory>
    requires { slots ≤ 2 ^ 20 }
    ensures { IfOk result (λ m. m ≡ j.new_meta head xattrs thick slots) }
{
    let mut map = SlotMap::new(alloc);
    map.push_run(None, slots)?;
    Ok(Meta {
        id: (1 << 32) + u64::from(head),
        flags: Flags {
            invalid: if thick { 0 } else { 1 },
            data_ro: 0,
            md_ro: 0,
        },
        xattrs,
        internal: XattrList::new(alloc),
        map,
    })
}

/// The map cut to so many slots, or with empty ones added behind.
fn resized_map(alloc: Global, map: &SlotMap, slots: u32) -> Result<SlotMap, Memory>
    requires { slots ≤ 2 ^ 20 }
    ensures { IfOk result (λ n. n ≡ take slots map.now ++ replicate (slots - length map.now) None) }
{
    let mut map = map.try_copy(alloc)?;
    if slots < map.len() {
        map.cut(slots);
    } else {
        map.push_run(None, slots - map.len())?;
    }
    Ok(map)
}

/// The metadata with so many slots, at most 2^20: cut, or with empty slots added behind.
pub fn resized_meta(alloc: Global, meta: &Meta, slots: u32) -> Result<Meta, Memory>
    requires { slots ≤ 2 ^ 20 }
    ensures { IfOk result (λ m. m ≡ j.resized_meta meta.now slots) }
{
    Ok(Meta {
        id: meta.id,
        flags: meta.flags,
        xattrs: meta.xattrs.try_copy(alloc)?,
        internal: meta.internal.try_copy(alloc)?,
        map: resized_map(alloc, &meta.map, slots)?,
    })
}
