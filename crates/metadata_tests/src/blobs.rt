//! Blobs that stand in families, as metadata, and what is seen of them.

use blob_meta::{Flags, Meta, Metas, ReplacementList, mark_of, parent_of};
use descriptors::SlotMap;
use std::alloc::Global;
use std::process::Abort;
use volume_model::{Memory, XattrList};

/// A blob: its map, its flags, and the heads that SNAP, SNAPTMP and SNAPRM name.
#[derive(Clone, Copy)]
pub(crate) struct Blob {
    pub(crate) head: u32,
    /// The value of `name`, up to a NUL, where it isn't empty.
    pub(crate) name: &'static [u8],
    pub(crate) data_ro: u64,
    pub(crate) md_ro: u64,
    pub(crate) map: &'static [Option<u32>],
    pub(crate) snap: Option<u32>,
    pub(crate) tmp: Option<u32>,
    pub(crate) rm: Option<u32>,
}

/// A blob without name, parent or mark, with cluster 7 in its one slot.
pub(crate) const PLAIN: Blob = Blob {
    head: 5,
    name: b"",
    data_ro: 0,
    md_ro: 0,
    map: &[Some(7)],
    snap: None,
    tmp: None,
    rm: None,
};

/// A blob whose parent is at head 3, and that has no cluster of its own.
pub(crate) const CHILD: Blob = Blob {
    map: &[None],
    snap: Some(3),
    ..PLAIN
};

/// A read-only blob `g` at head 1 of six slots.
pub(crate) const GRANDPARENT: Blob = Blob {
    head: 1,
    name: b"g\0",
    data_ro: 1,
    map: &[Some(5), Some(6), Some(7), Some(8), Some(9), Some(10)],
    ..PLAIN
};

/// Over `g`, a read-only blob `s` at head 3 of four slots, of which two are empty.
pub(crate) const PARENT: Blob = Blob {
    head: 3,
    name: b"s\0",
    data_ro: 1,
    map: &[Some(11), None, Some(12), None],
    snap: Some(1),
    ..PLAIN
};

/// Expects that this is the text that is wanted.
pub(crate) fn expect(rt: &impl Abort, found: &str, wanted: &str) {
    assert_eq!(rt; found, wanted);
}

fn with_id(
    alloc: Global,
    list: XattrList,
    key: &[u8],
    head: Option<u32>,
) -> Result<XattrList, Memory> {
    match head {
        Some(head) => {
            let id = (1 << 32) + u64::from(head);
            list.with_value(alloc, key, &id.to_le_bytes())
        }
        None => Ok(list),
    }
}

fn named(alloc: Global, name: &[u8]) -> Result<XattrList, Memory> {
    let none = XattrList::new(alloc);
    if name.is_empty() {
        Ok(none)
    } else {
        none.with_value(alloc, b"name", name)
    }
}

/// Appends a slot, empty or with a cluster other than 0, to a map with fewer than 2^20 slots.
fn push_slot(map: &mut SlotMap, slot: Option<u32>) -> Result<(), Memory> {
    if map.len() >= 1 << 20 {
        return Err(Memory);
    }
    let Some(cluster) = slot else {
        return map.push_run(None, 1);
    };
    if cluster == 0 {
        return Err(Memory);
    }
    map.push_run(Some(cluster), 1)
}

fn map_of(alloc: Global, slots: &[Option<u32>]) -> Result<SlotMap, Memory> {
    let mut map = SlotMap::new(alloc);
    for slot in slots {
        push_slot(&mut map, *slot)?;
    }
    Ok(map)
}

/// The parent and the marks of a blob.
fn internal_of(alloc: Global, blob: &Blob) -> Result<XattrList, Memory> {
    let internal = with_id(alloc, XattrList::new(alloc), b"SNAP", blob.snap)?;
    let internal = with_id(alloc, internal, b"SNAPTMP", blob.tmp)?;
    with_id(alloc, internal, b"SNAPRM", blob.rm)
}

fn meta_of(alloc: Global, blob: &Blob) -> Result<Meta, Memory> {
    let map = map_of(alloc, blob.map)?;
    let internal = internal_of(alloc, blob)?;
    Ok(Meta {
        id: (1 << 32) + u64::from(blob.head),
        flags: Flags {
            invalid: 1,
            data_ro: blob.data_ro,
            md_ro: blob.md_ro,
        },
        xattrs: named(alloc, blob.name)?,
        internal,
        map,
    })
}

pub(crate) fn metas_of(alloc: Global, blobs: &[Blob]) -> Result<Metas, Memory> {
    let mut metas = Metas::new(alloc);
    for blob in blobs {
        metas.insert(blob.head, meta_of(alloc, blob)?)?;
    }
    Ok(metas)
}

/// The head, the flag `data_ro`, the map, the parent, and whether there is a mark.
fn shown(alloc: Global, head: u32, meta: &Meta) -> Result<String, Memory> {
    let (map, parent, marked) = (
        meta.map.as_slice(),
        parent_of(meta),
        mark_of(meta).is_some(),
    );
    format!(in alloc;
        "{head}: {} {map:?} {parent:?} {marked};",
        meta.flags.data_ro
    )
    .map_err(|_| Memory)
}

pub(crate) fn metas_shown(alloc: Global, metas: &Metas) -> Result<String, Memory> {
    let mut text = String::new(alloc);
    for head in 0..10 {
        if let Some(meta) = metas.get(head) {
            text.push_str(shown(alloc, head, meta)?.as_str())?;
        }
    }
    Ok(text)
}

pub(crate) fn replacements_shown(alloc: Global, list: &ReplacementList) -> Result<String, Memory> {
    let mut text = String::new(alloc);
    for replacement in list.as_slice() {
        let piece = match &replacement.new {
            Some(meta) => shown(alloc, replacement.head, meta)?,
            None => format!(in alloc; "{} erased;", replacement.head).map_err(|_| Memory)?,
        };
        text.push_str(piece.as_str())?;
    }
    Ok(text)
}
