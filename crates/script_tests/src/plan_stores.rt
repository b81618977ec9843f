//! The stores that plans are made on, and plans with what they write.

use crate::plan_tests::{sup, told};
use blob_meta::{Flags, Job, Meta, Metas};
use descriptors::SlotMap;
use out_of_memory::Memory;
use std::alloc::Global;
use std::test::Fail;
use super_block::Super;
use volume_model::{Reply, Xattr, XattrList};

fn xattrs(alloc: Global, all: &[(&[u8], &[u8])]) -> Result<XattrList, Memory> {
    let mut list = XattrList::new(alloc);
    for (key, value) in all {
        list.push(Xattr::new(alloc, key, value)?)?;
    }
    Ok(list)
}

/// A blob of these attributes, with the flags `invalid` and `data_ro`, and so many slots, from cluster 5 on or empty.
fn blob(
    alloc: Global,
    head: u32,
    xattrs: XattrList,
    flags: (u64, u64),
    slots: u32,
) -> Result<Meta, Memory> {
    let filled = if flags.0 == 0 { Some(5) } else { None };
    let mut map = SlotMap::new(alloc);
    if slots <= 16 {
        map.push_run(filled, slots)?;
    }
    Ok(Meta {
        id: (1 << 32) + u64::from(head),
        flags: Flags {
            invalid: flags.0,
            data_ro: flags.1,
            md_ro: 0,
        },
        xattrs,
        internal: XattrList::new(alloc),
        map,
    })
}

/// The super blob, which has a uuid.
fn super_blob(alloc: Global) -> Result<Meta, Memory> {
    let attributes: &[(&[u8], &[u8])] = &[
        (b"name", b"store\0"),
        (b"uuid", b"5f2b4e66-0d0c-4c1e-9a55-3f0a7c2d9b10\0"),
    ];
    blob(alloc, 2, xattrs(alloc, attributes)?, (1, 0), 0)
}

/// A blob of this name alone.
fn named(
    alloc: Global,
    head: u32,
    name: &[u8],
    flags: (u64, u64),
    slots: u32,
) -> Result<Meta, Memory> {
    blob(
        alloc,
        head,
        xattrs(alloc, &[(b"name", name)])?,
        flags,
        slots,
    )
}

/// A blob with a parent at 6.
fn clone_of_six(alloc: Global) -> Result<Meta, Memory> {
    let internal = xattrs(alloc, &[(b"SNAP", b"\x06\0\0\0\x01\0\0\0")])?;
    let mut clone = named(alloc, 8, b"clone\0", (1, 0), 1)?;
    clone.internal = internal;
    Ok(clone)
}

fn insert_named(metas: &mut Metas, alloc: Global) -> Result<(), Memory> {
    let blobs: &[(u32, &[u8], (u64, u64), u32)] = &[
        (5, b"thin\0", (1, 0), 3),
        (6, b"fixed\0", (1, 1), 3),
        (7, b"thick\0", (0, 0), 2),
    ];
    for (head, name, flags, slots) in blobs {
        metas.insert(*head, named(alloc, *head, name, *flags, *slots)?)?;
    }
    Ok(())
}

fn insert_others(metas: &mut Metas, alloc: Global) -> Result<(), Memory> {
    metas.insert(2, super_blob(alloc)?)?;
    metas.insert(8, clone_of_six(alloc)?)?;
    Ok(())
}

/// The super blob at 2, a thin blob at 5, a read-only one at 6, a thick one at 7, and at 8 one whose parent at 6 has
/// more slots.
pub fn metas(alloc: Global) -> Result<Metas, Memory> {
    let mut metas = Metas::new(alloc);
    insert_named(&mut metas, alloc)?;
    insert_others(&mut metas, alloc)?;
    Ok(metas)
}

fn push_number(text: &mut Vec<u8>, alloc: Global, number: Option<u32>) -> Result<(), Fail> {
    let piece = match number {
        Some(number) => format!(in alloc; " {number}")?,
        None => format!(in alloc; " -")?,
    };
    text.extend_from_slice(piece.as_bytes())?;
    Ok(())
}

fn push_slots(text: &mut Vec<u8>, alloc: Global, meta: &Meta) -> Result<(), Fail> {
    let invalid = meta.flags.invalid;
    text.extend_from_slice(format!(in alloc; " flags {invalid} slots")?.as_bytes())?;
    for cluster in meta.map.as_slice() {
        push_number(text, alloc, *cluster)?;
    }
    Ok(())
}

fn push_all_slots(text: &mut Vec<u8>, alloc: Global, job: &Job) -> Result<(), Fail> {
    for replacement in job.list.as_slice() {
        if let Some(meta) = &replacement.new {
            push_slots(text, alloc, meta)?;
        }
    }
    Ok(())
}

fn push_zero(text: &mut Vec<u8>, alloc: Global, job: &Job) -> Result<(), Fail> {
    text.extend_from_slice(b" zero")?;
    for slot in job.zero.as_slice() {
        push_number(text, alloc, Some(*slot))?;
    }
    Ok(())
}

/// A plan with its attributes, its slots, and those that get a cluster of zeros; or the reply.
pub fn told_whole(alloc: Global, plan: &Result<Job, Reply>) -> Result<Vec<u8>, Fail> {
    let mut text = told(alloc, plan)?;
    if let Ok(job) = plan {
        push_all_slots(&mut text, alloc, job)?;
        push_zero(&mut text, alloc, job)?;
    }
    Ok(text)
}

/// A super block and the metadata of a store.
pub struct Store {
    pub sup: Super,
    pub metas: Metas,
}

// By hand: to let a store go is one call then, at each place where control leaves.
impl Drop for Store {
    fn drop(self) {
        let Store { sup: _, metas: _ } = self;
    }
}

/// The store of the super blob at 2, with the blobs above.
pub fn store_of_five(alloc: Global) -> Result<Store, Fail> {
    let sup = sup()?;
    Ok(Store {
        sup,
        metas: metas(alloc)?,
    })
}
