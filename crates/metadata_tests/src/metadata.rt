//! Each fault of metadata, and each public call once.

use crate::fixtures::{attribute, expect_text, internal_attribute, small, text_of};
use blob_meta::{Flags, Job, Meta, Metas, find, from_items, to_items};
use descriptors::{Item, ItemList, SlotMap};
use std::alloc::Global;
use std::process::Abort;
use std::test::Fail;
use volume_model::{Memory, Name, RunList, SlotRun, TryCopy, VolumeRef, Xattr, XattrList};

/// What one item of a case says.
enum Says {
    Flags(u64),
    Runs(&'static [(u32, u32)]),
    Attribute(&'static [u8], &'static [u8]),
    Internal(&'static [u8], &'static [u8]),
}

fn run_list(alloc: Global, runs: &[(u32, u32)]) -> Result<RunList, Memory> {
    let mut list = RunList::new(alloc);
    for (cluster, length) in runs {
        list.push(SlotRun {
            cluster: *cluster,
            length: *length,
        })?;
    }
    Ok(list)
}

fn item(alloc: Global, says: &Says) -> Result<Item, Memory> {
    match says {
        Says::Flags(invalid) => Ok(Item::Flags {
            invalid: *invalid,
            data_ro: 0,
            md_ro: 0,
        }),
        Says::Runs(runs) => Ok(Item::Rle(run_list(alloc, runs)?)),
        Says::Attribute(key, value) => attribute(alloc, key, value),
        Says::Internal(key, value) => internal_attribute(alloc, key, value),
    }
}

fn items(alloc: Global, case: &[Says]) -> Result<ItemList, Memory> {
    let mut list = ItemList::new(alloc);
    for says in case {
        list.push(item(alloc, says)?)?;
    }
    Ok(list)
}

const CASES: &[(&[Says], &str)] = &[
    (&[Says::Flags(u64::MAX)], "unknown flags 0xfffffffffffffffc"),
    (
        &[Says::Runs(&[(0, 1 << 20), (5, 1)])],
        "1048577 slots where at most 1048576 are possible",
    ),
    (
        &[Says::Flags(1), Says::Runs(&[(0, 2), (4, 1)])],
        "cluster 4 is not one that a blob may have",
    ),
    (
        &[Says::Runs(&[(5, 1), (14, 3)])],
        "cluster 16 is not one that a blob may have",
    ),
    (
        &[Says::Runs(&[(5, 2), (0, 1)]), Says::Flags(2)],
        "slot 2 of a thick blob is empty",
    ),
    (
        &[Says::Internal(b"SNAP", &[1, 0, 0, 0])],
        "a mark of 4 bytes where 8 are wanted",
    ),
    // Two tests fail.
    (
        &[Says::Flags(4), Says::Runs(&[(0, (1 << 20) + 1)])],
        "unknown flags 0x4",
    ),
    (
        &[Says::Runs(&[(4, 1), (0, 1 << 20)])],
        "1048577 slots where at most 1048576 are possible",
    ),
    (
        &[Says::Runs(&[(0, 1), (16, 1)])],
        "cluster 16 is not one that a blob may have",
    ),
    (
        &[Says::Internal(b"SNAPRM", &[]), Says::Runs(&[(0, 1)])],
        "slot 0 of a thick blob is empty",
    ),
    (
        &[
            Says::Internal(b"SNAPTMP", &[1; 9]),
            Says::Internal(b"SNAP", &[]),
        ],
        "a mark of 9 bytes where 8 are wanted",
    ),
    // Neither an empty slot of a thin blob nor another internal attribute is a fault.
    (
        &[
            Says::Flags(3),
            Says::Runs(&[(0, 1), (15, 1)]),
            Says::Internal(b"OTHER", &[]),
        ],
        "",
    ),
];

/// The fault of the metadata that these items say; nothing where it has none.
fn fault_of(alloc: Global, case: &[Says]) -> Result<String, Fail> {
    let list = items(alloc, case)?;
    match from_items(alloc, 0, &list, &small(u64::MAX)?) {
        Ok(_) => Ok(String::new(alloc)),
        Err(fault) => Ok(format!(in alloc; "{fault}")?),
    }
}

#[test]
fn the_first_test_that_fails_is_the_fault(rt: HostRuntime) -> Result<(), Fail> {
    for (case, wanted) in CASES {
        let found = fault_of(rt.alloc(), case)?;
        expect_text(&rt, &found, wanted);
    }
    Ok(())
}

fn one(alloc: Global, key: &[u8], value: &[u8]) -> Result<XattrList, Memory> {
    let mut list = XattrList::new(alloc);
    list.push(Xattr::new(alloc, key, value)?)?;
    Ok(list)
}

/// A thin blob of this name with four slots, of which the first holds cluster 5.
fn named(alloc: Global, head: u32, name: &[u8]) -> Result<Meta, Memory> {
    let mut map = SlotMap::new(alloc);
    map.push_run(Some(5), 1)?;
    map.push_run(None, 3)?;
    Ok(Meta {
        id: (1 << 32) + u64::from(head),
        flags: Flags {
            invalid: 1,
            data_ro: 0,
            md_ro: 0,
        },
        xattrs: one(alloc, b"name", name)?,
        internal: one(alloc, b"SNAP", &[1, 0, 0, 0, 1, 0, 0, 0])?,
        map,
    })
}

/// The items of the blob named `a`.
const ITEMS: [Says; 4] = [
    Says::Flags(3),
    Says::Attribute(b"name", b"a\0"),
    Says::Internal(b"SNAP", &[1, 0, 0, 0, 1, 0, 0, 0]),
    Says::Runs(&[(5, 1), (0, 3)]),
];

/// The items in which metadata is written, as text.
fn written(alloc: Global, meta: &Meta) -> Result<String, Fail> {
    text_of(alloc, &to_items(alloc, meta)?)
}

/// The items of the blob named `a`, as text.
fn items_of_a(alloc: Global) -> Result<String, Fail> {
    text_of(alloc, &items(alloc, &ITEMS)?)
}

#[test]
fn metadata_is_written(rt: HostRuntime) -> Result<(), Fail> {
    let found = written(rt.alloc(), &named(rt.alloc(), 7, b"a\0")?)?;
    expect_text(&rt, &found, items_of_a(rt.alloc())?.as_str());
    Ok(())
}

/// What is read of the items in which metadata is written, as text.
fn read_again(alloc: Global, meta: &Meta) -> Result<String, Fail> {
    let list = to_items(alloc, meta)?;
    let read = from_items(alloc, 7, &list, &small(u64::MAX)?)?;
    text_of(alloc, &read)
}

/// A copy of metadata as text.
fn copied(alloc: Global, meta: &Meta) -> Result<String, Fail> {
    text_of(alloc, &meta.try_copy(alloc)?)
}

#[test]
fn written_metadata_is_read(rt: HostRuntime) -> Result<(), Fail> {
    let meta = named(rt.alloc(), 7, b"a\0")?;
    let wanted = copied(rt.alloc(), &meta)?;
    expect_text(&rt, &read_again(rt.alloc(), &meta)?, wanted.as_str());
    Ok(())
}

/// The super blob is at 2, and the store's volumes are at 6 and 9.
fn three_blobs(alloc: Global) -> Result<Metas, Memory> {
    let mut metas = Metas::new(alloc);
    let blobs: &[(u32, &[u8])] = &[(9, b"a"), (6, b"a\0"), (2, b"a")];
    for (head, name) in blobs {
        metas.insert(*head, named(alloc, *head, name)?)?;
    }
    Ok(metas)
}

/// Expects that a volume is the blob at this head, where the super blob is at 2.
fn expect_found(
    rt: &impl Abort,
    metas: &Metas,
    volume: &VolumeRef,
    wanted: Option<u32>,
) -> Result<(), Fail> {
    let sup = small((1 << 32) + 2)?;
    assert!(rt; find(metas, &sup, volume) == wanted);
    Ok(())
}

#[test]
fn blobs_are_found(rt: HostRuntime) -> Result<(), Fail> {
    let metas = three_blobs(rt.alloc())?;
    let cases = [
        (VolumeRef::Named(Name::new(b"a")), Some(6)),
        (VolumeRef::Named(Name::new(b"b")), None),
        (VolumeRef::Head(2), Some(2)),
        (VolumeRef::Head(3), None),
    ];
    for (volume, wanted) in &cases {
        expect_found(&rt, &metas, volume, *wanted)?;
    }
    Ok(())
}

/// The three blobs, of which the one at 6 has another name.
fn renamed_blobs(alloc: Global) -> Result<Metas, Memory> {
    let mut metas = three_blobs(alloc)?;
    metas.insert(6, named(alloc, 6, b"b")?)?;
    Ok(metas)
}

#[test]
fn a_blob_of_another_name_is_found_by_that(rt: HostRuntime) -> Result<(), Fail> {
    let metas = renamed_blobs(rt.alloc())?;
    expect_found(&rt, &metas, &VolumeRef::Named(Name::new(b"a")), Some(9))?;
    expect_found(&rt, &metas, &VolumeRef::Named(Name::new(b"b")), Some(6))
}

#[test]
fn a_job_of_one_replacement_is_its_commit(rt: HostRuntime) -> Result<(), Fail> {
    let alloc = rt.alloc();
    let job = Job::of_one(alloc, 7, named(alloc, 7, b"a")?)?;
    assert!(rt; job.list.len() == 1 && job.commit == 1);
    assert!(rt; job.zero.len() == 0 && job.freeze.is_none());
    Ok(())
}
