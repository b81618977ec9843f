//! Plans of creates, clones and resizes, and each cause of a refusal.

ghost use Rattle.blob_meta.specs.SlotCounts.{IsCreate, IsResize};
ghost use Rattle.lvol_store.specs.CopyPlans.{IsClone};

use crate::plan_stores::{Store, metas, store_of_five, told_whole};
use crate::plan_tests::{name_of, volume};
use crate::told::expect;
use blob_meta::{Job, parent_of};
use lvol_store::{plan_clone, plan_create, plan_resize, store_uuid};
use std::alloc::Global;
use std::test::Fail;
use super_block::Layout;
use volume_model::{Command, Name, Reply, VolumeRef};

fn create(name: Name, slots: u64, thick: bool, uuid: Option<[u8; 16]>) -> Command
    ensures { IsCreate result }
{
    Command::Create {
        name,
        slots,
        thick,
        uuid,
    }
}

fn clone_of(volume: VolumeRef, name: Name) -> Command
    ensures { IsClone result }
{
    Command::Clone { volume, name }
}

fn resize(volume: VolumeRef, slots: u64) -> Command
    ensures { IsResize result }
{
    Command::Resize { volume, slots }
}

const UUID: [u8; 16] = [
    0x67, 0xe5, 0x50, 0x44, 0x10, 0xb1, 0x42, 0x6f, 0x92, 0x47, 0xbb, 0x68, 0x0e, 0x5f, 0xe0, 0xc8,
];

fn create_told(
    alloc: Global,
    store: &Store,
    asked: (&[u8], u64, bool, Option<[u8; 16]>),
) -> Result<Vec<u8>, Fail> {
    let name = name_of(asked.0)?;
    let command = create(name, asked.1, asked.2, asked.3);
    told_whole(
        alloc,
        &plan_create(alloc, &store.metas, &store.sup, &command, 9),
    )
}

#[test]
fn creates_are_planned_or_refused(rt: HostRuntime) -> Result<(), Fail> {
    let alloc = rt.alloc();
    let store = store_of_five(alloc)?;
    let cases: &[((&[u8], u64, bool, Option<[u8; 16]>), &[u8])] = &[
        (
            (b"v", 2, false, None),
            b"9 name=v\0 uuid=98487c0f-efa2-5b6a-ab3e-3f7187dfcaee\0 flags 1 slots - - zero",
        ),
        (
            (b"v", 3, true, Some(UUID)),
            b"9 name=v\0 uuid=67e55044-10b1-426f-9247-bb680e5fe0c8\0 flags 0 slots - - - zero 0 1 2",
        ),
        // The super blob's name is free.
        (
            (b"store", 0, true, None),
            b"9 name=store\0 uuid=da63599b-b92b-598d-9e3f-032e55362006\0 flags 0 slots zero",
        ),
        ((b"thin", 2, false, None), b"NameTaken"),
        ((b"fixed", 1 << 30, false, None), b"NameTaken"),
        ((b"v", (1 << 20) + 1, false, None), b"TooLarge"),
    ];
    for (asked, wanted) in cases {
        expect(&rt, &create_told(alloc, &store, *asked)?, wanted);
    }
    Ok(())
}

/// A store without a super blob, with blobs.
fn store_without_super_blob(alloc: Global) -> Result<Store, Fail> {
    let sup = Layout::plan(64, 4, Some(16))?.new_super(u64::MAX, [0; 16]);
    Ok(Store {
        sup,
        metas: metas(alloc)?,
    })
}

/// Without a super blob the store's uuid is nil.
#[test]
fn a_store_without_a_super_blob_plans_creates(rt: HostRuntime) -> Result<(), Fail> {
    let alloc = rt.alloc();
    let store = store_without_super_blob(alloc)?;
    assert_eq!(rt; store_uuid(&store.metas, &store.sup), [0; 16]);
    expect(
        &rt,
        &create_told(alloc, &store, (b"v", 0, false, None))?,
        b"9 name=v\0 uuid=80e2434c-466c-59a0-a364-5d8d01601338\0 flags 1 slots zero",
    );
    Ok(())
}

/// Whether the parent of each blob that a plan writes is at 6; also where it is refused.
fn are_clones_of_six(plan: &Result<Job, Reply>) -> bool {
    let Ok(job) = plan else {
        return true;
    };
    job.list
        .as_slice()
        .iter()
        .all(|replacement| match &replacement.new {
            Some(meta) => parent_of(meta) == Some(6),
            None => false,
        })
}

/// A plan as a text, and whether the parent of each blob that it writes is at 6.
fn told_with_parent(alloc: Global, plan: &Result<Job, Reply>) -> Result<(Vec<u8>, bool), Fail> {
    Ok((told_whole(alloc, plan)?, are_clones_of_six(plan)))
}

fn clone_told(
    alloc: Global,
    store: &Store,
    (head, of): (u32, &[u8]),
    name: &[u8],
) -> Result<(Vec<u8>, bool), Fail> {
    let name = name_of(name)?;
    let command = clone_of(volume(head, of), name);
    told_with_parent(
        alloc,
        &plan_clone(alloc, &store.metas, &store.sup, &command, 9),
    )
}

#[test]
fn clones_are_planned_or_refused(rt: HostRuntime) -> Result<(), Fail> {
    let alloc = rt.alloc();
    let store = store_of_five(alloc)?;
    let cases: &[(u32, &[u8], &[u8], &[u8])] = &[
        (
            0,
            b"fixed",
            b"v",
            b"9 name=v\0 uuid=98487c0f-efa2-5b6a-ab3e-3f7187dfcaee\0 flags 1 slots - - - zero",
        ),
        (
            6,
            b"",
            b"store",
            b"9 name=store\0 uuid=da63599b-b92b-598d-9e3f-032e55362006\0 flags 1 slots - - - zero",
        ),
        (0, b"none", b"thin", b"NoVolume"),
        (9, b"", b"v", b"NoVolume"),
        (0, b"thin", b"thin", b"NotReadOnly"),
        (2, b"", b"v", b"NotReadOnly"),
        (0, b"fixed", b"clone", b"NameTaken"),
    ];
    for (head, of, name, wanted) in cases {
        let (told, are_of_six) = clone_told(alloc, &store, (*head, of), name)?;
        expect(&rt, &told, wanted);
        assert!(rt; are_of_six);
    }
    Ok(())
}

fn resize_told(
    alloc: Global,
    store: &Store,
    volume: VolumeRef,
    slots: u64,
) -> Result<Vec<u8>, Fail> {
    let command = resize(volume, slots);
    told_whole(
        alloc,
        &plan_resize(alloc, &store.metas, &store.sup, &command, 9),
    )
}

#[test]
fn resizes_are_planned_or_refused(rt: HostRuntime) -> Result<(), Fail> {
    let alloc = rt.alloc();
    let store = store_of_five(alloc)?;
    let cases: &[(u32, &[u8], u64, &[u8])] = &[
        (0, b"thin", 5, b"5 name=thin\0 flags 1 slots - - - - - zero"),
        (5, b"", 1, b"5 name=thin\0 flags 1 slots - zero"),
        (
            0,
            b"thick",
            5,
            b"7 name=thick\0 flags 0 slots 5 6 - - - zero 2 3 4",
        ),
        (0, b"thick", 1, b"7 name=thick\0 flags 0 slots 5 zero"),
        (0, b"clone", 0, b"8 name=clone\0 flags 1 slots zero"),
        (0, b"none", 5, b"NoVolume"),
        (9, b"", 5, b"NoVolume"),
        (0, b"store", 5, b"NoVolume"),
        (2, b"", 5, b"Reserved"),
        (0, b"fixed", 1 << 30, b"ReadOnly"),
        (0, b"clone", 1 << 30, b"Short"),
        (0, b"thin", (1 << 20) + 1, b"TooLarge"),
    ];
    for (head, name, slots, wanted) in cases {
        let told = resize_told(alloc, &store, volume(*head, name), *slots)?;
        expect(&rt, &told, wanted);
    }
    Ok(())
}
