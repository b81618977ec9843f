//! Plans of snapshots and deletes, and each cause of a refusal.

ghost use Rattle.lvol_store.specs.CopyPlans.{IsSnapshot};
ghost use Rattle.lvol_store.specs.DeletePlans.{IsDelete};

use crate::plan_stores::{Store, store_of_five, told_whole};
use crate::plan_tests::{name_of, volume};
use crate::told::expect;
use lvol_store::{plan_delete, plan_snapshot};
use std::alloc::Global;
use std::test::Fail;
use volume_model::{Command, Name, VolumeRef};

fn snapshot(volume: VolumeRef, name: Name) -> Command
    ensures { IsSnapshot result }
{
    Command::Snapshot { volume, name }
}

fn delete(volume: VolumeRef) -> Command
    ensures { IsDelete result }
{
    Command::Delete { volume }
}

fn snapshot_told(
    alloc: Global,
    store: &Store,
    (head, of): (u32, &[u8]),
    name: &[u8],
) -> Result<Vec<u8>, Fail> {
    let name = name_of(name)?;
    let command = snapshot(volume(head, of), name);
    told_whole(
        alloc,
        &plan_snapshot(alloc, &store.metas, &store.sup, &command, 9),
    )
}

fn delete_told(alloc: Global, store: &Store, volume: VolumeRef) -> Result<Vec<u8>, Fail> {
    let command = delete(volume);
    told_whole(
        alloc,
        &plan_delete(alloc, &store.metas, &store.sup, &command),
    )
}

/// Each of the four replacements, with its attributes, and then their flags and slots.
#[test]
fn snapshots_are_planned_or_refused(rt: HostRuntime) -> Result<(), Fail> {
    let alloc = rt.alloc();
    let store = store_of_five(alloc)?;
    let cases: &[(u32, &[u8], &[u8], &[u8])] = &[
        (
            0,
            b"thick",
            b"s",
            b"9 name=s\0 uuid=dcba7055-762b-5179-b8a8-acbe97b9e818\0\
                9 name=s\0 uuid=dcba7055-762b-5179-b8a8-acbe97b9e818\07 name=thick\0\
                9 name=s\0 uuid=dcba7055-762b-5179-b8a8-acbe97b9e818\0 flags 1 slots - - flags 0 slots 5 6 \
                flags 1 slots - - flags 0 slots 5 6 zero",
        ),
        // The super blob's name is free.
        (
            8,
            b"",
            b"store",
            b"9 name=store\0 uuid=da63599b-b92b-598d-9e3f-032e55362006\0\
                9 name=store\0 uuid=da63599b-b92b-598d-9e3f-032e55362006\08 name=clone\0\
                9 name=store\0 uuid=da63599b-b92b-598d-9e3f-032e55362006\0 flags 1 slots - flags 1 slots - \
                flags 1 slots - flags 1 slots - zero",
        ),
        (0, b"none", b"thin", b"NoVolume"),
        (9, b"", b"s", b"NoVolume"),
        (0, b"store", b"s", b"NoVolume"),
        (2, b"", b"thin", b"Reserved"),
        (0, b"fixed", b"thin", b"ReadOnly"),
        (0, b"thin", b"fixed", b"NameTaken"),
        (0, b"thin", b"thin", b"NameTaken"),
    ];
    for (head, of, name, wanted) in cases {
        let told = snapshot_told(alloc, &store, (*head, of), name)?;
        expect(&rt, &told, wanted);
    }
    Ok(())
}

/// A blob that is erased is told by its head alone.
#[test]
fn deletes_are_planned_or_refused(rt: HostRuntime) -> Result<(), Fail> {
    let alloc = rt.alloc();
    let store = store_of_five(alloc)?;
    let cases: &[(u32, &[u8], &[u8])] = &[
        (0, b"thin", b"5 zero"),
        (7, b"", b"7 zero"),
        (
            0,
            b"fixed",
            b"6 name=fixed\08 name=clone\06 flags 1 slots - - - flags 1 slots - zero",
        ),
        (0, b"none", b"NoVolume"),
        (9, b"", b"NoVolume"),
        (0, b"store", b"NoVolume"),
        (2, b"", b"Reserved"),
    ];
    for (head, name, wanted) in cases {
        let told = delete_told(alloc, &store, volume(*head, name))?;
        expect(&rt, &told, wanted);
    }
    Ok(())
}
