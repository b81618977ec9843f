//! Plans of renames, and each cause of a refusal.

ghost use Rattle.lvol_store.specs.RenamePlans.{IsRename};

use crate::plan_stores::{Store, store_of_five, told_whole};
use crate::plan_tests::{name_of, volume};
use crate::told::expect;
use lvol_store::plan_rename;
use std::alloc::Global;
use std::test::Fail;
use volume_model::{Command, Name, VolumeRef};

fn rename(volume: VolumeRef, name: Name) -> Command
    ensures { IsRename result }
{
    Command::Rename { volume, name }
}

fn rename_told(
    alloc: Global,
    store: &Store,
    (head, of): (u32, &[u8]),
    name: &[u8],
) -> Result<Vec<u8>, Fail> {
    let name = name_of(name)?;
    let command = rename(volume(head, of), name);
    told_whole(
        alloc,
        &plan_rename(alloc, &store.metas, &store.sup, &command, 9),
    )
}

#[test]
fn renames_are_planned_or_refused(rt: HostRuntime) -> Result<(), Fail> {
    let alloc = rt.alloc();
    let store = store_of_five(alloc)?;
    let cases: &[(u32, &[u8], &[u8], &[u8])] = &[
        (0, b"thin", b"w", b"5 name=w\0 flags 1 slots - - - zero"),
        (7, b"", b"longer", b"7 name=longer\0 flags 0 slots 5 6 zero"),
        // The super blob's name is free.
        (
            0,
            b"clone",
            b"store",
            b"8 name=store\0 flags 1 slots - zero",
        ),
        (0, b"none", b"thin", b"NoVolume"),
        (9, b"", b"w", b"NoVolume"),
        (0, b"store", b"w", b"NoVolume"),
        (2, b"", b"thin", b"Reserved"),
        (0, b"fixed", b"thin", b"ReadOnly"),
        (0, b"thin", b"fixed", b"NameTaken"),
        (0, b"thin", b"thin", b"NameTaken"),
    ];
    for (head, of, name, wanted) in cases {
        let told = rename_told(alloc, &store, (*head, of), name)?;
        expect(&rt, &told, wanted);
    }
    Ok(())
}
