//! Each cause of a refusal.

ghost use Rattle.std.specs.Prelude.{IfOk};
ghost use Rattle.blob_meta.specs.Asked.{IsOnAttributes};

use crate::fixtures::{expect_text, small, text_of};
use blob_meta::{Flags, Meta, Metas, asked_volume, find, refusal_of};
use descriptors::SlotMap;
use std::alloc::Global;
use std::test::Fail;
use super_block::Super;
use volume_model::{Blobtext, Command, Memory, Name, Reply, VolumeRef, XattrList};

/// What is asked, with the length of the value.
#[derive(Clone, Copy)]
enum Verb {
    Set(usize),
    Remove,
    Tell,
    Put(usize),
    Sync,
}

fn value(alloc: Global, length: usize) -> Result<Blobtext, Memory> {
    Blobtext::new(alloc, &[0x61; 4096][..length.min(4096)])
}

fn command(alloc: Global, verb: Verb, volume: VolumeRef, key: Blobtext) -> Result<Command, Memory>
    ensures { IfOk result IsOnAttributes }
{
    match verb {
        Verb::Set(length) => Ok(Command::SetX {
            volume,
            key,
            value: value(alloc, length)?,
        }),
        Verb::Remove => Ok(Command::DelX { volume, key }),
        Verb::Tell => Ok(Command::GetX { volume, key }),
        Verb::Put(length) => Ok(Command::Put {
            volume,
            key,
            value: value(alloc, length)?,
        }),
        Verb::Sync => Ok(Command::Sync { volume }),
    }
}

fn blob(alloc: Global, head: u32, name: &[u8], data_ro: u64) -> Result<Meta, Memory> {
    Ok(Meta {
        id: (1 << 32) + u64::from(head),
        flags: Flags {
            invalid: 0,
            data_ro,
            md_ro: 0,
        },
        xattrs: XattrList::new(alloc).with_value(alloc, b"name", name)?,
        internal: XattrList::new(alloc),
        map: SlotMap::new(alloc),
    })
}

/// The super blob is at 2, a blob that can be written at 5, a read-only one at 6, and none at 9.
fn three_blobs(alloc: Global) -> Result<Metas, Memory> {
    let mut metas = Metas::new(alloc);
    let blobs: &[(u32, &[u8], u64)] = &[(2, b"store\0", 0), (5, b"open\0", 0), (6, b"fixed\0", 1)];
    for (head, name, data_ro) in blobs {
        metas.insert(*head, blob(alloc, *head, name, *data_ro)?)?;
    }
    Ok(metas)
}

/// What is answered where a blob's live attribute is `owner` alone.
fn answer(
    alloc: Global,
    metas: &Metas,
    sup: &Super,
    command: &Command,
) -> Result<Option<Reply>, Memory>
    requires { IsOnAttributes command.now }
{
    let live = XattrList::new(alloc).with_value(alloc, b"owner", b"owner")?;
    match find(metas, sup, asked_volume(command)) {
        Some(_) => Ok(refusal_of(metas, sup, Some(&live), command)),
        None => Ok(refusal_of(metas, sup, None, command)),
    }
}

/// The answer as its text.
fn answer_text(alloc: Global, metas: &Metas, command: &Command) -> Result<String, Fail>
    requires { IsOnAttributes command.now }
{
    let sup = small((1 << 32) + 2)?;
    let found = answer(alloc, metas, &sup, command)?;
    text_of(alloc, &found)
}

/// The answer to what is asked of a volume.
fn asked(
    alloc: Global,
    metas: &Metas,
    verb: Verb,
    volume: VolumeRef,
    key: &[u8],
) -> Result<String, Fail> {
    let command = command(alloc, verb, volume, Blobtext::new(alloc, key)?)?;
    answer_text(alloc, metas, &command)
}

static CASES: [(Verb, u32, &[u8], &str); 26] = [
    (Verb::Set(3), 9, b"name", "Some(NoVolume)"),
    (Verb::Set(3), 2, b"owner", "Some(Reserved)"),
    (Verb::Set(3), 6, b"name", "Some(Reserved)"),
    (Verb::Set(4059), 6, b"owner", "Some(ReadOnly)"),
    (Verb::Set(4059), 5, b"owner", "Some(TooLong)"),
    (Verb::Set(4058), 5, b"owner", "None"),
    (Verb::Remove, 9, b"name", "Some(NoVolume)"),
    (Verb::Remove, 2, b"color", "Some(Reserved)"),
    (Verb::Remove, 6, b"uuid", "Some(Reserved)"),
    (Verb::Remove, 6, b"color", "Some(ReadOnly)"),
    (Verb::Remove, 5, b"color", "Some(NoValue)"),
    (Verb::Remove, 5, b"owner", "None"),
    (Verb::Tell, 9, b"color", "Some(NoVolume)"),
    (Verb::Tell, 5, b"color", "Some(NoValue)"),
    (Verb::Tell, 5, b"name", "Some(NoValue)"),
    (Verb::Tell, 2, b"owner", "None"),
    (Verb::Tell, 6, b"owner", "None"),
    (Verb::Put(3), 9, b"uuid", "Some(NoVolume)"),
    (Verb::Put(3), 5, b"uuid", "Some(Reserved)"),
    (Verb::Put(4059), 6, b"owner", "Some(ReadOnly)"),
    (Verb::Put(4059), 5, b"owner", "Some(TooLong)"),
    (Verb::Put(4058), 5, b"owner", "None"),
    (Verb::Sync, 9, b"", "Some(NoVolume)"),
    (Verb::Sync, 2, b"", "Some(Reserved)"),
    (Verb::Sync, 6, b"", "Some(ReadOnly)"),
    (Verb::Sync, 5, b"", "None"),
];

#[test]
fn the_first_cause_is_answered(rt: HostRuntime) -> Result<(), Fail> {
    let metas = three_blobs(rt.alloc())?;
    for (verb, head, key, wanted) in &CASES {
        let found = asked(rt.alloc(), &metas, *verb, VolumeRef::Head(*head), key)?;
        expect_text(&rt, &found, wanted);
    }
    Ok(())
}

#[test]
fn a_volume_is_named_by_its_name_too(rt: HostRuntime) -> Result<(), Fail> {
    let metas = three_blobs(rt.alloc())?;
    let cases: [(Verb, Name, &str); 5] = [
        (Verb::Put(3), Name::new(b"open"), "None"),
        (Verb::Put(3), Name::new(b"fixed"), "Some(ReadOnly)"),
        (Verb::Tell, Name::new(b"fixed"), "None"),
        (Verb::Sync, Name::new(b"none"), "Some(NoVolume)"),
        // The super blob is named by its head alone.
        (Verb::Sync, Name::new(b"store"), "Some(NoVolume)"),
    ];
    for (verb, name, wanted) in cases {
        let found = asked(rt.alloc(), &metas, verb, VolumeRef::Named(name), b"owner")?;
        expect_text(&rt, &found, wanted);
    }
    Ok(())
}
