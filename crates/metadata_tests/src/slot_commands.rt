//! Each cause for which a create or a resize is refused, and the metadata that they make.

ghost use Rattle.blob_meta.specs.SlotCounts.{IsCreate, IsResize};

use crate::fixtures::{expect_text, small, text_of};
use blob_meta::{Flags, Meta, Metas, new_meta, refusal_of_create, refusal_of_resize, resized_meta};
use descriptors::SlotMap;
use std::alloc::Global;
use std::process::Abort;
use std::test::Fail;
use volume_model::{Command, Memory, Name, VolumeRef, XattrList};

const SNAP: &[u8] = b"SNAP";

const SIX: &[u8] = b"\x06\0\0\0\x01\0\0\0";

fn name_of(name: &str) -> Name {
    match name {
        "v" => Name::new(b"v"),
        "w" => Name::new(b"w"),
        "store" => Name::new(b"store"),
        _ => Name::new(b"u"),
    }
}

fn create(name: Name, slots: u64) -> Command
    ensures { IsCreate result }
{
    Command::Create {
        name,
        slots,
        thick: false,
        uuid: None,
    }
}

fn resize(head: u32, slots: u64) -> Command
    ensures { IsResize result }
{
    Command::Resize {
        volume: VolumeRef::Head(head),
        slots,
    }
}

/// A thin blob of this name that has six slots, of which two are empty, and this flag `data_ro`.
fn blob(alloc: Global, head: u32, name: &[u8], data_ro: u64) -> Result<Meta, Memory> {
    let mut map = SlotMap::new(alloc);
    map.push_run(Some(5), 3)?;
    map.push_run(None, 2)?;
    map.push_run(Some(9), 1)?;
    Ok(Meta {
        id: (1 << 32) + u64::from(head),
        flags: Flags {
            invalid: 1,
            data_ro,
            md_ro: 0,
        },
        xattrs: XattrList::new(alloc).with_value(alloc, b"name", name)?,
        internal: XattrList::new(alloc),
        map,
    })
}

/// A blob at 8 of no slot, whose parent is at 6.
fn clone_of_six(alloc: Global) -> Result<Meta, Memory> {
    let mut clone = new_meta(alloc, 8, XattrList::new(alloc), false, 0)?;
    clone.internal = XattrList::new(alloc).with_value(alloc, SNAP, SIX)?;
    Ok(clone)
}

/// The super blob at 2, a blob at 5, a read-only one at 6, and its clone.
fn metas(alloc: Global) -> Result<Metas, Memory> {
    let mut metas = Metas::new(alloc);
    let blobs: &[(u32, &[u8], u64)] = &[(2, b"store\0", 0), (5, b"v\0", 0), (6, b"w\0", 1)];
    for (head, name, data_ro) in blobs {
        metas.insert(*head, blob(alloc, *head, name, *data_ro)?)?;
    }
    metas.insert(8, clone_of_six(alloc)?)?;
    Ok(metas)
}

/// The most slots of a blob, and one more.
const MOST: u64 = 1 << 20;

const TOO_MANY: u64 = MOST + 1;

static CREATES: [(&str, u64, &str); 6] = [
    ("v", TOO_MANY, "Some(NameTaken)"),
    ("w", 1, "Some(NameTaken)"),
    ("u", TOO_MANY, "Some(TooLarge)"),
    ("u", u64::MAX, "Some(TooLarge)"),
    ("u", MOST, "None"),
    ("store", 0, "None"),
];

/// The answer to a create as its text.
fn create_answer(alloc: Global, metas: &Metas, name: Name, slots: u64) -> Result<String, Fail> {
    let sup = small((1 << 32) + 2)?;
    let found = refusal_of_create(metas, &sup, &create(name, slots));
    text_of(alloc, &found)
}

#[test]
fn the_first_cause_against_a_create_is_answered(rt: HostRuntime) -> Result<(), Fail> {
    let metas = metas(rt.alloc())?;
    for (name, slots, wanted) in &CREATES {
        let found = create_answer(rt.alloc(), &metas, name_of(name), *slots)?;
        expect_text(&rt, &found, wanted);
    }
    Ok(())
}

static RESIZES: [(u32, u64, &str); 9] = [
    (9, TOO_MANY, "Some(NoVolume)"),
    (2, TOO_MANY, "Some(Reserved)"),
    (6, TOO_MANY, "Some(ReadOnly)"),
    (8, TOO_MANY, "Some(Short)"),
    (8, 1, "Some(Short)"),
    (8, 0, "None"),
    (5, TOO_MANY, "Some(TooLarge)"),
    (5, MOST, "None"),
    (5, 0, "None"),
];

/// The answer to a resize as its text.
fn resize_answer(alloc: Global, metas: &Metas, head: u32, slots: u64) -> Result<String, Fail> {
    let sup = small((1 << 32) + 2)?;
    let found = refusal_of_resize(metas, &sup, &resize(head, slots));
    text_of(alloc, &found)
}

#[test]
fn the_first_cause_against_a_resize_is_answered(rt: HostRuntime) -> Result<(), Fail> {
    let metas = metas(rt.alloc())?;
    for (head, slots, wanted) in &RESIZES {
        let found = resize_answer(rt.alloc(), &metas, *head, *slots)?;
        expect_text(&rt, &found, wanted);
    }
    Ok(())
}

/// The flags, the number of attributes, and the map.
fn shown(alloc: Global, meta: &Meta) -> Result<String, Fail> {
    let (flags, map) = (meta.flags, meta.map.as_slice());
    Ok(format!(in alloc;
        "{} {} {} {} {map:?}",
        meta.id,
        flags.invalid,
        flags.data_ro,
        meta.xattrs.len()
    )?)
}

/// What is shown of a new blob.
fn new_shown(rt: &impl Abort, alloc: Global, thick: bool, slots: u32) -> Result<String, Fail> {
    assert!(rt; slots <= 1_048_576);
    let meta = new_meta(alloc, 3, XattrList::new(alloc), thick, slots)?;
    shown(alloc, &meta)
}

static NEW: [(bool, u32, &str); 2] = [
    (false, 2, "4294967299 1 0 0 [None, None]"),
    (true, 0, "4294967299 0 0 0 []"),
];

#[test]
fn new_slots_are_empty(rt: HostRuntime) -> Result<(), Fail> {
    for (thick, slots, wanted) in &NEW {
        let found = new_shown(&rt, rt.alloc(), *thick, *slots)?;
        expect_text(&rt, &found, wanted);
    }
    Ok(())
}

/// What is shown of a blob with another number of slots.
fn resized_shown(rt: &impl Abort, alloc: Global, meta: &Meta, slots: u32) -> Result<String, Fail> {
    assert!(rt; slots <= 1_048_576);
    let resized = resized_meta(alloc, meta, slots)?;
    shown(alloc, &resized)
}

static RESIZED: [(u32, &str); 3] = [
    (0, "4294967301 1 0 1 []"),
    (4, "4294967301 1 0 1 [Some(5), Some(6), Some(7), None]"),
    (
        8,
        "4294967301 1 0 1 [Some(5), Some(6), Some(7), None, None, Some(9), None, None]",
    ),
];

#[test]
fn slots_are_cut_or_added_at_the_end(rt: HostRuntime) -> Result<(), Fail> {
    let six = blob(rt.alloc(), 5, b"v\0", 0)?;
    for (slots, wanted) in &RESIZED {
        let found = resized_shown(&rt, rt.alloc(), &six, *slots)?;
        expect_text(&rt, &found, wanted);
    }
    Ok(())
}
