//! Plans of puts, syncs and readonlys, each once, and each cause of a refusal.

ghost use Rattle.std.specs.Prelude.{IfOk};
ghost use Rattle.lvol_store.specs.Plans.{IsPut, IsReadOnlyCommand, IsSync};

use crate::told::expect;
use blob_meta::{Flags, Job, Meta, Metas, Replacement, asked_volume, find};
use descriptors::SlotMap;
use lvol_store::{check_name, plan_put, plan_readonly, plan_sync};
use out_of_memory::Memory;
use std::alloc::Global;
use std::test::Fail;
use super_block::{Layout, Super, SuperFault};
use volume_model::{Blobtext, Command, Name, Reply, VolumeRef, Xattr, XattrList};

fn blob(alloc: Global, head: u32, name: &[u8], data_ro: u64) -> Result<Meta, Memory> {
    Ok(Meta {
        id: (1 << 32) + u64::from(head),
        flags: Flags {
            invalid: 0,
            data_ro,
            md_ro: 0,
        },
        xattrs: XattrList::new(alloc).with_value(alloc, b"name", name)?,
        internal: XattrList::new(alloc),
        map: SlotMap::new(alloc),
    })
}

fn put(alloc: Global, volume: VolumeRef, key: &[u8], value: &[u8]) -> Result<Command, Memory>
    ensures { IfOk result IsPut }
{
    Ok(Command::Put {
        volume,
        key: Blobtext::new(alloc, key)?,
        value: Blobtext::new(alloc, value)?,
    })
}

fn sync(volume: VolumeRef) -> Command
    ensures { IsSync result }
{
    Command::Sync { volume }
}

fn read_only(volume: VolumeRef) -> Command
    ensures { IsReadOnlyCommand result }
{
    Command::ReadOnly { volume }
}

pub(crate) fn name_of(bytes: &[u8]) -> Result<Name, Fail> {
    Ok(check_name(bytes)?)
}

/// The volume of a name, or the one at a head where the name is empty.
pub(crate) fn volume(head: u32, name: &[u8]) -> VolumeRef {
    match check_name(name) {
        Ok(name) => VolumeRef::Named(name),
        Err(_) => VolumeRef::Head(head),
    }
}

/// The attributes that a plan gives its blob, one a line, with the head first, or the reply.
pub(crate) fn told(alloc: Global, plan: &Result<Job, Reply>) -> Result<Vec<u8>, Fail> {
    match plan {
        Err(reply) => Ok(format!(in alloc; "{reply:?}")?.into_bytes()),
        Ok(job) => job_told(alloc, job),
    }
}

fn job_told(alloc: Global, job: &Job) -> Result<Vec<u8>, Fail> {
    let mut text = Vec::new(alloc);
    for replacement in job.list.as_slice() {
        push_replacement(&mut text, alloc, replacement)?;
    }
    Ok(text)
}

fn push_replacement(
    text: &mut Vec<u8>,
    alloc: Global,
    replacement: &Replacement,
) -> Result<(), Fail> {
    text.extend_from_slice(format!(in alloc; "{}", replacement.head)?.as_bytes())?;
    match &replacement.new {
        Some(meta) => push_xattrs(text, &meta.xattrs),
        None => Ok(()),
    }
}

fn push_xattr(text: &mut Vec<u8>, xattr: &Xattr) -> Result<(), Memory> {
    text.push(b' ')?;
    text.extend_from_slice(xattr.key.bytes())?;
    text.push(b'=')?;
    text.extend_from_slice(xattr.value.bytes())?;
    Ok(())
}

fn push_xattrs(text: &mut Vec<u8>, xattrs: &XattrList) -> Result<(), Fail> {
    for xattr in xattrs.as_slice() {
        push_xattr(text, xattr)?;
    }
    Ok(())
}

fn insert(
    metas: &mut Metas,
    alloc: Global,
    head: u32,
    name: &[u8],
    data_ro: u64,
) -> Result<(), Memory> {
    metas.insert(head, blob(alloc, head, name, data_ro)?)?;
    Ok(())
}

/// The super blob at 2, a blob that can be written at 5, and a read-only one at 6.
fn metas(alloc: Global) -> Result<Metas, Memory> {
    let mut metas = Metas::new(alloc);
    let blobs: &[(u32, &[u8], u64)] = &[(2, b"store\0", 0), (5, b"open\0", 0), (6, b"fixed\0", 1)];
    for (head, name, data_ro) in blobs {
        insert(&mut metas, alloc, *head, name, *data_ro)?;
    }
    Ok(metas)
}

/// The store of the super blob at 2.
pub(crate) fn sup() -> Result<Super, SuperFault> {
    Ok(Layout::plan(64, 4, Some(16))?.new_super((1 << 32) + 2, [0; 16]))
}

/// Each blob's live attribute is `owner=me`, which isn't on the disk yet.
fn live(alloc: Global) -> Result<XattrList, Memory> {
    XattrList::new(alloc).with_value(alloc, b"owner", b"me")
}

/// The super block, the metadata, and the live attributes of each blob.
struct Store {
    sup: Super,
    metas: Metas,
    live: XattrList,
}

// By hand: to let a store go is one call then, at each place where control leaves.
impl Drop for Store {
    fn drop(self) {
        let Store {
            sup: _,
            metas: _,
            live: _,
        } = self;
    }
}

fn store_of_three(alloc: Global) -> Result<Store, Fail> {
    let sup = sup()?;
    let metas = metas(alloc)?;
    Ok(Store {
        sup,
        metas,
        live: live(alloc)?,
    })
}

fn planned_put(alloc: Global, store: &Store, command: &Command) -> Result<Job, Reply>
    requires { IsPut command.now }
{
    let (metas, sup) = (&store.metas, &store.sup);
    match find(metas, sup, asked_volume(command)) {
        Some(_) => plan_put(alloc, metas, sup, command, 9, Some(&store.live)),
        None => plan_put(alloc, metas, sup, command, 9, None),
    }
}

fn planned_sync(alloc: Global, store: &Store, command: &Command) -> Result<Job, Reply>
    requires { IsSync command.now }
{
    let (metas, sup) = (&store.metas, &store.sup);
    match find(metas, sup, asked_volume(command)) {
        Some(_) => plan_sync(alloc, metas, sup, command, 9, Some(&store.live)),
        None => plan_sync(alloc, metas, sup, command, 9, None),
    }
}

fn planned_read_only(alloc: Global, store: &Store, command: &Command) -> Result<Job, Reply>
    requires { IsReadOnlyCommand command.now }
{
    let (metas, sup) = (&store.metas, &store.sup);
    match find(metas, sup, asked_volume(command)) {
        Some(_) => plan_readonly(alloc, metas, sup, command, 9, Some(&store.live)),
        None => plan_readonly(alloc, metas, sup, command, 9, None),
    }
}

/// A key and its value are put to a volume.
fn put_told(
    alloc: Global,
    store: &Store,
    volume: VolumeRef,
    key: &[u8],
    value: &[u8],
) -> Result<Vec<u8>, Fail> {
    let command = put(alloc, volume, key, value)?;
    told(alloc, &planned_put(alloc, store, &command))
}

fn sync_told(alloc: Global, store: &Store, volume: VolumeRef) -> Result<Vec<u8>, Fail> {
    told(alloc, &planned_sync(alloc, store, &sync(volume)))
}

/// What a plan to make a volume read-only tells, and the flag `data_ro` of its blob.
fn read_only_told(alloc: Global, store: &Store, volume: VolumeRef) -> Result<(Vec<u8>, u64), Fail> {
    let plan = planned_read_only(alloc, store, &read_only(volume));
    Ok((told(alloc, &plan)?, data_ro(&plan)))
}

/// The flag `data_ro` of what a plan replaces, or 0 where it is refused.
fn data_ro(plan: &Result<Job, Reply>) -> u64 {
    let Ok(job) = plan else {
        return 0;
    };
    match job.list.get(0) {
        Some(replacement) => match &replacement.new {
            Some(meta) => meta.flags.data_ro,
            None => 0,
        },
        None => 0,
    }
}

/// One byte more than a value of the key `color` may have.
const LONG: [u8; 4059] = [b'a'; 4059];

#[test]
fn puts_are_planned_or_refused(rt: HostRuntime) -> Result<(), Fail> {
    let alloc = rt.alloc();
    let store = store_of_three(alloc)?;
    let cases: &[(u32, &[u8], &[u8], &[u8], &[u8])] = &[
        (5, b"", b"color", b"red", b"5 owner=me color=red"),
        (0, b"open", b"owner", b"you", b"5 owner=you"),
        (9, b"", b"color", b"red", b"NoVolume"),
        (0, b"store", b"color", b"red", b"NoVolume"),
        (2, b"", b"color", b"red", b"Reserved"),
        (5, b"", b"uuid", b"red", b"Reserved"),
        (0, b"fixed", b"color", b"red", b"ReadOnly"),
        (5, b"", b"color", &LONG, b"TooLong"),
    ];
    for (head, name, key, value, wanted) in cases {
        let told = put_told(alloc, &store, volume(*head, name), key, value)?;
        expect(&rt, &told, wanted);
    }
    Ok(())
}

#[test]
fn syncs_are_planned_or_refused(rt: HostRuntime) -> Result<(), Fail> {
    let alloc = rt.alloc();
    let store = store_of_three(alloc)?;
    let cases: &[(u32, &[u8], &[u8])] = &[
        (5, b"", b"5 owner=me"),
        (0, b"open", b"5 owner=me"),
        (0, b"none", b"NoVolume"),
        (2, b"", b"Reserved"),
        (6, b"", b"ReadOnly"),
    ];
    for (head, name, wanted) in cases {
        let told = sync_told(alloc, &store, volume(*head, name))?;
        expect(&rt, &told, wanted);
    }
    Ok(())
}

#[test]
fn volumes_are_planned_read_only_or_refused(rt: HostRuntime) -> Result<(), Fail> {
    let alloc = rt.alloc();
    let store = store_of_three(alloc)?;
    let cases: &[(u32, &[u8], &[u8], u64)] = &[
        (5, b"", b"5 owner=me", 1),
        (0, b"open", b"5 owner=me", 1),
        (0, b"none", b"NoVolume", 0),
        (2, b"", b"Reserved", 0),
        (6, b"", b"ReadOnly", 0),
    ];
    for (head, name, wanted, flag) in cases {
        let (told, data_ro) = read_only_told(alloc, &store, volume(*head, name))?;
        assert_eq!(rt; data_ro, *flag);
        expect(&rt, &told, wanted);
    }
    Ok(())
}
