//! Commands on volumes.

ghost use Rattle.std.specs.Prelude.{◌≡◌, IfOk};
ghost use Rattle.volume_model.specs.Copies.{IsSameWord, IsSameCommand};

use crate::copy::TryCopy;
use crate::name::Name;
use crate::text::Blobtext;
use out_of_memory::Memory;
use std::alloc::Global;
use std::boxed::Box;

/// How a command names its volume.
#[derive(Debug, Drop)]
pub enum VolumeRef {
    /// The live blob whose metadata begins at this page; the super blob is named only so.
    Head(u32),
    /// The live volume of this name, of several that with the lowest head.
    Named(Name),
}

/// The content of a page that is written.
#[derive(Debug, Drop)]
pub enum PageWord {
    /// 512 copies of the eight little-endian bytes of a word.
    Fill(u64),
    /// The bytes themselves.
    Full(Box<[u8; 4096]>),
}

/// What a channel may ask for. Pages and slots are counted from 0; a slot has as many pages as a cluster.
#[derive(Debug, Drop)]
pub enum Command {
    /// Makes a volume of so many slots, which read as zeros.
    Create {
        name: Name,
        slots: u64,
        thick: bool,
        uuid: Option<[u8; 16]>,
    },
    /// Writes a page.
    Write {
        volume: VolumeRef,
        page: u64,
        word: PageWord,
    },
    /// Reads a page.
    Read {
        volume: VolumeRef,
        page: u64,
    },
    /// Makes what was answered before survive a crash.
    Flush,
    /// Sets an extended attribute, which is on disk only after a sync.
    SetX {
        volume: VolumeRef,
        key: Blobtext,
        value: Blobtext,
    },
    /// Removes an extended attribute; the removal is on disk only after a sync.
    DelX {
        volume: VolumeRef,
        key: Blobtext,
    },
    /// Tells the value of an extended attribute.
    GetX {
        volume: VolumeRef,
        key: Blobtext,
    },
    /// Sets an extended attribute and syncs.
    Put {
        volume: VolumeRef,
        key: Blobtext,
        value: Blobtext,
    },
    /// Brings the extended attributes to the disk.
    Sync {
        volume: VolumeRef,
    },
    /// Cuts the volume to so many slots, or adds slots.
    Resize {
        volume: VolumeRef,
        slots: u64,
    },
    /// Keeps the volume's present pages as a read-only volume of this name, its parent from then on.
    Snapshot {
        volume: VolumeRef,
        name: Name,
    },
    /// Makes a writable volume over a read-only one.
    Clone {
        volume: VolumeRef,
        name: Name,
    },
    /// Fills every empty slot, so that the volume needs no parent.
    Inflate {
        volume: VolumeRef,
    },
    /// Takes over what the parent itself holds, so that the parent's parent serves in its place.
    Decouple {
        volume: VolumeRef,
    },
    /// Removes the volume; a clone of it takes its clusters and its parent.
    Delete {
        volume: VolumeRef,
    },
    /// Gives the volume another name.
    Rename {
        volume: VolumeRef,
        name: Name,
    },
    /// Makes the volume read-only for good.
    ReadOnly {
        volume: VolumeRef,
    },
    /// Tells what is known of the volume.
    Info {
        volume: VolumeRef,
    },
    /// Tells what is known of every volume.
    List,
    /// Tells how many clusters and metadata pages are free.
    Df,
}

impl TryCopy for VolumeRef {
    fn try_copy(&self, alloc: Global) -> Result<VolumeRef, Memory> {
        Ok(match self {
            VolumeRef::Head(head) => VolumeRef::Head(*head),
            VolumeRef::Named(name) => VolumeRef::Named(name.try_copy(alloc)?),
        })
    }
}

impl PageWord {
    /// A copy, with the same word or the same bytes.
    pub fn try_copy(&self, alloc: Global) -> Result<PageWord, Memory>
        ensures { IfOk result (λ copy. IsSameWord self.now copy) }
    {
        Ok(match self {
            PageWord::Fill(word) => PageWord::Fill(*word),
            PageWord::Full(page) => PageWord::Full(Box::new(alloc, **page)?),
        })
    }
}

impl Command {
    /// A copy, equal in every part, boxed pages by their bytes.
    pub fn try_copy(&self, alloc: Global) -> Result<Command, Memory>
        ensures { IfOk result (λ copy. IsSameCommand self.now copy) }
    {
        Ok(match self {
            Command::Create {
                name,
                slots,
                thick,
                uuid,
            } => Command::Create {
                name: name.try_copy(alloc)?,
                slots: *slots,
                thick: *thick,
                uuid: *uuid,
            },
            Command::Write { volume, page, word } => Command::Write {
                volume: volume.try_copy(alloc)?,
                page: *page,
                word: word.try_copy(alloc)?,
            },
            Command::Read { volume, page } => Command::Read {
                volume: volume.try_copy(alloc)?,
                page: *page,
            },
            Command::Flush => Command::Flush,
            Command::SetX { volume, key, value } => {
                let (volume, key, value) = copies_of_three(volume, key, value, alloc)?;
                Command::SetX { volume, key, value }
            }
            Command::DelX { volume, key } => {
                let (volume, key) = copies_of(volume, key, alloc)?;
                Command::DelX { volume, key }
            }
            Command::GetX { volume, key } => {
                let (volume, key) = copies_of(volume, key, alloc)?;
                Command::GetX { volume, key }
            }
            Command::Put { volume, key, value } => {
                let (volume, key, value) = copies_of_three(volume, key, value, alloc)?;
                Command::Put { volume, key, value }
            }
            Command::Sync { volume } => Command::Sync {
                volume: volume.try_copy(alloc)?,
            },
            Command::Resize { volume, slots } => Command::Resize {
                volume: volume.try_copy(alloc)?,
                slots: *slots,
            },
            Command::Snapshot { volume, name } => {
                let (volume, name) = copies_of(volume, name, alloc)?;
                Command::Snapshot { volume, name }
            }
            Command::Clone { volume, name } => {
                let (volume, name) = copies_of(volume, name, alloc)?;
                Command::Clone { volume, name }
            }
            Command::Inflate { volume } => Command::Inflate {
                volume: volume.try_copy(alloc)?,
            },
            Command::Decouple { volume } => Command::Decouple {
                volume: volume.try_copy(alloc)?,
            },
            Command::Delete { volume } => Command::Delete {
                volume: volume.try_copy(alloc)?,
            },
            Command::Rename { volume, name } => {
                let (volume, name) = copies_of(volume, name, alloc)?;
                Command::Rename { volume, name }
            }
            Command::ReadOnly { volume } => Command::ReadOnly {
                volume: volume.try_copy(alloc)?,
            },
            Command::Info { volume } => Command::Info {
                volume: volume.try_copy(alloc)?,
            },
            Command::List => Command::List,
            Command::Df => Command::Df,
        })
    }
}

/// Copies of both.
fn copies_of<A: TryCopy + Drop, B: TryCopy + Drop>(
    first: &A,
    second: &B,
    alloc: Global,
) -> Result<(A, B), Memory>
    ensures { IfOk result (λ copies. copies ≡ (first.now, second.now)) }
{
    let first = first.try_copy(alloc)?;
    Ok((first, second.try_copy(alloc)?))
}

/// Copies of all three.
fn copies_of_three<A: TryCopy + Drop, B: TryCopy + Drop, C: TryCopy + Drop>(
    first: &A,
    second: &B,
    third: &C,
    alloc: Global,
) -> Result<(A, B, C), Memory>
    ensures { IfOk result (λ copies. copies ≡ (first.now, second.now, third.now)) }
{
    let (first, second) = copies_of(first, second, alloc)?;
    Ok((first, second, third.try_copy(alloc)?))
}
