//! Replies to commands, and the entries of a log.

ghost use Rattle.std.specs.Prelude.{IfOk};
ghost use Rattle.volume_model.specs.Copies.{IsSameReply, IsSameEntry};

use crate::command::Command;
use crate::copy::TryCopy;
use crate::lists::ListOf;
use crate::text::Blobtext;
use out_of_memory::Memory;
use std::alloc::Global;
use std::boxed::Box;

/// What a command is answered.
#[derive(Debug, Drop)]
pub enum Reply {
    /// It is done.
    Ok,
    /// A volume is made, at this head.
    Made(u32),
    /// The content of a page.
    Content(Box<[u8; 4096]>),
    /// The value of an extended attribute.
    Value(Blobtext),
    /// What is known of a volume.
    Info(Info),
    /// What is known of every volume but the super blob, by ascending head.
    List(InfoList),
    /// How much is free.
    Df(Df),
    /// No live volume is meant.
    NoVolume,
    /// The page lies past the volume's end.
    OutOfRange,
    /// The volume is read-only.
    ReadOnly,
    /// The volume to be cloned can be written.
    NotReadOnly,
    /// No cluster is clear.
    Full,
    /// Too few metadata pages are clear.
    NoPage,
    /// A live volume has the name.
    NameTaken,
    /// So many clones, at least 2, have the volume as their parent.
    Busy(u32),
    /// The volume has no parent.
    NoParent,
    /// A length of a parent stands in the way.
    Short,
    /// The super blob, or the attribute `name` or `uuid`.
    Reserved,
    /// The volume has no attribute of that name.
    NoValue,
    /// Key and value have more than 4063 bytes together.
    TooLong,
    /// More than 2^20 slots, or more than 2^24 in all volumes.
    TooLarge,
    /// The device failed a read.
    ReadFault,
    /// The device failed a write or a flush.
    Fault,
    /// The store stood still, since the failure after so many entries of the log.
    Stopped(u32),
    /// No memory was left.
    Memory,
}

/// What is known of a volume.
#[derive(Debug, Drop)]
pub struct Info {
    /// The place of its first metadata page.
    pub head: u32,
    /// The attribute `name` up to its first NUL; empty where there is none.
    pub name: Blobtext,
    /// The attribute `uuid` up to its first NUL; empty where there is none.
    pub uuid: Blobtext,
    /// How many slots it has.
    pub slots: u64,
    /// The head of its parent.
    pub parent: Option<u32>,
    /// Whether its slots are filled only when they are written.
    pub thin: bool,
    /// Whether it can't be written.
    pub read_only: bool,
    /// How many live extended attributes it has.
    pub xattrs: u32,
}

impl TryCopy for Info {
    fn try_copy(&self, alloc: Global) -> Result<Info, Memory> {
        Ok(Info {
            head: self.head,
            name: self.name.try_copy(alloc)?,
            uuid: self.uuid.try_copy(alloc)?,
            slots: self.slots,
            parent: self.parent,
            thin: self.thin,
            read_only: self.read_only,
            xattrs: self.xattrs,
        })
    }
}

/// What is known of several volumes.
pub type InfoList = ListOf<Info>;

/// How many clusters and metadata pages are free, and how many there are.
#[derive(Clone, Copy, Debug, PartialEq, Eq)]
pub struct Df {
    pub free_clusters: u32,
    pub clusters: u32,
    pub free_pages: u32,
    pub pages: u32,
}

impl TryCopy for Df {
    fn try_copy(&self, _alloc: Global) -> Result<Df, Memory> {
        Ok(*self)
    }
}

impl From<Memory> for Reply {
    ghost use Rattle.std.specs.Prelude.{◌≡◌};
    ghost use Rattle.volume_model.specs.declared.reply.Reply.TheVariants as r;

    ghost from_gives = { λ _ reply. reply ≡ r.Memory };

    fn from(_memory: Memory) -> Reply {
        Reply::Memory
    }
}

impl Reply {
    /// A copy, equal in every part, boxed pages by their bytes.
    pub fn try_copy(&self, alloc: Global) -> Result<Reply, Memory>
        ensures { IfOk result (λ copy. IsSameReply self.now copy) }
    {
        Ok(match self {
            Reply::Ok => Reply::Ok,
            Reply::Made(head) => Reply::Made(*head),
            Reply::Content(page) => Reply::Content(Box::new(alloc, **page)?),
            Reply::Value(value) => Reply::Value(value.try_copy(alloc)?),
            Reply::Info(info) => Reply::Info(info.try_copy(alloc)?),
            Reply::List(infos) => Reply::List(infos.try_copy(alloc)?),
            Reply::Df(df) => Reply::Df(*df),
            Reply::NoVolume => Reply::NoVolume,
            Reply::OutOfRange => Reply::OutOfRange,
            Reply::ReadOnly => Reply::ReadOnly,
            Reply::NotReadOnly => Reply::NotReadOnly,
            Reply::Full => Reply::Full,
            Reply::NoPage => Reply::NoPage,
            Reply::NameTaken => Reply::NameTaken,
            Reply::Busy(clones) => Reply::Busy(*clones),
            Reply::NoParent => Reply::NoParent,
            Reply::Short => Reply::Short,
            Reply::Reserved => Reply::Reserved,
            Reply::NoValue => Reply::NoValue,
            Reply::TooLong => Reply::TooLong,
            Reply::TooLarge => Reply::TooLarge,
            Reply::ReadFault => Reply::ReadFault,
            Reply::Fault => Reply::Fault,
            Reply::Stopped(at) => Reply::Stopped(*at),
            Reply::Memory => Reply::Memory,
        })
    }
}

/// One entry of the log: the command at `index`, from 0, among those of its channel, and its reply.
#[derive(Debug, Drop)]
pub struct Entry {
    pub channel: u8,
    pub index: u32,
    pub command: Command,
    pub reply: Reply,
}

impl Entry {
    /// A copy, equal in every part, boxed pages by their bytes.
    pub fn try_copy(&self, alloc: Global) -> Result<Entry, Memory>
        ensures { IfOk result (λ copy. IsSameEntry self.now copy) }
    {
        Ok(Entry {
            channel: self.channel,
            index: self.index,
            command: self.command.try_copy(alloc)?,
            reply: self.reply.try_copy(alloc)?,
        })
    }
}

/// A log, or a part of one, in order.
pub type EntryList = ListOf<Entry>;

/// A message to the metadata thread: the request itself stands in the channel's row under this serial.
#[derive(Clone, Copy, Debug, PartialEq, Eq)]
pub struct Msg {
    pub channel: u8,
    pub serial: u64,
}

impl TryCopy for Msg {
    fn try_copy(&self, _alloc: Global) -> Result<Msg, Memory> {
        Ok(*self)
    }
}

/// Messages, in order.
pub type MsgList = ListOf<Msg>;
