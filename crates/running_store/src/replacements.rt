//! The replacements of a job.

use crate::effects::Effects;
use crate::entries::EntryChange;
use blob_meta::{Meta, Room};
use md_chain::Plan;
use volume_model::{PlaceList, Reply, XattrList};

/// Room in the maps of blobs for what a blob doesn't have before its replacement.
#[derive(Drop)]
pub struct Rooms {
    /// For its chain: the blob is new.
    pub chain: Option<Room<PlaceList>>,
    /// For its metadata, among the marked blobs where it has a mark, and else among the others.
    pub meta: Option<Room<Meta>>,
}

/// What a commit makes besides, with which the job's command is done.
#[derive(Drop)]
pub struct Commit {
    /// The head of the volume that the command makes, if it makes one.
    pub made: Option<u32>,
    /// The one volume whose attributes are read otherwise from then on, if there is one.
    pub live: Option<EntryChange<XattrList>>,
    /// The blobs that get new generations, one after another.
    pub renews: PlaceList,
    /// The one marked blob that resolves to something else from then on, if there is one.
    pub shows: Option<EntryChange<Meta>>,
}

impl Commit {
    ghost use Rattle.std.specs.Prelude.{◌≡◌};
    ghost use Rattle.running_store.specs.Effects.{reply_of};

    /// What the job's command is answered with.
    fn reply(&self) -> Reply
        ensures { result ≡ reply_of self.now }
    {
        match self.made {
            Some(head) => Reply::Made(head),
            None => Reply::Ok,
        }
    }
}

/// New metadata of the blob at a head, as a chain of pages.
pub struct Planned {
    pub head: u32,
    pub new: Meta,
    /// What is done besides.
    pub effects: Effects,
    /// The places of the chain, the head first, and their pages.
    pub chain: PlaceList,
    pub pages: Plan,
}

// By hand, as for an erasure: to let one go is one call then, at each place where control leaves, and not one for each
// of its fields, of which each `Option` would double the cases that have to be proved there.
impl Drop for Planned {
    fn drop(self) {
        let Planned {
            head: _,
            new: _,
            effects: _,
            chain: _,
            pages: _,
        } = self;
    }
}

impl Planned {
    ghost use Rattle.std.specs.Prelude.{◌≡◌};
    ghost use Rattle.std.specs.Option.{option_map};
    ghost use Rattle.running_store.specs.Effects.{reply_of};

    /// What the store in memory keeps of it: the head, the new metadata, what is done besides, and the chain.
    pub fn apart(self) -> (u32, Meta, Effects, PlaceList)
        ensures { result ≡ (self.head, self.new, self.effects, self.chain) }
    {
        let Planned {
            head,
            new,
            effects,
            chain,
            pages: _,
        } = self;
        (head, new, effects, chain)
    }

    /// What the job's command is answered with once this is written, where it is the commit.
    pub fn reply(&self) -> Option<Reply>
        ensures { result ≡ option_map reply_of self.now.effects.commit }
    {
        match &self.effects.commit {
            Some(commit) => Some(commit.reply()),
            None => None,
        }
    }
}

/// The blob at a head is to be erased.
pub struct Erasure {
    pub head: u32,
    /// What it makes as the job's commit, where it is that.
    pub commit: Option<Commit>,
    /// The clusters that no other blob has, each once, which are clear then.
    pub freed: PlaceList,
}

impl Drop for Erasure {
    fn drop(self) {
        let Erasure {
            head: _,
            commit: _,
            freed: _,
        } = self;
    }
}

impl Erasure {
    ghost use Rattle.std.specs.Prelude.{◌≡◌};
    ghost use Rattle.std.specs.Option.{option_map};
    ghost use Rattle.running_store.specs.Effects.{reply_of};

    /// Its head, its commit, and the clusters that are clear then.
    pub fn apart(self) -> (u32, Option<Commit>, PlaceList)
        ensures { result ≡ (self.head, self.commit, self.freed) }
    {
        let Erasure {
            head,
            commit,
            freed,
        } = self;
        (head, commit, freed)
    }

    /// What the job's command is answered with once the blob is erased, where that is the commit.
    pub fn reply(&self) -> Option<Reply>
        ensures { result ≡ option_map reply_of self.now.commit }
    {
        match &self.commit {
            Some(commit) => Some(commit.reply()),
            None => None,
        }
    }
}

/// What a replacement does.
#[derive(Drop)]
pub enum Change {
    Writes(Planned),
    Erases(Erasure),
}

/// A replacement, laid on pages.
#[derive(Drop)]
pub struct LaidReplacement {
    pub change: Change,
    /// The places that stand behind the head before it.
    pub old: PlaceList,
}

impl LaidReplacement {
    ghost use Rattle.std.specs.Prelude.{◌≡◌};
    ghost use Rattle.running_store.specs.Jobs.{is_commit};

    /// Whether the job's command is done with it.
    pub(crate) fn commits(&self) -> bool
        ensures { result ≡ is_commit self.now }
    {
        match &self.change {
            Change::Writes(planned) => planned.effects.commit.is_some(),
            Change::Erases(erasure) => erasure.commit.is_some(),
        }
    }
}
