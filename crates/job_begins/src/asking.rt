//! What a job asks for, by the form of its list of replacements.

ghost use Rattle.std.specs.Prelude.{◌≡◌, ◌++◌, ◌∷◌, [], None, Some, length, IfSome};
ghost use Rattle.blob_meta.specs.declared.job.Job.{Job as AJob};
ghost use Rattle.job_begins.specs.Asks.{IsAskOf};

use crate::besides::nothing_besides;
use crate::drafts::Draft;
use crate::steps::Step;
use blob_meta::{Job, Meta, Replacement, ReplacementList};
use out_of_memory::Memory;
use running_store::{Effects, Erasure};
use std::alloc::Global;
use volume_model::{PlaceList, SlotList};

/// What the delete of the blob at `of` asks for, whose one clone is at `clone`: the blob with its mark, and the clone
/// with the blob's clusters and parent.
pub(crate) struct DeletionAsk {
    pub(crate) of: u32,
    pub(crate) clone: u32,
    pub(crate) going: Meta,
    pub(crate) taking: Meta,
}

impl Drop for DeletionAsk {
    fn drop(self) {
        let DeletionAsk {
            of: _,
            clone: _,
            going: _,
            taking: _,
        } = self;
    }
}

impl DeletionAsk {
    ghost use Rattle.std.specs.Prelude.{All, IfOk};
    ghost use Rattle.md_chain.specs.Packing.{FitsPage};
    ghost use Rattle.job_begins.specs.Deletions.{AreDeletionDrafts};

    /// The replacements that do so, with what the first and the commit do besides, and the clusters that are freed.
    pub(crate) fn steps(
        self,
        alloc: Global,
        begin: Effects,
        commit: Effects,
        freed: PlaceList,
    ) -> Result<Vec<Step>, Memory>
        requires going { All FitsPage self.going.xattrs × All FitsPage self.going.internal }
        requires taking { All FitsPage self.taking.xattrs × All FitsPage self.taking.internal }
        ensures { IfOk result (λ steps. AreDeletionDrafts self begin commit freed steps.items) }
    {
        let DeletionAsk {
            of,
            clone,
            going,
            taking,
        } = self;
        let erasure = Erasure {
            head: of,
            commit: None,
            freed,
        };
        let (going, taking) = Draft::two(alloc, (of, going, begin), (clone, taking, commit))?;
        Ok(vec![in alloc;
            Step::Writes(going),
            Step::Writes(taking),
            Step::Erases(erasure),
        ]?)
    }
}

/// What a snapshot of the blob at `of` asks for: the metadata of the new blob at `head`, as it begins, with the map of
/// the other one, and without its mark, and the new metadata of the volume.
pub(crate) struct SnapshotAsk {
    pub(crate) head: u32,
    pub(crate) of: u32,
    pub(crate) begun: Meta,
    pub(crate) filled: Meta,
    pub(crate) emptied: Meta,
    pub(crate) made: Meta,
}

impl Drop for SnapshotAsk {
    fn drop(self) {
        let SnapshotAsk {
            head: _,
            of: _,
            begun: _,
            filled: _,
            emptied: _,
            made: _,
        } = self;
    }
}

impl SnapshotAsk {
    ghost use Rattle.std.specs.Prelude.{All, IfOk};
    ghost use Rattle.md_chain.specs.Packing.{FitsPage};
    ghost use Rattle.job_begins.specs.Snapshots.{AreSnapshotDrafts};

    /// The replacements that do so, with what the first and the commit do besides.
    pub(crate) fn steps(
        self,
        alloc: Global,
        begin: Effects,
        commit: Effects,
    ) -> Result<Vec<Step>, Memory>
        requires begun { All FitsPage self.begun.xattrs × All FitsPage self.begun.internal }
        requires filled { All FitsPage self.filled.xattrs × All FitsPage self.filled.internal }
        requires emptied { All FitsPage self.emptied.xattrs × All FitsPage self.emptied.internal }
        requires made { All FitsPage self.made.xattrs × All FitsPage self.made.internal }
        ensures { IfOk result (λ steps. AreSnapshotDrafts self begin commit steps.items) }
    {
        let SnapshotAsk {
            head,
            of,
            begun,
            filled,
            emptied,
            made,
        } = self;
        let fill = nothing_besides(alloc);
        let finish = nothing_besides(alloc);
        let (begun, filled) = Draft::two(alloc, (head, begun, begin), (head, filled, fill))?;
        let (emptied, made) = Draft::two(alloc, (of, emptied, commit), (head, made, finish))?;
        Ok(vec![in alloc;
            Step::Writes(begun),
            Step::Writes(filled),
            Step::Writes(emptied),
            Step::Writes(made),
        ]?)
    }
}

/// What a job asks for.
#[derive(Drop)]
pub(crate) enum Ask {
    /// New metadata of the blob at a head, with a cluster of zeros in each of these slots.
    Writes {
        head: u32,
        new: Meta,
        zeros: SlotList,
    },
    /// The blob at this head is to be erased.
    Erases(u32),
    /// A blob is to be deleted, whose one clone takes over from it.
    Deletes(DeletionAsk),
    /// A snapshot is to be made.
    Snapshots(SnapshotAsk),
    /// What no command asks for.
    Other,
}

/// What a job asks for.
pub(crate) fn ask_of(job: Job) -> Ask
    ensures { IsAskOf job result }
{
    let Job {
        list,
        commit,
        zero: zeros,
        freeze,
    } = job;
    match list.len() {
        1 if commit == 1 && freeze.is_none() => single(list, zeros),
        3 => deletion(list),
        4 => snapshot(list),
        _ => Ask::Other,
    }
}

/// One replacement asks for new metadata, with a cluster of zeros in each of these slots, or for an erasing.
fn single(mut list: ReplacementList, zeros: SlotList) -> Ask
    requires { length list ≡ 1 }
    ensures { (job : AJob) → job.list ≡ list → job.commit ≡ 1 → job.zero ≡ zeros → job.freeze ≡ None
        → IsAskOf job result }
{
    let Some(Replacement { head, new }) = list.pop() else {
        return Ask::Other;
    };
    match new {
        Some(new) => Ask::Writes { head, new, zeros },
        None if zeros.len() == 0 => Ask::Erases(head),
        None => Ask::Other,
    }
}

/// What a replacement gives the blob at a head.
#[derive(Drop)]
struct Given {
    head: u32,
    new: Meta,
}

/// The last replacement, if it gives its blob metadata, and isn't the one that erases it.
fn last_given(list: &mut ReplacementList) -> Option<Given>
    ensures { IfSome result (λ last.
        list.old ≡ list.new ++ (record { head = last.head; new = Some last.new }) ∷ []) }
{
    let last = list.pop()?;
    let head = last.head;
    let new = last.new?;
    Some(Given { head, new })
}

/// Three ask for a delete: a blob is marked, another one is written, and the first is erased.
fn deletion(mut list: ReplacementList) -> Ask
    requires { length list ≡ 3 }
    ensures { (job : AJob) → job.list ≡ list → IsAskOf job result }
{
    let Some(Replacement { head, new: None }) = list.pop() else {
        return Ask::Other;
    };
    let Some(commit) = last_given(&mut list) else {
        return Ask::Other;
    };
    let Some(begin) = last_given(&mut list) else {
        return Ask::Other;
    };
    if begin.head != head {
        return Ask::Other;
    }
    Ask::Deletes(DeletionAsk {
        of: head,
        clone: commit.head,
        going: begin.new,
        taking: commit.new,
    })
}

/// Four ask for a snapshot: a blob is written twice, then another one, and the first again.
fn snapshot(mut list: ReplacementList) -> Ask
    requires { length list ≡ 4 }
    ensures { (job : AJob) → job.list ≡ list → IsAskOf job result }
{
    let Some(finish) = last_given(&mut list) else {
        return Ask::Other;
    };
    let Some(commit) = last_given(&mut list) else {
        return Ask::Other;
    };
    let Some(fill) = last_given(&mut list) else {
        return Ask::Other;
    };
    let Some(begin) = last_given(&mut list) else {
        return Ask::Other;
    };
    if begin.head != fill.head || begin.head != finish.head {
        return Ask::Other;
    }
    Ask::Snapshots(SnapshotAsk {
        head: begin.head,
        of: commit.head,
        begun: begin.new,
        filled: fill.new,
        emptied: commit.new,
        made: finish.new,
    })
}
