//! Fills: the slots of a volume filled one after the other, for an inflate or a decouple, and the job at the end.

ghost use Rattle.std.specs.Prelude.{◌≡◌, None, Some, false, IfOk, IfErr, IfSome, IfNone, IsSome, ℕ, option_copied};
ghost use Rattle.std.specs.FinMap as map;
ghost use Rattle.super_block.specs.declared.page.Super.{Super};
ghost use Rattle.volume_model.specs.Machine.{IsCauseOfRefusal};
ghost use Rattle.volume_model.specs.Volumes.{is_given_head};
ghost use Rattle.blob_meta.specs.Find.{IsLeast};
ghost use Rattle.blob_meta.specs.Parents.{head_of_id};
ghost use Rattle.blob_meta.specs.SlotCounts.{HeadsFit};
ghost use Rattle.snapshots.specs.RefusedAt.{IsFirstAt, RefusesFirstAt};
ghost use Rattle.inflate_delete.specs.Fills as f;
ghost use Rattle.inflate_delete.specs.FillJobs.{IsFillJob};

use crate::fill_parent::parent_blob;
use crate::fill_refusal::refusal_of_fill;
use crate::filled::fill_job;
use crate::handing::cluster_in;
use blob_meta::{Job, Meta, Metas, is_super};
use std::alloc::Global;
use super_block::Super;
use volume_model::Reply;

/// Why slots are filled.
#[derive(Clone, Copy, Debug, PartialEq, Eq)]
pub enum FillKind {
    /// Every empty slot is filled, and at the end the volume has no parent and is thick. The slots of one without a
    /// parent are filled too.
    Inflate,
    /// The empty slots that the direct parent's own map holds are filled, and at the end the volume has the parent of
    /// that one.
    Decouple,
}

/// Whether a slot is still to be filled in a blob, over its direct parent.
fn is_to_fill(kind: FillKind, meta: &Meta, parent: Option<&Meta>, at: u32) -> bool
    ensures { result ≡ f.is_to_fill_over kind meta.now (option_copied parent.entry) at }
{
    let empty = at < meta.map.len() && cluster_in(meta, at).is_none();
    match (kind, parent) {
        (FillKind::Inflate, _) => empty,
        (FillKind::Decouple, Some(parent)) => empty && cluster_in(parent, at).is_some(),
        (FillKind::Decouple, None) => false,
    }
}

/// The least slot that is still to be filled in a blob, over its direct parent; `None` exactly where there is none.
fn least_to_fill(kind: FillKind, meta: &Meta, parent: Option<&Meta>) -> Option<u32>
    ensures least { IfSome result (IsLeast (f.is_to_fill_over kind meta.now (option_copied parent.entry))) }
    ensures none { IfNone result ((at : ℕ) → f.is_to_fill_over kind meta.now (option_copied parent.entry) at ≡ false) }
{
    for at in 0..meta.map.len() {
        if is_to_fill(kind, meta, parent, at) {
            return Some(at);
        }
    }
    None
}

/// A fill: the head of the volume whose slots are filled, and why they are.
#[derive(Clone, Copy, Debug, PartialEq, Eq)]
pub struct Fill {
    pub volume: u32,
    pub kind: FillKind,
}

impl Fill {
    /// Plans a fill of the volume at the head `volume`. `Err` is the first cause for which the command is refused:
    /// `Reserved` for the super blob, `ReadOnly` for a volume that is read-only; for a decouple then `NoParent`, and
    /// `Short` where the parent has fewer slots than its own parent and than the volume.
    pub fn plan(metas: &Metas, sup: &Super, volume: u32, kind: FillKind) -> Result<Fill, Reply>
        requires { IsSome (map.get metas.now volume) }
        ensures fill { IfOk result (λ fill. fill ≡ record { volume = volume; kind = kind }) }
        ensures unrefused { IfOk result (λ fill. IsFirstAt metas.now sup.now volume (f.command_of kind) None) }
        ensures caused { IfErr result IsCauseOfRefusal }
        ensures refused { IfErr result
            (λ reply. IsFirstAt metas.now sup.now volume (f.command_of kind) (Some reply)) }
    {
        let Some(meta) = metas.get(volume) else {
            unreachable!()
        };
        match refusal_of_fill(metas, kind, is_super(sup, volume), meta) {
            Some(reply) => Err(reply),
            None => Ok(Fill { volume, kind }),
        }
    }

    /// The volume's least empty slot, for a decouple the least that is empty and that the direct parent's own map
    /// holds; `None` exactly where there is no such slot.
    pub fn next(&self, metas: &Metas) -> Option<u32>
        ensures least { HeadsFit metas.now → IfSome result
            (IsLeast (f.is_to_fill (map.get metas.now) self.now.volume self.now.kind)) }
        ensures none { HeadsFit metas.now → IfNone result
            (f.IsFilled (map.get metas.now) self.now.volume self.now.kind) }
    {
        let meta = metas.get(self.volume)?;
        least_to_fill(self.kind, meta, parent_blob(metas, meta))
    }

    /// Plans the job at the end, where `next` gives `None`: one replacement of the volume's metadata, with its
    /// attributes as they were last synced. An inflated volume has no parent and is thick, a decoupled one has its
    /// parent's parent. `Err` is the first cause for which the command is refused by then, of a volume other than the
    /// super blob, or `Memory`.
    pub fn last_job(&self, alloc: Global, metas: &Metas) -> Result<Job, Reply>
        requires there { IsSome (map.get metas.now self.now.volume) }
        requires filled { HeadsFit metas.now → f.IsFilled (map.get metas.now) self.now.volume self.now.kind }
        ensures job { HeadsFit metas.now → IfOk result (IsFillJob metas.now self.now.volume self.now.kind) }
        ensures unrefused { IfOk result
            (λ job. (sup : Super) → is_given_head self.now.volume (head_of_id sup.super_blob) ≡ false
            → IsFirstAt metas.now sup self.now.volume (f.command_of self.now.kind) None) }
        ensures refused { IfErr result
            (λ reply. (sup : Super) → is_given_head self.now.volume (head_of_id sup.super_blob) ≡ false
            → RefusesFirstAt metas.now sup self.now.volume (f.command_of self.now.kind) reply) }
    {
        let Some(old) = metas.get(self.volume) else {
            unreachable!()
        };
        if let Some(reply) = refusal_of_fill(metas, self.kind, false, old) {
            return Err(reply);
        }
        let parent = parent_blob(metas, old);
        fill_job(alloc, self.kind, self.volume, old, parent).map_err(|_| Reply::Memory)
    }
}
