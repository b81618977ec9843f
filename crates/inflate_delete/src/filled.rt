//! What becomes of a blob whose slots are filled.

ghost use Rattle.std.specs.Prelude.{◌≡◌, IfOk, option_copied};
ghost use Rattle.inflate_delete.specs.FillJobs as j;

use crate::filling::FillKind;
use blob_meta::{Flags, Job, Meta};
use out_of_memory::Memory;
use snapshots::with_parent_of;
use std::alloc::Global;
use volume_model::{TryCopy, XattrList};

/// The blob without its parent, and thick.
fn inflated_blob(alloc: Global, old: &Meta) -> Result<Meta, Memory>
    ensures { IfOk result (λ new. new ≡ j.inflated_blob old.now) }
{
    Ok(Meta {
        id: old.id,
        flags: Flags {
            invalid: old.flags.invalid / 2 * 2,
            data_ro: old.flags.data_ro,
            md_ro: old.flags.md_ro,
        },
        xattrs: old.xattrs.try_copy(alloc)?,
        internal: old.internal.without(alloc, b"SNAP")?,
        map: old.map.try_copy(alloc)?,
    })
}

/// The blob with the parent of its parent, or without one where that has none, or isn't there.
fn decoupled_blob(alloc: Global, old: &Meta, parent: Option<&Meta>) -> Result<Meta, Memory>
    ensures { IfOk result (λ new. new ≡ j.decoupled_blob old.now (option_copied parent.entry)) }
{
    let internal: XattrList = match parent {
        Some(parent) => with_parent_of(alloc, &old.internal, parent)?,
        None => old.internal.without(alloc, b"SNAP")?,
    };
    Ok(Meta {
        id: old.id,
        flags: old.flags,
        xattrs: old.xattrs.try_copy(alloc)?,
        internal,
        map: old.map.try_copy(alloc)?,
    })
}

/// The job that ends a fill of this kind, of the blob at a head over its direct parent.
pub fn fill_job(
    alloc: Global,
    kind: FillKind,
    volume: u32,
    old: &Meta,
    parent: Option<&Meta>,
) -> Result<Job, Memory>
    ensures { IfOk result (λ job. job ≡ j.fill_job kind volume old.now (option_copied parent.entry)) }
{
    let new = match kind {
        FillKind::Inflate => inflated_blob(alloc, old)?,
        FillKind::Decouple => decoupled_blob(alloc, old, parent)?,
    };
    Job::of_one(alloc, volume, new)
}
