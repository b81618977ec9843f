//! The marks of snapshots that are being made or removed.

ghost use Rattle.std.specs.Prelude.{◌≡◌, false, option_copied, IfOk};
ghost use Rattle.std.specs.Option.{option_map_or};
ghost use Rattle.std.specs.FinMap as map;
ghost use Rattle.volume_model.specs.Volumes.{is_given_head};
ghost use Rattle.blob_meta.specs.Parents.{parent_of as parent_said};
ghost use Rattle.blob_meta.specs.Repairs.{keeps as keeps_said};
ghost use Rattle.blob_meta.specs.Resolving.{is_kept as is_kept_said, mark_of as mark_said, without_marks as lifted};
ghost use Rattle.blob_meta.specs.SlotCounts.{HeadsFit};

use crate::head_map::Metas;
use crate::meta::Meta;
use crate::parent::{named_in, parent_of};
use out_of_memory::Memory;
use std::alloc::Global;
use volume_model::{Blobtext, TryCopy};

/// The mark of a blob: SNAPRM, else SNAPTMP; `None` exactly where it has neither.
pub fn mark_of(meta: &Meta) -> Option<&Blobtext>
    ensures { option_copied result ≡ mark_said meta.now }
{
    match meta.internal.value_of(b"SNAPRM") {
        Some(mark) => Some(mark),
        None => meta.internal.value_of(b"SNAPTMP"),
    }
}

/// Whether a blob is there and has this parent.
fn is_child(metas: &Metas, head: u32, parent: u32) -> bool
    ensures { result ≡ option_map_or (λ m. is_given_head parent (parent_said m)) (map.get metas.now head) false }
{
    match metas.get(head) {
        Some(meta) => match parent_of(meta) {
            Some(named) => named == u64::from(parent),
            None => false,
        },
        None => false,
    }
}

/// Whether a marked blob is kept: the blob that its mark names is there, and has it for its parent.
fn is_kept(metas: &Metas, head: u32, mark: &[u8]) -> bool
    ensures { HeadsFit metas.now → result ≡ is_kept_said (map.get metas.now) head mark.now }
{
    match named_in(mark) {
        Some(named) => match u32::try_from(named) {
            Ok(child) => is_child(metas, child, head),
            Err(_) => false,
        },
        None => false,
    }
}

/// Whether the marked blob at a head is kept; `None` exactly where there is no marked blob.
pub(crate) fn keeps(metas: &Metas, head: u32) -> Option<bool>
    ensures { HeadsFit metas.now → result ≡ keeps_said (map.get metas.now) head }
{
    match metas.get(head) {
        Some(meta) => match mark_of(meta) {
            Some(mark) => Some(is_kept(metas, head, mark.bytes())),
            None => None,
        },
        None => None,
    }
}

/// A copy of metadata without the marks of a snapshot that is being made or removed, and read-only.
pub fn without_marks(alloc: Global, meta: &Meta) -> Result<Meta, Memory>
    ensures { IfOk result (λ m. m ≡ lifted meta.now) }
{
    Ok(Meta {
        id: meta.id,
        flags: meta.flags.read_only(),
        xattrs: meta.xattrs.try_copy(alloc)?,
        internal: meta
            .internal
            .without(alloc, b"SNAPRM")?
            .without(alloc, b"SNAPTMP")?,
        map: meta.map.try_copy(alloc)?,
    })
}
