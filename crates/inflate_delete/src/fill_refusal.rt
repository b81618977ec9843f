//! Why a volume isn't inflated or decoupled.

ghost use Rattle.std.specs.Prelude.{◌≡◌, IfSome};
ghost use Rattle.volume_model.specs.Machine.{IsCauseOfRefusal};
ghost use Rattle.blob_meta.specs.Asked.{first_cause};
ghost use Rattle.blob_meta.specs.SlotCounts.{HeadsFit};
ghost use Rattle.inflate_delete.specs.FillCauses as f;

use crate::fill_parent::parent_blob;
use crate::filling::FillKind;
use blob_meta::{Meta, Metas, has_longer_parent, parent_of};
use volume_model::Reply;

/// Whether the blob has a parent with fewer slots than its own parent and than the blob, which would read that one's
/// slots where its parent reads zeros.
fn is_short_under(metas: &Metas, meta: &Meta) -> bool
    ensures { HeadsFit metas.now → result ≡ f.is_short_under metas.now meta.now }
{
    match parent_blob(metas, meta) {
        Some(parent) => has_longer_parent(metas, parent) && parent.map.len() < meta.map.len(),
        None => false,
    }
}

/// The first of the causes that an inflate has.
fn first_of_inflate(reserved: bool, read_only: bool) -> Option<Reply>
    ensures caused { IfSome result IsCauseOfRefusal }
    ensures first { result ≡ first_cause (f.inflate_causes reserved read_only) }
{
    if reserved {
        Some(Reply::Reserved)
    } else if read_only {
        Some(Reply::ReadOnly)
    } else {
        None
    }
}

/// The first of the causes that a decouple has.
fn first_of_decouple(reserved: bool, read_only: bool, no_parent: bool, short: bool) -> Option<Reply>
    ensures caused { IfSome result IsCauseOfRefusal }
    ensures first { result ≡ first_cause (f.decouple_causes reserved read_only no_parent short) }
{
    if reserved {
        Some(Reply::Reserved)
    } else if read_only {
        Some(Reply::ReadOnly)
    } else if no_parent {
        Some(Reply::NoParent)
    } else if short {
        Some(Reply::Short)
    } else {
        None
    }
}

/// The first cause for which the blob, reserved as the super blob or not, isn't filled for a command of this kind;
/// `None` exactly where nothing refuses it. `Reserved` comes for the super blob and `ReadOnly` for a blob that is
/// read-only; for a decouple then `NoParent` where the blob has no parent, and `Short` where its parent has fewer slots
/// than its own parent and than the blob.
pub fn refusal_of_fill(metas: &Metas, kind: FillKind, reserved: bool, meta: &Meta) -> Option<Reply>
    ensures caused { IfSome result IsCauseOfRefusal }
    ensures first { HeadsFit metas.now → result ≡ first_cause (f.fill_causes metas.now kind reserved meta.now) }
{
    let read_only = meta.flags.is_read_only();
    match kind {
        FillKind::Inflate => first_of_inflate(reserved, read_only),
        FillKind::Decouple => {
            let short = is_short_under(metas, meta);
            first_of_decouple(reserved, read_only, parent_of(meta).is_none(), short)
        }
    }
}
