//! Why a volume isn't deleted.

ghost use Rattle.std.specs.Prelude.{◌≡◌, ◌≤◌, ◌<◌, ◌^◌, Some, length, IfSome, IfNone};
ghost use Rattle.std.specs.FinMap as map;
ghost use Rattle.volume_model.specs.Machine.{IsCauseOfRefusal};
ghost use Rattle.volume_model.specs.declared.command.Command.TheVariants as c;
ghost use Rattle.blob_meta.specs.Asked.{first_cause};
ghost use Rattle.blob_meta.specs.SlotCounts.{HeadsFit};
ghost use Rattle.snapshots.specs.RefusedAt.{IsFirstAt};
ghost use Rattle.inflate_delete.specs.Clones.{AreClones};
ghost use Rattle.inflate_delete.specs.DeleteCauses as d;

use crate::clones::only_blob;
use blob_meta::{Meta, Metas, has_longer_parent, is_super};
use super_block::Super;
use volume_model::Reply;

/// Whether the blob, or its one clone, is locked.
fn is_locked_by(metas: &Metas, old: &Meta, clones: &[u32]) -> bool
    ensures { result ≡ d.locked_by metas.now old.now clones.now }
{
    match only_blob(metas, clones) {
        Some(clone) => old.flags.is_locked() || clone.flags.is_locked(),
        None => old.flags.is_locked(),
    }
}

/// Whether the blob has one clone, which would read its parent where the blob, being shorter than both, reads zeros.
fn is_short_between(metas: &Metas, old: &Meta, clones: &[u32]) -> bool
    ensures { HeadsFit metas.now → result ≡ d.is_short_between metas.now old.now clones.now }
{
    match only_blob(metas, clones) {
        Some(clone) => has_longer_parent(metas, old) && old.map.len() < clone.map.len(),
        None => false,
    }
}

/// The first of the causes, of a blob with so many clones.
fn first_of(reserved: bool, locked: bool, clones: u32, short: bool) -> Option<Reply>
    ensures caused { IfSome result IsCauseOfRefusal }
    ensures first { result ≡ first_cause (d.delete_causes reserved locked clones short) }
    ensures few { IfNone result (clones ≤ 1) }
{
    if reserved {
        Some(Reply::Reserved)
    } else if locked {
        Some(Reply::ReadOnly)
    } else if clones >= 2 {
        Some(Reply::Busy(clones))
    } else if short {
        Some(Reply::Short)
    } else {
        None
    }
}

/// The first cause for which the blob at a head, of which these are the clones, isn't deleted; `None` exactly where
/// nothing refuses it. `Reserved` comes for the super blob, `ReadOnly` where the blob or its one clone is locked,
/// `Busy` for two clones or more, and `Short` where the blob has fewer slots than its parent and than its one clone.
pub fn refusal_of_delete(
    metas: &Metas,
    sup: &Super,
    volume: u32,
    old: &Meta,
    clones: &[u32],
) -> Option<Reply>
    requires there { map.get metas.now volume ≡ Some old.now }
    requires clones { AreClones metas.now volume clones.now }
    requires few { length clones.now < 2 ^ 32 }
    ensures caused { IfSome result IsCauseOfRefusal }
    ensures first { IsFirstAt metas.now sup.now volume (λ meant. c.Delete meant) result }
    ensures few { IfNone result (length clones.now ≤ 1) }
{
    first_of(
        is_super(sup, volume),
        is_locked_by(metas, old, clones),
        clones.len() as u32,
        is_short_between(metas, old, clones),
    )
}
