//! Why a command on the slots of a blob is refused.

ghost use Rattle.std.specs.Prelude.{◌≡◌, ◌&&◌, ◌∷◌, [], false, nat_lt, length, IfSome, IfNone};
ghost use Rattle.volume_model.specs.Machine.{IsCauseOfRefusal};
ghost use Rattle.volume_model.specs.declared.reply.Reply.TheVariants as r;
ghost use Rattle.blob_meta.specs.Asked.{first_cause, NamesThere};
ghost use Rattle.blob_meta.specs.Parents.{is_read_only as read_only_said};
ghost use Rattle.blob_meta.specs.ShownBy.{IsFirstRefusal};
ghost use Rattle.blob_meta.specs.SlotCounts.{AsksFewSlots, HeadsFit, IsCreate, IsResize};
ghost use Rattle.blob_meta.specs.SlotCounts.{has_longer_parent as longer_said};

use crate::head_map::Metas;
use crate::looking_up::{find, is_taken};
use crate::meta::Meta;
use crate::refusal::is_super;
use crate::slot_count::{all_slots, has_longer_parent, is_too_large};
use super_block::Super;
use volume_model::{Command, Reply};

/// The first cause for which a create is refused; `None` exactly where nothing refuses it. `NameTaken` comes where a
/// blob other than the super blob has the name, `TooLarge` for more than 2^20 slots, or more than 2^24 with those of
/// all blobs.
pub fn refusal_of_create(metas: &Metas, sup: &Super, command: &Command) -> Option<Reply>
    requires { IsCreate command.now }
    ensures caused { IfSome result IsCauseOfRefusal }
    ensures few { IfNone result (AsksFewSlots command.now) }
    ensures first { IsFirstRefusal metas.now sup.now command.now result }
{
    let Command::Create { name, slots, .. } = command else {
        unreachable!()
    };
    if is_taken(metas, sup, name) {
        Some(Reply::NameTaken)
    } else if is_too_large(*slots, all_slots(metas)) {
        Some(Reply::TooLarge)
    } else {
        None
    }
}

/// Why a blob isn't given so many slots, which may be too many.
fn refusal_at(
    metas: &Metas,
    reserved: bool,
    meta: &Meta,
    slots: u64,
    too_large: bool,
) -> Option<Reply>
    ensures caused { IfSome result IsCauseOfRefusal }
    ensures fits { IfNone result (too_large ≡ false) }
    ensures first { HeadsFit metas.now → result ≡ first_cause ((reserved, r.Reserved)
        ∷ (read_only_said meta.now.flags, r.ReadOnly)
        ∷ (nat_lt (length meta.now.map) slots && longer_said metas.now meta.now, r.Short)
        ∷ (too_large, r.TooLarge) ∷ []) }
{
    if reserved {
        Some(Reply::Reserved)
    } else if meta.flags.is_read_only() {
        Some(Reply::ReadOnly)
    } else if slots > u64::from(meta.map.len()) && has_longer_parent(metas, meta) {
        Some(Reply::Short)
    } else if too_large {
        Some(Reply::TooLarge)
    } else {
        None
    }
}

/// The first cause for which a resize is refused; `None` exactly where nothing refuses it. `NoVolume` comes where no
/// blob is meant, `Reserved` for the super blob, `ReadOnly` for a blob that is read-only, `Short` where slots are added
/// under a parent that has more than the blob, and `TooLarge` for more than 2^20 slots, or more than 2^24 with those of
/// all other blobs.
pub fn refusal_of_resize(metas: &Metas, sup: &Super, command: &Command) -> Option<Reply>
    requires { IsResize command.now }
    ensures caused { IfSome result IsCauseOfRefusal }
    ensures there { IfNone result (NamesThere metas.now sup.now command.now) }
    ensures few { IfNone result (AsksFewSlots command.now) }
    ensures first { IsFirstRefusal metas.now sup.now command.now result }
{
    let Command::Resize { volume, slots } = command else {
        unreachable!()
    };
    let Some(head) = find(metas, sup, volume) else {
        return Some(Reply::NoVolume);
    };
    let Some(meta) = metas.get(head) else {
        unreachable!()
    };
    let others = all_slots(metas).saturating_sub(u64::from(meta.map.len()));
    let too_large = is_too_large(*slots, others);
    refusal_at(metas, is_super(sup, head), meta, *slots, too_large)
}
