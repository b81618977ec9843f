//! Why a volume isn't copied.

ghost use Rattle.std.specs.Prelude.{◌≡◌, false, Some, None, length, IfSome};
ghost use Rattle.std.specs.FinMap as map;
ghost use Rattle.volume_model.specs.Machine.{IsCauseOfRefusal};
ghost use Rattle.volume_model.specs.declared.command.Command.TheVariants as c;
ghost use Rattle.blob_meta.specs.ShownBy.{IsFirstRefusal};
ghost use Rattle.snapshots.specs.RefusedAt.{IsFirstAt};

use blob_meta::{Meta, Metas, is_super, refusal_of_create};
use super_block::Super;
use volume_model::{Command, Name, Reply};

/// Why there is no copy of this name: as there is no new volume of that name and of so many slots.
fn refusal_of_copy(metas: &Metas, sup: &Super, old: &Meta, name: &Name) -> Option<Reply>
    ensures caused { IfSome result IsCauseOfRefusal }
    ensures first { IsFirstRefusal metas.now sup.now (c.Create name.now (length old.now.map) false None) result }
{
    let copy = Command::Create {
        name: Name::new(name.bytes()),
        slots: u64::from(old.map.len()),
        thick: false,
        uuid: None,
    };
    refusal_of_create(metas, sup, &copy)
}

/// The first cause for which no snapshot is made of the blob at a head; `None` exactly where nothing refuses it.
/// `Reserved` comes for the super blob, `ReadOnly` for a blob that is read-only, `NameTaken` where a blob other than
/// the super blob has the name, and `TooLarge` where there would be more than 2^24 slots in all.
pub fn refusal_of_snapshot(
    metas: &Metas,
    sup: &Super,
    volume: u32,
    old: &Meta,
    name: &Name,
) -> Option<Reply>
    requires { map.get metas.now volume ≡ Some old.now }
    ensures caused { IfSome result IsCauseOfRefusal }
    ensures first { IsFirstAt metas.now sup.now volume (λ meant. c.Snapshot meant name.now) result }
{
    if is_super(sup, volume) {
        Some(Reply::Reserved)
    } else if old.flags.is_read_only() {
        Some(Reply::ReadOnly)
    } else {
        refusal_of_copy(metas, sup, old, name)
    }
}

/// The first cause for which no clone is made of the blob at a head; `None` exactly where nothing refuses it.
/// `NotReadOnly` comes for a blob that can be written, `NameTaken` where a blob other than the super blob has the name,
/// and `TooLarge` where there would be more than 2^24 slots in all.
pub fn refusal_of_clone(
    metas: &Metas,
    sup: &Super,
    volume: u32,
    old: &Meta,
    name: &Name,
) -> Option<Reply>
    requires { map.get metas.now volume ≡ Some old.now }
    ensures caused { IfSome result IsCauseOfRefusal }
    ensures first { IsFirstAt metas.now sup.now volume (λ meant. c.Clone meant name.now) result }
{
    if old.flags.is_read_only() {
        refusal_of_copy(metas, sup, old, name)
    } else {
        Some(Reply::NotReadOnly)
    }
}
