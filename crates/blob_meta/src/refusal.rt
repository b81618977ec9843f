//! Why a command on the attributes of a blob is refused.

ghost use Rattle.std.specs.Prelude.{◌≡◌, ◌+◌, ◌∷◌, [], Some, nat_lt, length, is_none, option_copied, IsSome, IfSome};
ghost use Rattle.std.specs.Prelude.{IfNone};
ghost use Rattle.volume_model.specs.Volumes.{Fixed, Volumes, is_given_head};
ghost use Rattle.volume_model.specs.Xattrs.{value_of};
ghost use Rattle.volume_model.specs.Refusals.{is_reserved as reserved_said, refusal};
ghost use Rattle.volume_model.specs.declared.reply.Reply.TheVariants as r;
ghost use Rattle.blob_meta.specs.Asked.{asked_volume as volume_said, first_cause, HasValue};
ghost use Rattle.blob_meta.specs.Asked.{IsAttributeCause, IsLiveOf, IsFirstCause, IsOnAttributes};
ghost use Rattle.blob_meta.specs.Asked.{MeansVolume, NamesThere};
ghost use Rattle.blob_meta.specs.Parents.{head_of_id};

use crate::head_map::Metas;
use crate::looking_up::find;
use super_block::Super;
use volume_model::{Blobtext, Command, Reply, VolumeRef, XattrList};

/// The volume that a command on attributes, or a resize, names.
pub fn asked_volume(command: &Command) -> &VolumeRef
    requires { IsSome (volume_said command.now) }
    ensures { volume_said command.now ≡ Some result.now }
{
    match command {
        Command::SetX { volume, .. }
        | Command::DelX { volume, .. }
        | Command::GetX { volume, .. }
        | Command::Put { volume, .. }
        | Command::Sync { volume }
        | Command::ReadOnly { volume }
        | Command::Resize { volume, .. } => volume,
        _ => unreachable!(),
    }
}

/// Whether the super block names the head as the super blob's.
pub fn is_super(sup: &Super, head: u32) -> bool
    ensures { result ≡ is_given_head head (head_of_id sup.now.super_blob) }
{
    sup.super_blob == (1 << 32) + u64::from(head)
}

/// Whether no command on attributes may change the key.
fn is_reserved(key: &[u8]) -> bool
    ensures { result ≡ reserved_said key.now }
{
    key == b"name".as_slice() || key == b"uuid".as_slice()
}

/// Whether key and value don't fit into one descriptor.
fn is_too_long(key: &[u8], value: &[u8]) -> bool
    ensures { result ≡ nat_lt 4063 (length key.now + length value.now) }
{
    key.len() + value.len() > 4063
}

/// Why no attribute is synced.
fn refusal_of_sync(reserved: bool, read_only: bool) -> Option<Reply>
    ensures caused { IfSome result IsAttributeCause }
    ensures first { result ≡ first_cause ((reserved, r.Reserved) ∷ (read_only, r.ReadOnly) ∷ []) }
{
    if reserved {
        Some(Reply::Reserved)
    } else if read_only {
        Some(Reply::ReadOnly)
    } else {
        None
    }
}

/// Why the key isn't given the value.
fn refusal_of_set(reserved: bool, read_only: bool, key: &[u8], value: &[u8]) -> Option<Reply>
    ensures caused { IfSome result IsAttributeCause }
    ensures first { result ≡ first_cause ((reserved, r.Reserved) ∷ (read_only, r.ReadOnly)
        ∷ (nat_lt 4063 (length key.now + length value.now), r.TooLong) ∷ []) }
{
    if reserved {
        Some(Reply::Reserved)
    } else if read_only {
        Some(Reply::ReadOnly)
    } else if is_too_long(key, value) {
        Some(Reply::TooLong)
    } else {
        None
    }
}

/// Why the key isn't removed.
fn refusal_of_removal(
    reserved: bool,
    read_only: bool,
    live: &XattrList,
    key: &Blobtext,
) -> Option<Reply>
    ensures caused { IfSome result IsAttributeCause }
    ensures first { result ≡ first_cause ((reserved, r.Reserved) ∷ (read_only, r.ReadOnly)
        ∷ (is_none (value_of live.now key.now), r.NoValue) ∷ []) }
{
    if reserved {
        Some(Reply::Reserved)
    } else if read_only {
        Some(Reply::ReadOnly)
    } else {
        refusal_of_look(live, key)
    }
}

/// Why the value of the key isn't told.
fn refusal_of_look(live: &XattrList, key: &Blobtext) -> Option<Reply>
    ensures caused { IfSome result IsAttributeCause }
    ensures first { result ≡ first_cause ((is_none (value_of live.now key.now), r.NoValue) ∷ []) }
    ensures value { IfNone result (IsSome (value_of live.now key.now)) }
{
    if live.value_of(key.bytes()).is_none() {
        Some(Reply::NoValue)
    } else {
        None
    }
}

/// Why a command on attributes is refused at a volume, of which this is known.
fn refusal_at(reserved: bool, read_only: bool, live: &XattrList, command: &Command) -> Option<Reply>
    requires { IsOnAttributes command.now }
    ensures caused { IfSome result IsAttributeCause }
    ensures value { IfNone result (HasValue (Some live.now) command.now) }
    ensures first { (f : Fixed) (v : Volumes) → MeansVolume f v command.now reserved read_only live.now
        → refusal f v command.now ≡ result }
{
    match command {
        Command::SetX { key, value, .. } | Command::Put { key, value, .. } => {
            let reserved = reserved || is_reserved(key.bytes());
            refusal_of_set(reserved, read_only, key.bytes(), value.bytes())
        }
        Command::DelX { key, .. } => {
            let reserved = reserved || is_reserved(key.bytes());
            refusal_of_removal(reserved, read_only, live, key)
        }
        Command::GetX { key, .. } => refusal_of_look(live, key),
        Command::Sync { .. } | Command::ReadOnly { .. } => refusal_of_sync(reserved, read_only),
        _ => unreachable!(),
    }
}

/// The first cause for which a command on attributes is refused; `None` exactly where nothing refuses it. `live` is the
/// live attributes of the volume that it names, which those of `metas` need not be, and is `None` exactly where `find`
/// gives none. `NoVolume` comes for that, `Reserved` for the super blob or the key `name` or `uuid`, `ReadOnly` for a
/// blob that is read-only, `TooLong` for a key and a value of more than 4063 bytes together, and `NoValue` for a key
/// that no live attribute has.
pub fn refusal_of(
    metas: &Metas,
    sup: &Super,
    live: Option<&XattrList>,
    command: &Command,
) -> Option<Reply>
    requires attributes { IsOnAttributes command.now }
    requires live { IsLiveOf metas.now sup.now (option_copied live) command.now }
    ensures caused { IfSome result IsAttributeCause }
    ensures there { IfNone result (NamesThere metas.now sup.now command.now) }
    ensures value { IfNone result (HasValue (option_copied live.entry) command.now) }
    ensures first { IsFirstCause metas.now sup.now (option_copied live.entry) command.now result }
{
    let Some(head) = find(metas, sup, asked_volume(command)) else {
        return Some(Reply::NoVolume);
    };
    let (Some(meta), Some(live)) = (metas.get(head), live) else {
        unreachable!()
    };
    refusal_at(
        is_super(sup, head),
        meta.flags.is_read_only(),
        live,
        command,
    )
}
