//! The uuids of volumes: what one has where none is given, and how they stand in its attributes.

ghost use Rattle.volume_model.specs.Names.{IsName};
ghost use Rattle.std.specs.Prelude.{◌≡◌, IfOk, Some};
ghost use Rattle.std.specs.Option.{option_map_or};
ghost use Rattle.volume_model.specs.Uuids as u;
ghost use Rattle.volume_model.specs.Volumes.{Fixed, Volumes, two_xattrs};
ghost use Rattle.volume_model.specs.Xattrs.{uuid_key, with_nul as with_nul_said};

use crate::lists::ListOf;
use crate::name::Name;
use crate::text::{Xattr, XattrList};
use crate::xattrs::with_nul;
use out_of_memory::Memory;
use std::alloc::Global;
use uuid::Uuid;

/// The uuid of a name in a store: version 5 by RFC 9562, the store's uuid being the namespace. A store without a uuid
/// has the nil uuid, sixteen zeros.
#[tactic(auto, unfolding(crate::specs::Uuids::default_uuid))]
pub fn uuid_for(store: [u8; 16], name: &Name) -> [u8; 16]
    ensures { result ≡ u.default_uuid store name.now }
{
    Uuid::new_v5(&Uuid::from_bytes(store), name.bytes()).into_bytes()
}

/// The uuid of a new volume: the given one, or else that of its name in the store.
pub fn uuid_of_new(store: [u8; 16], name: &Name, given: Option<[u8; 16]>) -> [u8; 16]
    ensures { result ≡ option_map_or (λ bytes. bytes) given (u.default_uuid store name.now) }
{
    match given {
        Some(uuid) => uuid,
        None => uuid_for(store, name),
    }
}

/// The uuid that a text says; the nil uuid where it says none.
#[tactic(auto, unfolding(crate::specs::Uuids::uuid_said))]
pub fn uuid_said(text: &[u8]) -> [u8; 16]
    ensures { result ≡ u.uuid_said text.now }
{
    match Uuid::try_parse_ascii(text) {
        Ok(uuid) => uuid.into_bytes(),
        Err(_) => Uuid::nil().into_bytes(),
    }
}

/// The attribute `uuid`: the text in lower case, and one NUL.
#[tactic(auto, unfolding(crate::specs::Uuids::uuid_text))]
fn uuid_xattr(alloc: Global, uuid: [u8; 16]) -> Result<Xattr, Memory>
    ensures { IfOk result (λ xattr. xattr ≡ record { key = uuid_key; value = with_nul_said (u.uuid_text uuid) }) }
{
    let mut buffer = Uuid::encode_buffer();
    let text = Uuid::from_bytes(uuid)
        .hyphenated()
        .encode_lower(&mut buffer);
    let mut value = Vec::from_slice(alloc, text.as_bytes())?;
    value.push(0)?;
    Xattr::new(alloc, b"uuid", value.as_slice())
}

/// The attributes `name` and `uuid`, which a new volume of this name and uuid has alone.
pub fn named_xattrs(alloc: Global, name: &Name, uuid: [u8; 16]) -> Result<XattrList, Memory>
    ensures two { IfOk result (λ xattrs. (f : Fixed) (v : Volumes) → xattrs ≡ two_xattrs f v name.now (Some uuid)) }
    ensures name { IsName name.now }
{
    let value = with_nul(alloc, name.bytes())?;
    let mut xattrs = ListOf::new(alloc);
    xattrs.push(Xattr::new(alloc, b"name", value.as_slice())?)?;
    xattrs.push(uuid_xattr(alloc, uuid)?)?;
    Ok(xattrs)
}
