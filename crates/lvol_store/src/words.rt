//! Names and uuids of volumes, as they are given from outside.

ghost use Rattle.std.specs.Prelude.{◌≡◌, OnOk, OnErr, IfOk, is_ok, None};
ghost use Rattle.uuid.specs.Text.{parsed};
ghost use Rattle.volume_model.specs.Names.{IsName};
ghost use Rattle.lvol_store.specs.Names.{is_graphic as graphic_said, begins_no_name as no_name_said};
ghost use Rattle.lvol_store.specs.Names.{is_name as name_said};

use thiserror::Error;
use uuid::Uuid;
use volume_model::Name;

/// A text that names no volume.
#[derive(Clone, Copy, Debug, PartialEq, Eq, Error)]
#[error("no name of a volume")]
pub struct BadName;

/// Why a text isn't what it should say of a volume.
#[derive(Clone, Copy, Debug, PartialEq, Eq, Error)]
pub enum LvolFault {
    /// It is no uuid.
    #[error("no uuid")]
    BadUuid,
}

/// Whether each byte is from 0x21 to 0x7E.
fn is_graphic(text: &[u8]) -> bool
    ensures { result ≡ graphic_said text.now }
{
    text.iter().all(|b| *b >= 0x21 && *b <= 0x7e)
}

/// Whether a text is empty or begins as no name does.
fn begins_no_name(text: &[u8]) -> bool
    ensures { result ≡ no_name_said text.now }
{
    match text {
        [] | [b'@', ..] | [b'#', ..] => true,
        _ => false,
    }
}

fn is_name(text: &[u8]) -> bool
    ensures { result ≡ name_said text.now }
{
    !begins_no_name(text) && text.len() <= 63 && is_graphic(text)
}

/// The name of these bytes: 1 to 63 from 0x21 to 0x7E, the first neither `@` nor `#`. `BadName` exactly where they
/// aren't so.
pub fn check_name(text: &[u8]) -> Result<Name, BadName>
    ensures name { IfOk result (λ name. name ≡ text.now) }
    ensures good { OnOk result (IsName text.now) }
    ensures bad { OnErr result (IsName text.now → ⊥) }
    ensures test { is_ok result ≡ name_said text.now }
{
    if is_name(text) {
        Ok(Name::new(text))
    } else {
        Err(BadName)
    }
}

/// The sixteen bytes of the uuid that these bytes say in one of its four forms: 32 digits, the same with hyphens, this
/// in braces or after `urn:uuid:`.
pub fn uuid_in(text: &[u8]) -> Option<[u8; 16]>
    ensures { result ≡ parsed text.now }
{
    match Uuid::try_parse_ascii(text) {
        Ok(uuid) => Some(uuid.into_bytes()),
        Err(_) => None,
    }
}

/// The sixteen bytes of the uuid that a text says. `BadUuid` exactly where it says none.
pub fn parse_uuid(text: &str) -> Result<[u8; 16], LvolFault>
    ensures uuid { IfOk result (λ uuid. parsed text.now ≡ Some uuid) }
    ensures bad { OnErr result (parsed text.now ≡ None) }
{
    match uuid_in(text.as_bytes()) {
        Some(uuid) => Ok(uuid),
        None => Err(LvolFault::BadUuid),
    }
}
