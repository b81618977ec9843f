//! Options: what a client says in the handshake.

ghost use Rattle.std.specs.Prelude.{◌≡◌, ◌≢◌, List, ℕ, take, IfOk, IfSome, OnErr, IfNone};
ghost use Rattle.nbd_words.specs.Numbers.{number_bytes};
ghost use Rattle.nbd_words.specs.Options.{option_magic, option_number, option_head_bytes, IsOptionKind, IsOptionHead};
ghost use Rattle.nbd_words.specs.Options.{IsInfoRequest, client_flags_bytes};
ghost use Rattle.nbd_words.specs.declared.options.ClientFlags.{ClientFlags};

use crate::numbers::{u16_at, u32_at, u64_at};
use thiserror::Error;

/// The text `IHAVEOPT`, with which each option begins.
const OPTION_MAGIC: u64 = 0x4948_4156_454F_5054;

/// What a client says first.
#[derive(Clone, Copy, Debug, PartialEq, Eq)]
pub struct ClientFlags {
    /// Whether it speaks the fixed newstyle.
    pub fixed: bool,
    /// Whether it wants no zeros behind the answer to EXPORT_NAME.
    pub no_zeroes: bool,
}

/// The client's first words; None where it sets a flag that nobody knows.
pub fn client_flags(bytes: &[u8; 4]) -> Option<ClientFlags>
    ensures found { IfSome result (λ flags. bytes.now ≡ client_flags_bytes flags) }
    ensures none { IfNone result ((flags : ClientFlags) → bytes.now ≡ client_flags_bytes flags → ⊥) }
{
    let number = u32_at(bytes, 0);
    let (fixed, no_zeroes) = match number {
        0 => (false, false),
        1 => (true, false),
        2 => (false, true),
        3 => (true, true),
        _ => return None,
    };
    Some(ClientFlags { fixed, no_zeroes })
}

/// Which option it is.
#[derive(Clone, Copy, Debug, PartialEq, Eq)]
pub enum OptionKind {
    /// Opens the export of a name, with no way to refuse but to close the connection.
    ExportName,
    /// Ends the connection.
    Abort,
    /// Asks for the names of the exports.
    ListExports,
    /// Asks what an export is like.
    Info,
    /// Asks the same and opens the export.
    Go,
    /// Any other, by its number.
    Other(u32),
}

impl OptionKind {
    /// The option of this number.
    pub fn of(number: u32) -> OptionKind
        ensures number { option_number result ≡ number }
        ensures named { IsOptionKind result }
    {
        match number {
            1 => OptionKind::ExportName,
            2 => OptionKind::Abort,
            3 => OptionKind::ListExports,
            6 => OptionKind::Info,
            7 => OptionKind::Go,
            _ => OptionKind::Other(number),
        }
    }

    /// Its number, which an answer repeats.
    pub fn number(&self) -> u32
        ensures { result ≡ option_number self.now }
    {
        match self {
            OptionKind::ExportName => 1,
            OptionKind::Abort => 2,
            OptionKind::ListExports => 3,
            OptionKind::Info => 6,
            OptionKind::Go => 7,
            OptionKind::Other(number) => *number,
        }
    }
}

/// The first 16 bytes of an option.
#[derive(Clone, Copy, Debug, PartialEq, Eq)]
pub struct OptionHead {
    pub kind: OptionKind,
    /// How many bytes follow.
    pub length: u32,
}

/// The bytes do not begin as what was expected begins.
#[derive(Clone, Copy, Debug, PartialEq, Eq, Error)]
#[error("a wrong magic number")]
pub struct WrongMagic;

/// The head of the option that these bytes begin. An error is only for bytes that begin otherwise than an option.
pub fn option_head(bytes: &[u8; 16]) -> Result<OptionHead, WrongMagic>
    ensures found { IfOk result (λ head. bytes.now ≡ option_head_bytes head) }
    ensures named { IfOk result IsOptionHead }
    ensures wrong { OnErr result (take 8 bytes.now ≢ number_bytes 8 option_magic) }
{
    let magic = u64_at(bytes, 0);
    if magic != OPTION_MAGIC {
        return Err(WrongMagic);
    }
    let number = u32_at(bytes, 8);
    let length = u32_at(bytes, 12);
    Ok(OptionHead {
        kind: OptionKind::of(number),
        length,
    })
}

/// What INFO and GO ask for.
#[derive(Clone, Copy, Debug, PartialEq, Eq)]
pub struct InfoRequest<'a> {
    /// The export's name; an empty one is the default export's.
    pub name: &'a [u8],
    /// Numbers of two bytes, each of one thing that the client wants to be told.
    pub infos: &'a [u8],
}

/// The name and the wishes in the bytes of an INFO or of a GO; None where the bytes have another form.
pub fn info_request(bytes: &[u8]) -> Option<InfoRequest<'_>>
    ensures found { IfSome result (λ request. IsInfoRequest bytes.now request.name.now request.infos.now) }
    ensures none { IfNone result ((name infos : List ℕ) → IsInfoRequest bytes.now name infos → ⊥) }
{
    if bytes.len() < 6 {
        return None;
    }
    let name_length = u32_at(bytes, 0) as usize;
    if name_length > bytes.len() - 6 {
        return None;
    }
    let name_end = 4 + name_length;
    let count = u16_at(bytes, name_end) as usize;
    let infos_from = name_end + 2;
    if bytes.len() - infos_from != 2 * count {
        return None;
    }
    Some(InfoRequest {
        name: &bytes[4..name_end],
        infos: &bytes[infos_from..],
    })
}
