//! Options.

ghost use Rattle.std.specs.Prelude.{◌≡◌, ◌≢◌, ◌≤◌, ◌<◌, [], List, ℕ, length, take, IsTrue, IfOk, OnOk, IfSome, IfNone};
ghost use Rattle.std.specs.Prelude.{◌++◌, Err};
ghost use Rattle.page_disk.specs.Disk.{Rose};
ghost use Rattle.nbd_words.specs.Numbers.{number_bytes};
ghost use Rattle.nbd_words.specs.Options.{option_magic, AskedOption, AsksOption, client_flags_bytes};
ghost use Rattle.nbd_words.specs.declared.options.ClientFlags.{ClientFlags};
ghost use Rattle.nbd_reader.specs.Taken.{Takes};
ghost use Rattle.nbd_reader.specs.Reading.{GivesOption, GivesBytes};

use crate::fault::ReadFault;
use crate::taking::{fill, skip, take_all};
use nbd_words::{ClientFlags, OptionKind, client_flags, option_head};
use std::alloc::Global;
use streams::Source;

/// The most bytes of an option that are held.
const MOST: u32 = 4096;

/// What a client says first. A flag that nobody knows is a `WrongMagic`.
pub fn first_words<S: Source>(source: &mut S) -> Result<ClientFlags, ReadFault>
    ensures flags { IsTrue S.tells → IfOk result (λ flags.
        S.left source.old ≡ client_flags_bytes flags ++ S.left source.new) }
    ensures magic { result ≡ Err ReadFault.WrongMagic → IsTrue S.tells → (flags : ClientFlags) (rest : List ℕ)
        → S.left source.old ≡ client_flags_bytes flags ++ rest → ⊥ }
    ensures cut { result ≡ Err ReadFault.Cut → IsTrue S.tells → length (S.left source.old) < 4 }
    ensures memory { result ≡ Err ReadFault.Memory → ⊥ }
    ensures later { S.faults source.old ≤ S.faults source.new }
    ensures cause { result ≡ Err ReadFault.Source → Rose (S.faults source.old) (S.faults source.new) }
{
    let mut bytes = [0; 4];
    take_all(source, &mut bytes)?;
    match client_flags(&bytes) {
        Some(flags) => Ok(flags),
        None => Err(ReadFault::WrongMagic),
    }
}

/// The bytes behind the head of an option.
#[derive(Debug, Drop)]
pub enum OptionBytes {
    /// They are these.
    Held(Vec<u8>),
    /// They are more than 4096, and were skipped.
    TooLong,
}

/// An option with what stands behind its head.
#[derive(Debug, Drop)]
pub struct ClientOption {
    pub kind: OptionKind,
    pub bytes: OptionBytes,
}

fn take_bytes<S: Source>(
    alloc: Global,
    source: &mut S,
    count: u32,
) -> Result<OptionBytes, ReadFault>
    ensures taken { IsTrue S.tells → OnOk result (Takes (S.left source.old) (S.left source.new) count) }
    ensures given { IsTrue S.tells → IfOk result (λ bytes. GivesBytes bytes (take count (S.left source.old))) }
    ensures cut { result ≡ Err ReadFault.Cut → IsTrue S.tells → length (S.left source.old) < count }
    ensures no_magic { result ≡ Err ReadFault.WrongMagic → ⊥ }
    ensures later { S.faults source.old ≤ S.faults source.new }
    ensures cause { result ≡ Err ReadFault.Source → Rose (S.faults source.old) (S.faults source.new) }
{
    if count > MOST {
        skip(source, count)?;
        return Ok(OptionBytes::TooLong);
    }
    let mut buffer = [0; MOST as usize];
    let held = &mut buffer[..count as usize];
    take_all(source, held)?;
    Ok(OptionBytes::Held(Vec::from_slice(alloc, held)?))
}

/// The next option of a client, read whole; None at the end of the source.
pub fn next_option<S: Source>(
    alloc: Global,
    source: &mut S,
) -> Result<Option<ClientOption>, ReadFault>
    ensures option { IsTrue S.tells → IfOk result (λ found. IfSome found (λ option.
        GivesOption (S.left source.old) option (S.left source.new))) }
    ensures end { IsTrue S.tells → IfOk result (λ found. IfNone found (S.left source.old ≡ [])) }
    ensures magic { result ≡ Err ReadFault.WrongMagic → IsTrue S.tells
        → (16 ≤ length (S.left source.old)) × (take 8 (S.left source.old) ≢ number_bytes 8 option_magic) }
    // An end inside of an option: something is left, and it doesn't begin with an option.
    ensures cut { result ≡ Err ReadFault.Cut → IsTrue S.tells → (S.left source.old ≢ [])
        × ((asked : AskedOption) (rest : List ℕ) → AsksOption (S.left source.old) asked rest → ⊥) }
    ensures later { S.faults source.old ≤ S.faults source.new }
    ensures cause { result ≡ Err ReadFault.Source → Rose (S.faults source.old) (S.faults source.new) }
{
    let mut bytes = [0; 16];
    let count = fill(source, &mut bytes)?;
    if count == 0 {
        return Ok(None);
    }
    if count < 16 {
        return Err(ReadFault::Cut);
    }
    let head = option_head(&bytes)?;
    let bytes = take_bytes(alloc, source, head.length)?;
    Ok(Some(ClientOption {
        kind: head.kind,
        bytes,
    }))
}
