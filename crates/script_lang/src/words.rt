//! The words of a line: numbers, heads, names, keys and values.

ghost use Rattle.std.specs.Prelude.{◌≡◌, ◌<◌, ◌≤◌, ◌^◌, IfSome, IfOk};
ghost use Rattle.std.specs.Option.{option_copied};
ghost use Rattle.script_lang.specs.Words.{number_below as number_below_said, number_in, count_in, head_in, name_in};
ghost use Rattle.script_lang.specs.Words.{says_thin, thickness_in, is_visible as visible_said, key_in};
ghost use Rattle.script_lang.specs.Words.{if_decoded, value_in};
ghost use Rattle.hex.specs.Hex.{decode_of};

use hex::FromHexError;
use itoa::Buffer;
use lvol_store::check_name;
use out_of_memory::Memory;
use std::alloc::Global;
use volume_model::{Blobtext, Name};

/// A number of at most 2^64 - 1, in decimal without sign or leading zero.
pub fn number(word: &[u8]) -> Option<u64>
    ensures { result ≡ number_in word.now }
{
    let Ok(text) = str::from_utf8(word) else {
        return None;
    };
    let Ok(number) = text.parse::<u64>() else {
        return None;
    };
    if Buffer::new().format(number).as_bytes() == word {
        Some(number)
    } else {
        None
    }
}

/// Such a number below a limit.
pub fn number_below(limit: u64, word: &[u8]) -> Option<u64>
    ensures number { result ≡ number_below_said limit word.now }
    ensures below { IfSome result (λ number. number < limit) }
{
    match number(word) {
        Some(number) if number < limit => Some(number),
        _ => None,
    }
}

/// A number of pages, 1 to 256.
pub fn count(word: &[u8]) -> Option<u64>
    ensures { result ≡ count_in word.now }
{
    match number(word) {
        Some(count) if count >= 1 && count <= 256 => Some(count),
        _ => None,
    }
}

/// The head page that a word of the form `@P` names.
pub fn head(word: &[u8]) -> Option<u32>
    ensures { result ≡ head_in word.now }
{
    let [b'@', digits @ ..] = word else {
        return None;
    };
    match number_below(1 << 32, digits) {
        Some(head) => Some(head as u32),
        None => None,
    }
}

/// The name of a volume.
pub fn name(word: &[u8]) -> Option<Name>
    ensures { result ≡ name_in word.now }
{
    match check_name(word) {
        Ok(name) => Some(name),
        Err(_) => None,
    }
}

/// Whether `thin` is said.
fn is_thin(word: &[u8]) -> bool
    ensures { result ≡ says_thin word.now }
{
    word == b"thin".as_slice()
}

/// Whether `thick` is said and not `thin`.
pub fn thickness(word: &[u8]) -> Option<bool>
    ensures { result ≡ thickness_in word.now }
{
    if is_thin(word) {
        Some(false)
    } else if word == b"thick".as_slice() {
        Some(true)
    } else {
        None
    }
}

fn is_visible(word: &[u8]) -> bool
    ensures { result ≡ visible_said word.now }
{
    word.iter().all(|b| *b >= 0x21 && *b <= 0x7e)
}

/// The name of an attribute.
pub fn key(word: &[u8]) -> Option<&[u8]>
    ensures { option_copied result ≡ key_in word.now }
{
    if is_visible(word) && !word.is_empty() && word.len() <= 255 {
        Some(word)
    } else {
        None
    }
}

/// The bytes that two hexadecimal digits each say.
fn decoded(alloc: Global, digits: &[u8]) -> Result<Option<Blobtext>, Memory>
    ensures { IfOk result (λ bytes. bytes ≡ if_decoded (decode_of digits.now)) }
{
    match hex::decode(alloc, digits) {
        Ok(bytes) => Ok(Some(Blobtext::new(alloc, bytes.as_slice())?)),
        Err(FromHexError::OutOfMemory) => Err(Memory),
        Err(_) => Ok(None),
    }
}

/// The value of an attribute, in a word of the form `t:VALUE` or `h:DIGITS`.
pub fn value(alloc: Global, word: &[u8]) -> Result<Option<Blobtext>, Memory>
    ensures { IfOk result (λ value. value ≡ value_in word.now) }
{
    match word {
        [b't', b':', bytes @ ..] if is_visible(bytes) => Ok(Some(Blobtext::new(alloc, bytes)?)),
        [b'h', b':', digits @ ..] => decoded(alloc, digits),
        _ => Ok(None),
    }
}
