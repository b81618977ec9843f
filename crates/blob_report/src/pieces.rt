//! Texts that are put together of words, numbers and bytes.

ghost use Rattle.std.specs.Prelude.{◌≡◌, ◌++◌, decimal, length, take, OnOk, OnErr};
ghost use Rattle.std.specs.List.{flat_map};
ghost use Rattle.blob_report.specs.Pieces.{hex_byte, hex_text, is_plain as plain_said, shown_byte, shown_bytes};
ghost use Rattle.blob_report.specs.Pieces.{head_text, piece_text, pieces_text};

use itoa::Buffer;
use out_of_memory::Memory;

/// A part of a line.
#[derive(Clone, Copy)]
pub enum Piece<'a> {
    /// The words themselves.
    Words(&'a [u8]),
    /// A number, in decimal.
    Number(u32),
    /// A number that may be long, in decimal.
    Long(u64),
    /// `@` and a head, or `-` where there is none.
    Head(Option<u64>),
    /// Any bytes as they are shown: each that can't be seen as `\x` and two hexadecimal digits.
    Shown(&'a [u8]),
    /// Each byte as two hexadecimal digits.
    Hex(&'a [u8]),
}

/// Appends a number in decimal. After `Memory` nothing is appended.
fn push_number(number: u64, into: &mut Vec<u8>) -> Result<(), Memory>
    ensures ok { OnOk result (into.new.items ≡ into.old.items ++ decimal number) }
    ensures memory { OnErr result (into.new.items ≡ into.old.items) }
{
    into.extend_from_slice(Buffer::new().format(number).as_bytes())?;
    Ok(())
}

/// Appends a byte as two lower-case hexadecimal digits. After `Memory` nothing is appended.
fn push_byte(byte: u8, into: &mut Vec<u8>) -> Result<(), Memory>
    ensures ok { OnOk result (into.new.items ≡ into.old.items ++ hex_byte byte) }
    ensures memory { OnErr result (into.new.items ≡ into.old.items) }
{
    let digits = b"0123456789abcdef";
    into.extend_from_slice(&[
        digits[usize::from(byte / 16)],
        digits[usize::from(byte % 16)],
    ])?;
    Ok(())
}

/// Appends bytes in hexadecimal. After `Memory` what was there still stands first.
fn push_hex(bytes: &[u8], into: &mut Vec<u8>) -> Result<(), Memory>
    ensures ok { OnOk result (into.new.items ≡ into.old.items ++ hex_text bytes.now) }
    ensures kept { take (length into.old.items) into.new.items ≡ into.old.items }
{
    for byte in bytes {
        push_byte(*byte, into)?;
    }
    Ok(())
}

/// Whether a byte is shown as itself.
fn is_plain(byte: u8) -> bool
    ensures { result ≡ plain_said byte }
{
    byte >= 0x21 && byte <= 0x7e && byte != b'\\'
}

/// Appends a byte as it is shown. After `Memory` what was there still stands first.
fn push_shown_byte(byte: u8, into: &mut Vec<u8>) -> Result<(), Memory>
    ensures ok { OnOk result (into.new.items ≡ into.old.items ++ shown_byte byte) }
    ensures kept { take (length into.old.items) into.new.items ≡ into.old.items }
{
    if is_plain(byte) {
        into.push(byte)?;
        return Ok(());
    }
    into.extend_from_slice(b"\\x")?;
    push_byte(byte, into)
}

/// Appends bytes as they are shown each. After `Memory` what was there still stands first.
fn push_each_shown(bytes: &[u8], into: &mut Vec<u8>) -> Result<(), Memory>
    ensures ok { OnOk result (into.new.items ≡ into.old.items ++ flat_map shown_byte bytes.now) }
    ensures kept { take (length into.old.items) into.new.items ≡ into.old.items }
{
    for byte in bytes {
        push_shown_byte(*byte, into)?;
    }
    Ok(())
}

/// Appends bytes as they are shown. After `Memory` what was there still stands first.
fn push_shown(bytes: &[u8], into: &mut Vec<u8>) -> Result<(), Memory>
    ensures ok { OnOk result (into.new.items ≡ into.old.items ++ shown_bytes bytes.now) }
    ensures kept { take (length into.old.items) into.new.items ≡ into.old.items }
{
    if bytes.is_empty() {
        into.push(b'-')?;
        return Ok(());
    }
    if bytes == b"-".as_slice() {
        into.extend_from_slice(b"\\x2d")?;
        return Ok(());
    }
    push_each_shown(bytes, into)
}

/// Appends `@` and a head, or `-`. After `Memory` what was there still stands first.
fn push_head(head: Option<u64>, into: &mut Vec<u8>) -> Result<(), Memory>
    ensures ok { OnOk result (into.new.items ≡ into.old.items ++ head_text head) }
    ensures kept { take (length into.old.items) into.new.items ≡ into.old.items }
{
    let Some(head) = head else {
        into.push(b'-')?;
        return Ok(());
    };
    into.push(b'@')?;
    push_number(head, into)
}

/// Appends a piece. After `Memory` what was there still stands first.
fn push_piece(piece: Piece<'_>, into: &mut Vec<u8>) -> Result<(), Memory>
    ensures ok { OnOk result (into.new.items ≡ into.old.items ++ piece_text piece.entry) }
    ensures kept { take (length into.old.items) into.new.items ≡ into.old.items }
{
    match piece {
        Piece::Words(words) => into.extend_from_slice(words)?,
        Piece::Number(number) => push_number(u64::from(number), into)?,
        Piece::Long(number) => push_number(number, into)?,
        Piece::Head(head) => push_head(head, into)?,
        Piece::Shown(bytes) => push_shown(bytes, into)?,
        Piece::Hex(bytes) => push_hex(bytes, into)?,
    }
    Ok(())
}

/// Appends pieces in order. After `Memory` nothing is appended.
pub fn push_pieces(pieces: &[Piece<'_>], into: &mut Vec<u8>) -> Result<(), Memory>
    ensures ok { OnOk result (into.new.items ≡ into.old.items ++ pieces_text pieces.now) }
    ensures memory { OnErr result (into.new.items ≡ into.old.items) }
{
    let length = into.len();
    for piece in pieces {
        if let Err(memory) = push_piece(*piece, into) {
            into.truncate(length);
            return Err(memory);
        }
    }
    Ok(())
}
