//! Numbers in bytes, the lowest byte first.

ghost use Rattle.std.specs.Prelude.{◌≡◌, ◌≤◌, length};
ghost use Rattle.page_fields.specs.Fields.{number, number_bytes};

use byteorder::{ByteOrder, LittleEndian};

/// The number in the first 4 bytes.
#[tactic(auto, unfolding(crate::specs::Fields::number))]
pub fn u32_of(bytes: &[u8]) -> u32
    requires { 4 ≤ length bytes.now }
    ensures { result ≡ number 4 bytes.now }
{
    LittleEndian::read_u32(bytes)
}

/// The number in the first 8 bytes.
#[tactic(auto, unfolding(crate::specs::Fields::number))]
pub fn u64_of(bytes: &[u8]) -> u64
    requires { 8 ≤ length bytes.now }
    ensures { result ≡ number 8 bytes.now }
{
    LittleEndian::read_u64(bytes)
}

/// The 4 bytes that `u32_of` reads as the number.
#[tactic(auto, unfolding(crate::specs::Fields::number_bytes))]
pub fn bytes_of_u32(n: u32) -> [u8; 4]
    ensures { result ≡ number_bytes 4 n }
{
    n.to_le_bytes()
}

/// The 8 bytes that `u64_of` reads as the number.
#[tactic(auto, unfolding(crate::specs::Fields::number_bytes))]
pub fn bytes_of_u64(word: u64) -> [u8; 8]
    ensures { result ≡ number_bytes 8 word }
{
    word.to_le_bytes()
}
