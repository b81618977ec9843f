//! CRC-32C, the Castagnoli checksum, and the test of a page that carries its own.
#![tactic(auto)]

ghost use Rattle.std.specs.Prelude.{◌≡◌, ◌+◌, ◌≤◌, false, replicate};
ghost use Rattle.crc32c.specs.Crc.{after_byte, byte_steps, crc32c_of, is_sound, remainder_of};

mod table;

use table::TABLES;

/// The CRC-32C of these bytes: reflected, with 0xFFFFFFFF as the first remainder and as what is added at the end.
pub fn sum(bytes: &[u8]) -> u32
    ensures { result ≡ crc32c_of bytes.now }
{
    let (sixteens, rest) = bytes.as_chunks::<16>();
    let mut remainder = 0xFFFF_FFFF;
    for sixteen in sixteens {
        remainder = divide_sixteen(remainder, sixteen);
    }
    divide_bytes(remainder, rest) ^ 0xFFFF_FFFF
}

/// The remainder after these bytes, one at a time.
fn divide_bytes(first: u32, bytes: &[u8]) -> u32
    ensures { result ≡ remainder_of first bytes.now }
{
    let mut remainder = first;
    for byte in bytes {
        remainder = divide_byte(remainder, *byte);
    }
    remainder
}

/// The remainder after one byte more.
#[inline]
fn divide_byte(remainder: u32, byte: u8) -> u32
    ensures { result ≡ after_byte remainder byte }
{
    let low = (remainder ^ byte as u32) & 0xFF;
    TABLES[0][low as usize] ^ (remainder >> 8)
}

/// The remainder after sixteen bytes more. The word to which the last remainder is added comes last, since the others
/// can be looked up before that is known.
#[inline]
fn divide_sixteen(remainder: u32, bytes: &[u8; 16]) -> u32
    ensures { result ≡ remainder_of remainder bytes.now }
{
    let (words, _) = bytes.as_chunks::<4>();
    divide_word(u32::from_le_bytes(words[3]), 0)
        ^ divide_word(u32::from_le_bytes(words[2]), 4)
        ^ divide_word(u32::from_le_bytes(words[1]), 8)
        ^ divide_word(remainder ^ u32::from_le_bytes(words[0]), 12)
}

/// The remainder after the four bytes of a word and so many zero bytes behind them.
#[inline]
fn divide_word(word: u32, behind: usize) -> u32
    requires { behind ≤ 12 }
    ensures { result ≡ byte_steps (behind + 4) word }
{
    TABLES[behind + 3][(word & 0xFF) as usize]
        ^ TABLES[behind + 2][(word >> 8 & 0xFF) as usize]
        ^ TABLES[behind + 1][(word >> 16 & 0xFF) as usize]
        ^ TABLES[behind][(word >> 24) as usize]
}

/// Whether a page of 4096 bytes is sound: its last four bytes, little endian, are the sum of the 4092 before them.
pub fn page_ok(page: &[u8; 4096]) -> bool
    ensures sound { result ≡ is_sound page.now }

    // A page that was never written isn't sound.
    ensures zeros { page.now ≡ replicate 4096 0 → result ≡ false }
{
    u32::from_le_bytes([page[4092], page[4093], page[4094], page[4095]]) == sum(&page[..4092])
}
