//! Numbers at a place in bytes, the lowest byte first.

ghost use Rattle.std.specs.Prelude.{◌≡◌, ◌+◌, ◌≤◌, length};
ghost use Rattle.descriptors.specs.Numbers.{number_from};

use byteorder::{ByteOrder, LittleEndian};
use page_fields::{u32_of, u64_of};

/// The number in the 2 bytes from place `at`.
#[tactic(auto, unfolding(crate::specs::Numbers::number_from, page_fields::specs::Fields::number))]
pub fn u16_at(bytes: &[u8], at: usize) -> u16
    requires { at + 2 ≤ length bytes.now }
    ensures { result ≡ number_from at 2 bytes.now }
{
    LittleEndian::read_u16(&bytes[at..])
}

/// The number in the 4 bytes from place `at`.
#[tactic(auto, unfolding(crate::specs::Numbers::number_from))]
pub fn u32_at(bytes: &[u8], at: usize) -> u32
    requires { at + 4 ≤ length bytes.now }
    ensures { result ≡ number_from at 4 bytes.now }
{
    u32_of(&bytes[at..])
}

/// The number in the 8 bytes from place `at`.
#[tactic(auto, unfolding(crate::specs::Numbers::number_from))]
pub fn u64_at(bytes: &[u8], at: usize) -> u64
    requires { at + 8 ≤ length bytes.now }
    ensures { result ≡ number_from at 8 bytes.now }
{
    u64_of(&bytes[at..])
}
