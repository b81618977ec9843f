//! Numbers in bytes, the highest byte first.

ghost use Rattle.std.specs.Prelude.{◌≡◌, ◌+◌, ◌≤◌, ◌++◌, length, take};
ghost use Rattle.nbd_words.specs.Numbers.{number_bytes};

/// The number in the 2 bytes from place `at`.
pub fn u16_at(bytes: &[u8], at: usize) -> u16
    requires { at + 2 ≤ length bytes.now }
    ensures { take (at + 2) bytes.now ≡ take at bytes.now ++ number_bytes 2 result }
{
    let end = at + 2;
    let cells = &bytes[at..end];
    u16::from_be_bytes([cells[0], cells[1]])
}

/// The number in the 4 bytes from place `at`.
pub fn u32_at(bytes: &[u8], at: usize) -> u32
    requires { at + 4 ≤ length bytes.now }
    ensures { take (at + 4) bytes.now ≡ take at bytes.now ++ number_bytes 4 result }
{
    let end = at + 4;
    let cells = &bytes[at..end];
    u32::from_be_bytes([cells[0], cells[1], cells[2], cells[3]])
}

/// The number in the 8 bytes from place `at`.
pub fn u64_at(bytes: &[u8], at: usize) -> u64
    requires { at + 8 ≤ length bytes.now }
    ensures { take (at + 8) bytes.now ≡ take at bytes.now ++ number_bytes 8 result }
{
    let end = at + 8;
    let cells = &bytes[at..end];
    u64::from_be_bytes([
        cells[0], cells[1], cells[2], cells[3], cells[4], cells[5], cells[6], cells[7],
    ])
}

// Each of the functions below writes at a place, and gives the place after what it wrote.

fn put_bytes(into: &mut [u8], at: usize, bytes: &[u8]) -> usize
    requires { at + length bytes.now ≤ length into.old }
    ensures end { result ≡ at + length bytes.now }
    ensures bytes { take result into.new ≡ take at into.old ++ bytes.now }
{
    let end = at + bytes.len();
    into[at..end].copy_from_slice(bytes);
    end
}

/// Writes a number of 2 bytes.
#[tactic(auto, unfolding(crate::specs::Numbers::number_bytes))]
pub fn put_u16(into: &mut [u8], at: usize, number: u16) -> usize
    requires { at + 2 ≤ length into.old }
    ensures end { result ≡ at + 2 }
    ensures bytes { take result into.new ≡ take at into.old ++ number_bytes 2 number }
{
    put_bytes(into, at, &number.to_be_bytes())
}

/// Writes a number of 4 bytes.
#[tactic(auto, unfolding(crate::specs::Numbers::number_bytes))]
pub fn put_u32(into: &mut [u8], at: usize, number: u32) -> usize
    requires { at + 4 ≤ length into.old }
    ensures end { result ≡ at + 4 }
    ensures bytes { take result into.new ≡ take at into.old ++ number_bytes 4 number }
{
    put_bytes(into, at, &number.to_be_bytes())
}

/// Writes a number of 8 bytes.
#[tactic(auto, unfolding(crate::specs::Numbers::number_bytes))]
pub fn put_u64(into: &mut [u8], at: usize, number: u64) -> usize
    requires { at + 8 ≤ length into.old }
    ensures end { result ≡ at + 8 }
    ensures bytes { take result into.new ≡ take at into.old ++ number_bytes 8 number }
{
    put_bytes(into, at, &number.to_be_bytes())
}
