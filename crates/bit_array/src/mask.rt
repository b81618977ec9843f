//! A set written as the pages of its mask.

ghost use Rattle.std.specs.Prelude.{◌≡◌, ◌+◌, ◌*◌, ◌^◌, ◌<◌, ℕ, Bool, None, List, length, slice_index};
ghost use Rattle.bit_array.specs.Fault.{head_fault};
ghost use Rattle.bit_array.specs.Mask.{bit_value, bits_in, mask_pages, mask_text, packed_byte, text_page};

use crate::bits::Bits;

/// How many pages of 4096 bytes the mask of so many bits takes.
pub fn mask_pages(len: u32) -> u32
    ensures { result ≡ mask_pages len }
{
    ((5 + (len as u64 + 7) / 8 + 4095) / 4096) as u32
}

impl Bits {
    /// Writes a page of 4096 bytes of the mask of this type that holds the set; its pages count from 0. The mask is its
    /// type, the number of its bits in four bytes with the lowest first, and the bits, the lowest of each byte first;
    /// zeros fill the last page.
    pub fn mask_page(&self, kind: u8, index: u32, into: &mut [u8; 4096])
        requires { index < mask_pages (length self.now) }
        ensures { into.new ≡ text_page index (mask_text kind self.now) }
    {
        let first = 4096 * index as u64;
        for (at, byte) in into.iter_mut().enumerate() {
            *byte = self.mask_byte(kind, first + at as u64);
        }
    }

    /// The byte at a place of the mask's text.
    fn mask_byte(&self, kind: u8, place: u64) -> u8
        requires { place < 4096 * mask_pages (length self.now) }
        ensures { result ≡ slice_index (mask_text kind self.now) place }
    {
        let len = self.len();
        match place {
            0 => kind,
            1..=4 => len.to_le_bytes()[place as usize - 1],
            _ => self.packed_byte(place - 5),
        }
    }

    /// The byte that holds the bits from 8 times its index on.
    fn packed_byte(&self, index: u64) -> u8
        requires { index < 2 ^ 32 }
        ensures { result ≡ packed_byte self.now index }
    {
        let mut byte = 0;
        for step in 0..8 {
            byte = 2 * byte + self.bit_value(8 * index + 7 - step);
        }
        byte
    }

    /// The bit of a place, which is clear past the last one.
    fn bit_value(&self, at: u64) -> u8
        ensures { result ≡ bit_value self.now at }
    {
        if at < self.len() as u64 && self.get(at as u32) {
            1
        } else {
            0
        }
    }
}

/// What the pages of a mask are read back to: the set that was written, and no fault, whatever the type.
pub fn masks_read_back()
    ensures bits { (kind : ℕ) (bits : List Bool) → bits_in (length bits) (mask_text kind bits) ≡ bits }
    ensures head { (kind : ℕ) (bits : List Bool) → length bits < 2 ^ 32
        → head_fault kind (length bits) (text_page 0 (mask_text kind bits)) ≡ None }
{}
