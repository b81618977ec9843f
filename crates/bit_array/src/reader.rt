//! A set read from the pages of its mask.

ghost use Rattle.std.specs.Prelude.{◌≡◌, ◌+◌, ◌*◌, ◌<◌, ◌≤◌, [], ◌++◌, Some, None, ℕ, List, length, IfOk, OnOk, OnErr};
ghost use Rattle.std.specs.Prelude.{MatchResult};
ghost use Rattle.bit_array.specs.Mask.{bits_in, mask_pages};
ghost use Rattle.bit_array.specs.Reading.{HasRead};
ghost use Rattle.bit_array.specs.Fault.{head_fault, next_fault};

use crate::bits::Bits;
use out_of_memory::Memory;
use std::alloc::Global;
use std::marker::Model;

/// Why a mask isn't read, tested in this order on its first page.
#[derive(Clone, Copy, Debug, PartialEq, Eq, thiserror::Error)]
pub enum MaskFault {
    /// The mask has another type than the one that is wanted.
    #[error("the mask has type {found}")]
    BadType { found: u8 },
    /// The mask has another number of bits than the one that is wanted.
    #[error("the mask has {found} bits where {wanted} are wanted")]
    BadLength { found: u32, wanted: u32 },
}

/// Reads a mask, one page of 4096 bytes after another.
#[derive(Debug, Drop)]
pub struct MaskReader {
    kind: u8,
    fed: u32,
    bits: Bits,
}

impl Model for MaskReader {
    ghost use Rattle.bit_array.specs.Reading.{MaskReading};

    ghost Value = { MaskReading };

    ghost view = { λ r. record { kind = r.kind; fed = r.fed; bits = r.bits } };
}

impl MaskReader {
    /// A reader of the mask of this type with so many bits, which has read no page.
    pub fn new(alloc: Global, kind: u8, len: u32) -> Result<MaskReader, Memory>
        ensures read { IfOk result (λ reader. HasRead reader kind len []) }
        ensures fed { IfOk result (λ reader. reader.fed ≡ 0) }
        ensures len { IfOk result (λ reader. length reader.bits ≡ len) }
    {
        Ok(MaskReader {
            kind,
            fed: 0,
            bits: Bits::new(alloc, len)?,
        })
    }

    /// Reads the next page of the mask. The first page alone can be refused: by its type, else by its number of bits.
    /// A reader that refused a page has read none.
    pub fn feed(&mut self, page: &[u8; 4096]) -> Result<(), MaskFault>
        requires { self.old.fed < mask_pages (length self.old.bits) }
        ensures fault { MatchResult result (λ _. next_fault self.old page.now ≡ None)
            (λ fault. next_fault self.old page.now ≡ Some fault) }
        ensures read { OnOk result
            ((kind len : ℕ) (text : List ℕ) → HasRead self.old kind len text
            → HasRead self.new kind len (text ++ page.now)) }
        ensures fed { OnOk result (self.new.fed ≡ self.old.fed + 1) }
        ensures len { length self.new.bits ≡ length self.old.bits }
        ensures refused { OnErr result (self.new ≡ self.old) }
    {
        let len = self.bits.len();
        if self.fed == 0 {
            check_head(page, self.kind, len)?;
        }
        read_page(&mut self.bits, page, self.fed);
        self.fed += 1;
        Ok(())
    }

    /// The set that the mask says: its first bits, as many as are wanted. Bits after them are ignored.
    pub fn done(self) -> Bits
        requires { self.fed ≡ mask_pages (length self.bits) }
        ensures says { (kind len : ℕ) (text : List ℕ) → HasRead self kind len text → result ≡ bits_in len text }
        ensures len { length result ≡ length self.bits }
    {
        let MaskReader { bits, .. } = self;
        bits
    }
}

/// Tests the head of a mask's first page.
fn check_head(page: &[u8; 4096], kind: u8, len: u32) -> Result<(), MaskFault>
    ensures { MatchResult result (λ _. head_fault kind len page.now ≡ None)
        (λ fault. head_fault kind len page.now ≡ Some fault) }
{
    if page[0] != kind {
        return Err(MaskFault::BadType { found: page[0] });
    }
    let found = u32::from_le_bytes([page[1], page[2], page[3], page[4]]);
    if found != len {
        return Err(MaskFault::BadLength { found, wanted: len });
    }
    Ok(())
}

/// Takes the bits that a page of the mask holds, where those of the pages before it were taken.
fn read_page(bits: &mut Bits, page: &[u8; 4096], index: u32)
    requires { index < mask_pages (length bits.old) }
    ensures says { (text : List ℕ) → length text ≡ 4096 * index →
        bits.old ≡ bits_in (length bits.old) text → bits.new ≡ bits_in (length bits.old) (text ++ page.now) }
    ensures len { length bits.new ≡ length bits.old }
{
    let first = 4096 * index as u64;
    let start = 8 * first.saturating_sub(5);
    let end = (8 * (first + 4091)).min(bits.len() as u64);
    for at in start..end {
        let place = (5 + at / 8 - first) as usize;
        if (page[place] >> (at % 8)) & 1 == 1 {
            bits.set(at as u32);
        }
    }
}
