//! A set of numbers below a length.

ghost use Rattle.std.specs.Prelude.{◌≡◌, ◌≤◌, ◌<◌, ◌↔◌, true, false, length, replicate, slice_set, IfOk, IfSome};
ghost use Rattle.std.specs.Prelude.{IsNone};
ghost use Rattle.bit_array.specs.Bits.{first_of, is_in, member_count, IsFull, IsLeastClear};

use out_of_memory::Memory;
use std::alloc::Global;
use std::marker::Model;

/// A set of numbers below a length, such as the used clusters of a store. Contracts see a list as long as that: the
/// element at a place says whether the place is in the set.
#[derive(Debug, Drop)]
pub struct Bits {
    words: Vec<u64>,
    len: u32,
    count: u32,
}

impl Model for Bits {
    ghost use Rattle.std.specs.Prelude.{Bool, List};
    ghost use Rattle.bit_array.specs.Words.{bits_of, IsCounted};

    ghost Value = { List Bool };

    ghost view = { λ b. bits_of b.words.items b.len };

    ghost invariant = { λ b. IsCounted b.words.items b.len b.count };
}

impl Bits {
    /// The empty set of numbers below `len`.
    pub fn new(alloc: Global, len: u32) -> Result<Bits, Memory>
        ensures { IfOk result (λ bits. bits ≡ replicate len false) }
    {
        let words = vec![in alloc; 0; (len as usize + 63) / 64]?;
        Ok(Bits {
            words,
            len,
            count: 0,
        })
    }

    /// The set of the first `count` numbers below `len`.
    #[tactic(auto, using(crate::proofs::Firsts::first_of_next))]
    pub fn of_first(alloc: Global, len: u32, count: u32) -> Result<Bits, Memory>
        requires { count ≤ len }
        ensures { IfOk result (λ bits. bits ≡ first_of count len) }
    {
        let mut bits = Bits::new(alloc, len)?;
        for at in 0..count {
            bits.set(at);
        }
        Ok(bits)
    }

    /// How many numbers the set can hold: those below this one.
    pub fn len(&self) -> u32
        ensures { result ≡ length self.now }
    {
        self.len
    }

    /// Whether the number is in the set.
    pub fn get(&self, at: u32) -> bool
        requires { at < length self.now }
        ensures { result ≡ is_in self.now at }
    {
        let place = at as usize;
        (self.words[place / 64] >> (place % 64)) & 1 == 1
    }

    /// Puts the number into the set.
    pub fn set(&mut self, at: u32)
        requires { at < length self.old }
        ensures { self.new ≡ slice_set self.old at true }
    {
        if !self.get(at) {
            let place = at as usize;
            self.words[place / 64] |= 1 << (place % 64);
            self.count += 1;
        }
    }

    /// Takes the number out of the set.
    pub fn clear(&mut self, at: u32)
        requires { at < length self.old }
        ensures { self.new ≡ slice_set self.old at false }
    {
        if self.get(at) {
            let place = at as usize;
            self.words[place / 64] &= !(1 << (place % 64));
            self.count -= 1;
        }
    }

    /// The least number that isn't in the set, or None where all are. It looks at whole words.
    pub fn first_clear(&self) -> Option<u32>
        ensures least { IfSome result (IsLeastClear self.now) }
        ensures full { IsNone result ↔ IsFull self.now }
    {
        let len = self.len as u64;
        for (place, word) in self.words.iter().enumerate() {
            if *word != u64::MAX {
                let at = 64 * place as u64 + word.trailing_ones() as u64;
                return if at < len { Some(at as u32) } else { None };
            }
        }
        None
    }

    /// How many numbers are in the set.
    pub fn count(&self) -> u32
        ensures { result ≡ member_count self.now }
    {
        self.count
    }
}
