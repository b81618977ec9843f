//! What pages are to hold that are written one after the other.

ghost use Rattle.std.specs.Prelude.{◌≡◌, ◌+◌};
ghost use Rattle.page_runs.specs.Content.{page_at, HasPages};

use bit_array::Bits;
use page_disk::Page;

/// What a run of pages is to hold.
#[derive(Clone, Copy)]
pub enum Content<'a> {
    /// Zeros, as many as are wanted.
    Zeros,
    /// The pages of the mask of this type that holds the set.
    Mask { kind: u8, bits: &'a Bits },
}

impl Content<'_> {
    /// Puts the page at an index, from 0, in place of another.
    pub(crate) fn put(&self, index: u32, into: &mut Page)
        requires { HasPages self.now (index + 1) }
        ensures { into.new ≡ page_at self.now index }
    {
        match self {
            Content::Zeros => *into = [0; 4096],
            Content::Mask { kind, bits } => bits.mask_page(*kind, index, into),
        }
    }
}
