//! Regions of the device, as runs of pages.

ghost use Rattle.std.specs.Prelude.{◌≡◌};
ghost use Rattle.super_block.specs.Span.{end_of, greatest_end, shares};

use crate::fault::Region;

/// A region with the pages that it takes: `len` pages from page `start` on.
#[derive(Clone, Copy, Debug, PartialEq, Eq)]
pub struct Span {
    pub region: Region,
    pub start: u32,
    pub len: u32,
}

impl Span {
    /// The page behind the region's last one.
    pub fn end(&self) -> u64
        ensures { result ≡ end_of self.now }
    {
        u64::from(self.start) + u64::from(self.len)
    }

    /// Whether some page is in both regions.
    pub fn shares(&self, other: &Span) -> bool
        ensures { result ≡ shares self.now other.now }
    {
        u64::from(self.start.max(other.start)) < self.end().min(other.end())
    }
}

/// The greatest end of these regions, 0 where there is none.
pub(crate) fn greatest_end(spans: &[Span]) -> u64
    ensures { result ≡ greatest_end spans.now }
{
    spans
        .iter()
        .map(|span| span.end())
        .fold(0, |greatest, end| greatest.max(end))
}
