//! The tests of a super block, in their order.

ghost use Rattle.std.specs.Prelude.{◌≡◌, ◌≤◌, ◌^◌, None, OnOk};
ghost use Rattle.std.specs.Result.{result_err};
ghost use Rattle.super_block.specs.Faults.{cluster_size_fault, clusters_fault, checksum_fault, fault_of, in_u32};
ghost use Rattle.super_block.specs.Faults.{mask_fault, overlap, overlap_fault, overlap_with, page_size_fault};
ghost use Rattle.super_block.specs.Faults.{pages_fault, past_fault, short, signature_fault, size_fault, version_fault};
ghost use Rattle.super_block.specs.Numbers.{clusters_of};

use crate::fault::{Region, SuperFault};
use crate::page::Super;
use crate::span::Span;
use bit_array::mask_pages;

/// The first bytes of a super block.
pub(crate) const SIGNATURE: [u8; 8] = *b"SPDKBLOB";

/// The version of the format.
pub(crate) const VERSION: u32 = 3;

const MOST_PAGES: u64 = 1 << 20;

const MOST_CLUSTERS: u64 = 1 << 24;

impl Super {
    /// The first fault of a super block whose page is sound or isn't. Each test has its fault alone.
    #[tactic(auto, unfolding(crate::specs::Faults::fault_of, crate::specs::Faults::tests))]
    pub(crate) fn check(&self, sound: bool) -> Result<(), SuperFault>
        ensures { result_err result ≡ fault_of sound self.now }
    {
        self.check_signature()?;
        self.check_version()?;
        check_sum(sound)?;
        self.check_page_size()?;
        self.check_cluster_size()?;
        check_pages(u64::from(self.md_len))?;
        check_clusters(self.whole_clusters())?;
        self.check_size()?;
        self.check_ends()?;
        self.check_masks()?;
        self.check_overlaps()
    }

    /// The page begins with the signature.
    #[tactic(auto, unfolding(crate::specs::Faults::signature_fault))]
    fn check_signature(&self) -> Result<(), SuperFault>
        ensures { result_err result ≡ signature_fault self.now }
    {
        if self.signature == SIGNATURE {
            Ok(())
        } else {
            Err(SuperFault::BadSignature)
        }
    }

    /// The version is that of this format.
    #[tactic(auto, unfolding(crate::specs::Faults::version_fault))]
    fn check_version(&self) -> Result<(), SuperFault>
        ensures { result_err result ≡ version_fault self.now }
    {
        if self.version == VERSION {
            Ok(())
        } else {
            Err(SuperFault::BadVersion {
                found: self.version,
            })
        }
    }

    /// Metadata pages have 4096 bytes, for which 0 may stand.
    #[tactic(auto, unfolding(crate::specs::Faults::page_size_fault))]
    fn check_page_size(&self) -> Result<(), SuperFault>
        ensures { result_err result ≡ page_size_fault self.now }
    {
        match self.md_page_size {
            0 | 4096 => Ok(()),
            found => Err(SuperFault::BadPageSize { found }),
        }
    }

    /// A cluster is whole pages, and has at least one.
    #[tactic(auto, unfolding(crate::specs::Faults::cluster_size_fault))]
    fn check_cluster_size(&self) -> Result<(), SuperFault>
        ensures { result_err result ≡ cluster_size_fault self.now }
    {
        if self.cluster_size > 0 && self.cluster_size % 4096 == 0 {
            Ok(())
        } else {
            Err(SuperFault::BadClusterSize {
                found: self.cluster_size,
            })
        }
    }

    /// The store is no larger than the device. The device's bytes may be more than a u64 counts, so pages are compared.
    #[tactic(auto, unfolding(crate::specs::Faults::size_fault))]
    fn check_size(&self) -> Result<(), SuperFault>
        ensures { result_err result ≡ size_fault self.now }
    {
        if self.size.div_ceil(4096) <= self.device_pages {
            Ok(())
        } else {
            Err(SuperFault::PastEnd {
                region: Region::Whole,
            })
        }
    }

    /// The masks and the metadata region end with the last whole cluster, or before.
    #[tactic(auto, unfolding(crate::specs::Faults::past_fault, crate::specs::Numbers::placed))]
    fn check_ends(&self) -> Result<(), SuperFault>
        requires sized { cluster_size_fault self.now ≡ None }
        requires counted { clusters_fault (clusters_of self.now) ≡ None }
        ensures { result_err result ≡ past_fault self.now }
    {
        let limit = self.whole_clusters() * u64::from(self.pages_in_cluster());
        match self.spans()[1..].iter().find(|span| span.end() > limit) {
            None => Ok(()),
            Some(span) => Err(SuperFault::PastEnd {
                region: span.region,
            }),
        }
    }

    /// Each mask has the pages that its bits take.
    #[tactic(auto, unfolding(crate::specs::Faults::mask_fault, crate::specs::Numbers::placed))]
    fn check_masks(&self) -> Result<(), SuperFault>
        requires sized { cluster_size_fault self.now ≡ None }
        requires counted { clusters_fault (clusters_of self.now) ≡ None }
        ensures { result_err result ≡ mask_fault self.now }
    {
        let [_, pages, clusters, blobs, _] = self.spans();
        check_mask(&pages, self.md_len)?;
        check_mask(&clusters, self.whole_clusters() as u32)?;
        check_mask(&blobs, self.md_len)
    }

    /// No page is in two regions.
    #[tactic(auto, unfolding(crate::specs::Faults::overlap_fault))]
    fn check_overlaps(&self) -> Result<(), SuperFault>
        ensures { result_err result ≡ overlap_fault self.now }
    {
        check_pairs(&self.spans())
    }
}

/// The page is sound.
fn check_sum(sound: bool) -> Result<(), SuperFault>
    ensures { result_err result ≡ checksum_fault sound }
{
    if sound {
        Ok(())
    } else {
        Err(SuperFault::BadChecksum)
    }
}

/// There are at most 2^20 metadata pages.
#[tactic(auto, unfolding(crate::specs::Faults::pages_fault))]
pub(crate) fn check_pages(pages: u64) -> Result<(), SuperFault>
    ensures fault { result_err result ≡ pages_fault pages }
    ensures few { OnOk result (pages ≤ 2 ^ 20) }
{
    if pages <= MOST_PAGES {
        Ok(())
    } else {
        Err(SuperFault::TooManyPages {
            found: in_u32(pages),
        })
    }
}

/// There are at most 2^24 clusters.
#[tactic(auto, unfolding(crate::specs::Faults::clusters_fault))]
pub(crate) fn check_clusters(clusters: u64) -> Result<(), SuperFault>
    ensures fault { result_err result ≡ clusters_fault clusters }
    ensures few { OnOk result (clusters ≤ 2 ^ 24) }
{
    if clusters <= MOST_CLUSTERS {
        Ok(())
    } else {
        Err(SuperFault::TooManyClusters { found: clusters })
    }
}

/// A number for a field of 32 bits, or the greatest that it holds.
pub(crate) fn in_u32(n: u64) -> u32
    ensures { result ≡ in_u32 n }
{
    n.min(u64::from(u32::MAX)) as u32
}

/// The mask has the pages that so many bits take.
fn check_mask(mask: &Span, bits: u32) -> Result<(), SuperFault>
    ensures { result_err result ≡ short mask.now bits }
{
    let wants = mask_pages(bits);
    if wants <= mask.len {
        Ok(())
    } else {
        Err(SuperFault::ShortMask {
            region: mask.region,
            has: mask.len,
            wants,
        })
    }
}

/// No two of these regions have a page in common.
#[tactic(auto, using(crate::proofs::Pairs::overlap_split))]
fn check_pairs(spans: &[Span]) -> Result<(), SuperFault>
    ensures { result_err result ≡ overlap spans.now }
{
    let [first, rest @ ..] = spans else {
        return Ok(());
    };
    check_apart(first, rest)?;
    check_pairs(rest)
}

/// None of the other regions has a page of the first one.
fn check_apart(first: &Span, rest: &[Span]) -> Result<(), SuperFault>
    ensures { result_err result ≡ overlap_with first.now rest.now }
{
    match rest.iter().find(|span| first.shares(span)) {
        None => Ok(()),
        Some(span) => Err(SuperFault::Overlap {
            a: first.region,
            b: span.region,
        }),
    }
}
