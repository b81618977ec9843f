//! The numbers that follow from a super block.

ghost use Rattle.std.specs.Prelude.{◌≡◌, ◌<◌, ◌≤◌, ◌^◌, None, ◌∷◌};
ghost use Rattle.std.specs.Int.{div_ceil};
ghost use Rattle.super_block.specs.Faults.{IsFaultless, cluster_size_fault};
ghost use Rattle.super_block.specs.Numbers.{cluster_pages_of, clusters_of, fixed_clusters_of, placed, super_page};

use crate::fault::Region;
use crate::page::Super;
use crate::span::{Span, greatest_end};

impl Super {
    /// The pages of a cluster.
    pub fn cluster_pages(&self) -> u32
        requires { IsFaultless self.now }
        ensures value { result ≡ cluster_pages_of self.now }
        ensures some { 0 < result }
    {
        self.pages_in_cluster()
    }

    /// The whole clusters of the store.
    pub fn clusters(&self) -> u32
        requires { IsFaultless self.now }
        ensures value { result ≡ clusters_of self.now }
        ensures most { result ≤ 2 ^ 24 }
    {
        self.whole_clusters() as u32
    }

    /// The clusters from 0 on that hold a page of the super block, of a mask or of the metadata region, or that lie
    /// below one that does. They are always used.
    #[tactic(auto, unfolding(crate::specs::Numbers::fixed_clusters_of))]
    pub fn fixed_clusters(&self) -> u32
        requires { IsFaultless self.now }
        ensures value { result ≡ fixed_clusters_of self.now }
        ensures within { result ≤ clusters_of self.now }
    {
        clusters_before(greatest_end(&self.spans()), self.pages_in_cluster()) as u32
    }

    /// The pages of a cluster, 0 where it has fewer bytes than a page.
    #[tactic(auto, unfolding(crate::specs::Numbers::cluster_pages_of))]
    pub(crate) fn pages_in_cluster(&self) -> u32
        ensures { result ≡ cluster_pages_of self.now }
    {
        self.cluster_size / 4096
    }

    /// The whole clusters of the store. A size of 0 is the device's, whose bytes may be more than a u64 counts.
    pub(crate) fn whole_clusters(&self) -> u64
        requires { cluster_size_fault self.now ≡ None }
        ensures { result ≡ clusters_of self.now }
    {
        if self.size == 0 {
            self.device_pages / u64::from(self.pages_in_cluster())
        } else {
            self.size / u64::from(self.cluster_size)
        }
    }

    /// The five regions, in the order in which two of them are named.
    #[tactic(auto, unfolding(crate::specs::Numbers::placed))]
    pub(crate) fn spans(&self) -> [Span; 5]
        ensures { result ≡ super_page ∷ placed self.now }
    {
        [
            Span {
                region: Region::SuperPage,
                start: 0,
                len: 1,
            },
            Span {
                region: Region::PageMask,
                start: self.used_page_mask_start,
                len: self.used_page_mask_len,
            },
            Span {
                region: Region::ClusterMask,
                start: self.used_cluster_mask_start,
                len: self.used_cluster_mask_len,
            },
            Span {
                region: Region::BlobMask,
                start: self.used_blobid_mask_start,
                len: self.used_blobid_mask_len,
            },
            Span {
                region: Region::Md,
                start: self.md_start,
                len: self.md_len,
            },
        ]
    }
}

/// The clusters of `pages` pages each that hold a page before page `end`.
pub(crate) fn clusters_before(end: u64, pages: u32) -> u64
    requires { 0 < pages }
    ensures { result ≡ div_ceil end pages }
{
    end.div_ceil(u64::from(pages))
}
