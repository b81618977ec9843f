//! What can be wrong with a super block, or with the plan of a new store.

use thiserror::Error;

/// The whole device, or one of the five regions at its front.
#[derive(Clone, Copy, Debug, PartialEq, Eq)]
pub enum Region {
    /// The store as a whole.
    Whole,
    /// Page 0, the super block.
    SuperPage,
    /// The mask of used metadata pages.
    PageMask,
    /// The mask of used clusters.
    ClusterMask,
    /// The mask of heads: the metadata pages at which a blob begins.
    BlobMask,
    /// The metadata pages.
    Md,
}

/// The first test that fails, in the order in which the variants stand. Sizes are in bytes, `has` and `wants` in pages.
#[derive(Clone, Copy, Debug, PartialEq, Eq, Error)]
pub enum SuperFault {
    /// The page doesn't begin with `SPDKBLOB`.
    #[error("the signature isn't SPDKBLOB")]
    BadSignature,
    /// The format's version is another than 3.
    #[error("version {found}, wanted 3")]
    BadVersion {
        found: u32,
    },
    /// The last four bytes of the page aren't the CRC-32C of the bytes before them.
    #[error("the checksum of the super block is wrong")]
    BadChecksum,
    /// The size of a metadata page is neither 0 nor 4096.
    #[error("metadata pages of {found} bytes, wanted 0 or 4096")]
    BadPageSize {
        found: u32,
    },
    /// The size of a cluster is 0 or no multiple of 4096; of a plan, it isn't below 2^32 either. One that is too great
    /// for the field is given as 2^32 - 1.
    #[error("clusters of {found} bytes, wanted a multiple of 4096 above 0 and below 2^32")]
    BadClusterSize {
        found: u32,
    },
    /// There are more than 2^20 metadata pages. A number that is too great for the field is given as 2^32 - 1.
    #[error("{found} metadata pages, wanted at most 1048576")]
    TooManyPages {
        found: u32,
    },
    /// There are more than 2^24 clusters.
    #[error("{found} clusters, wanted at most 16777216")]
    TooManyClusters {
        found: u64,
    },
    /// The store is larger than the device, or a region ends behind the last whole cluster.
    #[error("{region:?} ends past the end of the store")]
    PastEnd {
        region: Region,
    },
    /// A mask has fewer pages than its bits take.
    #[error("{region:?} has {has} pages, wanted at least {wants}")]
    ShortMask {
        region: Region,
        has: u32,
        wants: u32,
    },
    /// Two regions have a page in common.
    #[error("{a:?} and {b:?} overlap, wanted no page in both")]
    Overlap {
        a: Region,
        b: Region,
    },
    /// The device has fewer clusters than the super block, the masks and the metadata pages take. A plan alone answers
    /// it.
    #[error("the device has {has} pages, wanted at least {wants}")]
    DeviceTooSmall {
        has: u64,
        wants: u64,
    },
}
