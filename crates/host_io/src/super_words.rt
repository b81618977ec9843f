//! What is wrong with a super block, or with the plan of a new store, in an administrator's words.

use page_disk::PageDisk;
use std::fmt::{Display, Formatter, Result, Write};
use super_block::{Region, SuperFault};

/// How large an image is, and the store in it.
#[derive(Clone, Copy, Debug, PartialEq, Eq)]
pub struct ImageSizes {
    /// The pages of the image.
    pub pages: u64,
    /// The bytes of the store, as a super block says them on page 0; 0 where that can't be read.
    pub store_bytes: u64,
}

impl ImageSizes {
    /// Those of the image on this disk.
    pub fn on<D: PageDisk>(disk: &mut D) -> ImageSizes {
        let pages = disk.pages();
        let mut page = [0; 4096];
        let mut bytes = [0; 8];
        if pages > 0 && disk.read(0, &mut page).is_ok() {
            bytes.copy_from_slice(&page[80..88]);
        }
        let store_bytes = u64::from_le_bytes(bytes);
        ImageSizes { pages, store_bytes }
    }
}

/// A region by its name.
#[derive(Clone, Copy)]
struct RegionWords(Region);

/// What is wrong with a super block, or with the plan of a new store, on an image of this size.
#[derive(Clone, Copy)]
pub(crate) struct SuperWords(pub SuperFault, pub ImageSizes);

impl Display for RegionWords {
    fn fmt<W: Write>(&self, f: &mut Formatter<W>) -> Result {
        f.write_str(match self.0 {
            Region::Whole => "the store",
            Region::SuperPage => "the super block",
            Region::PageMask => "the page mask",
            Region::ClusterMask => "the cluster mask",
            Region::BlobMask => "the blob-id mask",
            Region::Md => "the metadata region",
        })
    }
}

impl SuperWords {
    /// What is wrong with the places of regions.
    fn write_places<W: Write>(&self, f: &mut Formatter<W>) -> Result {
        let ImageSizes { pages, store_bytes } = self.1;
        match self.0 {
            SuperFault::PastEnd {
                region: Region::Whole,
            } => write!(
                f,
                "the store has {store_bytes} bytes, but the image only {pages} pages of 4096 bytes"
            ),
            SuperFault::PastEnd { region } => {
                let region = RegionWords(region);
                write!(
                    f,
                    "super block: {region} ends behind the last whole cluster"
                )
            }
            SuperFault::ShortMask { region, has, wants } => {
                let region = RegionWords(region);
                write!(
                    f,
                    "super block: {region} has {has} pages, wanted at least {wants}"
                )
            }
            SuperFault::Overlap { a, b } => {
                let (a, b) = (RegionWords(a), RegionWords(b));
                write!(
                    f,
                    "super block: {a} and {b} have a page in common, wanted none"
                )
            }
            _ => write!(f, "super block: it is wrong"),
        }
    }
}

impl Display for SuperWords {
    fn fmt<W: Write>(&self, f: &mut Formatter<W>) -> Result {
        match self.0 {
            SuperFault::BadSignature if self.1.pages == 0 => {
                f.write_str("it has no page of 4096 bytes, so it has no store")
            }
            SuperFault::BadSignature => {
                f.write_str("it has no store: page 0 does not begin with SPDKBLOB")
            }
            SuperFault::BadVersion { found } => {
                write!(f, "super block: format version {found}, wanted 3")
            }
            SuperFault::BadChecksum => {
                f.write_str("super block: its checksum is wrong, so page 0 is damaged")
            }
            SuperFault::BadPageSize { found } => {
                write!(
                    f,
                    "super block: metadata pages of {found} bytes, wanted 4096"
                )
            }
            SuperFault::BadClusterSize { found } => write!(
                f,
                "clusters of {found} bytes, wanted a multiple of 4096 from 4096 to 4294963200"
            ),
            SuperFault::TooManyPages { found } => {
                write!(f, "{found} metadata pages, wanted at most 1048576")
            }
            SuperFault::TooManyClusters { found } => {
                write!(f, "{found} clusters, wanted at most 16777216")
            }
            SuperFault::DeviceTooSmall { has, wants } => write!(
                f,
                "it has {has} pages of 4096 bytes, wanted at least {wants} for the new store"
            ),
            _ => self.write_places(f),
        }
    }
}
