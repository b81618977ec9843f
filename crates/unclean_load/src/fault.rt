//! Why a device has no store that this crate loads.

use blob_meta::MetaFault;
use md_chain::ChainFault;
use out_of_memory::Memory as NoMemory;
use super_block::SuperFault;
use thiserror::Error;

/// Why no store is loaded. Heads and pages are places of the metadata region.
#[derive(Debug, Drop, Error)]
pub enum LoadFault {
    /// The first test that the super block fails.
    #[error("super block: {0}")]
    Super(SuperFault),
    /// The blob at this head has no chain.
    #[error("blob at page {head}: {fault}")]
    Chain { head: u32, fault: ChainFault },
    /// The metadata of the blob at this head has this fault.
    #[error("blob at page {head}: {fault}")]
    Meta { head: u32, fault: MetaFault },
    /// The maps of the blobs up to the first with which they are too large have this many slots together.
    #[error("maps of {slots} slots together where at most 16777216 are possible")]
    MapsTooLarge { slots: u64 },
    /// The blob at this head has an attribute SNAP with this number, which is the id of no blob that is there.
    #[error("blob at page {blob}: no blob has the id {parent:#x} of its parent")]
    NoParentBlob { blob: u32, parent: u64 },
    /// The parent of the blob at this head isn't read-only.
    #[error("blob at page {blob}: its parent at page {parent} is not read-only")]
    WritableParent { blob: u32, parent: u32 },
    /// Following parents from the blob at this head comes to some blob a second time.
    #[error("blob at page {blob}: following parents comes back")]
    ParentLoop { blob: u32 },
    /// The least cluster that stands in two slots, and the heads of its first two; they are the same where one blob has
    /// both.
    #[error("cluster {cluster} is in the map of the blob at page {a} and again in that at page {b}")]
    Shared { cluster: u32, a: u32, b: u32 },
    /// The device failed a read.
    #[error("a page could not be read")]
    ReadFault,
    /// Recovery's first repair that is left gives the blob at this head metadata that needs more pages than are clear:
    /// never an answer of `load`.
    #[error("blob at page {head}: {has} pages are clear where its repair needs {wants}")]
    NoRoom { head: u32, has: u32, wants: u32 },
    /// Memory ran out.
    #[error("no memory")]
    Memory,
}

impl From<NoMemory> for LoadFault {
    ghost use Rattle.std.specs.Prelude.{◌≡◌};
    ghost use Rattle.unclean_load.specs.declared.fault.LoadFault.TheVariants as fault;

    ghost from_gives = { λ _ e. e ≡ fault.Memory };

    fn from(_want: NoMemory) -> LoadFault {
        LoadFault::Memory
    }
}
