//! Why the items of a chain say no metadata.

use out_of_memory::Memory as NoMemory;
use thiserror::Error;
use volume_model::Blobtext;

/// The first test that metadata fails, in this order.
#[derive(Debug, Drop, Error)]
pub enum MetaFault {
    /// These bits of the word `invalid` are unknown.
    #[error("unknown flags {bits:#x}")]
    UnknownFlag { bits: u64 },
    /// The runs have this many slots, or 2^64 - 1 where they have more.
    #[error("{slots} slots where at most 1048576 are possible")]
    TooLarge { slots: u64 },
    /// The first slot with a cluster that is fixed or past the last one has this cluster.
    #[error("cluster {cluster} is not one that a blob may have")]
    ClusterOutside { cluster: u64 },
    /// The blob is thick, and this is its first empty slot.
    #[error("slot {slot} of a thick blob is empty")]
    HoleInThick { slot: u32 },
    /// The first mark of another length than 8 bytes has this name and length, or 2^32 - 1 where it is longer.
    #[error("a mark of {length} bytes where 8 are wanted")]
    BadMark { key: Blobtext, length: u32 },
    /// Memory ran out.
    #[error("no memory")]
    Memory,
}

impl From<NoMemory> for MetaFault {
    ghost use Rattle.std.specs.Prelude.{◌≡◌};
    ghost use Rattle.blob_meta.specs.declared.fault.MetaFault.TheVariants.{Memory};

    ghost from_gives = { λ _ e. e ≡ Memory };

    fn from(_want: NoMemory) -> MetaFault {
        MetaFault::Memory
    }
}
