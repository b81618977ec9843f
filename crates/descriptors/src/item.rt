//! What a descriptor says.

use out_of_memory::Memory as NoMemory;
use thiserror::Error;
use volume_model::{Blobtext, ListOf, RunList};

/// One descriptor of a blob's metadata; padding is none.
#[derive(Debug, Drop)]
pub enum Item {
    /// Runs of a map, at least one.
    Rle(RunList),
    /// An extended attribute.
    Xattr {
        key: Blobtext,
        value: Blobtext,
    },
    /// The three words of flags.
    Flags {
        invalid: u64,
        data_ro: u64,
        md_ro: u64,
    },
    /// An extended attribute that the store keeps for itself.
    InternalXattr {
        key: Blobtext,
        value: Blobtext,
    },
    /// A descriptor of another type, whose bytes are skipped.
    Unknown {
        kind: u8,
    },
}

/// The items of a body, in order.
pub type ItemList = ListOf<Item>;

/// Why a body was not read.
#[derive(Debug, Drop, Error)]
pub enum ItemFault {
    /// The first descriptor at fault begins at this byte of the body and has this type.
    #[error("bad descriptor of type {kind} at byte {at}")]
    BadItem { at: u32, kind: u8 },
    /// Memory ran out.
    #[error("no memory")]
    Memory,
}

impl From<NoMemory> for ItemFault {
    ghost use Rattle.std.specs.Prelude.{◌≡◌};
    ghost use Rattle.descriptors.specs.declared.item.ItemFault.TheVariants.{Memory};

    ghost from_gives = { λ _ e. e ≡ Memory };

    fn from(_want: NoMemory) -> ItemFault {
        ItemFault::Memory
    }
}
