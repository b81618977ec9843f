//! Why a head has no chain.

use out_of_memory::Memory as NoMemory;
use thiserror::Error;

/// The first test that fails, at the first place of the chain that fails one. Places are those of the metadata region.
#[derive(Clone, Copy, Debug, PartialEq, Eq, Error)]
pub enum ChainFault {
    /// The page at `page` links to a place past the region's end; or the head is there itself, and then `page` is the
    /// head.
    #[error("page {page} links to {next}, past the metadata region's end")]
    LinkPastEnd { page: u32, next: u32 },
    /// The place is in the chain already.
    #[error("page {page} is in the chain already")]
    Loop { page: u32 },
    /// The device could not read a page.
    #[error("a metadata page could not be read")]
    ReadFault,
    /// The page's checksum is wrong.
    #[error("the checksum of page {page} is wrong")]
    Unsound { page: u32 },
    /// The page has the id of another blob.
    #[error("page {page} is of the blob with id {found:#x}")]
    WrongId { page: u32, found: u64 },
    /// The page says that it stands elsewhere in its chain.
    #[error("page {page} has sequence {found} where {wanted} is wanted")]
    WrongSequence { page: u32, found: u32, wanted: u32 },
    /// A descriptor in the page's body is bad: it begins at byte `at` of the body and has this type.
    #[error("page {page} has a bad descriptor of type {kind} at byte {at}")]
    BadItem { page: u32, at: u32, kind: u8 },
    /// Memory ran out.
    #[error("no memory")]
    Memory,
}

impl From<NoMemory> for ChainFault {
    ghost use Rattle.std.specs.Prelude.{◌≡◌};
    ghost use Rattle.md_chain.specs.declared.fault.ChainFault.TheVariants as fault;

    ghost from_gives = { λ _ e. e ≡ fault.Memory };

    fn from(_want: NoMemory) -> ChainFault {
        ChainFault::Memory
    }
}
