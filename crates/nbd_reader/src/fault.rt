//! Why a client could not be understood.

use nbd_words::WrongMagic;
use std::alloc::AllocError;
use streams::SourceFault;
use thiserror::Error;

/// Why a client could not be understood. The connection is at its end then.
#[derive(Clone, Copy, Debug, PartialEq, Eq, Error)]
pub enum ReadFault {
    /// The source could not be read.
    #[error("the client could not be read")]
    Source,
    /// Other bytes stand where the client was to say something.
    #[error("the client speaks another protocol")]
    WrongMagic,
    /// The source ended inside of what the client said.
    #[error("the client stopped in the middle of a word")]
    Cut,
    /// Memory ran out.
    #[error("no memory")]
    Memory,
}

impl From<SourceFault> for ReadFault {
    ghost use Rattle.std.specs.Prelude.{◌≡◌};
    ghost use Rattle.nbd_reader.specs.declared.fault.ReadFault.TheVariants.{Source};

    ghost from_gives = { λ _ e. e ≡ Source };

    fn from(_fault: SourceFault) -> ReadFault {
        ReadFault::Source
    }
}

impl From<WrongMagic> for ReadFault {
    ghost use Rattle.std.specs.Prelude.{◌≡◌};
    ghost use Rattle.nbd_reader.specs.declared.fault.ReadFault.TheVariants.{WrongMagic};

    ghost from_gives = { λ _ e. e ≡ WrongMagic };

    fn from(_wrong: WrongMagic) -> ReadFault {
        ReadFault::WrongMagic
    }
}

impl From<AllocError> for ReadFault {
    ghost use Rattle.std.specs.Prelude.{◌≡◌};
    ghost use Rattle.nbd_reader.specs.declared.fault.ReadFault.TheVariants.{Memory};

    ghost from_gives = { λ _ e. e ≡ Memory };

    fn from(_want: AllocError) -> ReadFault {
        ReadFault::Memory
    }
}
