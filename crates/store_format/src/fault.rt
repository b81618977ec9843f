//! Why a new store wasn't written.

use out_of_memory::Memory as NoMemory;
use page_disk::DiskFault;
use thiserror::Error;

/// Why a new store wasn't written.
#[derive(Clone, Copy, Debug, PartialEq, Eq, Error)]
pub enum FormatFault {
    /// A write or a flush of the device failed.
    #[error("the device failed")]
    Device,
    /// Memory ran out, before anything was written.
    #[error("no memory")]
    Memory,
}

impl From<DiskFault> for FormatFault {
    ghost use Rattle.std.specs.Prelude.{◌≡◌};
    ghost use Rattle.store_format.specs.declared.fault.FormatFault.TheVariants.{Device};

    ghost from_gives = { λ _ e. e ≡ Device };

    fn from(_fault: DiskFault) -> FormatFault {
        FormatFault::Device
    }
}

impl From<NoMemory> for FormatFault {
    ghost use Rattle.std.specs.Prelude.{◌≡◌};
    ghost use Rattle.store_format.specs.declared.fault.FormatFault.TheVariants.{Memory};

    ghost from_gives = { λ _ e. e ≡ Memory };

    fn from(_want: NoMemory) -> FormatFault {
        FormatFault::Memory
    }
}
