//! How a command of the program ends.

use script_lang::{LineKind, ScriptFault};
use streams::{PrintFault, ReadFault};
use unclean_load::LoadFault;

/// How a command ended. The exit statuses are 0 to 7, in this order.
#[derive(Debug, Drop)]
pub enum Status {
    /// All was done, and all was printed.
    Good,
    /// The words are no command.
    Usage,
    /// The first line of the script, from 1, that holds no command; line 0 is a script of more than 1,048,576 bytes.
    Script { line: u32, kind: LineKind },
    /// The image has no store that this program runs, or no place for the new store.
    Image { fault: LoadFault },
    /// The script could not be read.
    ScriptRead,
    /// The log, or the line of the new store, could not be printed.
    OutWrite,
    /// The device failed, when the log had so many entries; there is no log of a new store.
    Device { at: u32 },
    /// Memory ran out.
    Memory,
}

impl From<ReadFault> for Status {
    ghost use Rattle.std.specs.Prelude.{◌≡◌};
    ghost use Rattle.blob_tool.specs.Statuses.{of_reading};

    ghost from_gives = { λ fault status. status ≡ of_reading fault };

    fn from(fault: ReadFault) -> Status {
        match fault {
            ReadFault::Source => Status::ScriptRead,
            ReadFault::TooBig => Status::from(ScriptFault::TooBig),
            ReadFault::Memory => Status::Memory,
        }
    }
}

impl From<ScriptFault> for Status {
    ghost use Rattle.std.specs.Prelude.{◌≡◌};
    ghost use Rattle.blob_tool.specs.Statuses.{of_script};

    ghost from_gives = { λ fault status. status ≡ of_script fault };

    fn from(fault: ScriptFault) -> Status {
        match fault {
            ScriptFault::BadLine { line, kind } => Status::Script { line, kind },
            ScriptFault::TooBig => Status::Script {
                line: 0,
                kind: LineKind::Limit,
            },
            ScriptFault::Memory => Status::Memory,
        }
    }
}

impl From<LoadFault> for Status {
    ghost use Rattle.std.specs.Prelude.{◌≡◌};
    ghost use Rattle.blob_tool.specs.Statuses.{of_loading};

    ghost from_gives = { λ fault status. status ≡ of_loading fault };

    fn from(fault: LoadFault) -> Status {
        match fault {
            LoadFault::ReadFault => Status::Device { at: 0 },
            LoadFault::Memory => Status::Memory,
            fault => Status::Image { fault },
        }
    }
}

impl From<PrintFault> for Status {
    ghost use Rattle.std.specs.Prelude.{◌≡◌};
    ghost use Rattle.blob_tool.specs.Statuses.{of_printing};

    ghost from_gives = { λ fault status. status ≡ of_printing fault };

    fn from(fault: PrintFault) -> Status {
        match fault {
            PrintFault::Sink => Status::OutWrite,
            PrintFault::Memory => Status::Memory,
        }
    }
}

impl Status {
    ghost use Rattle.std.specs.Prelude.{◌≡◌};
    ghost use Rattle.blob_tool.specs.Statuses.{of_run};

    /// How a run ended that stopped there, if it stopped, and whose log was printed so.
    pub(crate) fn of_run(stopped: Option<u32>, printed: Result<(), PrintFault>) -> Status
        ensures { result ≡ of_run stopped printed }
    {
        let ended = match printed {
            Ok(()) => Status::Good,
            Err(PrintFault::Sink) => Status::OutWrite,
            Err(PrintFault::Memory) => return Status::Memory,
        };
        match stopped {
            Some(at) => Status::Device { at },
            None => ended,
        }
    }
}
