//! How the program ends, and its exit status.

ghost use Rattle.std.specs.Prelude.{◌≡◌, ◌≢◌};
ghost use Rattle.std.specs.IoError.{error_kind};
ghost use Rattle.std.specs.declared.io.ErrorKind.TheVariants.{OutOfMemory};
ghost use Rattle.blob_tool.specs.declared.status.Status.TheVariants as status;
ghost use Rattle.host_io.specs.ExitStatuses.{exit_status};
ghost use Rattle.host_io.specs.declared.ending.Ending.TheVariants as ending;

use crate::image::OpenFault;
use crate::word_faults::WordFault;
use blob_tool::Status;
use clap::Error;
use std::io;

/// How the program ends.
#[derive(Debug, Drop)]
pub enum Ending {
    /// A command ended so.
    Ran(Status),
    /// The words are no command, or ask for help or the version: what `clap` says of them.
    Refused(Error),
    /// A word isn't of its form, or an option is missing.
    BadWord(WordFault),
    /// A word isn't UTF-8.
    NotText,
    /// The image isn't had.
    NotOpened(OpenFault),
}

impl Ending {
    /// The ending where the words could not be taken: there was no memory for them, or they aren't UTF-8.
    pub fn no_words(error: io::Error) -> Ending
        ensures memory { error_kind error ≡ OutOfMemory → result ≡ ending.Ran status.Memory }
        ensures not_text { error_kind error ≢ OutOfMemory → result ≡ ending.NotText }
    {
        match error.kind() {
            io::ErrorKind::OutOfMemory => Ending::Ran(Status::Memory),
            _ => Ending::NotText,
        }
    }

    /// The exit status. Words that aren't UTF-8 are no command, and an image that can't be opened counts as a device
    /// that fails.
    pub fn code(&self) -> u8
        ensures { result ≡ exit_status self.now }
    {
        match self {
            Ending::Ran(Status::Good) => 0,
            Ending::Ran(Status::Usage) => 1,
            Ending::Refused(_) | Ending::BadWord(_) | Ending::NotText => 1,
            Ending::Ran(Status::Script { .. }) => 2,
            Ending::Ran(Status::Image { .. }) => 3,
            Ending::Ran(Status::ScriptRead) => 4,
            Ending::Ran(Status::OutWrite) => 5,
            Ending::Ran(Status::Device { .. }) | Ending::NotOpened(_) => 6,
            Ending::Ran(Status::Memory) => 7,
        }
    }
}
