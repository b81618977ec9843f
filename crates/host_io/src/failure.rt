//! What the system said of a call that failed.

use file_disk::{FailedCall, FileFailure};
use std::fmt::{Display, Formatter, Result, Write};
use std::io;
use std::io::ErrorKind;

/// A call on the image or on the target of an export, or on a standard stream.
#[derive(Clone, Copy, Debug, PartialEq, Eq)]
pub enum SystemCall {
    /// The read of a page of the image.
    ReadPage(u64),
    /// The write of one.
    WritePage(u64),
    /// A flush of the image.
    Flush,
    /// The write of a page of the target.
    WriteTarget(u64),
    /// A flush of the target.
    FlushTarget,
    /// A read of standard input.
    ReadInput,
    /// A write to standard output.
    WriteOutput,
}

/// A call that failed, and why.
#[derive(Clone, Copy, Debug)]
pub struct CallFailure {
    pub call: SystemCall,
    pub error: io::Error,
}

impl From<FileFailure> for CallFailure {
    ghost from_gives = { λ _ _. Unit {0} };

    fn from(failure: FileFailure) -> CallFailure {
        let call = match failure.call {
            FailedCall::ReadPage(page) => SystemCall::ReadPage(page),
            FailedCall::WritePage(page) => SystemCall::WritePage(page),
            FailedCall::Sync => SystemCall::Flush,
        };
        CallFailure {
            call,
            error: failure.error,
        }
    }
}

impl CallFailure {
    /// The same call, on the target in place of the image.
    pub fn on_target(self) -> CallFailure {
        let call = match self.call {
            SystemCall::WritePage(page) => SystemCall::WriteTarget(page),
            SystemCall::Flush => SystemCall::FlushTarget,
            call => call,
        };
        CallFailure {
            call,
            error: self.error,
        }
    }
}

impl Display for SystemCall {
    fn fmt<W: Write>(&self, f: &mut Formatter<W>) -> Result {
        match self {
            SystemCall::ReadPage(page) => write!(f, "reading page {page} of the image"),
            SystemCall::WritePage(page) => write!(f, "writing page {page} of the image"),
            SystemCall::Flush => write!(f, "flushing the image"),
            SystemCall::WriteTarget(page) => write!(f, "writing page {page} of the target"),
            SystemCall::FlushTarget => write!(f, "flushing the target"),
            SystemCall::ReadInput => write!(f, "reading standard input"),
            SystemCall::WriteOutput => write!(f, "writing standard output"),
        }
    }
}

impl Display for CallFailure {
    fn fmt<W: Write>(&self, f: &mut Formatter<W>) -> Result {
        let CallFailure { call, error } = self;
        match error.kind() {
            ErrorKind::UnexpectedEof => write!(f, "{call} failed: it ends before that"),
            ErrorKind::WriteZero => write!(f, "{call} failed: it was not taken whole"),
            ErrorKind::Interrupted => write!(f, "{call} failed: signals cut it off each time"),
            _ => write!(f, "{call} failed: {error}"),
        }
    }
}
