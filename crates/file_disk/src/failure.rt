//! What the system said of a call of a file that failed.

use std::io::{self, ErrorKind};

/// Which call of a file failed: the read of the page with this number, the write of it or of a run that begins with it,
/// or a sync.
#[derive(Clone, Copy, Debug, PartialEq, Eq)]
pub enum FailedCall {
    ReadPage(u64),
    WritePage(u64),
    Sync,
}

/// A call of a file that failed, and why. One that moved a part of its bytes alone failed too: a read at the file's end
/// (`UnexpectedEof`), a write that wasn't taken whole (`WriteZero`).
#[derive(Clone, Copy, Debug)]
pub struct FileFailure {
    pub call: FailedCall,
    pub error: io::Error,
}

/// Why a call that was to move so many bytes didn't, if so, where this is said of one that moved a part.
pub(crate) fn why_not_whole(
    answer: &io::Result<usize>,
    bytes: usize,
    part: ErrorKind,
) -> Option<io::Error> {
    match answer {
        Ok(count) if *count == bytes => None,
        Ok(_) => Some(io::Error::from(part)),
        Err(error) => Some(*error),
    }
}

/// The failure to be told behind one more call: the first write or sync that failed, else the last read that did.
pub(crate) fn told_behind(
    before: Option<FileFailure>,
    call: FailedCall,
    why: Option<io::Error>,
) -> Option<FileFailure> {
    let Some(error) = why else {
        return before;
    };
    match before {
        Some(first) if !is_read(first.call) => Some(first),
        _ => Some(FileFailure { call, error }),
    }
}

/// Whether the call is a read, after which others may still be made.
fn is_read(call: FailedCall) -> bool {
    matches!(call, FailedCall::ReadPage(_))
}
