//! The numbers of the standard streams, which no file that is opened later may get.

use std::fs::File;
use std::io;
use std::os::fd::AsFd;

/// What has the numbers of those standard streams that were closed when the program began, as long as it is kept. What
/// is read from such an input, or written to such an output, fails.
#[derive(Drop)]
pub struct HeldStreams {
    input: Option<File>,
    output: Option<File>,
    error: Option<File>,
}

/// Whether there is no such stream: there can be no other descriptor of it.
fn is_closed<S: AsFd>(stream: &S) -> bool {
    stream.as_fd().try_clone_to_owned().is_err()
}

/// A file of which each read fails.
fn unreadable(rt: &HostRuntime) -> io::Result<File> {
    File::options().write(true).open(rt, "/dev/null")
}

/// A file of which each write fails.
fn unwritable(rt: &HostRuntime) -> io::Result<File> {
    File::options().read(true).open(rt, "/dev/null")
}

/// Holds the numbers of the standard streams that are closed. It is called before any file is opened, so that each of
/// the three gets its own: a file that is opened has the least number that is free.
pub fn hold_streams(rt: &HostRuntime) -> io::Result<HeldStreams> {
    let mut held = HeldStreams {
        input: None,
        output: None,
        error: None,
    };
    if is_closed(&rt.stdin()) {
        held.input = Some(unreadable(rt)?);
    }
    if is_closed(&rt.stdout()) {
        held.output = Some(unwritable(rt)?);
    }
    if is_closed(&rt.stderr()) {
        held.error = Some(unwritable(rt)?);
    }
    Ok(held)
}

#[cfg(test)]
mod tests {
    use super::*;
    use std::io::{Read, Write};
    use std::test::Fail;

    #[test]
    fn each_use_of_a_held_stream_fails(rt: HostRuntime) -> Result<(), Fail> {
        let mut byte = [0];
        assert!(rt; unreadable(&rt)?.read(&mut byte).is_err());
        assert!(rt; unwritable(&rt)?.write(&byte).is_err());
        Ok(())
    }

    #[test]
    fn streams_that_are_open_are_left(rt: HostRuntime) -> Result<(), Fail> {
        let held = hold_streams(&rt)?;
        assert!(rt; held.output.is_none() && held.error.is_none());
        Ok(())
    }
}
