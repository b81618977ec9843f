//! A source over a reader of the standard library.

ghost use Rattle.std.specs.Prelude.{◌≡◌, ◌≤◌, IfOk, false, length, []};

use crate::failure::{CallFailure, SystemCall};
use blob_tool::{Source, SourceFault};
use std::io;
use std::io::{ErrorKind, Read};
use std::marker::Model;

/// The bytes that a reader gives. It tells nothing of them. Contracts see how often a read has failed.
#[derive(Drop)]
pub struct StdSource<R: Read + Drop> {
    reader: R,
    faults: u64,
    failure: Option<CallFailure>,
}

impl<R: Read + Drop> Model for StdSource<R> {
    ghost use Rattle.std.specs.Prelude.{ℕ};

    ghost Value = { ℕ };

    ghost view = { λ s. s.faults };
}

impl<R: Read + Drop> StdSource<R> {
    /// The source of what this reader gives, with no fault yet.
    pub fn new(reader: R) -> StdSource<R>
        ensures { result ≡ 0 }
    {
        StdSource {
            reader,
            faults: 0,
            failure: None,
        }
    }

    /// The reader.
    pub fn reader(&self) -> &R {
        &self.reader
    }

    /// The last read that failed, if one did.
    pub fn failure(&self) -> Option<CallFailure> {
        self.failure
    }
}

impl<R: Read + Drop> Source for StdSource<R> {
    ghost tells = { false };

    ghost left = { λ _. [] };

    ghost faults = { λ s. s };

    fn read(&mut self, into: &mut [u8]) -> Result<usize, SourceFault> {
        match read_some(&mut self.reader, into) {
            Ok(count) => Ok(count),
            Err(error) => {
                self.faults = self.faults.saturating_add(1);
                let call = SystemCall::ReadInput;
                self.failure = Some(CallFailure { call, error });
                Err(SourceFault)
            }
        }
    }
}

/// Reads again where a signal cut the read off.
fn read_some<R: Read>(reader: &mut R, into: &mut [u8]) -> io::Result<usize>
    ensures { IfOk result (λ n. n ≤ length into.new) }
{
    for _ in 0..u64::MAX {
        match reader.read(into) {
            Ok(count) => return Ok(count),
            Err(error) => {
                if error.kind() != ErrorKind::Interrupted {
                    return Err(error);
                }
            }
        }
    }
    Err(io::Error::from(ErrorKind::Interrupted))
}

#[cfg(test)]
mod tests {
    use super::*;

    /// Gives two bytes a read, after a read that a signal cut off, and fails at the fourth.
    struct Faulty(u8);

    impl Drop for Faulty {
        fn drop(self) {
            let Faulty(_) = self;
        }
    }

    impl Read for Faulty {
        fn read(&mut self, buf: &mut [u8]) -> io::Result<usize> {
            self.0 = self.0.saturating_add(1);
            match self.0 {
                1 => Err(io::Error::from(ErrorKind::Interrupted)),
                4 => Err(io::Error::from(ErrorKind::Other)),
                _ => {
                    let count = buf.len().min(2);
                    buf[..count].fill(self.0);
                    Ok(count)
                }
            }
        }
    }

    #[test]
    fn a_source_gives_what_its_reader_gives(rt: HostRuntime) {
        let mut buffer = [0; 4];
        let mut source = StdSource::new(b"abcde".as_slice());
        assert_eq!(rt; source.read(&mut buffer), Ok(4));
        assert_eq!(rt; buffer, *b"abcd");
        assert_eq!(rt; source.read(&mut buffer), Ok(1));
        assert_eq!(rt; source.read(&mut buffer), Ok(0));
        assert_eq!(rt; source.faults, 0);

        let mut source = StdSource::new(Faulty(0));
        assert_eq!(rt; source.read(&mut buffer), Ok(2));
        assert_eq!(rt; source.read(&mut buffer), Ok(2));
        assert_eq!(rt;
            (source.read(&mut buffer), source.faults),
            (Err(SourceFault), 1)
        );
        assert_eq!(rt; source.read(&mut buffer), Ok(2));
    }
}
