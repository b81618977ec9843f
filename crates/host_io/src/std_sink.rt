//! A sink over a writer of the standard library.

ghost use Rattle.std.specs.Prelude.{◌≡◌, ◌<◌, ◌≤◌, IfOk, false, length, []};

use crate::failure::{CallFailure, SystemCall};
use blob_tool::{Sink, SinkFault};
use std::io;
use std::io::{ErrorKind, Write};
use std::marker::Model;

/// Hands bytes to a writer. It tells nothing of them. A writer that takes none of a piece is at fault. Contracts see
/// how often a write has failed.
#[derive(Drop)]
pub struct StdSink<W: Write + Drop> {
    writer: W,
    faults: u64,
    failure: Option<CallFailure>,
}

impl<W: Write + Drop> Model for StdSink<W> {
    ghost use Rattle.std.specs.Prelude.{ℕ};

    ghost Value = { ℕ };

    ghost view = { λ s. s.faults };
}

impl<W: Write + Drop> StdSink<W> {
    /// The sink that hands its bytes to this writer, with no fault yet.
    pub fn new(writer: W) -> StdSink<W>
        ensures { result ≡ 0 }
    {
        StdSink {
            writer,
            faults: 0,
            failure: None,
        }
    }

    /// The last write that failed, if one did.
    pub fn failure(&self) -> Option<CallFailure> {
        self.failure
    }
}

impl<W: Write + Drop> Sink for StdSink<W> {
    ghost tells = { false };

    ghost written = { λ _. [] };

    ghost faults = { λ s. s };

    fn write(&mut self, from: &[u8]) -> Result<usize, SinkFault> {
        match write_some(&mut self.writer, from) {
            Ok(count) => Ok(count),
            Err(error) => {
                self.faults = self.faults.saturating_add(1);
                let call = SystemCall::WriteOutput;
                self.failure = Some(CallFailure { call, error });
                Err(SinkFault)
            }
        }
    }
}

/// Writes again where a signal cut the write off.
fn write_some<W: Write>(writer: &mut W, from: &[u8]) -> io::Result<usize>
    ensures within { IfOk result (λ n. n ≤ length from.now) }
    ensures moves { IfOk result (λ n. 0 < length from.now → 0 < n) }
{
    for _ in 0..u64::MAX {
        match writer.write(from) {
            Ok(0) => {
                return if from.is_empty() {
                    Ok(0)
                } else {
                    Err(io::Error::from(ErrorKind::WriteZero))
                };
            }
            Ok(count) => return Ok(count),
            Err(error) => {
                if error.kind() != ErrorKind::Interrupted {
                    return Err(error);
                }
            }
        }
    }
    Err(io::Error::from(ErrorKind::Interrupted))
}

#[cfg(test)]
mod tests {
    use super::*;
    use std::test::Fail;

    /// Takes one byte a write, after a write that a signal cut off; fails at the third, and takes nothing after.
    struct Faulty(u8);

    impl Drop for Faulty {
        fn drop(self) {
            let Faulty(_) = self;
        }
    }

    impl Write for Faulty {
        fn write(&mut self, buf: &[u8]) -> io::Result<usize> {
            self.0 = self.0.saturating_add(1);
            match self.0 {
                1 => Err(io::Error::from(ErrorKind::Interrupted)),
                2 => Ok(buf.len().min(1)),
                3 => Err(io::Error::from(ErrorKind::Other)),
                _ => Ok(0),
            }
        }

        fn flush(&mut self) -> io::Result<()> {
            Ok(())
        }
    }

    #[test]
    fn a_writer_is_handed_what_the_sink_takes(rt: HostRuntime) -> Result<(), Fail> {
        let mut sink = StdSink::new(Vec::new(rt.alloc()));
        assert_eq!(rt; sink.write(b"abc"), Ok(3));
        assert_eq!(rt; sink.write(b""), Ok(0));
        assert_eq!(rt; sink.write(b"d"), Ok(1));
        assert_eq!(rt; sink.writer.as_slice(), b"abcd".as_slice());
        assert_eq!(rt; sink.faults, 0);

        let mut sink = StdSink::new(Faulty(0));
        assert_eq!(rt; (sink.write(b"abc"), sink.faults), (Ok(1), 0));
        assert_eq!(rt; (sink.write(b"bc"), sink.faults), (Err(SinkFault), 1));
        assert_eq!(rt; (sink.write(b"bc"), sink.faults), (Err(SinkFault), 2));
        assert_eq!(rt; (sink.write(b""), sink.faults), (Ok(0), 2));
        Ok(())
    }
}
