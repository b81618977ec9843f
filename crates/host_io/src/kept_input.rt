//! A reader that keeps what it gave, so that a line of it can be told.

use crate::on_line::BytesOnLine;
use std::alloc::{AllocError, Global};
use std::io;
use std::io::Read;

/// Gives what its reader gives, and keeps it, as long as there is memory for it.
#[derive(Drop)]
pub struct KeptInput<R: Read + Drop> {
    reader: R,
    kept: Vec<u8>,
    has_all: bool,
}

impl<R: Read + Drop> KeptInput<R> {
    /// The reader that keeps what this one gives.
    pub fn new(alloc: Global, reader: R) -> KeptInput<R> {
        KeptInput {
            reader,
            kept: Vec::new(alloc),
            has_all: true,
        }
    }

    /// The line with this number, from 1, of what was given, as a part of a line; an empty text where it wasn't kept.
    pub fn line(&self, alloc: Global, number: u32) -> Result<String, AllocError> {
        let before = number.saturating_sub(1) as usize;
        let mut lines = self.kept.as_slice().split(|byte| *byte == b'\n');
        let line = BytesOnLine(lines.nth(before).unwrap_or(b"".as_slice()));
        format!(in alloc; "{line}")
    }
}

impl<R: Read + Drop> Read for KeptInput<R> {
    fn read(&mut self, buf: &mut [u8]) -> io::Result<usize> {
        let count = self.reader.read(buf)?;
        if self.has_all && self.kept.extend_from_slice(&buf[..count]).is_err() {
            self.has_all = false;
        }
        Ok(count)
    }
}

#[cfg(test)]
mod tests {
    use super::*;
    use std::test::Fail;

    /// The number of a line of the text, and the line.
    static LINES: [(u32, &str); 5] = [(0, "ab"), (1, "ab"), (2, ""), (3, "c\\x00d"), (4, "")];

    #[test]
    fn a_line_of_what_was_given_is_told(rt: HostRuntime) -> Result<(), Fail> {
        let mut buffer = [0; 4];
        let mut input = KeptInput::new(rt.alloc(), b"ab\n\nc\0d".as_slice());
        for _ in 0..3 {
            input.read(&mut buffer)?;
        }
        for (number, line) in &LINES {
            assert_eq!(rt; input.line(rt.alloc(), *number)?.as_str(), *line);
        }
        Ok(())
    }
}
