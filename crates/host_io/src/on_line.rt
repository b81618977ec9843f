//! Words of the command line, and lines of a script, as a part of a line.

use std::fmt::{Display, Formatter, Result, Write};

/// A word whose control characters stand as their numbers, since one of them could end the line.
#[derive(Clone, Copy)]
pub(crate) struct OnLine<'a>(pub &'a str);

impl<'a> Display for OnLine<'a> {
    fn fmt<W: Write>(&self, f: &mut Formatter<W>) -> Result {
        for c in self.0.chars() {
            if c.is_control() {
                let number = u32::from(c);
                write!(f, "\\x{number:02x}")?;
            } else {
                f.write_char(c)?;
            }
        }
        Ok(())
    }
}

/// Bytes as a part of a line, the first hundred alone: those that aren't printed stand as their numbers, and so does
/// the backslash.
#[derive(Clone, Copy)]
pub(crate) struct BytesOnLine<'a>(pub &'a [u8]);

impl<'a> Display for BytesOnLine<'a> {
    fn fmt<W: Write>(&self, f: &mut Formatter<W>) -> Result {
        for byte in self.0.iter().take(100) {
            match *byte {
                byte if byte < 0x20 || byte > 0x7e || byte == b'\\' => write!(f, "\\x{byte:02x}")?,
                byte => f.write_char(char::from(byte))?,
            }
        }
        if self.0.len() > 100 {
            f.write_str("..")?;
        }
        Ok(())
    }
}
