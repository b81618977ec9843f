//! A call of a device, and the line that tells of it.

use anyhow::{Context, Error, Result, bail};
use std::fs::File;
use std::os::unix::fs::FileExt;
use std::str::FromStr;

/// As many bytes as a call moves at most.
pub const MOST_BYTES: usize = 256 * 4096;

/// A call of a device. Pages are told by their first byte in the file, and by how many bytes they have.
#[derive(Clone, Copy)]
pub enum Call {
    Read(u64),
    Write(u64, usize),
    Flush,
}

/// The first byte of the page whose number this is.
fn first_byte(page: &str) -> Result<u64> {
    let number = page.parse::<u64>().context("no number of a page")?;
    number.checked_mul(4096).context("no file has such a page")
}

/// The write that is told by its first page, and by how many it has where these are more than one.
fn write(words: &str) -> Result<Call> {
    let (page, pages) = words.split_once(' ').unwrap_or((words, "1"));
    let pages = pages.parse::<usize>().context("no number of pages")?;
    if pages > MOST_BYTES / 4096 {
        bail!("more pages than a call moves");
    }
    Ok(Call::Write(first_byte(page)?, pages * 4096))
}

impl FromStr for Call {
    type Err = Error;

    fn from_str(line: &str) -> Result<Call> {
        match line.split_once(' ') {
            Some(("r", page)) => Ok(Call::Read(first_byte(page)?)),
            Some(("w", pages)) => write(pages),
            None if line == "f" => Ok(Call::Flush),
            _ => bail!("no call: {line}"),
        }
    }
}

impl Call {
    /// Makes the call on a file, with this page to read into, and of these bytes as many to write as it has.
    pub fn make(self, file: &File, page: &mut [u8; 4096], bytes: &[u8]) -> Result<()> {
        match self {
            Call::Read(at) => file.read_exact_at(page, at)?,
            Call::Write(at, count) => {
                let run = bytes.get(..count).context("too many bytes")?;
                file.write_all_at(run, at)?;
            }
            Call::Flush => file.sync_all()?,
        }
        Ok(())
    }
}
