//! Calls of the program.

use anyhow::{Result, bail};
use blob_tool::{ListSink, ListSource, Status, blobtool};
use page_disk::PageDisk;
use std::alloc::Global;

/// How many bytes are printed at most.
const PRINTED: u32 = 1 << 14;

/// How a call ended, and the device.
#[derive(Drop)]
pub struct Ended<D> {
    pub status: Status,
    pub disk: D,
}

/// Makes a call with the words of a line, over a device.
pub fn call<D: PageDisk + Drop + Send>(
    alloc: Global,
    line: &str,
    script: &[u8],
    disk: D,
) -> Result<Ended<D>> {
    let mut words = Vec::new(alloc);
    for word in line.split_whitespace() {
        words.push(format!(in alloc; "{word}")?)?;
    }
    let mut source = ListSource::new(Vec::from_slice(alloc, script)?, Vec::new(alloc));
    let Ok(mut out) = ListSink::new(alloc, PRINTED, Vec::new(alloc)) else {
        bail!("no memory for what is printed");
    };
    let (status, disk) = blobtool(alloc, &words, &mut source, &mut out, disk);
    Ok(Ended { status, disk })
}
