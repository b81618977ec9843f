//! The stores that are damaged: of 64 pages, with clusters of 4 pages and 16 metadata pages.

use crate::calls::{Ended, call};
use anyhow::{Result, bail};
use blob_tool::Status;
use page_disk::{FaultDisk, MemDisk};
use std::alloc::Global;

/// A family: a volume with a long chain, its two snapshots, and a clone.
const FAMILY: &[u8] = b"0 create a 2 thin\n0 write a 0 1 1\n0 snapshot a s\n0 write a 4 1 2\n\
    0 snapshot a t\n0 clone s c\n0 write c 0 1 3\n0 put a k t:b\n0 create b 1 thick\n";

/// What is done with it: what is cut off in the middle has blobs with a mark.
const CHANGES: &[u8] = b"0 snapshot c u\n0 delete t\n0 inflate a\n0 delete s\n";

/// After how many calls of the device the changes are cut off, beside the one that isn't.
const CUTS: [u64; 6] = [30, 45, 60, 75, 90, 105];

/// The device behind a call of the program, of which this many calls of the device are made.
fn left_by(alloc: Global, line: &str, script: &[u8], disk: MemDisk, calls: u64) -> Result<MemDisk> {
    let Ended { status, disk } = call(alloc, line, script, FaultDisk::stopping(disk, calls))?;
    if !matches!(status, Status::Good | Status::Device { .. }) {
        bail!("{line} ended with {status:?}");
    }
    match disk.into_inner().crash(0) {
        Ok(disk) => Ok(disk),
        Err(_) => bail!("no memory for a store"),
    }
}

/// More calls than any call of the program makes.
const ALL: u64 = 1 << 20;

/// A new store, a family, and that with its changes, cut off and not.
pub fn stores(alloc: Global) -> Result<Vec<MemDisk>> {
    let Ok(blank) = MemDisk::new(alloc, 64, 1024) else {
        bail!("no memory for a device");
    };
    let new = left_by(alloc, "format image --cluster 16384", b"", blank, ALL)?;
    let family = left_by(alloc, "run image", FAMILY, new, ALL)?;
    let mut stores = Vec::new(alloc);
    for calls in CUTS {
        let Ok(copy) = family.crash(0) else {
            bail!("no memory for a store");
        };
        stores.push(left_by(alloc, "run image", CHANGES, copy, calls)?)?;
    }
    stores.push(family)?;
    Ok(stores)
}
