//! A run in which the power fails.

use anyhow::{Result, bail};
use blob_tool::{ListSink, ListSource, Status, blobtool};
use page_disk::{CallKind, FaultDisk, MemDisk};
use std::alloc::Global;

/// After how many calls of the disk the power fails, and which of the images that a crash may leave then is left: see
/// `MemDisk::crash`.
#[derive(Clone, Copy)]
pub struct Cut {
    pub calls: u32,
    pub pick: u64,
}

/// What is left: the log as it was printed, the disk after the crash, and how many calls were made until then, fewer
/// than asked for where the run ended before.
#[derive(Drop)]
pub struct Left {
    pub out: ListSink,
    pub disk: MemDisk,
    pub calls: u64,
}

/// How many bytes of a log are printed at most.
const LOG: u32 = 1 << 20;

/// How many calls of a disk were made.
fn calls_of(disk: &FaultDisk<MemDisk>) -> u64 {
    let changes = disk
        .calls(CallKind::Write)
        .saturating_add(disk.calls(CallKind::Flush));
    changes.saturating_add(disk.calls(CallKind::Read))
}

impl Cut {
    /// Runs a script on the store of a disk. It fails where the script or the store is refused.
    pub fn run(self, alloc: Global, script: Vec<u8>, disk: MemDisk) -> Result<Left> {
        let mut words = Vec::new(alloc);
        for word in ["run", "image"] {
            words.push(format!(in alloc; "{word}")?)?;
        }
        let mut source = ListSource::new(script, Vec::new(alloc));
        let Ok(mut out) = ListSink::new(alloc, LOG, Vec::new(alloc)) else {
            bail!("no memory for the log");
        };
        let stopping = FaultDisk::stopping(disk, u64::from(self.calls));
        let (status, stopped) = blobtool(alloc, &words, &mut source, &mut out, stopping);
        if !matches!(status, Status::Good | Status::Device { .. }) {
            bail!("the run ended with {status:?}");
        }
        let calls = calls_of(&stopped).min(u64::from(self.calls));
        match stopped.into_inner().crash(self.pick) {
            Ok(disk) => Ok(Left { out, disk, calls }),
            Err(_) => bail!("no memory for what is left"),
        }
    }
}
