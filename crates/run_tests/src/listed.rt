//! What a store lists of itself.

use crate::formats::expect_new_store;
use page_disk::{MemDisk, PageDisk};
use std::alloc::Global;
use std::test::Fail;
use test_runs::{Call, expect_end, run};
use test_stores::store;

/// The call that lists a store and its volumes.
pub(crate) static LIST: Call<'static> = Call {
    line: "list store.img",
    script: b"no script",
    failing_reads: &[],
    failing_writes: &[],
};

/// The call that lists them in JSON.
pub(crate) static JSON: Call<'static> = Call {
    line: "list --json store.img",
    script: b"no script",
    failing_reads: &[],
    failing_writes: &[],
};

/// The call that lists the volumes in a tree.
pub(crate) static TREE: Call<'static> = Call {
    line: "list --tree store.img",
    script: b"no script",
    failing_reads: &[],
    failing_writes: &[],
};

/// The device of a new store behind a script.
pub(crate) fn ran(alloc: Global, script: &[u8]) -> Result<MemDisk, Fail> {
    let ran = run(alloc, script, expect_new_store(alloc, store(alloc)?)?)?;
    Ok(ran.disk)
}

/// The device of a store of which this is listed, and to which nothing is written for it; fails where it isn't so.
pub(crate) fn expect_listed(alloc: Global, printed: &[u8], disk: MemDisk) -> Result<MemDisk, Fail> {
    expect_printed(alloc, &LIST, printed, disk)
}

/// The same by a call of its own.
pub(crate) fn expect_printed(
    alloc: Global,
    call: &Call,
    printed: &[u8],
    disk: MemDisk,
) -> Result<MemDisk, Fail> {
    let clock = disk.clock();
    let disk = expect_end(alloc, call, ("Good", printed), disk)?;
    if disk.clock() != clock {
        return Err(Fail::new("it wrote"));
    }
    Ok(disk)
}
