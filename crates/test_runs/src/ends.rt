//! How calls of the program end.

use crate::runs::{Call, Ran, expect_printed, perform};
use blob_tool::Status;
use page_disk::PageDisk;
use std::alloc::Global;
use std::test::Fail;

/// How a call ends: its status, as `Debug` shows it, and what is printed.
pub type End<'a> = (&'a str, &'a [u8]);

/// Expects a status, as it is shown, or fails.
fn expect_status(alloc: Global, status: &Status, wanted: &str) -> Result<(), Fail> {
    let found = format!(in alloc; "{status:?}")?;
    if found.as_str() != wanted {
        return Err(Fail::new(found));
    }
    Ok(())
}

/// The device after a call that ends so; fails where it ends otherwise.
pub fn expect_end<D: PageDisk + Drop + Send>(
    alloc: Global,
    call: &Call<'_>,
    end: End<'_>,
    disk: D,
) -> Result<D, Fail> {
    let Ran { status, out, disk } = perform(alloc, call, disk)?;
    let (wanted, printed) = end;
    expect_status(alloc, &status, wanted)?;
    expect_printed(&out, printed)?;
    Ok(disk)
}
