//! Rows of tests: what is run on a store, and what it prints.

use crate::runs::{Call, Ran, expect_printed, perform, play};
use blob_tool::Status;
use page_disk::MemDisk;
use std::alloc::Global;
use std::test::Fail;
use test_stores::{LAST, NAMED, PageRow, READ_ONLY, THICK, THIN, image, image_with_super, volume};

/// A store with clusters of 4 pages, of which 16 are on the device.
#[derive(Clone, Copy)]
pub enum On {
    /// No blob.
    Empty,
    /// A blob without a name at place 1 of 16.
    One,
    /// A read-only blob without a name at place 0.
    ReadOnly,
    /// The volume `v` of three clusters at the places 0 to 2 of 5.
    Volume,
    /// A super blob at place 0, whose name is `v` and whose uuid is 11223344-5566-4788-99aa-bbccddeeff00.
    Super,
    /// A super block that names a super blob at place 0, which isn't there.
    NoSuper,
}

/// The id of the blob at place 0.
const FIRST: u64 = 1 << 32;

fn disk(alloc: Global, on: On) -> Result<MemDisk, Fail> {
    let one: [PageRow; 1] = [(1, 1, 0, LAST, &[THICK])];
    let read_only: [PageRow; 1] = [(0, 0, 0, LAST, &[READ_ONLY])];
    let named: [PageRow; 1] = [(0, 0, 0, LAST, &[THIN, NAMED])];
    match on {
        On::Empty => image(alloc, (64, 16), &[]),
        On::One => image(alloc, (64, 16), &one),
        On::ReadOnly => image(alloc, (64, 16), &read_only),
        On::Volume => volume(alloc, 5),
        On::Super => image_with_super(alloc, (64, 16), FIRST, &named),
        On::NoSuper => image_with_super(alloc, (64, 16), FIRST, &[]),
    }
}

/// A store, a script, what it prints, and a look and what it prints in a later run.
pub type TwoRuns = (
    On,
    &'static [u8],
    &'static [u8],
    &'static [u8],
    &'static [u8],
);

/// Runs the script of a case, and expects what it prints and what a later run finds.
pub fn expect_two_runs(alloc: Global, case: &TwoRuns) -> Result<(), Fail> {
    let (on, script, printed, look, found) = case;
    let disk = play(alloc, script, printed, disk(alloc, *on)?)?;
    play(alloc, look, found, disk)?;
    Ok(())
}

/// A script that prepares the store and what it prints; the line of a call, its script and what it prints; and a look
/// behind it and what that prints.
pub type Scheduled = (
    (&'static [u8], &'static [u8]),
    (&'static str, &'static [u8], &'static [u8]),
    (&'static [u8], &'static [u8]),
);

/// Makes the calls of a case, and expects what each prints.
pub fn expect_scheduled(alloc: Global, case: &Scheduled) -> Result<(), Fail> {
    let ((first, made), (line, script, printed), (look, found)) = *case;
    let disk = play(alloc, first, made, disk(alloc, On::Empty)?)?;
    let Ran { status, out, disk } = perform(alloc, &Call::new(line, script), disk)?;
    if !matches!(status, Status::Good) {
        return Err(Fail::new(format_args!("{line} ended with {status:?}")));
    }
    expect_printed(&out, printed)?;
    play(alloc, look, found, disk)?;
    Ok(())
}
