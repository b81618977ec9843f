//! Power that fails while a snapshot is finished or undone, and again while that is.

use crate::families::{STATES, State, family, joined};
use crate::repairs::{LOOK, looked};
use page_disk::{FaultDisk, MemDisk};
use std::alloc::Global;
use std::test::Fail;
use test_runs::{Ran, Status, expect_printed, play, run};
use test_stores::are_same;

/// What a run leaves of a device that stops after so many calls, and whether its repairs are made, and it ended well.
#[derive(Drop)]
struct Left {
    disk: MemDisk,
    is_repaired: bool,
    is_good: bool,
}

/// What a run leaves after so many calls. It prints nothing where the device stops in the load or in a repair.
fn stopped(alloc: Global, disk: MemDisk, calls: u64, counted: &[u8]) -> Result<Left, Fail> {
    let Ran { status, out, disk } = run(alloc, b"0 df\n", FaultDisk::stopping(disk, calls))?;
    let (is_repaired, is_good) = match status {
        Status::Good => (true, true),
        Status::Device { at: 0 } => (false, false),
        Status::Device { at: 1 } => (true, false),
        _ => return Err(Fail::new(format_args!("the run ended with {status:?}"))),
    };
    let printed: &[u8] = if is_repaired { counted } else { b"" };
    expect_printed(&out, printed)?;
    Ok(Left {
        disk: disk.into_inner(),
        is_repaired,
        is_good,
    })
}

/// How many calls the load of one of these stores makes at least, of a super block, three masks and the pages of a
/// blob, and where its clusters of data begin.
const LOAD: u64 = 5;

const DATA: u64 = 20;

/// Adds an image to others, unless it is one of them but for pages of clusters, to which no repair writes.
fn add(images: &mut Vec<MemDisk>, image: MemDisk) -> Result<(), Fail> {
    let mut image = image;
    for known in images.iter_mut() {
        if are_same(known, &mut image, DATA)? {
            return Ok(());
        }
    }
    images.push(image)?;
    Ok(())
}

/// Adds the images that power may leave of a device.
fn add_left(images: &mut Vec<MemDisk>, disk: &MemDisk) -> Result<(), Fail> {
    for pick in 0..4 {
        add(images, disk.crash(pick)?)?;
    }
    Ok(())
}

/// The images that power leaves which fails in a run on a store, at any call behind the first ones of its load: in the
/// mark of a store in use with which the first repair begins, in a repair, or, if that is asked for, in the unload.
fn images_left(
    alloc: Global,
    store: &MemDisk,
    counted: &[u8],
    in_unload: bool,
) -> Result<Vec<MemDisk>, Fail> {
    let mut images = Vec::new(alloc);
    for calls in LOAD..200 {
        let Left {
            disk,
            is_repaired,
            is_good,
        } = stopped(alloc, store.crash(0)?, calls, counted)?;
        add_left(&mut images, &disk)?;
        if is_good || (is_repaired && !in_unload) {
            return Ok(images);
        }
    }
    Err(Fail::new("the run makes more calls"))
}

/// Expects what a look prints of each image.
fn expect_looks(alloc: Global, images: &[MemDisk], printed: &[u8]) -> Result<(), Fail> {
    for image in images {
        play(alloc, LOOK, printed, image.crash(0)?)?;
    }
    Ok(())
}

/// Expects that a state is repaired, whenever power fails in a run on it and then in another one, in the unload of that
/// one too, if that is asked for.
fn expect_repaired(alloc: Global, state: &State, in_unload: bool) -> Result<(), Fail> {
    let before = b"0 0 df clusters 10 of 16 pages ";
    let counted = joined(alloc, &[before, state.free, b" of 16\n"])?;
    let printed = looked(alloc, state)?;
    let once = images_left(alloc, &family(alloc, state.found)?, &counted, true)?;
    for image in &once {
        let twice = images_left(alloc, image, &counted, in_unload)?;
        expect_looks(alloc, &twice, &printed)?;
    }
    Ok(())
}

#[test]
fn recovery_may_be_stopped_twice(rt: HostRuntime) -> Result<(), Fail> {
    for state in &STATES {
        expect_repaired(rt.alloc(), state, false)?;
    }
    Ok(())
}

/// Of a snapshot that is made, but for its last replacement.
#[test]
fn an_unload_behind_recovery_may_be_stopped_twice(rt: HostRuntime) -> Result<(), Fail> {
    expect_repaired(rt.alloc(), &STATES[3], true)
}
