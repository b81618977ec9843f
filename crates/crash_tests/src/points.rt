//! A script that is cut off at each call of the device, and what stands once some of its commands are done.

use page_disk::{FaultDisk, MemDisk};
use std::alloc::Global;
use std::test::Fail;
use test_runs::{Ran, Status, play, run};
use test_stores::{ChainRow, expect_chains};

/// What stands once some of the commands are done: how many calls of the device were made until the head of the last
/// one was flushed, what is printed of the script, what is printed of the look, and the chains.
pub struct Point {
    pub calls: u64,
    pub printed: &'static [u8],
    pub found: &'static [u8],
    pub chains: &'static [ChainRow<'static>],
}

/// A script, a look at what it leaves, its points, before the commands and after each, and the calls of the whole run.
///
/// The first job of a run begins with the mark of a store in use, three calls: a flush, the super block's write and a
/// flush. The run ends with the unload of the store, six calls: the pages of its three masks, a flush, the super
/// block's write, and a flush.
pub struct Cut {
    pub script: &'static [u8],
    pub look: &'static [u8],
    pub points: &'static [Point],
    pub calls: u64,
}

/// The last of the points that are reached with so many calls.
fn point_at(points: &'static [Point], calls: u64) -> Result<&'static Point, Fail> {
    let mut last = None;
    for point in points {
        if point.calls <= calls {
            last = Some(point);
        }
    }
    Ok(last.ok_or("no point is reached")?)
}

/// How many lines of a printed text have an `ok`.
fn count_of_ok(printed: &[u8]) -> usize {
    printed.iter().filter(|b| **b == b'k').count()
}

/// Whether a printed text begins so, and answers as many commands with `ok`.
fn is_answered(text: &[u8], printed: &[u8]) -> bool {
    text.starts_with(printed) && count_of_ok(text) == count_of_ok(printed)
}

/// The disk after so many calls of the device, with as many commands done as are answered so. The run ends well with
/// all its calls alone.
fn stopped(alloc: Global, cut: &Cut, calls: u64, disk: MemDisk) -> Result<MemDisk, Fail> {
    let printed = point_at(cut.points, calls)?.printed;
    let Ran { status, out, disk } = run(alloc, cut.script, FaultDisk::stopping(disk, calls))?;
    if matches!(status, Status::Good) != (calls >= cut.calls) {
        return Err(Fail::new(format_args!("{calls} calls ended with {status:?}")));
    }
    if !is_answered(out.bytes(), printed) {
        return Err(Fail::new(format_args!("others are answered in {calls} calls")));
    }
    Ok(disk.into_inner())
}

/// Expects that what a crash leaves is loaded, and is as at the point that is reached with so many calls.
fn expect_point(alloc: Global, cut: &Cut, reached: u64, disk: MemDisk) -> Result<(), Fail> {
    let point = point_at(cut.points, reached)?;
    let disk = play(alloc, cut.look, point.found, disk)?;
    expect_chains(alloc, disk, point.chains)
}

/// With how many calls the point is reached that a crash by this pick leaves after so many calls. A command whose head
/// is written and not flushed may be done or not: it is where a crash leaves the last write, as pick 1 says, and each
/// fourth one behind it.
fn reached(calls: u64, pick: u64) -> u64 {
    calls.saturating_add(u64::from(pick % 4 == 1))
}

/// Expects it of so many crashes after so many calls.
fn expect_points(
    alloc: Global,
    cut: &Cut,
    calls: u64,
    picks: u64,
    disk: &MemDisk,
) -> Result<(), Fail> {
    for pick in 0..picks {
        expect_point(alloc, cut, reached(calls, pick), disk.crash(pick)?)?;
    }
    Ok(())
}

/// Expects that where power fails after so many calls in a run of the script on a flushed device, the commands before
/// are done, and the one that is cut off is done or not, by so many crashes.
pub fn expect_cut_after(
    alloc: Global,
    cut: &Cut,
    calls: u64,
    picks: u64,
    disk: &MemDisk,
) -> Result<(), Fail> {
    let disk = stopped(alloc, cut, calls, disk.crash(0)?)?;
    expect_points(alloc, cut, calls, picks, &disk)
}

/// Expects it of each number of calls and four crashes.
pub fn expect_cut(alloc: Global, cut: &Cut, disk: &MemDisk) -> Result<(), Fail> {
    expect_cut_with(alloc, cut, 4, disk)
}

/// Expects it of each number of calls.
pub fn expect_cut_with(alloc: Global, cut: &Cut, picks: u64, disk: &MemDisk) -> Result<(), Fail> {
    for calls in 0..cut.calls.saturating_add(1) {
        expect_cut_after(alloc, cut, calls, picks, disk)?;
    }
    Ok(())
}
