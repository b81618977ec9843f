//! Disks in memory: what a crash leaves, and which calls fail by plan.

use page_disk::{
    CallKind, DiskFault, Fail, FaultDisk, MemDisk, Page, PageDisk, SilentDisk, WriteKind,
    images_since, replace_page, write_and_flush, write_page,
};
use std::alloc::Global;
use std::process::Abort;
use std::test::Fail as TestFail;

/// A kind of write, a pick, and the first and the last byte of the page that a crash leaves.
type Picked = (WriteKind, u64, (u8, u8));

static PICKED: [Picked; 8] = [
    (WriteKind::Whole, 0, (0, 0)),
    (WriteKind::Whole, 1, (7, 7)),
    (WriteKind::Whole, 2, (0, 0)),
    (WriteKind::Whole, 3, (0, 0)),
    (WriteKind::Plain, 0, (0, 0)),
    (WriteKind::Plain, 1, (7, 7)),
    (WriteKind::Plain, 2, (7, 5)),
    (WriteKind::Plain, 3, (7, 4)),
];

/// What a page of a disk holds.
fn read<D: PageDisk>(rt: &impl Abort, disk: &mut D, at: u64) -> Result<Page, TestFail> {
    assert!(rt; at < disk.pages());
    let mut page = [1; 4096];
    disk.read(at, &mut page)?;
    Ok(page)
}

/// What a crash leaves of a page.
fn left(rt: &impl Abort, disk: &MemDisk, pick: u64, at: u64) -> Result<Page, TestFail> {
    let mut after = disk.crash(pick)?;
    read(rt, &mut after, at)
}

/// A disk of eight pages with sevens in page 3, which aren't flushed.
fn written(alloc: Global, kind: WriteKind) -> Result<MemDisk, TestFail> {
    let mut disk = MemDisk::new(alloc, 8, 1)?;
    disk.write(3, &[7; 4096], kind)?;
    Ok(disk)
}

fn expect_picked(rt: &impl Abort, alloc: Global, case: &Picked) -> Result<(), TestFail> {
    let (kind, pick, wanted) = *case;
    let page = left(rt, &written(alloc, kind)?, pick, 3)?;
    assert!(rt; (page[0], page[4095]) == wanted);
    Ok(())
}

#[test]
fn picks_show_the_old_page_the_new_one_and_a_torn_one(rt: HostRuntime) -> Result<(), TestFail> {
    for case in &PICKED {
        expect_picked(&rt, rt.alloc(), case)?;
    }
    Ok(())
}

/// Expects this byte in a page that a crash leaves, which shows the old one of each page that isn't flushed.
fn expect_lasting(rt: &impl Abort, disk: &MemDisk, at: u64, byte: u8) -> Result<(), TestFail> {
    assert!(rt; left(rt, disk, 0, at)?[9] == byte);
    Ok(())
}

/// Expects that the pages 3 and 4 last once they are flushed, and not before.
fn expect_lasting_pages(rt: &impl Abort, disk: &mut MemDisk) -> Result<(), TestFail> {
    assert!(rt; disk.pages() == 8);
    write_page(disk, 3, &[7; 4096])?;
    expect_lasting(rt, disk, 3, 0)?;
    write_and_flush(disk, 4, &[8; 4096])?;
    expect_lasting(rt, disk, 3, 7)?;
    expect_lasting(rt, disk, 4, 8)
}

#[test]
fn a_page_lasts_once_it_is_flushed(rt: HostRuntime) -> Result<(), TestFail> {
    images_since::<MemDisk>();
    let mut disk = MemDisk::new(rt.alloc(), 8, 100)?;
    expect_lasting_pages(&rt, &mut disk)
}

/// Replaces page 3 by sevens on a disk that stops behind so many calls, and gives the disk below.
fn stopped(rt: &impl Abort, alloc: Global, calls: u64) -> Result<MemDisk, TestFail> {
    let mut disk = FaultDisk::stopping(MemDisk::new(alloc, 8, 100)?, calls);
    assert!(rt; replace_page(&mut disk, 3, &[7; 4096]).is_ok() == (calls == 3));
    Ok(disk.into_inner())
}

/// What a crash leaves of page 3.
fn left_by_stop(rt: &impl Abort, alloc: Global, calls: u64, pick: u64) -> Result<Page, TestFail> {
    left(rt, &stopped(rt, alloc, calls)?, pick, 3)
}

#[test]
fn a_stop_and_a_crash_leave_the_old_page_or_the_new_one(rt: HostRuntime) -> Result<(), TestFail> {
    for calls in 0..4 {
        for pick in 0..4 {
            let page = left_by_stop(&rt, rt.alloc(), calls, pick)?;
            let is_new = calls == 3 || (calls == 2 && pick == 1);
            assert!(rt; page[9] == if is_new { 7 } else { 0 });
        }
    }
    Ok(())
}

/// The calls that fail.
const FAILS: [Fail; 2] = [
    Fail {
        kind: CallKind::Flush,
        nth: 2,
    },
    Fail {
        kind: CallKind::Read,
        nth: 1,
    },
];

/// A disk of eight pages of which these calls fail.
fn failing(alloc: Global) -> Result<FaultDisk<MemDisk>, TestFail> {
    let fails = Vec::from_slice(alloc, &FAILS)?;
    Ok(FaultDisk::new(MemDisk::new(alloc, 8, 100)?, fails))
}

/// Replaces page 3 and reads it, each twice, and expects that the first time fails.
fn expect_second_calls(rt: &impl Abort, disk: &mut FaultDisk<MemDisk>) {
    assert!(rt; disk.pages() == 8);
    assert!(rt; replace_page(disk, 3, &[7; 4096]) == Err(DiskFault));
    assert!(rt; replace_page(disk, 3, &[7; 4096]) == Ok(()));
    let mut page = [1; 4096];
    assert!(rt; disk.read(3, &mut page) == Err(DiskFault));
    assert!(rt; disk.read(3, &mut page) == Ok(()));
    assert!(rt; page[9] == 7);
}

/// Expects how many calls of each kind there were, and how many of those that write reached the disk below.
fn expect_counted(rt: &impl Abort, disk: &FaultDisk<MemDisk>) {
    assert!(rt; disk.pages() == 8 && disk.clock() == 5);
    assert!(rt; disk.calls(CallKind::Read) == 2);
    assert!(rt; disk.calls(CallKind::Write) == 2 && disk.calls(CallKind::Flush) == 4);
}

#[test]
fn the_listed_calls_fail(rt: HostRuntime) -> Result<(), TestFail> {
    let mut disk = failing(rt.alloc())?;
    expect_second_calls(&rt, &mut disk);
    expect_counted(&rt, &disk);
    Ok(())
}

#[test]
fn a_disk_that_tells_nothing_is_a_disk(rt: HostRuntime) -> Result<(), TestFail> {
    let mut disk = SilentDisk::new(rt.alloc(), 8)?;
    assert!(rt; replace_page(&mut disk, 3, &[7; 4096]) == Ok(()));
    let page = read(&rt, &mut disk, 3)?;
    assert!(rt; disk.pages() == 8 && disk.clock() == 3 && page[9] == 7);
    Ok(())
}
