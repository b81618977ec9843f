//! New stores, as an administrator makes them.

use crate::device_pages::{BytesRow, expect_bytes};
use page_disk::{CallKind, Fail, FaultDisk, MemDisk, PageDisk};
use std::alloc::Global;
use std::test::Fail as TestFail;
use test_runs::{Call, End, Ran, Status, expect_end, perform, play};
use test_stores::store;

/// The device after a `format IMAGE` with these options that ends so; fails where it ends otherwise.
fn expect_format<D: PageDisk + Drop + Send>(
    alloc: Global,
    options: &str,
    end: End<'_>,
    disk: D,
) -> Result<D, TestFail> {
    let line = format!(in alloc; "format store.img {options}")?;
    expect_end(alloc, &Call::new(line.as_str(), b"no script"), end, disk)
}

/// How 64 pages are formatted with clusters of 4 pages.
const FORMATTED: End<'static> = ("Good", b"clusters 16 free 11 pages 16 free 16\n");

/// A device of 64 pages with a new store of clusters of 4 pages.
pub(crate) fn expect_new_store(alloc: Global, disk: MemDisk) -> Result<MemDisk, TestFail> {
    expect_format(alloc, "--cluster 16384", FORMATTED, disk)
}

/// So many pages, options, and how the format ends.
type Case = (u64, &'static str, End<'static>);

static CASES: [Case; 28] = [
    (
        64,
        "--cluster 16384",
        ("Good", b"clusters 16 free 11 pages 16 free 16\n"),
    ),
    (
        20,
        "--cluster 16384 --md-pages 16",
        ("Good", b"clusters 5 free 0 pages 16 free 16\n"),
    ),
    (
        20,
        "--md-pages 16 --cluster 16384",
        ("Good", b"clusters 5 free 0 pages 16 free 16\n"),
    ),
    (1024, "", ("Good", b"clusters 4 free 3 pages 4 free 4\n")),
    (
        512,
        "--md-pages 300",
        ("Good", b"clusters 2 free 0 pages 300 free 300\n"),
    ),
    (
        19,
        "--cluster 16384 --md-pages 16",
        (
            "Image { fault: Super(DeviceTooSmall { has: 19, wants: 20 }) }",
            b"",
        ),
    ),
    (
        0,
        "",
        (
            "Image { fault: Super(DeviceTooSmall { has: 0, wants: 256 }) }",
            b"",
        ),
    ),
    (
        64,
        "--cluster 17592186040320",
        (
            "Image { fault: Super(BadClusterSize { found: 4294967295 }) }",
            b"",
        ),
    ),
    (64, "--cluster 17592186044416", ("Usage", b"")),
    (
        64,
        "--md-pages 4294967295",
        (
            "Image { fault: Super(TooManyPages { found: 4294967295 }) }",
            b"",
        ),
    ),
    (64, "--md-pages 4294967296", ("Usage", b"")),
    (64, "--cluster 4097", ("Usage", b"")),
    (64, "--cluster 0", ("Usage", b"")),
    (64, "--md-pages 0", ("Usage", b"")),
    (64, "--cluster 016384", ("Usage", b"")),
    (64, "--md-pages +16", ("Usage", b"")),
    (64, "--cluster 16384 --cluster 16384", ("Usage", b"")),
    (64, "--md-pages 16 --md-pages 16", ("Usage", b"")),
    (64, "--cluster", ("Usage", b"")),
    (64, "--clusters 16384", ("Usage", b"")),
    (64, "--cluster 16384 --md-pages", ("Usage", b"")),
    (64, "--cluster 16384 --md-pages 16 16", ("Usage", b"")),
    (
        64,
        "--cluster 16384 --lvol store0 --uuid 5f2b4e66-0d0c-4c1e-9a55-3f0a7c2d9b10",
        ("Good", b"clusters 16 free 11 pages 16 free 15\n"),
    ),
    (
        4096,
        "--uuid 5f2b4e660d0c4c1e9a553f0a7c2d9b10 --lvol store0",
        ("Good", b"clusters 4 free 3 pages 4 free 3\n"),
    ),
    (4096, "--lvol store0", ("Usage", b"")),
    (
        4096,
        "--uuid 5f2b4e66-0d0c-4c1e-9a55-3f0a7c2d9b10",
        ("Usage", b""),
    ),
    (
        4096,
        "--lvol @store --uuid 5f2b4e66-0d0c-4c1e-9a55-3f0a7c2d9b10",
        ("Usage", b""),
    ),
    (4096, "--lvol store0 --uuid 5f2b4e66", ("Usage", b"")),
];

#[test]
fn options_decide_the_layout(rt: HostRuntime) -> Result<(), TestFail> {
    for (pages, options, end) in &CASES {
        let disk = MemDisk::new(rt.alloc(), *pages, 512)?;
        expect_format(rt.alloc(), options, *end, disk)?;
    }
    Ok(())
}

/// The device of a new store that is written over one that has a blob.
fn new_store(alloc: Global) -> Result<MemDisk, TestFail> {
    expect_new_store(alloc, store(alloc)?)
}

/// The super block's beginning and its checksum, and the masks of pages, of clusters and of blobs.
static WRITTEN: [BytesRow; 5] = [
    (0, 0, b"SPDKBLOB\x03\0\0\0"),
    (0, 4092, &[0x66, 0x9C, 0xE5, 0x3B]),
    (1, 0, &[0, 16, 0, 0, 0, 0, 0, 0]),
    (2, 0, &[1, 16, 0, 0, 0, 0x1F, 0, 0]),
    (3, 0, &[2, 16, 0, 0, 0, 0, 0, 0]),
];

#[test]
fn a_new_store_has_its_super_block_and_masks(rt: HostRuntime) -> Result<(), TestFail> {
    expect_bytes(&mut new_store(rt.alloc())?, &WRITTEN)
}

/// The flush at the end of a run is the one call.
#[test]
fn a_new_store_is_loaded_without_a_write(rt: HostRuntime) -> Result<(), TestFail> {
    let disk = new_store(rt.alloc())?;
    let written = disk.clock();
    let disk = play(rt.alloc(), b"", b"", disk)?;
    assert_eq!(rt; Some(disk.clock()), written.checked_add(1));
    Ok(())
}

#[test]
fn a_new_store_is_empty(rt: HostRuntime) -> Result<(), TestFail> {
    let disk = play(rt.alloc(), b"", b"", new_store(rt.alloc())?)?;
    play(
        rt.alloc(),
        b"0 put @0 owner t:bob\n",
        b"0 0 no volume\n",
        disk,
    )?;
    Ok(())
}

/// How a format ends of which a call of the device fails.
const FAILED: End<'static> = ("Device { at: 0 }", b"");

/// A call of the device that fails, and how the format ends. There are 19 writes of metadata pages and masks, a flush,
/// the write of the super block, and a flush.
static FAILED_CALLS: [(CallKind, u64, End<'static>); 8] = [
    (CallKind::Write, 1, FAILED),
    (CallKind::Write, 19, FAILED),
    (CallKind::Flush, 1, FAILED),
    (CallKind::Write, 20, FAILED),
    (CallKind::Flush, 2, FAILED),
    (CallKind::Write, 21, FORMATTED),
    (CallKind::Flush, 3, FORMATTED),
    (CallKind::Read, 1, FORMATTED),
];

/// The device of a store of which this call fails.
pub(crate) fn failing(
    alloc: Global,
    kind: CallKind,
    nth: u64,
) -> Result<FaultDisk<MemDisk>, TestFail> {
    let fail = Fail { kind, nth };
    Ok(FaultDisk::new(store(alloc)?, vec![in alloc; fail]?))
}

#[test]
fn a_failed_call_has_its_status(rt: HostRuntime) -> Result<(), TestFail> {
    for (kind, nth, end) in &FAILED_CALLS {
        let disk = failing(rt.alloc(), *kind, *nth)?;
        expect_format(rt.alloc(), "--cluster 16384", *end, disk)?;
    }
    Ok(())
}

/// The call that makes a store, whose line is not printed.
static UNPRINTED: Call<'static> = Call {
    line: "format store.img --cluster 16384",
    script: b"no script",
    failing_reads: &[],
    failing_writes: &[1],
};

#[test]
fn a_store_whose_line_is_not_printed_is_there(rt: HostRuntime) -> Result<(), TestFail> {
    let disk = expect_end(
        rt.alloc(),
        &UNPRINTED,
        ("OutWrite", b""),
        store(rt.alloc())?,
    )?;
    play(rt.alloc(), b"", b"", disk)?;
    Ok(())
}

/// Expects that an image has a fault that is told so, or fails.
fn expect_told(alloc: Global, status: &Status, wanted: &str) -> Result<(), TestFail> {
    let Status::Image { fault } = status else {
        return Err(TestFail::new("no fault of the image"));
    };
    let told = format!(in alloc; "{fault}")?;
    if told.as_str() != wanted {
        return Err(TestFail::new(told));
    }
    Ok(())
}

#[test]
fn a_store_without_place_says_why(rt: HostRuntime) -> Result<(), TestFail> {
    let call = Call::new("format store.img --cluster 16384 --md-pages 16", b"");
    let Ran {
        status,
        out: _,
        disk,
    } = perform(rt.alloc(), &call, MemDisk::new(rt.alloc(), 19, 64)?)?;
    assert_eq!(rt; disk.clock(), 0);
    let wanted = "super block: the device has 19 pages, wanted at least 20";
    expect_told(rt.alloc(), &status, wanted)
}
