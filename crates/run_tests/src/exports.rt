//! Volumes that are written out to a second device.

use crate::device_pages::page_at;
use crate::formats::expect_new_store;
use page_disk::{CallKind, Fail, FaultDisk, MemDisk, Page, PageDisk, WriteKind};
use std::alloc::Global;
use std::test::Fail as TestFail;
use test_runs::{Call, End, Ran, expect_end, expect_printed, perform_export, run};
use test_stores::store;

/// A parent with the word 7 in page 1, and its clone with the word 9 in page 5. A slot has four pages.
const SCRIPT: &[u8] =
    b"0 create v 2 thin\n0 write v 1 1 7\n0 readonly v\n0 clone v c\n0 write c 5 1 9\n";

/// The device of a new store behind that script.
fn family(alloc: Global) -> Result<MemDisk, TestFail> {
    let ran = run(alloc, SCRIPT, expect_new_store(alloc, store(alloc)?)?)?;
    Ok(ran.disk)
}

/// A page full of a word, which its lowest byte says.
fn full_of(word: u8) -> Page {
    let mut page = [0; 4096];
    for at in 0..512 {
        page[8 * at] = word;
    }
    page
}

/// A target of so many pages, each full of the word 3.
fn target_of(alloc: Global, pages: u64) -> Result<MemDisk, TestFail> {
    let mut target = MemDisk::new(alloc, pages, 64)?;
    for page in 0..pages {
        if page < target.pages() {
            target.write(page, &full_of(3), WriteKind::Plain)?;
        }
    }
    target.flush()?;
    Ok(target)
}

/// The words of a call, the pages of the target, how the call ends, and the word in each page of the target then.
type ExportCase = (&'static str, u64, End<'static>, &'static [u8]);

static CASES: [ExportCase; 8] = [
    (
        "export store.img t v",
        8,
        ("Good", b"exported 8\n"),
        &[0, 7, 0, 0, 0, 0, 0, 0],
    ),
    (
        "export store.img t c",
        10,
        ("Good", b"exported 8\n"),
        &[0, 7, 0, 0, 0, 9, 0, 0, 3, 3],
    ),
    (
        "export store.img t @1",
        9,
        ("Good", b"exported 8\n"),
        &[0, 7, 0, 0, 0, 9, 0, 0, 3],
    ),
    ("export store.img t w", 8, ("Good", b"no volume\n"), &[3; 8]),
    (
        "export store.img t @2",
        8,
        ("Good", b"no volume\n"),
        &[3; 8],
    ),
    (
        "export store.img t c",
        7,
        ("Good", b"out of range\n"),
        &[3; 7],
    ),
    ("export store.img t @", 8, ("Usage", b""), &[3; 8]),
    ("export store.img c", 8, ("Usage", b""), &[3; 8]),
];

/// Expects that each page of a target is full of its word, or fails.
fn expect_words(target: &mut MemDisk, words: &[u8]) -> Result<(), TestFail> {
    for (at, word) in words.iter().enumerate() {
        if page_at(target, at as u64)? != full_of(*word) {
            return Err(TestFail::new(format_args!("page {at} is another")));
        }
    }
    Ok(())
}

#[test]
fn a_target_begins_with_what_the_volume_shows(rt: HostRuntime) -> Result<(), TestFail> {
    for (line, pages, (status, printed), words) in &CASES {
        let (disk, target) = (family(rt.alloc())?, target_of(rt.alloc(), *pages)?);
        let clock = disk.clock();
        let call = Call::new(line, b"no script");
        let (ran, mut target) = perform_export(&rt, rt.alloc(), &call, disk, target)?;
        let found = format!(in rt.alloc(); "{:?}", ran.status)?;
        assert_eq!(rt; found.as_str(), *status);
        expect_printed(&ran.out, printed)?;
        assert_eq!(rt; ran.disk.clock(), clock);
        expect_words(&mut target, words)?;
    }
    Ok(())
}

#[test]
fn without_a_second_device_it_is_no_command(rt: HostRuntime) -> Result<(), TestFail> {
    let call = Call::new("export store.img t v", b"no script");
    expect_end(rt.alloc(), &call, ("Usage", b""), family(rt.alloc())?)?;
    Ok(())
}

/// A call of the target that fails, and the word in each of its pages then.
static FAILED_CALLS: [(CallKind, u64, &[u8]); 3] = [
    (CallKind::Write, 1, &[3; 8]),
    (CallKind::Write, 7, &[0, 7, 0, 0, 0, 9, 3, 3]),
    (CallKind::Flush, 1, &[0, 7, 0, 0, 0, 9, 0, 0]),
];

#[test]
fn a_target_that_fails_ends_the_export(rt: HostRuntime) -> Result<(), TestFail> {
    for (kind, nth, words) in &FAILED_CALLS {
        let fail = Fail {
            kind: *kind,
            nth: *nth,
        };
        let target = FaultDisk::new(target_of(rt.alloc(), 8)?, vec![in rt.alloc(); fail]?);
        let call = Call::new("export store.img t c", b"no script");
        let (ran, target) = perform_export(&rt, rt.alloc(), &call, family(rt.alloc())?, target)?;
        let Ran {
            status,
            out,
            disk: _,
        } = ran;
        let found = format!(in rt.alloc(); "{status:?}")?;
        assert_eq!(rt; found.as_str(), "Device { at: 0 }");
        expect_printed(&out, b"")?;
        expect_words(&mut target.into_inner(), words)?;
    }
    Ok(())
}
