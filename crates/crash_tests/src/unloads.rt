//! Power that fails in the mark of a store in use, with which the first job of a run begins, and in the unload at the
//! run's end.

use page_disk::{FaultDisk, MemDisk};
use std::alloc::Global;
use std::test::Fail;
use test_runs::{Call, Ran, Status, expect_printed, perform, play, run};
use test_stores::volume;

/// What `list` prints of a store: its line, but for the number that says whether it is clean, and those of its volumes.
type Listed = (&'static str, &'static str);

/// A script of one job, how many calls of the device are made before the mark and before the unload, and what is listed
/// behind the run.
struct Session {
    script: &'static [u8],
    mark: u64,
    unload: u64,
    after: Listed,
}

/// What is listed before each run: the volume `v`, with a chain of three pages and three clusters.
const VOLUME: Listed = (
    "store type - cluster 16384 clusters 16 free 8 pages 16 free 13",
    "@0 v 11223344-5566-4788-99aa-bbccddeeff00 slots 7 own 3 parent - thin rw\n",
);

/// Loading reads the super block, a page that is no mask, 16 metadata pages, and a chain of three pages: 21. The mark
/// is a flush, the write of the super block, and a flush. The unload writes three pages of masks, flushes, writes the
/// super block, and flushes.
static SESSIONS: [Session; 4] = [
    // Eight pages of zeros, and a flush, the head's write and a flush: 24 + 8 + 3.
    Session {
        script: b"0 create w 2 thick 5f2b4e66-0d0c-4c1e-9a55-3f0a7c2d9b10\n",
        mark: 21,
        unload: 35,
        after: (
            "store type - cluster 16384 clusters 16 free 6 pages 16 free 12",
            "@0 v 11223344-5566-4788-99aa-bbccddeeff00 slots 7 own 3 parent - thin rw\n\
            @3 w 5f2b4e66-0d0c-4c1e-9a55-3f0a7c2d9b10 slots 2 own 2 parent - thick rw\n",
        ),
    },
    // Four pages of zeros and a flush come before the job. It writes two fresh pages, flushes, writes the head and
    // flushes, and overwrites two old pages and flushes: 29 + 5 + 3. Then the page is written.
    Session {
        script: b"0 write v 0 1 7\n",
        mark: 26,
        unload: 38,
        after: (
            "store type - cluster 16384 clusters 16 free 7 pages 16 free 13",
            "@0 v 11223344-5566-4788-99aa-bbccddeeff00 slots 7 own 4 parent - thin rw\n",
        ),
    },
    // The snapshot is written twice, the volume with two fresh pages and two old ones, and the snapshot once more:
    // 24 + 6 + 8 + 3.
    Session {
        script: b"0 snapshot v c\n",
        mark: 21,
        unload: 41,
        after: (
            "store type - cluster 16384 clusters 16 free 8 pages 16 free 12",
            "@0 v 11223344-5566-4788-99aa-bbccddeeff00 slots 7 own 0 parent @3 thin rw\n\
            @3 c 0f443162-a7b1-54c6-977f-cca1b1a128bb slots 7 own 3 parent - thin ro\n",
        ),
    },
    // The head is overwritten between two flushes, and then two pages, and a flush: 24 + 3 + 3.
    Session {
        script: b"0 delete v\n",
        mark: 21,
        unload: 30,
        after: (
            "store type - cluster 16384 clusters 16 free 11 pages 16 free 16",
            "",
        ),
    },
];

/// The disk that a run of a session leaves after so many calls, which ends well with all its calls alone.
fn stopped(alloc: Global, session: &Session, calls: u64) -> Result<MemDisk, Fail> {
    let disk = FaultDisk::stopping(volume(alloc, 16)?, calls);
    let Ran {
        status,
        out: _,
        disk,
    } = run(alloc, session.script, disk)?;
    if matches!(status, Status::Good) != (calls >= session.unload.saturating_add(6)) {
        return Err(Fail::new(format_args!("{calls} calls ended with {status:?}")));
    }
    Ok(disk.into_inner())
}

/// Expects what is listed of a store.
fn expect_listed(alloc: Global, disk: MemDisk, listed: Listed, is_clean: bool) -> Result<(), Fail> {
    let (store, volumes) = listed;
    let clean = if is_clean { "clean 1" } else { "clean 0" };
    let ran = perform(alloc, &Call::new("list store.img", b""), disk)?;
    let printed = format!(in alloc; "{store} {clean}\n{volumes}")?;
    expect_printed(&ran.out, printed.as_bytes())
}

/// Expects that what each crash leaves, where so many more calls make it last whether the store is clean, is listed so.
fn expect_crashes(
    alloc: Global,
    disk: &MemDisk,
    behind: u64,
    listed: Listed,
    gets_clean: bool,
) -> Result<(), Fail> {
    for pick in 0..16 {
        let is_written = behind == 0 || (behind == 1 && pick % 4 == 1);
        expect_listed(alloc, disk.crash(pick)?, listed, is_written == gets_clean)?;
    }
    Ok(())
}

/// Expects that what each crash leaves, from so many calls on up to so many, is listed so. With the last of these calls
/// the super block lasts that says whether the store is clean. Behind the call before it that one is left where a crash
/// leaves the last write, as pick 1 says, and each fourth one behind it. A later run of no command leaves the same, and
/// the store clean.
fn expect_stops(
    alloc: Global,
    session: &Session,
    calls: (u64, u64),
    listed: Listed,
    gets_clean: bool,
) -> Result<(), Fail> {
    let (from, lasting) = calls;
    for calls in from..lasting.saturating_add(1) {
        let disk = stopped(alloc, session, calls)?;
        let behind = lasting.saturating_sub(calls);
        expect_crashes(alloc, &disk, behind, listed, gets_clean)?;
        let later = play(alloc, b"", b"", disk.crash(15)?)?;
        expect_listed(alloc, later, listed, true)?;
    }
    Ok(())
}

#[test]
fn each_crash_in_the_mark_leaves_the_volumes_as_they_were(rt: HostRuntime) -> Result<(), Fail> {
    for session in &SESSIONS {
        let calls = (session.mark, session.mark.saturating_add(3));
        expect_stops(rt.alloc(), session, calls, VOLUME, false)?;
    }
    Ok(())
}

#[test]
fn each_crash_in_the_unload_leaves_what_the_run_made(rt: HostRuntime) -> Result<(), Fail> {
    for session in &SESSIONS {
        let calls = (session.unload, session.unload.saturating_add(6));
        expect_stops(rt.alloc(), session, calls, session.after, true)?;
    }
    Ok(())
}
