//! A snapshot that is made while another channel writes, and power that fails at each call of the device.

use page_disk::{FaultDisk, MemDisk};
use std::alloc::Global;
use std::test::Fail;
use test_lines::push_long;
use test_runs::{Call, Ran, Status, perform, play, run};
use test_stores::{ChainRow, expect_chains, image};

/// One channel makes a snapshot, another one writes a page again and again, with the words 1 to 6 in turn.
const SCRIPT: &[u8] =
    b"0 snapshot v s\n1 write w 0 1 1\n1 write w 0 1 2\n1 write w 0 1 3\n1 write w 0 1 4\n\
    1 write w 0 1 5\n1 write w 0 1 6\n";

/// What a later run looks at, beside the page that was written meanwhile.
const LOOK: &[u8] = b"0 list\n0 read v 0 2\n0 read s 0 2\n0 write s 0 1 1\n0 df\n";

/// What a later run finds, and the chains, without the snapshot or with it.
struct Found {
    printed: &'static [u8],
    chains: &'static [ChainRow<'static>],
}

/// A volume `v` whose chain has so many pages: the attribute that makes it so long, and what is found.
struct StopCase {
    letters: usize,
    without: Found,
    with: Found,
}

/// The store has eight metadata pages, so that clusters 0 to 2 are fixed; `v` and `w` have a cluster each. An attribute
/// of 4,000 letters stands in a second page, with the runs; one of 4,062 fills that, and the runs stand in a third.
static ONE_PAGE: StopCase = StopCase {
    letters: 0,
    without: Found {
        printed: b"0 0 list 2\nvolume @0 v slots 1 parent - thin rw xattrs 3\n\
            volume @1 w slots 1 parent - thick rw xattrs 2\n0 1 page fill 0000000000000007\n\
            0 2 page fill 0000000000000008\n0 3 no volume\n0 4 no volume\n0 5 no volume\n\
            0 6 df clusters 11 of 16 pages 6 of 8\n",
        chains: &[(0, &[0]), (1, &[1])],
    },
    with: Found {
        printed: b"0 0 list 3\nvolume @0 v slots 1 parent @2 thin rw xattrs 3\n\
            volume @1 w slots 1 parent - thick rw xattrs 2\nvolume @2 s slots 1 parent - thin ro xattrs 2\n\
            0 1 page fill 0000000000000007\n0 2 page fill 0000000000000008\n0 3 page fill 0000000000000007\n\
            0 4 page fill 0000000000000008\n0 5 read only\n0 6 df clusters 11 of 16 pages 5 of 8\n",
        chains: &[(0, &[0]), (1, &[1]), (2, &[2])],
    },
};

static TWO_PAGES: StopCase = StopCase {
    letters: 4000,
    without: Found {
        printed: b"0 0 list 2\nvolume @0 v slots 1 parent - thin rw xattrs 3\n\
            volume @1 w slots 1 parent - thick rw xattrs 2\n0 1 page fill 0000000000000007\n\
            0 2 page fill 0000000000000008\n0 3 no volume\n0 4 no volume\n0 5 no volume\n\
            0 6 df clusters 11 of 16 pages 5 of 8\n",
        chains: &[(0, &[0, 2]), (1, &[1])],
    },
    with: Found {
        printed: b"0 0 list 3\nvolume @0 v slots 1 parent @3 thin rw xattrs 3\n\
            volume @1 w slots 1 parent - thick rw xattrs 2\nvolume @3 s slots 1 parent - thin ro xattrs 2\n\
            0 1 page fill 0000000000000007\n0 2 page fill 0000000000000008\n0 3 page fill 0000000000000007\n\
            0 4 page fill 0000000000000008\n0 5 read only\n0 6 df clusters 11 of 16 pages 4 of 8\n",
        chains: &[(0, &[0, 4]), (1, &[1]), (3, &[3])],
    },
};

static THREE_PAGES: StopCase = StopCase {
    letters: 4062,
    without: Found {
        printed: b"0 0 list 2\nvolume @0 v slots 1 parent - thin rw xattrs 3\n\
            volume @1 w slots 1 parent - thick rw xattrs 2\n0 1 page fill 0000000000000007\n\
            0 2 page fill 0000000000000008\n0 3 no volume\n0 4 no volume\n0 5 no volume\n\
            0 6 df clusters 11 of 16 pages 4 of 8\n",
        chains: &[(0, &[0, 2, 3]), (1, &[1])],
    },
    with: Found {
        printed: b"0 0 list 3\nvolume @0 v slots 1 parent @4 thin rw xattrs 3\n\
            volume @1 w slots 1 parent - thick rw xattrs 2\nvolume @4 s slots 1 parent - thin ro xattrs 2\n\
            0 1 page fill 0000000000000007\n0 2 page fill 0000000000000008\n0 3 page fill 0000000000000007\n\
            0 4 page fill 0000000000000008\n0 5 read only\n0 6 df clusters 11 of 16 pages 3 of 8\n",
        chains: &[(0, &[0, 5, 6]), (1, &[1]), (4, &[4])],
    },
};

/// The store with both volumes, of which `v` has an attribute of so many letters.
fn with_volumes(alloc: Global, letters: usize) -> Result<MemDisk, Fail> {
    let begin = b"0 create v 1 thin\n0 create w 1 thick\n0 write v 0 2 7\n";
    let mut script = Vec::from_slice(alloc, begin)?;
    push_long(&mut script, b"0 put v k t:", (b'x', letters))?;
    let printed = b"0 0 ok @0\n0 1 ok @1\n0 2 ok\n0 3 ok\n0 4 ok\n";
    Ok(play(alloc, &script, printed, image(alloc, (64, 8), &[])?)?.crash(0)?)
}

/// What comes of so many calls of the script, where the second channel comes in turn.
fn cut_script(alloc: Global, calls: u64, disk: MemDisk) -> Result<Ran<FaultDisk<MemDisk>>, Fail> {
    let call = Call::new("run store.img --schedule 0+1+m*200", SCRIPT);
    perform(alloc, &call, FaultDisk::stopping(disk, calls))
}

/// Whether a printed log has a line.
fn has_line(printed: &[u8], wanted: &[u8]) -> bool {
    printed
        .split(|byte| *byte == b'\n')
        .any(|line| line.starts_with(wanted))
}

/// How many of the writes are answered.
fn written(alloc: Global, printed: &[u8]) -> Result<u64, Fail> {
    let mut count = 0u64;
    for index in 0..6 {
        if has_line(printed, format!(in alloc; "1 {index} ok")?.as_bytes()) {
            count = count.wrapping_add(1);
        }
    }
    Ok(count)
}

/// Expects that a page holds zeros, or what was written to it by one of so many writes and the next one, or is torn,
/// where it may be.
fn expect_page(alloc: Global, disk: MemDisk, writes: u64, may_be_torn: bool) -> Result<(), Fail> {
    let ran = run(alloc, b"0 read w 0 1\n", disk)?;
    let mut fits = may_be_torn && ran.out.bytes().starts_with(b"0 0 page crc ");
    for word in 0..writes.wrapping_add(2) {
        let line = format!(in alloc; "0 0 page fill {word:016x}\n")?;
        fits = fits || ran.out.bytes() == line.as_bytes();
    }
    if fits {
        Ok(())
    } else {
        Err(Fail::new(format_args!("{writes} writes leave {:?}", ran.out.bytes())))
    }
}

/// Expects that a crash left this, that no blob is marked once a run has loaded it, and what was written meanwhile.
fn expect_left(
    alloc: Global,
    found: &Found,
    writes: u64,
    pick: u64,
    disk: MemDisk,
) -> Result<(), Fail> {
    let left = play(alloc, LOOK, found.printed, disk)?;
    expect_chains(alloc, left.crash(0)?, found.chains)?;
    expect_page(alloc, left, writes, pick & 0xAAAA != 0)
}

/// Expects that what each crash leaves is without the snapshot or with it. Where the next call is the flush behind a
/// commit's head, the crash decides that leaves the last write.
fn expect_found(
    alloc: Global,
    case: &StopCase,
    disk: &MemDisk,
    printed: &[u8],
    is_last: bool,
) -> Result<(), Fail> {
    let writes = written(alloc, printed)?;
    let is_made = has_line(printed, MADE);
    for pick in 0..16 {
        let found = if is_made || (is_last && pick % 4 == 1) {
            &case.with
        } else {
            &case.without
        };
        expect_left(alloc, found, writes, pick, disk.crash(pick)?)?;
    }
    Ok(())
}

/// What begins the line of a snapshot that is made.
const MADE: &[u8] = b"0 0 ok @";

/// Whether the snapshot is made with so many calls.
fn is_made(alloc: Global, calls: u64, disk: MemDisk) -> Result<bool, Fail> {
    Ok(has_line(cut_script(alloc, calls, disk)?.out.bytes(), MADE))
}

/// Expects it after so many calls, and says whether the run ended well.
fn expect_stop(alloc: Global, case: &StopCase, calls: u64, disk: &MemDisk) -> Result<bool, Fail> {
    let is_last = is_made(alloc, calls.saturating_add(1), disk.crash(0)?)?;
    let Ran { status, out, disk } = cut_script(alloc, calls, disk.crash(0)?)?;
    expect_found(alloc, case, &disk.into_inner(), out.bytes(), is_last)?;
    Ok(matches!(status, Status::Good))
}

/// Expects it after each number of calls.
fn expect_stops(alloc: Global, case: &StopCase) -> Result<(), Fail> {
    let disk = with_volumes(alloc, case.letters)?;
    for calls in 0..100 {
        if expect_stop(alloc, case, calls, &disk)? {
            return Ok(());
        }
    }
    Err(Fail::new("the run makes more calls"))
}

#[test]
fn each_crash_beside_writes_leaves_a_snapshot_whole_or_not_at_all(
    rt: HostRuntime,
) -> Result<(), Fail> {
    expect_stops(rt.alloc(), &ONE_PAGE)
}

#[test]
fn each_crash_leaves_a_snapshot_of_a_chain_of_two_pages(rt: HostRuntime) -> Result<(), Fail> {
    expect_stops(rt.alloc(), &TWO_PAGES)
}

#[test]
fn each_crash_leaves_a_snapshot_of_a_chain_of_three_pages(rt: HostRuntime) -> Result<(), Fail> {
    expect_stops(rt.alloc(), &THREE_PAGES)
}
