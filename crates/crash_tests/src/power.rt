//! Puts that make a chain longer and shorter, and power that fails at each call of the device.

use page_disk::{FaultDisk, MemDisk};
use std::alloc::Global;
use std::test::Fail;
use test_lines::{Letters, push_long, push_told};
use test_runs::{Ran, Status, play, run};
use test_stores::{LAST, THICK, expect_chains, expect_written, image};

/// What stands once some of the puts are done: how many calls of the device were made until the head of the last one
/// was flushed, the chain, and the values of `k` and `j`.
struct Point {
    calls: u64,
    chain: &'static [u32],
    k: Option<Letters>,
    j: Option<Letters>,
}

/// The metadata pages of the store, just enough.
const MD_PAGES: u32 = 4;

/// The puts, by how their lines begin and their values.
static PUTS: [(&[u8], Letters); 5] = [
    (b"0 put @0 k t:", (b'1', 1)),
    (b"0 put @0 k t:", (b'x', 4062)),
    (b"0 put @0 j t:", (b'y', 4062)),
    (b"0 put @0 k t:", (b'2', 1)),
    (b"0 put @0 j t:", (b'3', 1)),
];

/// Before the puts, and after each. Loading reads seven pages. A put writes each fresh page, flushes, writes the head,
/// and flushes. Then it overwrites each old page behind the head, and flushes, if there was one. The first put begins
/// with the mark of a store in use, three calls.
static POINTS: [Point; 6] = [
    Point {
        calls: 0,
        chain: &[0],
        k: None,
        j: None,
    },
    // Nothing fresh: 7 + 3 + 3.
    Point {
        calls: 13,
        chain: &[0],
        k: Some((b'1', 1)),
        j: None,
    },
    // One fresh page: 13 + 1 + 3.
    Point {
        calls: 17,
        chain: &[0, 1],
        k: Some((b'x', 4062)),
        j: None,
    },
    // Two fresh pages: 17 + 2 + 3. Then one old page: 22 + 2.
    Point {
        calls: 22,
        chain: &[0, 2, 3],
        k: Some((b'x', 4062)),
        j: Some((b'y', 4062)),
    },
    // One fresh page: 24 + 1 + 3. Then two old pages: 28 + 3.
    Point {
        calls: 28,
        chain: &[0, 1],
        k: Some((b'2', 1)),
        j: Some((b'y', 4062)),
    },
    // Nothing fresh: 31 + 3. Then one old page: 34 + 2.
    Point {
        calls: 34,
        chain: &[0],
        k: Some((b'2', 1)),
        j: Some((b'3', 1)),
    },
];

/// The calls of the whole run. Behind the puts the unload writes the three masks, flushes, writes the super block, and
/// flushes: 36 + 6.
const ALL_CALLS: u64 = 42;

/// A store of just enough metadata pages, with a blob at place 0.
fn one_blob(alloc: Global) -> Result<MemDisk, Fail> {
    image(alloc, (64, MD_PAGES), &[(0, 0, 0, LAST, &[THICK])])
}

/// The last of the points that are reached with so many calls.
fn point_at(calls: u64) -> &'static Point {
    let mut last = &POINTS[0];
    for point in &POINTS {
        if point.calls <= calls {
            last = point;
        }
    }
    last
}

/// The script of the puts.
fn script(alloc: Global) -> Result<Vec<u8>, Fail> {
    let mut script = Vec::new(alloc);
    for (begin, value) in &PUTS {
        push_long(&mut script, begin, *value)?;
    }
    Ok(script)
}

/// The lines of the puts that are answered in so many calls of the device.
fn answered(alloc: Global, calls: u64) -> Result<Vec<u8>, Fail> {
    let mut lines = Vec::new(alloc);
    for (index, point) in POINTS.iter().skip(1).enumerate() {
        if point.calls <= calls {
            lines.extend_from_slice(format!(in alloc; "0 {index} ok\n")?.as_bytes())?;
        }
    }
    Ok(lines)
}

/// What comes of so many calls of the puts.
fn cut_puts(alloc: Global, calls: u64) -> Result<Ran<FaultDisk<MemDisk>>, Fail> {
    let script = script(alloc)?;
    run(alloc, &script, FaultDisk::stopping(one_blob(alloc)?, calls))
}

/// How many lines of a printed text end in `ok`.
fn count_of_ok(printed: &[u8]) -> usize {
    printed.iter().filter(|b| **b == b'k').count()
}

/// Whether a printed text begins so, and answers as many puts with `ok`.
fn is_answered(text: &[u8], printed: &[u8]) -> bool {
    text.starts_with(printed) && count_of_ok(text) == count_of_ok(printed)
}

/// The disk after so many calls of the device, with as many puts done as are answered so. The run ends well with all
/// its calls alone.
fn stopped(alloc: Global, calls: u64) -> Result<MemDisk, Fail> {
    let Ran { status, out, disk } = cut_puts(alloc, calls)?;
    if matches!(status, Status::Good) != (calls >= ALL_CALLS) {
        return Err(Fail::new(format_args!("{calls} calls ended with {status:?}")));
    }
    if !is_answered(out.bytes(), &answered(alloc, calls)?) {
        return Err(Fail::new(format_args!("other puts are answered in {calls} calls")));
    }
    Ok(disk.into_inner())
}

/// What is printed of the two values of a point.
fn told(alloc: Global, point: &Point) -> Result<Vec<u8>, Fail> {
    let mut lines = Vec::new(alloc);
    push_told(alloc, &mut lines, 0, point.k)?;
    push_told(alloc, &mut lines, 1, point.j)?;
    Ok(lines)
}

/// Expects that what is loaded has the values and the chain of a point.
fn expect_point(alloc: Global, disk: MemDisk, point: &Point) -> Result<(), Fail> {
    let look = b"0 getx @0 k\n0 getx @0 j\n";
    let disk = play(alloc, look, &told(alloc, point)?, disk)?;
    expect_chains(alloc, disk, &[(0, point.chain)])
}

/// Expects it of each crash after so many calls. A put whose head is written and not flushed may be there or not: it is
/// where a crash leaves the last write, as pick 1 says.
fn expect_crashes(alloc: Global, calls: u64, disk: &MemDisk) -> Result<(), Fail> {
    for pick in 0..4 {
        let reached = calls.saturating_add(u64::from(pick == 1));
        expect_point(alloc, disk.crash(pick)?, point_at(reached))?;
    }
    Ok(())
}

#[test]
fn each_crash_leaves_the_puts_that_were_done(rt: HostRuntime) -> Result<(), Fail> {
    for calls in 0..ALL_CALLS + 1 {
        expect_crashes(rt.alloc(), calls, &stopped(rt.alloc(), calls)?)?;
    }
    Ok(())
}

#[test]
fn the_puts_leave_the_head_alone(rt: HostRuntime) -> Result<(), Fail> {
    let mut disk = stopped(rt.alloc(), ALL_CALLS)?;
    expect_written(&mut disk, MD_PAGES, &[0])
}
