//! A put on a volume with a chain of three pages, cut off at each call of the device.

use page_disk::{FaultDisk, MemDisk};
use std::alloc::Global;
use std::test::Fail;
use test_lines::{push_long, push_told};
use test_runs::{Ran, Status, expect_printed, play, run};
use test_stores::{expect_written, volume};

/// The line of a put of 4062 times a letter.
fn long_put(alloc: Global, letter: u8) -> Result<Vec<u8>, Fail> {
    let mut script = Vec::new(alloc);
    push_long(&mut script, b"0 put @0 k t:", (letter, 4062))?;
    Ok(script)
}

/// What comes of so many calls of a put of the letter y, on a store whose chain of three pages leaves two pages clear.
fn cut_put(alloc: Global, calls: u64) -> Result<Ran<FaultDisk<MemDisk>>, Fail> {
    let script = long_put(alloc, b'y')?;
    run(
        alloc,
        &script,
        FaultDisk::stopping(volume(alloc, 5)?, calls),
    )
}

/// The script of a look, a put of the letter z, and a look.
fn look_put_look(alloc: Global) -> Result<Vec<u8>, Fail> {
    let mut script = Vec::from_slice(alloc, b"0 getx @0 k\n")?;
    push_long(&mut script, b"0 put @0 k t:", (b'z', 4062))?;
    script.extend_from_slice(b"0 getx @0 k\n")?;
    Ok(script)
}

/// What that script prints where the first look finds this letter 4062 times.
fn told(alloc: Global, letter: u8) -> Result<Vec<u8>, Fail> {
    let mut told = Vec::new(alloc);
    push_told(alloc, &mut told, 0, Some((letter, 4062)))?;
    told.extend_from_slice(b"0 1 ok\n")?;
    push_told(alloc, &mut told, 2, Some((b'z', 4062)))?;
    Ok(told)
}

/// The disk after so many calls of the put. It is answered from the flush of its head on, and the run ends well with
/// all its calls alone.
fn stopped(alloc: Global, calls: u64) -> Result<MemDisk, Fail> {
    let Ran { status, out, disk } = cut_put(alloc, calls)?;
    if matches!(status, Status::Good) != (calls == 27) {
        return Err(Fail::new(format_args!("{calls} calls ended with {status:?}")));
    }
    let answer: &[u8] = if calls < 18 {
        b"0 0 fault\n"
    } else {
        b"0 0 ok\n"
    };
    expect_printed(&out, answer)?;
    Ok(disk.into_inner())
}

/// Expects that what a crash left has the new value or the old one, and the next put the pages that this one leaves.
fn expect_left(alloc: Global, disk: MemDisk, is_new: bool) -> Result<(), Fail> {
    let (letter, chain): (u8, &[u32]) = if is_new {
        (b'y', &[0, 1, 2])
    } else {
        (b'x', &[0, 3, 4])
    };
    let mut disk = play(alloc, &look_put_look(alloc)?, &told(alloc, letter)?, disk)?;
    expect_written(&mut disk, 5, chain)
}

/// Expects it of each crash after so many calls.
fn expect_crashes(alloc: Global, calls: u64, disk: &MemDisk) -> Result<(), Fail> {
    for pick in 0..11 {
        let is_new = calls >= 18 || (calls == 17 && pick % 4 == 1);
        expect_left(alloc, disk.crash(pick)?, is_new)?;
    }
    Ok(())
}

/// Loading reads the super block, a page that is no mask, five metadata pages and a chain of three pages. The put
/// begins with the three calls that mark the store as in use. It makes two writes of fresh pages, a flush, the head's
/// write and a flush: 10 + 3 + 2 + 3. Then it makes two writes of old pages and a flush, and the run ends with the six
/// calls of the unload: 18 + 3 + 6. Whenever it is cut off, two pages are clear for the next put, and once that is done
/// the others hold zeros.
#[test]
fn a_put_cut_off_leaves_its_pages_clear(rt: HostRuntime) -> Result<(), Fail> {
    for calls in 10..28 {
        expect_crashes(rt.alloc(), calls, &stopped(rt.alloc(), calls)?)?;
    }
    Ok(())
}
