//! A thick volume whose map takes two metadata pages is made, and power fails.

use crate::points::{Cut, Point, expect_cut_after};
use page_disk::MemDisk;
use std::alloc::Global;
use std::test::Fail;
use test_runs::{Call, Ran, expect_printed, perform, play};

/// A volume of 500 slots is made where no two clear clusters are neighbours: its map has a run of 8 bytes for each
/// slot, beside a flags item, a name and a UUID, and a metadata page takes 4072 bytes.
static LONG_MAP: Cut = Cut {
    script: b"0 create v 500 thick\n",
    look: b"0 read a 0 1\n0 read a 509 1\n0 read v 0 1\n0 read v 499 1\n0 df\n",
    points: POINTS,
    calls: 519,
};

/// Loading reads the super block, three masks, and a chain of two pages. The create marks the store as in use,
/// in three calls, zeroes 500 pages, one a slot, writes a fresh page, flushes, writes the head, and flushes:
/// 6 + 3 + 500 + 1 + 3. The unload makes six calls: 513 + 6.
const POINTS: &[Point] = &[
    Point {
        calls: 0,
        printed: b"",
        found: b"0 0 page fill 0000000000000001\n0 1 page fill 00000000000001fe\n0 2 no volume\n0 3 no volume\n\
            0 4 df clusters 510 of 1032 pages 6 of 8\n",
        chains: &[(0, &[0, 1])],
    },
    Point {
        calls: 513,
        printed: b"0 0 ok @2\n",
        found: b"0 0 page fill 0000000000000001\n0 1 page fill 00000000000001fe\n\
            0 2 page fill 0000000000000000\n0 3 page fill 0000000000000000\n\
            0 4 df clusters 10 of 1032 pages 4 of 8\n",
        chains: &[(0, &[0, 1]), (2, &[2, 3])],
    },
];

/// An empty store with clusters of one page: with eight metadata pages clusters 0 to 11 are fixed. It has room for the
/// calls of the device that fill 1020 slots, fewer than ten each.
fn empty_store(alloc: Global) -> Result<MemDisk, Fail> {
    let call = Call::new("format store.img --cluster 4096 --md-pages 8", b"");
    let Ran {
        status: _,
        out,
        disk,
    } = perform(alloc, &call, MemDisk::new(alloc, 1032, 10_200)?)?;
    expect_printed(&out, b"clusters 1032 free 1020 pages 8 free 8\n")?;
    Ok(disk)
}

/// The slots that the volume `a` keeps, of twice as many.
const KEPT: u64 = 510;

/// A script that fills the slots 0, 510, 1, 511 and so on, each with the next cluster and its page p with the word
/// p + 1, and then cuts those from 510 on.
fn halving(alloc: Global) -> Result<Vec<u8>, Fail> {
    let mut script = Vec::from_slice(alloc, b"0 create a 1020 thin\n")?;
    for page in 0..KEPT {
        let (word, cut, cut_word) = (page + 1, page + KEPT, page + KEPT + 1);
        let writes = format!(in alloc;
            "0 write a {page} 1 {word}\n0 write a {cut} 1 {cut_word}\n"
        )?;
        script.extend_from_slice(writes.as_bytes())?;
    }
    script.extend_from_slice(b"0 resize a 510\n")?;
    Ok(script)
}

/// What is printed of it: the commands 1 to 1021 are answered alike.
fn halved(alloc: Global) -> Result<Vec<u8>, Fail> {
    let mut printed = Vec::from_slice(alloc, b"0 0 ok @0\n")?;
    for index in 1..2 * KEPT + 2 {
        printed.extend_from_slice(format!(in alloc; "0 {index} ok\n")?.as_bytes())?;
    }
    Ok(printed)
}

/// A store in which `a` has every second cluster, and the others are clear and have other bytes than zeros.
fn half_full(alloc: Global) -> Result<MemDisk, Fail> {
    let disk = empty_store(alloc)?;
    let disk = play(alloc, &halving(alloc)?, &halved(alloc)?, disk)?;
    Ok(disk.crash(0)?)
}

/// Expects that a look finds pages that are filled with these words.
fn expect_words(alloc: Global, look: &[u8], words: &[u64], disk: MemDisk) -> Result<MemDisk, Fail> {
    let mut lines = Vec::new(alloc);
    for (index, word) in words.iter().enumerate() {
        lines.extend_from_slice(format!(in alloc;
            "0 {index} page fill {word:016x}\n"
        )?.as_bytes())?;
    }
    play(alloc, look, &lines, disk)
}

/// The words of the pages that `a` keeps.
fn kept(alloc: Global) -> Result<Vec<u64>, Fail> {
    let mut kept = Vec::new(alloc);
    for page in 0..KEPT {
        kept.push(page + 1)?;
    }
    Ok(kept)
}

/// Expects that all pages of `v` are zeros, and those of `a` as they were.
fn expect_made(alloc: Global, disk: MemDisk) -> Result<(), Fail> {
    let kept = kept(alloc)?;
    let look = b"0 read v 0 256\n0 read v 256 244\n";
    let disk = expect_words(alloc, look, &[0; 500], disk)?;
    expect_words(alloc, b"0 read a 0 256\n0 read a 256 254\n", &kept, disk)?;
    Ok(())
}

/// The create is cut off after each call of the device: the volume is there whole or not at all.
#[test]
fn each_crash_leaves_the_long_map_whole_or_not_at_all(rt: HostRuntime) -> Result<(), Fail> {
    let alloc = rt.alloc();
    let disk = half_full(alloc)?;
    for calls in 0..LONG_MAP.calls.saturating_add(1) {
        expect_cut_after(alloc, &LONG_MAP, calls, 4, &disk)?;
    }
    let made = play(alloc, LONG_MAP.script, b"0 0 ok @2\n", disk)?;
    expect_made(alloc, made.crash(0)?)
}
