//! Pages that are written, and power that fails at each call of the device.

use crate::settled::{Stand, Story, expect_story};
use page_disk::{FaultDisk, MemDisk};
use std::alloc::Global;
use std::test::Fail;
use test_lines::push_long;
use test_runs::{Ran, expect_printed, play, run};
use test_stores::{fill, image};

/// Writes over pages that are settled and over others, between a flush, a put and a sync.
///
/// Loading reads the super block, three masks, and a chain of one page. A write is one call, as a flush is; a
/// put and a sync flush, write the head, and flush. The put is the first job of the run: it begins with the mark of a
/// store in use, three calls. The unload that ends the run makes six: 25 + 6.
static IN_PLACE: Story = Story {
    script: b"0 write a 0 2 1\n0 flush\n0 write a 0 1 3\n0 write a 0 1 4\n0 write a 2 1 5\n0 put a k t:x\n\
        0 write a 2 1 6\n0 write a 3 1 7\n0 write a 3 1 8\n0 sync a\n0 write a 1 1 9\n0 write a 0 1 10\n",
    steps: &[
        (6, Some((0, 1))),
        (7, Some((1, 2))),
        (8, None),
        (9, Some((0, 3))),
        (10, Some((0, 4))),
        (11, Some((2, 5))),
        // 11 + 3 + 3.
        (17, None),
        (18, Some((2, 6))),
        (19, Some((3, 7))),
        (20, Some((3, 8))),
        (23, None),
        (24, Some((1, 9))),
        (25, Some((0, 10))),
    ],
    look: b"0 read a 0 4\n0 df\n",
    pages: 4,
    stands: &[Stand {
        calls: 0,
        free: "0 4 df clusters 13 of 16 pages 1 of 2",
        chains: &[(0, &[0])],
    }],
    loading: 5,
    calls: 31,
};

/// A store of so many metadata pages, where the clusters that are claimed first have other bytes than zeros, with a
/// volume `a`.
fn with_volume(alloc: Global, md_pages: u32, create: &[u8]) -> Result<MemDisk, Fail> {
    let mut disk = image(alloc, (64, md_pages), &[])?;
    fill(&mut disk, 12, 24)?;
    play(alloc, create, b"0 0 ok @0\n", disk)
}

#[test]
fn each_crash_leaves_the_settled_pages(rt: HostRuntime) -> Result<(), Fail> {
    let alloc = rt.alloc();
    let disk = with_volume(alloc, 2, b"0 create a 1 thick\n")?;
    expect_story(alloc, &IN_PLACE, 16, &disk)
}

/// Writes to two empty slots, the first of them flushed.
///
/// A write to an empty slot makes four writes of copies, a flush, and a flush, a write and a flush of the head; then it
/// writes its page. Between the first slot's copies and its head is the mark of the store, three calls.
static INTO_EMPTY: Story = Story {
    script: b"0 write a 1 1 7\n0 flush\n0 write a 4 1 8\n0 put a k t:x\n",
    steps: &[
        // 5 + 5 + 3 + 3 + 1.
        (17, Some((1, 7))),
        (18, None),
        // 18 + 5 + 3 + 1.
        (27, Some((4, 8))),
        // 27 + 3. Then the unload: 30 + 6.
        (30, None),
    ],
    look: b"0 read a 0 8\n0 df\n",
    pages: 8,
    stands: &[
        Stand {
            calls: 0,
            free: "0 8 df clusters 14 of 16 pages 1 of 2",
            chains: &[(0, &[0])],
        },
        Stand {
            calls: 16,
            free: "0 8 df clusters 13 of 16 pages 1 of 2",
            chains: &[(0, &[0])],
        },
        Stand {
            calls: 26,
            free: "0 8 df clusters 12 of 16 pages 1 of 2",
            chains: &[(0, &[0])],
        },
    ],
    loading: 5,
    calls: 36,
};

#[test]
fn each_crash_leaves_a_slot_empty_or_filled(rt: HostRuntime) -> Result<(), Fail> {
    let alloc = rt.alloc();
    let disk = with_volume(alloc, 2, b"0 create a 2 thin\n")?;
    expect_story(alloc, &INTO_EMPTY, 4, &disk)
}

/// A write to an empty slot of a volume with a chain of three pages, and one beside it.
///
/// Loading reads the super block, three masks, and a chain of three pages. Behind the four copies and their flush the
/// insert marks the store, writes two fresh pages, flushes, writes the head, and flushes: 7 + 5 + 3 + 2 + 3. Then it
/// overwrites two old pages, and flushes: 20 + 3. Two writes, a flush and the unload end the run: 23 + 3 + 6.
static ON_LONG_CHAIN: Story = Story {
    script: b"0 write a 1 1 7\n0 write a 2 1 8\n0 flush\n",
    steps: &[(24, Some((1, 7))), (25, Some((2, 8))), (26, None)],
    look: b"0 read a 0 4\n0 df\n",
    pages: 4,
    stands: &[
        Stand {
            calls: 0,
            free: "0 4 df clusters 13 of 16 pages 2 of 5",
            chains: &[(0, &[0, 1, 2])],
        },
        Stand {
            calls: 20,
            free: "0 4 df clusters 12 of 16 pages 2 of 5",
            chains: &[(0, &[0, 3, 4])],
        },
    ],
    loading: 7,
    calls: 32,
};

/// A store whose thin volume `a` of one slot has a chain of three pages.
fn long_chain(alloc: Global) -> Result<MemDisk, Fail> {
    let mut script = Vec::new(alloc);
    push_long(&mut script, b"0 put a k t:", (b'x', 4062))?;
    let disk = with_volume(alloc, 5, b"0 create a 1 thin\n")?;
    play(alloc, &script, b"0 0 ok\n", disk)
}

#[test]
fn each_crash_leaves_the_long_chain_of_a_slot(rt: HostRuntime) -> Result<(), Fail> {
    let alloc = rt.alloc();
    expect_story(alloc, &ON_LONG_CHAIN, 11, &long_chain(alloc)?)
}

/// A pick, and what a crash leaves by it of a page of sevens that was written over zeros and is open: the old page, the
/// new one, or the new one with these bits of its last byte turned.
static OPEN: [(u64, &[u8]); 4] = [
    (0, b"0 0 page fill 0000000000000000\n"),
    (1, b"0 0 page fill 0000000000000007\n"),
    (2, b"0 0 page crc 382ba452\n"),
    (3, b"0 0 page crc ca402751\n"),
];

/// The device after so many calls of a write of a page and a flush, and what is printed by then.
fn cut_write(alloc: Global, calls: u64, printed: &[u8]) -> Result<MemDisk, Fail> {
    let disk = with_volume(alloc, 2, b"0 create a 1 thick\n")?;
    let script = b"0 write a 3 1 7\n0 flush\n";
    let Ran {
        status: _,
        out,
        disk,
    } = run(alloc, script, FaultDisk::stopping(disk, calls))?;
    expect_printed(&out, printed)?;
    Ok(disk.into_inner())
}

/// What is read of the page once it is flushed.
const WRITTEN: &[u8] = b"0 0 page fill 0000000000000007\n";

/// Expects what is read of the page.
fn expect_read(alloc: Global, printed: &[u8], disk: MemDisk) -> Result<(), Fail> {
    play(alloc, b"0 read a 3 1\n", printed, disk)?;
    Ok(())
}

/// A page that is written is lost by some crashes, though its write was answered, and by none once it is flushed.
#[test]
fn an_open_page_may_be_lost(rt: HostRuntime) -> Result<(), Fail> {
    let alloc = rt.alloc();
    let open = cut_write(alloc, 6, b"0 0 ok\n0 1 fault\n")?;
    let settled = cut_write(alloc, 7, b"0 0 ok\n0 1 ok\n")?;
    for (pick, left) in &OPEN {
        expect_read(alloc, left, open.crash(*pick)?)?;
        expect_read(alloc, WRITTEN, settled.crash(*pick)?)?;
    }
    Ok(())
}
