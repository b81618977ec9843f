//! Writes that race to slots, and what is read behind them.

use crate::runs::{device, expect_lines, run_script};
use page_disk::MemDisk;
use std::alloc::Global;
use std::process::Abort;
use std::sync::Wait;
use std::test::*;
use std::thread::Threads;
use test_stores::{LAST, NAMED, PageRow, THIN};
use worker_threads::OpenGate;

/// A thin volume `v` with one empty slot.
pub const ONE: PageRow = (
    0,
    0,
    0,
    LAST,
    &[THIN, NAMED, b"\x01\x08\0\0\0\0\0\0\0\x01\0\0\0"],
);

/// One with four.
const FOUR: PageRow = (
    0,
    0,
    0,
    LAST,
    &[THIN, NAMED, b"\x01\x08\0\0\0\0\0\0\0\x04\0\0\0"],
);

/// Two channels write to one slot.
pub const WRITES: &[u8] = b"0 write v 0 1 10\n1 write v 1 1 11\n";

pub const WRITTEN: [&[u8]; 2] = [b"0 0 ok\n", b"1 0 ok\n"];

/// What is read behind them, and how much is clear then.
const READS: &[u8] = b"0 read v 0 2\n0 df\n";

const READ: [&[u8]; 3] = [
    b"0 0 page fill 000000000000000a\n",
    b"0 1 page fill 000000000000000b\n",
    b"0 2 df clusters 10 of 16 pages 15 of 16\n",
];

/// Sixteen channels write to four slots, a page each. The device has a cluster for each of them to claim.
const SIXTEEN_WRITES: &[u8] =
    b"0 write v 0 1 1\n1 write v 1 1 2\n2 write v 2 1 3\n3 write v 3 1 4\n\
    4 write v 4 1 5\n5 write v 5 1 6\n6 write v 6 1 7\n7 write v 7 1 8\n\
    8 write v 8 1 9\n9 write v 9 1 10\n10 write v 10 1 11\n11 write v 11 1 12\n\
    12 write v 12 1 13\n13 write v 13 1 14\n14 write v 14 1 15\n15 write v 15 1 16\n";

const SIXTEEN_WRITTEN: [&[u8]; 16] = [
    b"0 0 ok\n",
    b"1 0 ok\n",
    b"2 0 ok\n",
    b"3 0 ok\n",
    b"4 0 ok\n",
    b"5 0 ok\n",
    b"6 0 ok\n",
    b"7 0 ok\n",
    b"8 0 ok\n",
    b"9 0 ok\n",
    b"10 0 ok\n",
    b"11 0 ok\n",
    b"12 0 ok\n",
    b"13 0 ok\n",
    b"14 0 ok\n",
    b"15 0 ok\n",
];

const SIXTEEN_READS: &[u8] = b"0 read v 0 16\n0 df\n";

const SIXTEEN_READ: [&[u8]; 17] = [
    b"0 0 page fill 0000000000000001\n",
    b"0 1 page fill 0000000000000002\n",
    b"0 2 page fill 0000000000000003\n",
    b"0 3 page fill 0000000000000004\n",
    b"0 4 page fill 0000000000000005\n",
    b"0 5 page fill 0000000000000006\n",
    b"0 6 page fill 0000000000000007\n",
    b"0 7 page fill 0000000000000008\n",
    b"0 8 page fill 0000000000000009\n",
    b"0 9 page fill 000000000000000a\n",
    b"0 10 page fill 000000000000000b\n",
    b"0 11 page fill 000000000000000c\n",
    b"0 12 page fill 000000000000000d\n",
    b"0 13 page fill 000000000000000e\n",
    b"0 14 page fill 000000000000000f\n",
    b"0 15 page fill 0000000000000010\n",
    b"0 16 df clusters 23 of 32 pages 15 of 16\n",
];

/// Runs a script by threads, and fails unless its log has these lines.
fn expect_run<R: Threads + Wait + Abort + Sync>(
    rt: &R,
    alloc: Global,
    disk: MemDisk,
    text: &[u8],
    wanted: &[&[u8]],
) -> Result<MemDisk, Fail> {
    let left = run_script(rt, alloc, disk, text, &OpenGate)?;
    expect_lines(left.lines.as_slice(), wanted)?;
    if !left.handled.left().as_slice().is_empty() {
        return Err(Fail::new("a message is left in the queue"));
    }
    Ok(left.disk)
}

/// Fails unless both writes are read, and one cluster more is in use.
pub fn expect_reads<R: Threads + Wait + Abort + Sync>(
    rt: &R,
    alloc: Global,
    disk: MemDisk,
) -> Result<(), Fail> {
    expect_run(rt, alloc, disk, READS, &READ)?;
    Ok(())
}

#[test]
fn two_writes_race_to_a_slot(rt: HostRuntime) -> Result<(), Fail> {
    let alloc = rt.alloc();
    for _ in 0..50_u32 {
        let disk = expect_run(&rt, alloc, device(alloc, 64, ONE)?, WRITES, &WRITTEN)?;
        expect_reads(&rt, alloc, disk)?;
    }
    Ok(())
}

#[test]
fn sixteen_writes_race_to_four_slots(rt: HostRuntime) -> Result<(), Fail> {
    let alloc = rt.alloc();
    for _ in 0..8_u32 {
        let disk = expect_run(
            &rt,
            alloc,
            device(alloc, 128, FOUR)?,
            SIXTEEN_WRITES,
            &SIXTEEN_WRITTEN,
        )?;
        expect_run(&rt, alloc, disk, SIXTEEN_READS, &SIXTEEN_READ)?;
    }
    Ok(())
}
