//! Generated scripts that are run, as an administrator asks for them.

use crate::formats::expect_new_store;
use crc32c::sum;
use page_disk::{FaultDisk, MemDisk};
use std::alloc::Global;
use std::test::Fail;
use streams::ListSink;
use test_runs::{Call, expect_end, perform, run};

/// A new store of 16 clusters, with room for the changes of a test.
fn new_store(alloc: Global) -> Result<MemDisk, Fail> {
    expect_new_store(alloc, MemDisk::new(alloc, 64, 512)?)
}

/// A call of which these writes to the output fail. The source fails, since it isn't read.
fn exercise<'a>(line: &'a str, failing_writes: &'a [u64]) -> Call<'a> {
    Call {
        line,
        script: b"",
        failing_reads: &[1],
        failing_writes,
    }
}

/// Where a call prints a script.
fn generated(alloc: Global, line: &str) -> Result<ListSink, Fail> {
    let none = MemDisk::new(alloc, 0, 0)?;
    Ok(perform(alloc, &Call::new(line, b""), none)?.out)
}

/// The checksum of what a `run` prints of the script that this call prints.
fn sum_of_run(alloc: Global, generate: &str) -> Result<u32, Fail> {
    let script = generated(alloc, generate)?;
    let ran = run(alloc, script.bytes(), new_store(alloc)?)?;
    Ok(sum(ran.out.bytes()))
}

/// The line of such a script that is run, with these counts.
fn line_of(alloc: Global, generate: &str, counts: &str) -> Result<String, Fail> {
    let sum = sum_of_run(alloc, generate)?;
    Ok(format!(in alloc; "{counts} crc {sum:08x}\n")?)
}

/// The call that prints a script, the one that runs it, and the line that this prints up to the checksum, which is that
/// of what a `run` of the script prints. The last script writes to more slots than there are clusters: seven of its
/// writes find none.
static CASES: [(&str, &str, &str); 3] = [
    (
        "generate 1 3",
        "exercise store.img 1 3",
        "entries 7 ok 7 other 0",
    ),
    (
        "generate 1 0",
        "exercise store.img 1 0",
        "entries 4 ok 4 other 0",
    ),
    (
        "generate 2147483647 40",
        "exercise store.img 2147483647 40",
        "entries 44 ok 37 other 7",
    ),
];

#[test]
fn the_line_sums_up_the_log_of_a_run(rt: HostRuntime) -> Result<(), Fail> {
    for (generate, line, counts) in &CASES {
        let printed = line_of(rt.alloc(), generate, counts)?;
        let end = ("Good", printed.as_bytes());
        expect_end(
            rt.alloc(),
            &exercise(line, &[]),
            end,
            new_store(rt.alloc())?,
        )?;
    }
    Ok(())
}

/// The words, which writes to the output fail, and the status, where nothing is printed.
static STATUSES: [(&str, &[u64], &str); 7] = [
    ("exercise store.img 1 3", &[1], "OutWrite"),
    ("exercise store.img 1", &[], "Usage"),
    ("exercise store.img 1 3 3", &[], "Usage"),
    ("exercise store.img 01 3", &[], "Usage"),
    ("exercise store.img 2147483648 3", &[], "Usage"),
    ("exercise store.img 1 65001", &[], "Usage"),
    ("exercise store.img 1 3 --schedule 0", &[], "Usage"),
];

#[test]
fn its_words_and_its_line_have_their_statuses(rt: HostRuntime) -> Result<(), Fail> {
    let alloc = rt.alloc();
    for (line, failing_writes, status) in &STATUSES {
        let call = exercise(line, failing_writes);
        expect_end(alloc, &call, (status, b""), new_store(alloc)?)?;
    }
    Ok(())
}

#[test]
fn a_device_that_fails_has_its_status(rt: HostRuntime) -> Result<(), Fail> {
    let call = exercise("exercise store.img 1 3", &[]);
    let disk = FaultDisk::stopping(new_store(rt.alloc())?, 0);
    expect_end(rt.alloc(), &call, ("Device { at: 0 }", b""), disk)?;
    Ok(())
}
