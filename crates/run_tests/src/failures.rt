//! What the program says and prints where there is no command, no script or no store, and where the source or the sink
//! fails.

use page_disk::MemDisk;
use std::test::Fail;
use test_runs::{Call, End, expect_end};
use test_stores::store;

const PUTS: &[u8] = b"0 put @0 owner t:1\n0 put @0 owner t:2\n0 put @0 owner t:3\n";

/// Calls over a store.
static CASES: [(Call<'static>, End<'static>); 5] = [
    (
        Call {
            line: "",
            script: PUTS,
            failing_reads: &[],
            failing_writes: &[],
        },
        ("Usage", b""),
    ),
    (
        Call {
            line: "run store.img",
            script: PUTS,
            failing_reads: &[2],
            failing_writes: &[],
        },
        ("ScriptRead", b""),
    ),
    (
        Call {
            line: "run store.img",
            script: PUTS,
            failing_reads: &[],
            failing_writes: &[2],
        },
        ("OutWrite", b"0 0 ok\n"),
    ),
    (
        Call {
            line: "run store.img",
            script: b"0 put @0 owner t:bob\n0\n",
            failing_reads: &[],
            failing_writes: &[],
        },
        ("Script { line: 2, kind: Form }", b""),
    ),
    (
        Call {
            line: "list store.img",
            script: b"no script",
            failing_reads: &[],
            failing_writes: &[1],
        },
        ("OutWrite", b""),
    ),
];

#[test]
fn each_cause_has_its_status(rt: HostRuntime) -> Result<(), Fail> {
    for (call, end) in &CASES {
        expect_end(rt.alloc(), call, *end, store(rt.alloc())?)?;
    }
    Ok(())
}

/// Calls over a device of so many pages of zeros. The source of the second one fails, since it isn't read.
static WITHOUT_STORE: [(Call<'static>, u64); 3] = [
    (
        Call {
            line: "run store.img",
            script: PUTS,
            failing_reads: &[],
            failing_writes: &[],
        },
        0,
    ),
    (
        Call {
            line: "exercise store.img 1 3",
            script: b"",
            failing_reads: &[1],
            failing_writes: &[],
        },
        64,
    ),
    (
        Call {
            line: "list store.img",
            script: b"no script",
            failing_reads: &[],
            failing_writes: &[],
        },
        64,
    ),
];

#[test]
fn nothing_is_done_without_a_store(rt: HostRuntime) -> Result<(), Fail> {
    for (call, pages) in &WITHOUT_STORE {
        let end = ("Image { fault: Super(BadSignature) }", b"".as_slice());
        expect_end(rt.alloc(), call, end, MemDisk::new(rt.alloc(), *pages, 0)?)?;
    }
    Ok(())
}
