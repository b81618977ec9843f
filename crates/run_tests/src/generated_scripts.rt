//! Generated scripts, as an administrator asks for them.

use page_disk::MemDisk;
use std::test::Fail;
use test_runs::{Call, End, expect_end};

const SCRIPT: &[u8] =
    b"0 create v0 8 thin\n1 create v1 8 thin\n2 create v2 8 thin\n3 create v3 8 thin\n\
    2 flush\n1 write v1 11 1 5627\n2 write v2 20 1 4086\n";

const VOLUMES: &[u8] =
    b"0 create v0 8 thin\n1 create v1 8 thin\n2 create v2 8 thin\n3 create v3 8 thin\n";

/// The words, which writes to the output fail, and how the call ends.
static CASES: [(&str, &[u64], End<'static>); 12] = [
    ("generate 1 3", &[], ("Good", SCRIPT)),
    ("generate 1 0", &[], ("Good", VOLUMES)),
    ("generate 2147483647 0", &[], ("Good", VOLUMES)),
    ("generate 1 3", &[2], ("OutWrite", b"0 create v0 8 thin\n")),
    ("generate 2147483648 3", &[], ("Usage", b"")),
    ("generate 1 65001", &[], ("Usage", b"")),
    ("generate 01 3", &[], ("Usage", b"")),
    ("generate 1 +3", &[], ("Usage", b"")),
    ("generate 1", &[], ("Usage", b"")),
    ("generate", &[], ("Usage", b"")),
    ("generate 1 3 3", &[], ("Usage", b"")),
    ("generates 1 3", &[], ("Usage", b"")),
];

#[test]
fn a_script_is_printed_for_its_number_and_size(rt: HostRuntime) -> Result<(), Fail> {
    for (line, failing_writes, end) in &CASES {
        let call = Call {
            line,
            script: b"no script",
            failing_reads: &[],
            failing_writes,
        };
        expect_end(rt.alloc(), &call, *end, MemDisk::new(rt.alloc(), 0, 0)?)?;
    }
    Ok(())
}
