//! The two writes that both claim, by the program's call.

use crate::both_claim::Meeting;
use crate::races::{ONE, WRITES};
use crate::runs::device;
use std::test::*;
use test_runs::{Call, Ran, Status, perform_gated, play};

/// What is read behind them.
const READS: &[u8] = b"0 read v 0 2\n0 df\n";

/// Both are answered, in one of both orders.
const ORDERS: [&[u8]; 2] = [b"0 0 ok\n1 0 ok\n", b"1 0 ok\n0 0 ok\n"];

const READ: &[u8] = b"0 0 page fill 000000000000000a\n0 1 page fill 000000000000000b\n\
    0 2 df clusters 10 of 16 pages 15 of 16\n";

#[test]
fn both_claim_in_a_run_of_the_program(rt: HostRuntime) -> Result<(), Fail> {
    let alloc = rt.alloc();
    let gate = Meeting::new();
    let call = Call::new("run store.img --threads", WRITES);
    let ran = perform_gated(&rt, alloc, &call, device(alloc, 64, ONE)?, &gate)?;
    let Ran { status, out, disk } = ran;
    assert!(rt; matches!(status, Status::Good));
    assert!(rt; gate.has_come_about());
    assert!(rt; ORDERS.contains(&out.bytes()));
    play(alloc, READS, READ, disk)?;
    Ok(())
}
