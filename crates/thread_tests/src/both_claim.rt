//! Two writes to one slot, both of which have claimed a cluster for it before either inserts its own.

use crate::races::{ONE, WRITES, WRITTEN, expect_reads};
use crate::runs::{device, expect_lines, run_script};
use std::sync::atomic::{AtomicBool, AtomicU64, Ordering};
use std::test::*;
use std::thread;
use worker_threads::Gate;

/// How often a worker looks whether the other has claimed, at most.
const LOOKS: u32 = 1_000_000;

/// A worker of channel 0 or 1 that has claimed makes no step until the other has claimed too.
#[derive(Drop)]
pub struct Meeting {
    claimed: [AtomicBool; 2],
    missed: AtomicU64,
}

impl Meeting {
    /// One at which nobody has claimed yet.
    pub fn new() -> Meeting {
        Meeting {
            claimed: [AtomicBool::new(false), AtomicBool::new(false)],
            missed: AtomicU64::new(0),
        }
    }

    /// Whether both have claimed, and each has seen the other's claim.
    pub fn has_come_about(&self) -> bool {
        self.claimed[0].load(Ordering::SeqCst)
            && self.claimed[1].load(Ordering::SeqCst)
            && self.missed.load(Ordering::SeqCst) == 0
    }
}

impl Gate for Meeting {
    fn ask(&self, channel: u8, claimed: bool) -> bool {
        if !claimed || channel > 1 {
            return true;
        }
        let own = usize::from(channel);
        self.claimed[own].store(true, Ordering::SeqCst);
        for _ in 0..LOOKS {
            if self.claimed[1 - own].load(Ordering::SeqCst) {
                return true;
            }
            thread::yield_now();
        }
        self.missed.fetch_add(1, Ordering::SeqCst);
        true
    }
}

#[test]
fn both_claim_before_either_inserts(rt: HostRuntime) -> Result<(), Fail> {
    let alloc = rt.alloc();
    let gate = Meeting::new();
    let left = run_script(&rt, alloc, device(alloc, 64, ONE)?, WRITES, &gate)?;
    assert!(rt; gate.has_come_about());
    expect_lines(left.lines.as_slice(), &WRITTEN)?;
    // Each has sent its insert through the queue, and each was taken.
    assert!(rt; left.handled.taken_count() == 2);
    assert!(rt; left.handled.left().as_slice().is_empty());
    expect_reads(&rt, alloc, left.disk)
}
