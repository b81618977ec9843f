//! Whole runs over damaged images: how they end.

use crate::faults::{CASES, Case, TOO_LARGE, too_large};
use crate::images::device;
use page_disk::{MemDisk, PageDisk};
use std::alloc::Global;
use std::test::Fail;
use test_runs::{Call, expect_end};

/// A run that asks how much is clear.
pub(crate) static DF: Call<'static> = Call {
    line: "run store.img",
    script: b"0 df\n",
    failing_reads: &[],
    failing_writes: &[],
};

/// Expects that a run of a command on a device ends with this fault of its image, prints nothing, and neither writes
/// nor flushes.
fn expect_fault(alloc: Global, disk: MemDisk, fault: &str) -> Result<(), Fail> {
    let clock = disk.clock();
    let wanted = format!(in alloc; "Image {{ fault: {fault} }}")?;
    let disk = expect_end(alloc, &DF, (wanted.as_str(), b""), disk)?;
    if disk.clock() != clock {
        return Err(Fail::new(format_args!("the device changed at {fault}")));
    }
    Ok(())
}

fn expect_faults(alloc: Global, cases: &[Case]) -> Result<(), Fail> {
    for (image, fault, _text) in cases {
        expect_fault(alloc, device(alloc, image)?, fault)?;
    }
    Ok(())
}

#[test]
fn a_run_on_a_damaged_image_says_the_fault_and_writes_nothing(rt: HostRuntime) -> Result<(), Fail> {
    expect_faults(rt.alloc(), &CASES)
}

#[test]
fn a_run_on_maps_that_are_too_large_says_their_slots(rt: HostRuntime) -> Result<(), Fail> {
    let (fault, _text) = TOO_LARGE;
    expect_fault(rt.alloc(), too_large(rt.alloc())?, fault)
}
