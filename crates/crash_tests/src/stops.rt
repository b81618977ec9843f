//! Power that fails at any call of a script that makes and removes a family, and again while what it left is repaired:
//! what is left shows the volumes, their pages and their attributes behind a first part of the script.

use crate::family_steps::{LOOK, STEPS, tells_step};
use page_disk::{CallKind, Fail as Failing, FaultDisk, MemDisk, PageDisk};
use std::alloc::Global;
use std::test::Fail;
use test_runs::{Call, Ran, Status, perform, run};
use test_stores::{are_same, image};

/// What is found on a device: what `list` says of the volumes, and what a look reads of them.
#[derive(Drop)]
struct Found {
    volumes: Vec<u8>,
    contents: Vec<u8>,
}

/// An image that was looked at, and what was found on it, also whenever its repair was stopped.
#[derive(Drop)]
struct Known {
    image: MemDisk,
    found: Found,
}

/// A new store of 16 clusters.
fn new_store(alloc: Global) -> Result<MemDisk, Fail> {
    image(alloc, (64, 16), &[])
}

/// What `list` says of the volumes of a device, behind its line on the store.
fn volumes_on(alloc: Global, disk: MemDisk) -> Result<Vec<u8>, Fail> {
    let Ran { status, out, .. } = perform(alloc, &Call::new("list store.img", b""), disk)?;
    if !matches!(status, Status::Good) {
        return Err(Fail::new(format_args!("the list ended with {status:?}")));
    }
    let mut lines = Vec::new(alloc);
    let mut is_behind = false;
    for byte in out.bytes() {
        if is_behind {
            lines.push(*byte)?;
        }
        is_behind = is_behind || *byte == b'\n';
    }
    Ok(lines)
}

impl Found {
    fn on(alloc: Global, disk: &MemDisk) -> Result<Found, Fail> {
        let volumes = volumes_on(alloc, disk.crash(0)?)?;
        let Ran { status, out, .. } = run(alloc, LOOK, disk.crash(0)?)?;
        if !matches!(status, Status::Good) {
            return Err(Fail::new(format_args!("the look ended with {status:?}")));
        }
        let contents = Vec::from_slice(alloc, out.bytes())?;
        Ok(Found { volumes, contents })
    }

    fn is_as(&self, other: &Found) -> bool {
        self.volumes.as_slice() == other.volumes.as_slice()
            && self.contents.as_slice() == other.contents.as_slice()
    }
}

/// How many lines of a log tell that a read failed: such a command is not done.
fn count_read_faults(printed: &[u8]) -> Result<u32, Fail> {
    let Ok(text) = str::from_utf8(printed) else {
        return Err(Fail::new("no text is printed"));
    };
    let mut count = 0_u32;
    for line in text.lines() {
        if line.ends_with(" read fault") {
            count = count.saturating_add(1);
        }
    }
    Ok(count)
}

/// How many commands are done where a run on a device stops, or None where it doesn't, and what it leaves.
fn stopped(
    alloc: Global,
    script: &[u8],
    disk: FaultDisk<MemDisk>,
) -> Result<(Option<u32>, MemDisk), Fail> {
    let Ran { status, out, disk } = run(alloc, script, disk)?;
    match status {
        Status::Good => Ok((None, disk.into_inner())),
        Status::Device { at } => {
            let refused = count_read_faults(out.bytes())?;
            Ok((Some(at.saturating_sub(refused)), disk.into_inner()))
        }
        _ => Err(Fail::new(format_args!("the run ended with {status:?}"))),
    }
}

/// The script whole, and the volumes before it and behind each of its commands.
fn script_and_volumes(alloc: Global) -> Result<(Vec<u8>, Vec<Vec<u8>>), Fail> {
    let mut script = Vec::new(alloc);
    let mut volumes = Vec::new(alloc);
    for (step, (line, _)) in STEPS.iter().enumerate() {
        script.extend_from_slice(line)?;
        let Ran { status, disk, .. } = run(alloc, &script, new_store(alloc)?)?;
        let found = Found::on(alloc, &disk)?;
        if !matches!(status, Status::Good) || !tells_step(alloc, step, &found.contents)? {
            return Err(Fail::new(format_args!("others behind command {step}")));
        }
        volumes.push(found.volumes)?;
    }
    Ok((script, volumes))
}

/// Expects that this is found on the device, whenever power fails in a run without a command. Where nothing was
/// written by then there is no need to look.
fn expect_repaired(alloc: Global, disk: &MemDisk, wanted: &Found) -> Result<(), Fail> {
    for calls in 0..100 {
        let repaired = disk.crash(0)?;
        let before = repaired.clock();
        let (at, left) = stopped(alloc, b"", FaultDisk::stopping(repaired, calls))?;
        let is_written = left.clock() > before;
        if is_written && !Found::on(alloc, &left.crash(1)?)?.is_as(wanted) {
            return Err(Fail::new(format_args!("others behind {calls} calls of a repair")));
        }
        if at.is_none() {
            return Ok(());
        }
    }
    Err(Fail::new("the repair makes more calls"))
}

/// The place of an image among those that are known, which are the last four that were looked at.
fn place_of(alloc: Global, mut image: MemDisk, known: &mut Vec<Known>) -> Result<usize, Fail> {
    for (place, other) in known.iter_mut().enumerate() {
        if are_same(&mut image, &mut other.image, 64)? {
            return Ok(place);
        }
    }
    let found = Found::on(alloc, &image)?;
    expect_repaired(alloc, &image, &found)?;
    if known.len() >= 4 {
        known.remove(0);
    }
    let place = known.len();
    known.push(Known { image, found })?;
    Ok(place)
}

/// Whether this is what is found behind so many commands.
fn is_behind(
    alloc: Global,
    found: &Found,
    volumes: &[Vec<u8>],
    commands: u32,
) -> Result<bool, Fail> {
    let commands = commands as usize;
    match volumes.get(commands) {
        Some(wanted) if wanted.as_slice() == found.volumes.as_slice() => {
            tells_step(alloc, commands, &found.contents)
        }
        _ => Ok(false),
    }
}

/// Expects that on each image that power may leave of a device is found what is behind so many commands, or behind one
/// more, and the same whenever its repair is stopped.
fn expect_images(
    alloc: Global,
    disk: &MemDisk,
    volumes: &[Vec<u8>],
    at: u32,
    known: &mut Vec<Known>,
) -> Result<(), Fail> {
    for pick in 0..3 {
        let place = place_of(alloc, disk.crash(pick)?, known)?;
        let Some(Known { found, .. }) = known.get(place) else {
            return Err(Fail::new("the image isn't known"));
        };
        if !is_behind(alloc, found, volumes, at)?
            && !is_behind(alloc, found, volumes, at.saturating_add(1))?
        {
            let Found { volumes, contents } = found;
            return Err(Fail::new(format_args!("pick {pick} at {at}: {volumes:?} {contents:?}")));
        }
    }
    Ok(())
}

#[test]
fn each_stop_leaves_the_family_behind_a_first_part(rt: HostRuntime) -> Result<(), Fail> {
    let alloc = rt.alloc();
    let (script, volumes) = script_and_volumes(alloc)?;
    let mut known = Vec::new(alloc);
    for calls in 0..600 {
        let stopping = FaultDisk::stopping(new_store(alloc)?, calls);
        let (Some(at), disk) = stopped(alloc, &script, stopping)? else {
            return Ok(());
        };
        expect_images(alloc, &disk, &volumes, at, &mut known)?;
    }
    Err(Fail::new("the script makes more calls"))
}

/// Expects that wherever a call of this kind fails, a first part of the script is done.
fn expect_all_failures(alloc: Global, kind: CallKind) -> Result<(), Fail> {
    let (script, volumes) = script_and_volumes(alloc)?;
    let mut known = Vec::new(alloc);
    for nth in 1..300 {
        let failing = FaultDisk::new(new_store(alloc)?, vec![in alloc; Failing { kind, nth }]?);
        let (Some(at), disk) = stopped(alloc, &script, failing)? else {
            return Ok(());
        };
        expect_images(alloc, &disk, &volumes, at, &mut known)?;
    }
    Err(Fail::new("the script makes more calls"))
}

#[test]
fn each_failed_write_leaves_the_family_behind_a_first_part(rt: HostRuntime) -> Result<(), Fail> {
    expect_all_failures(rt.alloc(), CallKind::Write)
}

#[test]
fn each_failed_flush_leaves_the_family_behind_a_first_part(rt: HostRuntime) -> Result<(), Fail> {
    expect_all_failures(rt.alloc(), CallKind::Flush)
}
