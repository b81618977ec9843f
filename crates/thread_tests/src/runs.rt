//! Runs of a store by threads.

ghost use Rattle.std.specs.Prelude.{◌≡◌};

use blob_report::render_entry;
use channels::RunEnd;
use md_queue::Handled;
use page_disk::MemDisk;
use script_lang::parse;
use std::alloc::Global;
use std::process::Abort;
use std::sync::Wait;
use std::test::Fail;
use std::thread::Threads;
use store_core::{Loaded, MdRight, Parts, Plant};
use store_model::{state_stops, state_turns};
use test_stores::{PageRow, image};
use unclean_load::{load, stores_are_accepted};
use worker_threads::{Gate, run_threads};

/// What a run leaves: its device, the lines that its log is printed as, and what became of its messages.
#[derive(Drop)]
pub struct Left {
    pub disk: MemDisk,
    pub lines: Vec<Vec<u8>>,
    pub handled: Handled,
}

/// A device of so many pages with this volume: of its clusters of four pages five are fixed.
pub fn device(alloc: Global, pages: u64, volume: PageRow) -> Result<MemDisk, Fail> {
    image(alloc, (pages, 16), &[volume])
}

/// Lets go of what was loaded.
fn let_go(loaded: Loaded<MemDisk>) {
    let Loaded {
        disk: _,
        sup: _,
        metas: _,
        removed: _,
        marked: _,
        chains: _,
        repairs: _,
        masks: _,
        quick: _,
    } = loaded;
}

/// Ends a store in which no job runs: its device, and the lines that its log is printed as.
fn end(
    rt: &impl Abort,
    alloc: Global,
    plant: Plant<MemDisk>,
    right: MdRight,
) -> Result<(MemDisk, Vec<Vec<u8>>), Fail>
    requires { right ≡ plant.right }
{
    if plant.job_runs() {
        panic!(rt; "a job runs still");
    }
    let Parts {
        disk,
        sup: _,
        masks: _,
        entries,
    } = plant.into_parts(right);
    let mut lines = Vec::new(alloc);
    for entry in entries.as_slice() {
        let mut line = Vec::new(alloc);
        render_entry(entry, &mut line)?;
        lines.push(line)?;
    }
    Ok((disk, lines))
}

/// Loads a device, and runs a script on it by threads. The run ends with nothing stopped.
pub fn run_script<G: Gate + Sync, R: Threads + Wait + Abort + Sync>(
    rt: &R,
    alloc: Global,
    disk: MemDisk,
    text: &[u8],
    gate: &G,
) -> Result<Left, Fail> {
    state_stops();
    state_turns();
    stores_are_accepted();
    let Ok(script) = parse(alloc, text) else {
        return Err(Fail::new("the script is outside the grammar"));
    };
    let loaded = match load(alloc, disk) {
        Ok(loaded) => loaded,
        Err((_, fault)) => return Err(Fail::new(fault)),
    };
    let (plant, right) = match Plant::start(alloc, loaded, script) {
        Ok(started) => started,
        Err(loaded) => {
            let_go(loaded);
            return Err(Fail::new("no memory"));
        }
    };
    if !plant.is_unmarked() {
        panic!(rt; "something is left to repair");
    }
    let (plant, right, ended, handled) = run_threads(rt, alloc, plant, right, gate);
    let (disk, lines) = end(rt, alloc, plant, right)?;
    let RunEnd::Ended = ended else {
        return Err(Fail::new("the run didn't end"));
    };
    let Some(handled) = handled else {
        return Err(Fail::new("no queue was closed"));
    };
    Ok(Left {
        disk,
        lines,
        handled,
    })
}

/// Fails unless these are the lines, in whatever order. No line is wanted twice.
pub fn expect_lines(lines: &[Vec<u8>], wanted: &[&[u8]]) -> Result<(), Fail> {
    if lines.len() != wanted.len() {
        return Err(Fail::new(format_args!("{} lines", lines.len())));
    }
    for line in wanted {
        if !has_line(lines, line) {
            return Err(Fail::new(format_args!("not printed: {line:?}")));
        }
    }
    Ok(())
}

/// Whether this is one of the lines.
fn has_line(lines: &[Vec<u8>], wanted: &[u8]) -> bool {
    for line in lines {
        if line.as_slice() == wanted {
            return true;
        }
    }
    false
}
