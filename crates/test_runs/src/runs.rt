//! Calls of the program, as an administrator makes them.

use blob_tool::{Gate, OpenGate, Status, blobtool, blobtool_gated, blobtool_two};
use page_disk::PageDisk;
use std::alloc::Global;
use std::sync::Wait;
use std::test::Fail;
use std::thread::Threads;
use streams::{ListSink, ListSource};

/// What the program is called with: its words in a line, the script, and which reads of the script and which writes to
/// the output fail, by their numbers from 1.
#[derive(Clone, Copy, Debug)]
pub struct Call<'a> {
    /// The words, with spaces between them.
    pub line: &'a str,
    /// What the source gives.
    pub script: &'a [u8],
    /// The reads that fail.
    pub failing_reads: &'a [u64],
    /// The writes that fail.
    pub failing_writes: &'a [u64],
}

impl<'a> Call<'a> {
    /// A call where no read and no write fails.
    pub fn new(line: &'a str, script: &'a [u8]) -> Call<'a> {
        Call {
            line,
            script,
            failing_reads: &[],
            failing_writes: &[],
        }
    }
}

/// What comes of a call: how it ended, where it printed, and the device.
#[derive(Drop)]
pub struct Ran<D> {
    /// How the call ended.
    pub status: Status,
    /// Where it printed.
    pub out: ListSink,
    /// The device that it handed back.
    pub disk: D,
}

/// The words of a line.
fn words_of(alloc: Global, line: &str) -> Result<Vec<String>, Fail> {
    let mut words = Vec::new(alloc);
    for word in line.split_whitespace() {
        words.push(format!(in alloc; "{word}")?)?;
    }
    Ok(words)
}

/// The source of a call.
fn source_of(alloc: Global, call: &Call<'_>) -> Result<ListSource, Fail> {
    let bytes = Vec::from_slice(alloc, call.script)?;
    Ok(ListSource::new(bytes, Vec::from_slice(alloc, call.failing_reads)?))
}

/// The sink of a call, with room for some 32,000 bytes.
fn sink_of(alloc: Global, call: &Call<'_>) -> Result<ListSink, Fail> {
    let fails = Vec::from_slice(alloc, call.failing_writes)?;
    Ok(ListSink::new(alloc, 1 << 15, fails)?)
}

/// What comes of a call over a device.
pub fn perform<D: PageDisk + Drop + Send>(
    alloc: Global,
    call: &Call<'_>,
    disk: D,
) -> Result<Ran<D>, Fail> {
    let words = words_of(alloc, call.line)?;
    let (mut source, mut out) = (source_of(alloc, call)?, sink_of(alloc, call)?);
    let (status, disk) = blobtool(alloc, &words, &mut source, &mut out, disk);
    Ok(Ran { status, out, disk })
}

/// What comes of a call over a device, whose runs by threads are on threads, and whose workers ask this gate.
pub fn perform_gated<R: Threads + Wait + Sync, D: PageDisk + Drop + Send, G: Gate + Sync>(
    rt: &R,
    alloc: Global,
    call: &Call<'_>,
    disk: D,
    gate: &G,
) -> Result<Ran<D>, Fail> {
    let words = words_of(alloc, call.line)?;
    let (mut source, mut out) = (source_of(alloc, call)?, sink_of(alloc, call)?);
    let (status, disk) = blobtool_gated(rt, alloc, &words, &mut source, &mut out, disk, gate);
    Ok(Ran { status, out, disk })
}

/// What comes of a call over a device, whose runs by threads are on threads.
pub fn perform_on_threads<R: Threads + Wait + Sync, D: PageDisk + Drop + Send>(
    rt: &R,
    alloc: Global,
    call: &Call<'_>,
    disk: D,
) -> Result<Ran<D>, Fail> {
    perform_gated(rt, alloc, call, disk, &OpenGate)
}

/// What comes of a call over a device and a target: how it ended, where it printed, and the two.
pub fn perform_export<
    R: Threads + Wait + Sync,
    D: PageDisk + Drop + Send,
    E: PageDisk + Drop + Send,
>(rt: &R, alloc: Global, call: &Call<'_>, disk: D, target: E) -> Result<(Ran<D>, E), Fail> {
    let words = words_of(alloc, call.line)?;
    let (mut source, mut out) = (source_of(alloc, call)?, sink_of(alloc, call)?);
    let (status, disk, target) = blobtool_two(
        rt,
        alloc,
        &words,
        &mut source,
        &mut out,
        disk,
        Some(target),
        &OpenGate,
    );
    match target {
        Some(target) => Ok((Ran { status, out, disk }, target)),
        None => Err(Fail::new("the target is gone")),
    }
}

/// What comes of `run IMAGE` with a script, where no read and no write fails.
pub fn run<D: PageDisk + Drop + Send>(
    alloc: Global,
    script: &[u8],
    disk: D,
) -> Result<Ran<D>, Fail> {
    perform(alloc, &Call::new("run store.img", script), disk)
}

/// The device after a run of a script that ends well and prints this; fails where it does not.
pub fn play<D: PageDisk + Drop + Send>(
    alloc: Global,
    script: &[u8],
    printed: &[u8],
    disk: D,
) -> Result<D, Fail> {
    let Ran { status, out, disk } = run(alloc, script, disk)?;
    if !matches!(status, Status::Good) {
        return Err(Fail::new(format_args!("the run ended with {status:?}")));
    }
    expect_printed(&out, printed)?;
    Ok(disk)
}

/// Expects that this was printed to a sink, or fails.
pub fn expect_printed(out: &ListSink, printed: &[u8]) -> Result<(), Fail> {
    if out.bytes() != printed {
        return Err(Fail::new(format_args!("it printed {:?}", out.bytes())));
    }
    Ok(())
}
