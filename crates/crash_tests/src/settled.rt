//! Pages that are written, and what is read of them once power has failed.

use page_disk::{FaultDisk, MemDisk};
use std::alloc::Global;
use std::test::Fail;
use test_runs::{Ran, Status, expect_printed, run};
use test_stores::{ChainRow, expect_chains};

/// A command that is done: how many calls of the device were made until then, and the page that it writes with a word.
/// One that writes no page is flushing: what was written before it is settled.
pub type Step = (u64, Option<(u64, u64)>);

/// What stands of the metadata from so many calls of the device on: the last line of the look, and the chains.
pub struct Stand {
    pub calls: u64,
    pub free: &'static str,
    pub chains: &'static [ChainRow<'static>],
}

/// A script, its steps, a look that reads so many pages of a volume from the first on and asks what is free, what
/// stands at which calls, the calls of loading, and those of the whole run with its unload.
pub struct Story {
    pub script: &'static [u8],
    pub steps: &'static [Step],
    pub look: &'static [u8],
    pub pages: usize,
    pub stands: &'static [Stand],
    pub loading: u64,
    pub calls: u64,
}

/// The last of what stands that is reached with so many calls.
fn stand_at(stands: &'static [Stand], calls: u64) -> Result<&'static Stand, Fail> {
    let mut last = None;
    for stand in stands {
        if stand.calls <= calls {
            last = Some(stand);
        }
    }
    Ok(last.ok_or("nothing stands yet")?)
}

/// The answer to a command where so many are done, and the next one meets a call that fails: that one is told it, and
/// all later ones that the store has stopped there.
fn answer(alloc: Global, index: usize, done: usize) -> Result<String, Fail> {
    if index > done {
        return Ok(format!(in alloc; "0 {index} stopped {done}\n")?);
    }
    let word = if index < done { "ok" } else { "fault" };
    Ok(format!(in alloc; "0 {index} {word}\n")?)
}

/// What is printed of a script of these steps that is cut off after so many calls.
fn printed(alloc: Global, steps: &[Step], calls: u64) -> Result<Vec<u8>, Fail> {
    let done = steps.iter().filter(|(until, _)| *until <= calls).count();
    let mut lines = Vec::new(alloc);
    for index in 0..steps.len() {
        lines.extend_from_slice(answer(alloc, index, done)?.as_bytes())?;
    }
    Ok(lines)
}

/// The disk after so many calls of the device, with just the steps answered as done that are done by then. The run ends
/// well with all its calls alone.
fn stopped(alloc: Global, story: &Story, calls: u64, disk: MemDisk) -> Result<MemDisk, Fail> {
    let Ran { status, out, disk } = run(alloc, story.script, FaultDisk::stopping(disk, calls))?;
    if matches!(status, Status::Good) != (calls >= story.calls) {
        return Err(Fail::new(format_args!("{calls} calls ended with {status:?}")));
    }
    expect_printed(&out, &printed(alloc, story.steps, calls)?)?;
    Ok(disk.into_inner())
}

/// Whether a line tells a page that is filled with a word.
fn tells(alloc: Global, line: &str, index: usize, word: u64) -> Result<bool, Fail> {
    let wanted = format!(in alloc; "0 {index} page fill {word:016x}")?;
    Ok(wanted.as_str() == line)
}

/// Whether a line tells what a page may hold after a crash behind so many calls, where it held zeros at first: what was
/// written last to it, where that is settled; else also what was written since then or stood there, or, if it may be,
/// a torn page.
fn may_be_told(
    alloc: Global,
    steps: &[Step],
    calls: u64,
    page: usize,
    line: &str,
    may_be_torn: bool,
) -> Result<bool, Fail> {
    let is_torn = may_be_torn && line.contains(" page crc ");
    let mut last = 0;
    let mut fits = tells(alloc, line, page, 0)?;
    for (until, write) in steps {
        if *until <= calls {
            match write {
                None => fits = tells(alloc, line, page, last)?,
                Some((at, word)) if *at == page as u64 => {
                    last = *word;
                    fits = fits || is_torn || tells(alloc, line, page, last)?;
                }
                Some(_) => {}
            }
        }
    }
    Ok(fits)
}

/// Whether a pick may leave an open page torn: one of its 32 pairs of bits is 2 or 3.
fn is_tearing(pick: u64) -> bool {
    pick & 0xAAAA_AAAA_AAAA_AAAA != 0
}

/// Expects that a printed look tells what its pages may hold, and what is free.
fn expect_look(
    alloc: Global,
    story: &Story,
    calls: u64,
    pick: u64,
    told: &[u8],
    free: &str,
) -> Result<(), Fail> {
    let Ok(text) = str::from_utf8(told) else {
        return Err(Fail::new("no text is printed"));
    };
    if text.lines().count() != story.pages.saturating_add(1) {
        return Err(Fail::new(format_args!("{calls} calls and pick {pick} leave: {text}")));
    }
    for (index, line) in text.lines().enumerate() {
        let fits = if index < story.pages {
            may_be_told(alloc, story.steps, calls, index, line, is_tearing(pick))?
        } else {
            line == free
        };
        if !fits {
            return Err(Fail::new(format_args!("{calls} calls and pick {pick} leave: {line}")));
        }
    }
    Ok(())
}

/// Expects that what a crash leaves after so many calls is loaded, with its chains, its free clusters, and what its
/// pages may hold. The head of a chain that is written and not flushed may be there or not: it is where a crash leaves
/// the last write, as pick 1 says.
fn expect_crash(
    alloc: Global,
    story: &Story,
    calls: u64,
    pick: u64,
    disk: &MemDisk,
) -> Result<(), Fail> {
    let reached = calls.saturating_add(u64::from(pick % 4 == 1));
    let stand = stand_at(story.stands, reached)?;
    let Ran {
        status: _,
        out,
        disk,
    } = run(alloc, story.look, disk.crash(pick)?)?;
    expect_look(alloc, story, calls, pick, out.bytes(), stand.free)?;
    expect_chains(alloc, disk, stand.chains)
}

/// Expects it of so many crashes.
fn expect_crashes(
    alloc: Global,
    story: &Story,
    calls: u64,
    picks: u64,
    disk: &MemDisk,
) -> Result<(), Fail> {
    for pick in 0..picks {
        expect_crash(alloc, story, calls, pick, disk)?;
    }
    Ok(())
}

/// Expects that whenever power fails in a run of the script on a flushed device, each page that is settled is read as
/// it was written last, and no cluster and no metadata page is lost.
pub fn expect_story(alloc: Global, story: &Story, picks: u64, disk: &MemDisk) -> Result<(), Fail> {
    for calls in story.loading..story.calls.saturating_add(1) {
        let disk = stopped(alloc, story, calls, disk.crash(0)?)?;
        expect_crashes(alloc, story, calls, picks, &disk)?;
    }
    Ok(())
}
