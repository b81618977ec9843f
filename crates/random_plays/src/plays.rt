//! Random scripts, and what they are to print.

use blob_report::render_entry;
use page_disk::MemDisk;
use random_worlds::{
    Ask, Draws, State, World, command_of, drawn, drawn_count, drawn_in_family, push_line,
};
use std::alloc::Global;
use std::test::Fail;
use test_runs::{Call, Ran, perform};
use volume_model::Entry;

/// A script, the line that each of its commands is to print, and the states before its first command and after each.
#[derive(Drop)]
pub struct Play {
    pub script: Vec<u8>,
    pub lines: Vec<Vec<u8>>,
    pub states: Vec<State>,
}

/// The sizes of the stores: how many metadata pages there are, and how many clusters the store takes itself.
const SIZES: [(u32, u32); 4] = [(16, 5), (32, 9), (4, 2), (3, 2)];

/// The size of the store for a script with this number.
pub fn size_of(number: u64) -> (u32, u32) {
    match SIZES.get((number % 4) as usize) {
        Some(size) => *size,
        None => (16, 5),
    }
}

/// A new store of 16 clusters and so many metadata pages, with room for a long script.
pub fn new_store(alloc: Global, md_pages: u32) -> Result<MemDisk, Fail> {
    let line = format!(in alloc; "format store.img --cluster 16384 --md-pages {md_pages}")?;
    let call = Call::new(line.as_str(), b"");
    let Ran {
        status: _,
        out: _,
        disk,
    } = perform(alloc, &call, MemDisk::new(alloc, 64, 1024)?)?;
    Ok(disk.crash(0)?)
}

/// A new store of each size.
pub fn new_stores(alloc: Global) -> Result<Vec<MemDisk>, Fail> {
    let mut stores = Vec::new(alloc);
    for number in 0..4 {
        let (md_pages, _) = size_of(number);
        stores.push(new_store(alloc, md_pages)?)?;
    }
    Ok(stores)
}

/// A copy of the store for a script with this number.
pub fn store_for(number: u64, stores: &[MemDisk]) -> Result<MemDisk, Fail> {
    let store = stores.get((number % 4) as usize).ok_or("no store")?;
    Ok(store.crash(0)?)
}

/// The line that a command is to print.
fn line_of(alloc: Global, world: &mut World, ask: &Ask, index: usize) -> Result<Vec<u8>, Fail> {
    let entry = Entry {
        channel: 0,
        index: u32::try_from(index).unwrap_or(u32::MAX),
        command: command_of(alloc, ask)?,
        reply: world.step(alloc, ask)?,
    };
    let mut line = Vec::new(alloc);
    render_entry(&entry, &mut line)?;
    Ok(line)
}

/// The head by which the line tells its volume, sometimes: else it tells it by its name.
fn drawn_head(draws: &mut Draws, state: &State, ask: &Ask) -> Option<u32> {
    let name = ask.name()?;
    let by_head = draws.is_zero(4) && !matches!(ask, Ask::Create { .. });
    match state.find(name) {
        Some(volume) if by_head => volume.head(),
        _ => None,
    }
}

/// Appends a line, and what each of its commands is to print and to leave.
fn push_ask(
    alloc: Global,
    play: &mut Play,
    world: &mut World,
    draws: &mut Draws,
    ask: &Ask,
) -> Result<(), Fail> {
    let head = drawn_head(draws, &world.state, ask);
    let count = drawn_count(draws, ask);
    push_line(alloc, &mut play.script, 0, (ask, head), count)?;
    for at in 0..count {
        let line = line_of(alloc, world, &ask.nth(at), play.lines.len())?;
        play.lines.push(line)?;
        play.states.push(world.state.copy(alloc)?)?;
    }
    Ok(())
}

/// The script of a number, with so many drawn lines, maybe such by which families of so many volumes grow, between a
/// first volume and a last `df`; and a `df` behind each delete, which is answered before its last clusters are clear.
pub fn play_of(alloc: Global, number: u64, lines: u64, family: Option<u64>) -> Result<Play, Fail> {
    let (md_pages, fixed) = size_of(number);
    let mut world = World::new(alloc, md_pages, fixed)?;
    let mut draws = Draws::new(number);
    let mut play = Play {
        script: Vec::new(alloc),
        lines: Vec::new(alloc),
        states: vec![in alloc; world.state.copy(alloc)?]?,
    };
    let first = Ask::Create {
        name: b'a',
        slots: draws.below(6).wrapping_add(1),
        thick: draws.is_zero(3),
    };
    push_ask(alloc, &mut play, &mut world, &mut draws, &first)?;
    for _ in 0..lines {
        let ask = match family {
            Some(names) => drawn_in_family(&mut draws, names),
            None => drawn(&mut draws),
        };
        push_ask(alloc, &mut play, &mut world, &mut draws, &ask)?;
        if matches!(ask, Ask::Delete { .. }) {
            push_ask(alloc, &mut play, &mut world, &mut draws, &Ask::Df)?;
        }
    }
    push_ask(alloc, &mut play, &mut world, &mut draws, &Ask::Df)?;
    Ok(play)
}
