//! A run that begins where a metadata thread left off, which filled slots of a volume.

use crate::families::family;
use crate::metadata::make_turns;
use crate::sessions::let_go;
use blob_report::render_entry;
use channels::run_stepwise;
use page_disk::{MemDisk, PageDisk};
use script_lang::{Schedule, parse, parse_schedule};
use std::alloc::Global;
use std::process::Abort;
use std::test::Fail;
use store_core::{FILL_ROW, Parts, Plant, RowStage};
use store_model::{state_stops, state_turns};
use unclean_load::{load, stores_are_accepted};

/// An inflate, and behind it what the volume reads and how much is clear.
const SCRIPT: &[u8] = b"0 inflate v\n0 read v 0 1\n0 read v 4 1\n0 df\n";

const LOG: &[u8] =
    b"0 0 ok\n0 1 page fill abababababababab\n0 2 page fill 0000000000000000\n0 3 df clusters 11 of 16 pages 2 of 4\n";

/// So many turns of the metadata thread that leaves off, and what the fill's row waits for behind them: before the
/// first slot, at each stage of it, between the two slots, while the last job runs, and behind the inflate's entry.
const LEFT_OFF: [(u32, &str); 9] = [
    (0, "nothing"),
    (2, "copy"),
    (10, "post"),
    (12, "begin"),
    (14, "job"),
    (16, "settle"),
    (18, "nothing"),
    (37, "nothing"),
    (38, "nothing"),
];

/// Schedules whose steps are the first of the run that goes on, before its rounds.
const SCHEDULES: [&[u8]; 3] = [b"0", b"0*3,m*2,0", b"m*40"];

/// What the fill's row waits for.
fn filled<D: PageDisk>(plant: &Plant<D>) -> &'static str {
    match plant.stage(FILL_ROW) {
        RowStage::Copy { .. } => "copy",
        RowStage::Ready => "post",
        RowStage::Posted(_) => "begin",
        RowStage::InJob => "job",
        RowStage::Decided => "settle",
        _ => "nothing",
    }
}

/// What the fill's row waits for where another metadata thread takes over, behind the post of the script's first
/// command and so many turns of the first thread; and the log of the run that goes on there by a schedule.
fn log_behind(
    rt: &impl Abort,
    alloc: Global,
    count: u32,
    schedule: &Schedule,
) -> Result<(&'static str, Vec<u8>), Fail> {
    state_stops();
    state_turns();
    stores_are_accepted();
    let Ok(script) = parse(alloc, SCRIPT) else {
        return Err(Fail::new("the script is outside the grammar"));
    };
    let loaded = match load(alloc, family(alloc)?) {
        Ok(loaded) => loaded,
        Err((_, fault)) => return Err(Fail::new(fault)),
    };
    let (mut plant, mut right) = match Plant::start(alloc, loaded, script) {
        Ok(started) => started,
        Err(loaded) => {
            let_go(loaded);
            return Err(Fail::new("no memory"));
        }
    };
    let RowStage::Meta = plant.stage(0) else {
        panic!(rt; "the first command isn't for the metadata thread");
    };
    let msg = plant.post(0);
    if !plant.is_unmarked() {
        panic!(rt; "something is left to repair");
    }
    make_turns(alloc, &mut plant, &mut right, msg, count);
    let left_off = filled(&plant);
    let (plant, right, _end) = run_stepwise(alloc, plant, right, schedule);
    let Parts {
        disk: _,
        sup: _,
        masks: _,
        entries,
    } = plant.into_parts(right);
    let mut lines = Vec::new(alloc);
    for entry in entries.as_slice() {
        render_entry(entry, &mut lines)?;
    }
    Ok((left_off, lines))
}

#[test]
fn run_goes_on_where_another_one_left_off(rt: HostRuntime) -> Result<(), Fail> {
    let alloc = rt.alloc();
    for text in SCHEDULES {
        let schedule = parse_schedule(alloc, text)?;
        for (count, left_off) in &LEFT_OFF {
            let (found, log) = log_behind(&rt, alloc, *count, &schedule)?;
            if found != *left_off || log.as_slice() != LOG {
                return Err(Fail::new(format_args!(
                    "behind {count} turns: {found}, and then {:?}",
                    log.as_slice()
                )));
            }
        }
    }
    Ok(())
}
