//! What `run` is asked for with.

ghost use Rattle.std.specs.Prelude.{IfOk};
ghost use Rattle.std.specs.Option.{option_copied};
ghost use Rattle.blob_tool.specs.RunWords.{FindsDrive};

use crate::driving::Drive;
use out_of_memory::Memory;
use script_lang::{Schedule, ScheduleFault, parse_schedule};
use std::alloc::Global;

/// The drive that the text of a schedule and the option for threads say; `None` where the text says none, or both are
/// there. Without either it is a schedule of no steps.
pub(crate) fn drive_of(
    alloc: Global,
    text: Option<&str>,
    threads: bool,
) -> Result<Option<Drive>, Memory>
    ensures { IfOk result (FindsDrive (option_copied text.entry) threads) }
{
    let Some(text) = text else {
        return Ok(Some(if threads {
            Drive::Threads
        } else {
            Drive::Stepwise(Schedule::new(alloc))
        }));
    };
    if threads {
        return Ok(None);
    }
    match parse_schedule(alloc, text.as_bytes()) {
        Ok(schedule) => Ok(Some(Drive::Stepwise(schedule))),
        Err(ScheduleFault::BadSchedule { .. }) => Ok(None),
        Err(ScheduleFault::Memory) => Err(Memory),
    }
}
