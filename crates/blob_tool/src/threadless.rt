//! The whole program without threads: no call of it waits for another.

ghost use Rattle.std.specs.Prelude.{◌≡◌, ◌+◌, ◌^◌, ◌⊎◌, IsSome, IsTrue, Some, false};
ghost use Rattle.blob_tool.specs.declared.status.Status.TheVariants.{Memory, Usage};
ghost use Rattle.blob_tool.specs.Commands.{AskForNothing};
ghost use Rattle.blob_tool.specs.RunScripts.{CanBeRun, IsGenerated};
ghost use Rattle.blob_tool.specs.RunWords.{AsksToRun};
ghost use Rattle.blob_tool.specs.declared.driving.Drive.{Drive as ADrive};
ghost use Rattle.blob_tool.specs.declared.run_script.RunScript.{RunScript as AnOrigin};
ghost use Rattle.blob_tool.specs.declared.run_script.RunScript.TheVariants.{Given};
ghost use Rattle.blob_tool.specs.Outcome.{NothingFails, Outcome};
ghost use Rattle.blob_tool.specs.Untouched.{NothingDone};
ghost use Rattle.blob_tool.specs.FormatWords.{format_in as format_said};
ghost use Rattle.blob_tool.specs.FormatOutcome.{FormatEnded};
ghost use Rattle.blob_tool.specs.declared.format_words.Format.{Format as AFormat};
ghost use Rattle.md_chain.specs.Reading.{OnlyRead};
ghost use Rattle.blob_tool.specs.ListWords.{list_in as list_said};
ghost use Rattle.listing_text.specs.declared.format.ListFormat.{ListFormat as AListFormat};
ghost use Rattle.blob_tool.specs.ListOutcome.{ListEnded};
ghost use Rattle.blob_tool.specs.ExportWords.{export_in as export_said};
ghost use Rattle.blob_tool.specs.GenerateWords.{generate_in as generate_said};
ghost use Rattle.blob_tool.specs.GenerateOutcome.{GenerateEnded};
ghost use Rattle.blob_tool.specs.declared.generate_words.GeneratedScript.{GeneratedScript as AScript};
ghost use Rattle.streams.specs.Streams.{TakesAtMost};
ghost use Rattle.blob_tool.specs.Statuses.{is_usage, IsRunDone};

use crate::driving::{Drive, drive_in_rounds};
use crate::finishing::finish;
use crate::formatting::format_image;
use crate::generating::generate;
use crate::listing::list_image;
use crate::opening::ReadyStore;
use crate::preparing::prepare;
use crate::run_script::RunScript;
use crate::status::Status;
use crate::task::{Task, task_in};
use out_of_memory::Memory as NoMemory;
use page_disk::PageDisk;
use std::alloc::Global;
use streams::{Sink, Source};

/// Has the script, loads the store of the device, makes its repairs, runs the script's commands on it, and prints what is
/// printed of the log.
fn run_in_rounds<S: Source, K: Sink, D: PageDisk>(
    alloc: Global,
    from: RunScript,
    by: Drive,
    script: &mut S,
    out: &mut K,
    disk: D,
) -> (Status, D)
    requires within { CanBeRun from }
    ensures no_usage { is_usage result.0 ≡ false }
    ensures taken { IsTrue S.tells → TakesAtMost (S.left script.old) (S.left script.new) (2 ^ 20 + 1) }
    ensures unread { IsGenerated from → script.new ≡ script.old }
    ensures outcome { Outcome S.Source script.old script.new D.PageDisk K.Sink out.old out.new disk result.1 from
        by result.0 }
    ensures complete { NothingFails S.Source script.old script.new D.PageDisk K.Sink out.old out.new disk result.1 from
        → IsRunDone result.0 }
{
    match prepare::<S, K, D>(alloc, from, script, disk) {
        Ok(ready) => {
            let ReadyStore {
                plant,
                right,
                quick,
            } = ready;
            let (plant, right, end) = drive_in_rounds(alloc, &by, plant, right);
            finish(alloc, from, quick, plant, right, end, out)
        }
        Err(unready) => unready,
    }
}

/// Does what the words say, as the call with threads does, but for these: with `--threads` a run goes in rounds, as one of
/// the orders in which threads may run; and there is no second device, so that `export` is `Usage`.
pub fn blobtool<S: Source, K: Sink, D: PageDisk + Send>(
    alloc: Global,
    words: &[String],
    script: &mut S,
    out: &mut K,
    disk: D,
) -> (Status, D)
    // Usage comes only where the words are no such command, and then nothing is done. Where they are none only want of
    // memory to read them comes before it.
    ensures usage { result.0 ≡ Usage → AskForNothing words.now ⊎ IsSome (export_said words.now) }
    ensures no_command { AskForNothing words.now ⊎ IsSome (export_said words.now)
        → ((result.0 ≡ Usage) ⊎ (result.0 ≡ Memory)) × NothingDone out.old out.new disk result.1
        × (script.new ≡ script.old) }

    // What each status of `run` and of `exercise` says, and that it has no other. After a run from the loaded store, each
    // answer is that of plain volumes, and whenever power failed, what is left comes back to the state of a prefix of the
    // log: `RanTo`. Repairs come first; where the run ends with them, what is left comes back to the store as it was
    // loaded: `EndedRepairing`.
    ensures run { (from : AnOrigin) (drive : ADrive) → AsksToRun words.now from drive
        → Outcome S.Source script.old script.new D.PageDisk K.Sink out.old out.new disk result.1 from drive result.0 }
    // A script on an accepted image that has the pages for its repairs runs, by every schedule and by threads, unless a
    // fault was counted.
    ensures complete { (from : AnOrigin) (drive : ADrive) → AsksToRun words.now from drive
        → NothingFails S.Source script.old script.new D.PageDisk K.Sink out.old out.new disk result.1 from
        → IsRunDone result.0 }
    // No more is taken from the source than a script may have, and one byte; and nothing but for a script that is given.
    ensures taken { IsTrue S.tells → TakesAtMost (S.left script.old) (S.left script.new) (2 ^ 20 + 1) }
    ensures unread { ((drive : ADrive) → AsksToRun words.now Given drive → ⊥) → script.new ≡ script.old }

    // What each status of `format` says, and that it has no other: the planned store was written and its line printed,
    // or it has no place on the device, or the device, the sink or memory failed.
    ensures format { (format : AFormat) → format_said words.now ≡ Some format
        → FormatEnded D.PageDisk disk result.1 format K.Sink out.old out.new result.0 }

    // What each status of `list` says, and that it has no other: the store was loaded and its text printed, or the
    // image isn't accepted, or the device, the sink or memory failed. Nothing is written to the device.
    ensures list { (asked : AListFormat) → list_said words.now ≡ Some asked
        → ListEnded D.PageDisk disk result.1 K.Sink out.old out.new asked result.0 }
    ensures list_reads { (asked : AListFormat) → list_said words.now ≡ Some asked → OnlyRead D.PageDisk disk result.1 }

    // What each status of `generate` says, and that it has no other: the whole text was printed, or the sink failed, or
    // memory ran out. The device isn't touched.
    ensures generate { (drawn : AScript) → generate_said words.now ≡ Some drawn
        → GenerateEnded drawn K.Sink out.old out.new result.0 }
    ensures generate_device { (drawn : AScript) → generate_said words.now ≡ Some drawn → result.1 ≡ disk }
{
    match task_in(alloc, words) {
        Ok(Some(Task::Run(from, by))) => run_in_rounds(alloc, from, by, script, out, disk),
        Ok(Some(Task::Format(format))) => format_image(alloc, &format, out, disk),
        Ok(Some(Task::List(format))) => list_image(alloc, format, out, disk),
        Ok(Some(Task::Generate(drawn))) => (generate(alloc, drawn, out), disk),
        Ok(Some(Task::Export(_)) | None) => (Status::Usage, disk),
        Err(NoMemory) => (Status::Memory, disk),
    }
}
