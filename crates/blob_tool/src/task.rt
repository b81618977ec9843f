//! What the words ask for.

ghost use Rattle.std.specs.Prelude.{IfOk};
ghost use Rattle.blob_tool.specs.Commands.{AskFor};

use crate::driving::Drive;
use crate::format_words::{Format, of_options};
use crate::generate_words::{GeneratedScript, generated_script};
use crate::list_words::list_format;
use crate::run_script::RunScript;
use crate::run_words::drive_of;
use command_words::{CommandWords, read_words};
use listing_text::ListFormat;
use out_of_memory::Memory;
use script_lang::{Schedule, read_volume};
use std::alloc::Global;
use volume_model::VolumeRef;

/// What a command is to do.
#[derive(Debug, Drop)]
pub(crate) enum Task {
    /// This script is run, with this drive.
    Run(RunScript, Drive),
    /// A store like this is written.
    Format(Format),
    /// The store and its volumes are printed, in this format.
    List(ListFormat),
    /// What this volume shows is written to a second device.
    Export(VolumeRef),
    /// This script is printed.
    Generate(GeneratedScript),
}

/// What the words ask for; `None` where they are no command, or a word isn't of its form.
pub(crate) fn task_in(alloc: Global, words: &[String]) -> Result<Option<Task>, Memory>
    ensures { IfOk result (AskFor words.now) }
{
    let Some(command) = read_words(alloc, words)? else {
        return Ok(None);
    };
    match command {
        CommandWords::Run {
            schedule,
            threads,
            ..
        } => match drive_of(alloc, schedule, threads)? {
            Some(drive) => Ok(Some(Task::Run(RunScript::Given, drive))),
            None => Ok(None),
        },
        CommandWords::Format { options, .. } => Ok(of_options(&options).map(Task::Format)),
        CommandWords::List { json, tree, .. } => Ok(list_format(json, tree).map(Task::List)),
        CommandWords::Export { volume, .. } => {
            Ok(read_volume(volume.as_bytes()).map(Task::Export))
        }
        CommandWords::Generate { number, size } => {
            Ok(generated_script(number, size).map(Task::Generate))
        }
        CommandWords::Exercise { number, size, .. } => match generated_script(number, size) {
            Some(script) => {
                let drive = Drive::Stepwise(Schedule::new(alloc));
                Ok(Some(Task::Run(RunScript::Generated(script), drive)))
            }
            None => Ok(None),
        },
    }
}
