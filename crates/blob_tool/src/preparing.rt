//! What comes before the first command of a run: the script is had, and the store is loaded, opened and repaired.

ghost use Rattle.std.specs.Prelude.{◌≡◌, ◌+◌, ◌^◌, false, IfErr, IfOk, IsTrue};
ghost use Rattle.blob_tool.specs.Outcome.{HasCommands, HasNoCommands, HasNoScript, IsReady, NothingFails, Outcome};
ghost use Rattle.blob_tool.specs.Outcome.{ReadsScript};
ghost use Rattle.blob_tool.specs.RunScripts.{CanBeRun, IsGenerated};
ghost use Rattle.blob_tool.specs.Statuses.{is_usage, IsRunDone};
ghost use Rattle.blob_tool.specs.declared.driving.Drive.{Drive as ADrive};
ghost use Rattle.streams.specs.Streams.{TakesAtMost};

use crate::opening::{ReadyStore, open_store};
use crate::run_script::RunScript;
use crate::status::Status;
use out_of_memory::Memory as NoMemory;
use page_disk::PageDisk;
use script_lang::{generate as generate_script, parse};
use std::alloc::Global;
use streams::{Sink, Source, read_text};
use unclean_load::load;
use volume_model::Script;

/// The script of the source's text.
fn script_of<S: Source>(alloc: Global, source: &mut S) -> Result<Script, Status>
    ensures text { IfOk result (λ script. ReadsScript S.Source source.old source.new script) }
    ensures why { IfErr result (HasNoScript S.Source source.old source.new) }
    ensures taken { IsTrue S.tells → TakesAtMost (S.left source.old) (S.left source.new) (2 ^ 20 + 1) }
{
    let text = read_text(alloc, source)?;
    Ok(parse(alloc, &text)?)
}

/// The commands of the script that is run. The source is read for one that is given alone.
fn commands_of<S: Source>(alloc: Global, from: RunScript, source: &mut S) -> Result<Script, Status>
    requires within { CanBeRun from }
    ensures commands { IfOk result (HasCommands S.Source source.old source.new from) }
    ensures why { IfErr result (HasNoCommands S.Source source.old source.new from) }
    ensures taken { IsTrue S.tells → TakesAtMost (S.left source.old) (S.left source.new) (2 ^ 20 + 1) }
{
    match from {
        RunScript::Given => script_of(alloc, source),
        RunScript::Generated(script) => match generate_script(alloc, script.number, script.size) {
            Ok(commands) => Ok(commands),
            Err(NoMemory) => Err(Status::Memory),
        },
    }
}

/// Has the script, loads the store of the device, opens it with the script's commands, and makes its repairs. Where no
/// command is run, that is what the call comes to, and nothing is printed.
pub(crate) fn prepare<S: Source, K: Sink, D: PageDisk>(
    alloc: Global,
    from: RunScript,
    script: &mut S,
    disk: D,
) -> Result<ReadyStore<D>, (Status, D)>
    requires within { CanBeRun from }
    ensures taken { IsTrue S.tells → TakesAtMost (S.left script.old) (S.left script.new) (2 ^ 20 + 1) }
    ensures unread { IsGenerated from → script.new ≡ script.old }
    ensures ready { IfOk result (λ r. IsReady S.Source script.old script.new D.PageDisk disk from r.quick r.plant) }
    ensures right { IfOk result (λ r. r.right ≡ r.plant.right) }
    ensures no_usage { IfErr result (λ r. is_usage r.0 ≡ false) }
    ensures outcome { IfErr result (λ r. (drive : ADrive) (out : K)
        → Outcome S.Source script.old script.new D.PageDisk K.Sink out out disk r.1 from drive r.0) }
    ensures complete { IfErr result (λ r. (out : K)
        → NothingFails S.Source script.old script.new D.PageDisk K.Sink out out disk r.1 from → IsRunDone r.0) }
{
    let commands = match commands_of(alloc, from, script) {
        Ok(commands) => commands,
        Err(status) => return Err((status, disk)),
    };
    match load(alloc, disk) {
        Ok(loaded) => open_store::<K, D>(alloc, commands, loaded),
        Err((disk, fault)) => Err((Status::from(fault), disk)),
    }
}
