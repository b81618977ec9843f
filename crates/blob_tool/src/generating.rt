//! Generated scripts are printed.

ghost use Rattle.std.specs.Prelude.{◌≡◌, ◌≤◌, IsTrue, OnOk, Err};
ghost use Rattle.page_disk.specs.Disk.{Rose};
ghost use Rattle.streams.specs.declared.printing.PrintFault.TheVariants as printing;
ghost use Rattle.blob_tool.specs.GenerateOutcome.{GenerateEnded, IsPartOfScript, IsPrintedScript};
ghost use Rattle.blob_tool.specs.RunScripts.{IsWithinLimits};

use crate::generate_words::GeneratedScript;
use crate::status::Status;
use script_lang::Generator;
use std::alloc::Global;
use streams::{PrintFault, Sink, offer};

/// Prints a generated script, of which it holds one line at a time. A fault of the sink ends the printing.
fn print_script<K: Sink>(
    alloc: Global,
    script: GeneratedScript,
    out: &mut K,
) -> Result<(), PrintFault>
    requires within { IsWithinLimits script }
    ensures whole { OnOk result (IsPrintedScript script K.Sink out.old out.new) }
    ensures part { IsPartOfScript script K.Sink out.old out.new }
    ensures later { K.faults out.old ≤ K.faults out.new }
    ensures cause { result ≡ Err printing.Sink → Rose (K.faults out.old) (K.faults out.new) }
{
    let mut generator = Generator::new(script.number);
    for _ in 0..script.size + 4 {
        let mut line = Vec::new(alloc);
        generator.push_line(&mut line)?;
        offer(line.as_slice(), out)?;
    }
    Ok(())
}

/// Prints the generated script that is asked for.
pub(crate) fn generate<K: Sink>(alloc: Global, script: GeneratedScript, out: &mut K) -> Status
    requires within { IsWithinLimits script }
    ensures { GenerateEnded script K.Sink out.old out.new result }
{
    match print_script(alloc, script, out) {
        Ok(()) => Status::Good,
        Err(fault) => Status::from(fault),
    }
}
