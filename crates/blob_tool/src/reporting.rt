//! The log of a run is printed.

ghost use Rattle.std.specs.Prelude.{◌≡◌, ◌≤◌, ◌++◌, IsTrue, OnOk, Err};
ghost use Rattle.page_disk.specs.Disk.{Rose};
ghost use Rattle.streams.specs.Printing.{IsPartOf};
ghost use Rattle.streams.specs.declared.printing.PrintFault.TheVariants as printing;
ghost use Rattle.blob_tool.specs.RunScripts.{printed_text};

use crate::run_script::RunScript;
use std::alloc::Global;
use streams::{PrintFault, Sink, print, print_summary};
use volume_model::Entry;

/// Prints what is printed of the log of this script.
pub(crate) fn report<K: Sink>(
    alloc: Global,
    script: RunScript,
    entries: &[Entry],
    out: &mut K,
) -> Result<(), PrintFault>
    ensures whole { IsTrue K.tells
        → OnOk result (K.written out.new ≡ K.written out.old ++ printed_text script entries.now) }
    ensures part { IsTrue K.tells → IsPartOf (K.written out.old) (K.written out.new) (printed_text script entries.now) }
    ensures later { K.faults out.old ≤ K.faults out.new }
    ensures cause { result ≡ Err printing.Sink → Rose (K.faults out.old) (K.faults out.new) }
{
    match script {
        RunScript::Given => print(alloc, entries, out),
        RunScript::Generated(_) => print_summary(alloc, entries, out),
    }
}
