//! Printing a log or what sums it up, or another text.

ghost use Rattle.std.specs.Prelude.{◌≡◌, ◌≤◌, ◌++◌, IsTrue, OnOk, Err};
ghost use Rattle.page_disk.specs.Disk.{Rose};
ghost use Rattle.streams.specs.Streams.{Caused};
ghost use Rattle.blob_report.specs.Summary.{summary_text};
ghost use Rattle.blob_report.specs.Text.{log_text};
ghost use Rattle.streams.specs.Printing.{IsPartOf};

use crate::sink::{Sink, SinkFault};
use blob_report::{render_entry, render_summary};
use out_of_memory::Memory;
use std::alloc::Global;
use thiserror::Error;
use volume_model::Entry;

/// Why the printing of a log ended early.
#[derive(Debug, Drop, Error)]
pub enum PrintFault {
    /// The sink could not take the bytes.
    #[error("the sink took no more")]
    Sink,
    /// Memory ran out.
    #[error("no memory")]
    Memory,
}

impl From<Memory> for PrintFault {
    ghost use Rattle.std.specs.Prelude.{◌≡◌};
    ghost use Rattle.streams.specs.declared.printing.PrintFault.TheVariants.{Memory};

    ghost from_gives = { λ _ e. e ≡ Memory };

    fn from(_want: Memory) -> PrintFault {
        PrintFault::Memory
    }
}

impl From<SinkFault> for PrintFault {
    ghost use Rattle.std.specs.Prelude.{◌≡◌};
    ghost use Rattle.streams.specs.declared.printing.PrintFault.TheVariants.{Sink};

    ghost from_gives = { λ _ e. e ≡ Sink };

    fn from(_fault: SinkFault) -> PrintFault {
        PrintFault::Sink
    }
}

/// Offers the sink a text until it has taken all of it, and each time what it has left.
pub fn offer<K: Sink>(text: &[u8], sink: &mut K) -> Result<(), SinkFault>
    ensures whole { IsTrue K.tells → OnOk result (K.written sink.new ≡ K.written sink.old ++ text.now) }
    ensures part { IsTrue K.tells → IsPartOf (K.written sink.old) (K.written sink.new) text.now }
    ensures faults { Caused (K.faults sink.old) (K.faults sink.new) result }
{
    let mut rest = text;
    while !rest.is_empty() {
        let count = sink.write(rest)?;
        rest = &rest[count..];
    }
    Ok(())
}

/// Prints the entries, one after the other. A fault of the sink ends the printing.
pub fn print<K: Sink>(alloc: Global, entries: &[Entry], sink: &mut K) -> Result<(), PrintFault>
    ensures whole { IsTrue K.tells → OnOk result (K.written sink.new ≡ K.written sink.old ++ log_text entries.now) }
    ensures part { IsTrue K.tells → IsPartOf (K.written sink.old) (K.written sink.new) (log_text entries.now) }
    ensures later { K.faults sink.old ≤ K.faults sink.new }
    ensures cause { result ≡ Err PrintFault.Sink → Rose (K.faults sink.old) (K.faults sink.new) }
{
    for entry in entries {
        let mut text = Vec::new(alloc);
        render_entry(entry, &mut text)?;
        offer(text.as_slice(), sink)?;
    }
    Ok(())
}

/// Prints the line that sums up the entries.
pub fn print_summary<K: Sink>(
    alloc: Global,
    entries: &[Entry],
    sink: &mut K,
) -> Result<(), PrintFault>
    ensures whole { IsTrue K.tells → OnOk result (K.written sink.new ≡ K.written sink.old ++ summary_text entries.now) }
    ensures part { IsTrue K.tells → IsPartOf (K.written sink.old) (K.written sink.new) (summary_text entries.now) }
    ensures later { K.faults sink.old ≤ K.faults sink.new }
    ensures cause { result ≡ Err PrintFault.Sink → Rose (K.faults sink.old) (K.faults sink.new) }
{
    let mut line = Vec::new(alloc);
    render_summary(alloc, entries, &mut line)?;
    offer(line.as_slice(), sink)?;
    Ok(())
}
