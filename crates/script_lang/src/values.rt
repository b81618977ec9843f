//! The words that follow a verb, each read by its form.

ghost use Rattle.std.specs.Prelude.{◌≡◌, ◌≤◌, length, IfOk};
ghost use Rattle.std.specs.Option.{option_copied};
ghost use Rattle.script_lang.specs.Answered.{AnswersAsSaid};
ghost use Rattle.script_lang.specs.Forms.{says_values, worse as worse_said, fault_after};
ghost use Rattle.script_lang.specs.Parts.{parts};

use crate::fault::{LineFault, LineKind};
use crate::form::{Form, Value};
use crate::parts::TextParts;
use std::alloc::Global;
use volume_model::ListOf;

/// Of two faults in a line, in their order: the first, but `Form` before all others.
pub fn worse(first: LineKind, later: LineKind) -> LineKind
    ensures { result ≡ worse_said first later }
{
    match later {
        LineKind::Form => later,
        _ => first,
    }
}

/// A fault after another, or alone.
fn with_fault(first: Option<LineKind>, later: LineKind) -> LineKind
    ensures { result ≡ fault_after first later }
{
    match first {
        Some(first) => worse(first, later),
        None => later,
    }
}

/// What words say by their forms, as far as there are words; or what is wrong with the first that says nothing.
pub fn read_values(
    alloc: Global,
    forms: &[Form],
    mut words: TextParts<'_>,
) -> Result<ListOf<Value>, LineFault>
    ensures said { AnswersAsSaid
        (says_values forms.now (parts words.entry.separator (option_copied words.entry.rest))) result }
    ensures few { IfOk result (λ values. length values ≤ length forms.now) }
{
    let mut values = ListOf::new(alloc);
    let mut fault = None;
    for form in forms {
        if let Some(word) = words.next_part() {
            match form.read(alloc, word)? {
                Some(value) => values.push(value)?,
                None => fault = Some(with_fault(fault, form.kind())),
            }
        }
    }
    match fault {
        None => Ok(values),
        Some(kind) => Err(LineFault::Bad(kind)),
    }
}
