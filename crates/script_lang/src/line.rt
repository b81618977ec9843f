//! One line of a script: what it asks for, or what is wrong with it.

ghost use Rattle.std.specs.Prelude.{◌≡◌, ◌==◌};
ghost use Rattle.std.specs.Option.{option_copied};
ghost use Rattle.script_lang.specs.Answered.{AnswersAsSaid};
ghost use Rattle.script_lang.specs.Lines.{is_printable as printable_said, is_spaced as spaced_said};
ghost use Rattle.script_lang.specs.Lines.{is_skipped as skipped_said, says, says_verb};
ghost use Rattle.script_lang.specs.Parts.{parts};
ghost use Rattle.script_lang.specs.Verbs.{verb_in};
ghost use Rattle.script_lang.specs.Words.{number_below as number_said};

use crate::commands::commands;
use crate::fault::{LineFault, LineKind};
use crate::parts::TextParts;
use crate::values::{read_values, worse};
use crate::verb::Verb;
use crate::words::number_below;
use std::alloc::Global;
use volume_model::{Command, ListOf};

/// What a line asks for: commands in a channel, and none on a line that is skipped.
#[derive(Debug, Drop)]
pub struct LineRequest {
    pub channel: u8,
    pub commands: ListOf<Command>,
}

fn is_printable(line: &[u8]) -> bool
    ensures { result ≡ printable_said line.now }
{
    line.iter().all(|b| *b >= 0x20 && *b <= 0x7e)
}

/// Whether one space stands between any two words, and none at an end.
fn is_spaced(line: &[u8]) -> bool
    ensures { result ≡ spaced_said line.now }
{
    let mut words = TextParts::of(line, b' ');
    while let Some(word) = words.next_part() {
        if word.is_empty() {
            return false;
        }
    }
    true
}

/// Whether a line is empty or begins with `#`.
fn is_skipped(line: &[u8]) -> bool
    ensures { result ≡ skipped_said line.now }
{
    match line {
        [] | [b'#', ..] => true,
        _ => false,
    }
}

/// The channel that a word is.
fn channel(word: &[u8]) -> Option<u8>
    ensures { result ≡ number_said 16 word.now }
{
    match number_below(16, word) {
        Some(channel) => Some(channel as u8),
        None => None,
    }
}

/// The commands of a verb's word and the words after it.
fn commands_in(
    alloc: Global,
    word: &[u8],
    words: TextParts<'_>,
) -> Result<ListOf<Command>, LineFault>
    ensures { AnswersAsSaid (says_verb (verb_in word.now)
        (parts words.entry.separator (option_copied words.entry.rest))) result }
{
    let Some(verb) = Verb::of(word) else {
        return Err(LineFault::Bad(LineKind::Verb));
    };
    if !verb.takes(words.count()) {
        return Err(LineFault::Bad(LineKind::Form));
    }
    let values = read_values(alloc, verb.forms(), words)?;
    commands(alloc, verb, values)
}

/// What a line asks for, or what is wrong with it: the first word at fault, but `Form` before all others.
pub fn read_line(alloc: Global, line: &[u8]) -> Result<LineRequest, LineFault>
    ensures { AnswersAsSaid (says line.now) result }
{
    if is_skipped(line) {
        return Ok(LineRequest {
            channel: 0,
            commands: ListOf::new(alloc),
        });
    }
    if !is_printable(line) || !is_spaced(line) {
        return Err(LineFault::Bad(LineKind::Form));
    }
    let mut words = TextParts::of(line, b' ');
    let Some(first) = words.next_part() else {
        return Err(LineFault::Bad(LineKind::Form));
    };
    let Some(verb) = words.next_part() else {
        return Err(LineFault::Bad(LineKind::Form));
    };
    let channel = channel(first);
    match commands_in(alloc, verb, words) {
        Ok(commands) => match channel {
            Some(channel) => Ok(LineRequest { channel, commands }),
            None => Err(LineFault::Bad(LineKind::Channel)),
        },
        Err(LineFault::Bad(kind)) => match channel {
            Some(_) => Err(LineFault::Bad(kind)),
            None => Err(LineFault::Bad(worse(LineKind::Channel, kind))),
        },
        Err(LineFault::Memory) => Err(LineFault::Memory),
    }
}
