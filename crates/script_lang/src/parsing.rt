//! Reading a script from its text.

ghost use Rattle.std.specs.Prelude.{◌≡◌, ◌≤◌, ◌<◌, ◌+◌, ◌^◌, length, fold, Some, IfOk, IfErr, OnOk, OnErr};
ghost use Rattle.std.specs.Option.{option_copied};
ghost use Rattle.volume_model.specs.Scripts.{commands_in};
ghost use Rattle.script_lang.specs.Commands.{count_of_pages, is_page as page_said};
ghost use Rattle.script_lang.specs.Parts.{parts, size_left};
ghost use Rattle.script_lang.specs.Script.{lines as lines_said, reads, with_request, Why, RefusesText};

use crate::fault::{LineFault, LineKind, ScriptFault};
use crate::line::{LineRequest, read_line};
use crate::parts::TextParts;
use out_of_memory::Memory;
use std::alloc::Global;
use volume_model::{Command, Script};

/// The most bytes that a script may have.
const MAX_BYTES: usize = 1 << 20;

/// The most lines that a script may have.
const MAX_LINES: u32 = 1 << 16;

/// The most pages that a script may read and write.
const MAX_PAGES: usize = 1 << 16;

/// The lines of a text; the last may lack its LF.
fn lines(text: &[u8]) -> TextParts<'_>
    ensures lines { parts result.separator (option_copied result.rest) ≡ lines_said text.now }
    ensures size { size_left (option_copied result.rest) ≤ length text.now + 1 }
{
    let rest = match text {
        [] => None,
        [body @ .., b'\n'] => Some(body),
        _ => Some(text),
    };
    TextParts {
        rest,
        separator: b'\n',
    }
}

fn is_page(command: &Command) -> bool
    ensures { result ≡ page_said command.now }
{
    matches!(command, Command::Write { .. } | Command::Read { .. })
}

/// How many pages commands read and write.
fn pages_of(commands: &[Command]) -> usize
    ensures { result ≡ count_of_pages commands.now }
{
    let mut pages = 0;
    for command in commands {
        if is_page(command) {
            pages += 1;
        }
    }
    pages
}

/// Appends a request's commands to those of its channel.
fn push_request(alloc: Global, script: &mut Script, request: LineRequest) -> Result<(), Memory>
    requires channel { request.channel < 16 }
    requires room { commands_in script.old + length request.commands ≤ 131071 }
    ensures ok { OnOk result (script.new ≡ with_request script.old request) }
    ensures more { OnOk result (commands_in script.new ≡ commands_in script.old + length request.commands) }
{
    let mut commands = request.commands;
    let mut left = commands.take_all(alloc).into_iter();
    while let Some(command) = left.next() {
        script.push(request.channel, command)?;
    }
    Ok(())
}

/// The script of a text of at most 1,048,576 bytes, on at most 65,536 lines, which reads and writes at most 65,536
/// pages. Lines end with LF, the last may lack it. A line that is empty or begins with `#` asks for nothing; another is
/// words with one space between any two: a channel, a verb and the verb's words.
///
/// `BadLine` names the first line that is outside the grammar, or with which a limit is passed (`Limit`).
pub fn parse(alloc: Global, text: &[u8]) -> Result<Script, ScriptFault>
    ensures found { IfOk result (λ script. reads text.now ≡ Some script) }
    ensures few { IfOk result (λ script. commands_in script ≤ 131071) }
    ensures within { IfOk result (λ script. length text.now ≤ 2 ^ 20) }
    ensures refused { IfErr result (RefusesText text.now) }
    ensures why { IfErr result (Why text.now) }
{
    if text.len() > MAX_BYTES {
        return Err(ScriptFault::TooBig);
    }
    let mut lines = lines(text);
    let mut script = Script::new(alloc);
    let mut number = 0;
    let mut pages = 0;
    while let Some(line) = lines.next_part() {
        number += 1;
        if number > MAX_LINES {
            return Err(ScriptFault::BadLine {
                line: number,
                kind: LineKind::Limit,
            });
        }
        let request = match read_line(alloc, line) {
            Ok(request) => request,
            Err(LineFault::Bad(kind)) => return Err(ScriptFault::BadLine { line: number, kind }),
            Err(LineFault::Memory) => return Err(ScriptFault::Memory),
        };
        let more = pages_of(request.commands.as_slice());
        if more > MAX_PAGES - pages {
            return Err(ScriptFault::BadLine {
                line: number,
                kind: LineKind::Limit,
            });
        }
        pages += more;
        push_request(alloc, &mut script, request)?;
    }
    Ok(script)
}
