//! Generated scripts: their draws, and their lines one by one.

ghost use Rattle.std.specs.Prelude.{◌≡◌, ◌+◌, ◌-◌, ◌*◌, ◌/◌, ◌%◌, ◌<◌, ◌≤◌, ◌^◌, ◌++◌, codes, length, Some, OnOk, IfOk};
ghost use Rattle.std.specs.Option.{option_map};
ghost use Rattle.volume_model.specs.Scripts.{commands_in};
ghost use Rattle.script_lang.specs.Generated as said;
ghost use Rattle.script_lang.specs.Generator as draws;
ghost use Rattle.script_lang.specs.Script.{lines, reads, requests_in, script_of, with_request};

use crate::generated::{GeneratedCommand, GeneratedLine};
use out_of_memory::Memory;
use std::alloc::Global;
use volume_model::Script;

/// The state after one draw.
#[tactic(auto, unfolding(crate::specs::Generator::after_draw))]
fn after_draw(state: u32) -> u32
    requires { state < 2 ^ 31 }
    ensures state { result ≡ draws.after_draw state }
    ensures range { result < 2 ^ 31 }
{
    ((u64::from(state) * 1103515245 + 12345) % (1 << 31)) as u32
}

/// The state after a line: writes and reads take four draws, a flush two, a put three.
fn after_line(state: u32) -> u32
    requires { state < 2 ^ 31 }
    ensures state { result ≡ draws.after_line state }
    ensures range { result < 2 ^ 31 }
{
    let second = after_draw(after_draw(state));
    let kind = second / 65536 % 8;
    if kind < 6 {
        after_draw(after_draw(second))
    } else if kind < 7 {
        second
    } else {
        after_draw(second)
    }
}

/// The line that the draws from a state make: in the order drawn, the channel, the kind of line, and what this kind
/// asks for.
fn drawn_line(state: u32) -> GeneratedLine
    requires { state < 2 ^ 31 }
    ensures line { result ≡ said.drawn_line state }
    ensures channel { result.channel < 4 }
    ensures drawn { said.AreDrawn result.command }
{
    let first = after_draw(state);
    let second = after_draw(first);
    let third = after_draw(second);
    let fourth = after_draw(third);
    let channel = first / 65536 % 4;
    let kind = second / 65536 % 8;
    let command = if kind < 4 {
        GeneratedCommand::Write {
            volume: channel,
            page: third / 65536 % 32,
            word: fourth / 65536 % 32768,
        }
    } else if kind < 6 {
        GeneratedCommand::Read {
            volume: third / 65536 % 4,
            page: fourth / 65536 % 32,
        }
    } else if kind < 7 {
        GeneratedCommand::Flush
    } else {
        GeneratedCommand::Put {
            volume: channel,
            value: third / 65536 % 1000,
        }
    };
    GeneratedLine { channel, command }
}

/// The lines of a generated script, one by one. The first four make the volumes `v0` to `v3`; each further line is made
/// of a few draws of a linear congruential generator, which begins as the script's number.
#[derive(Debug, Drop)]
pub struct Generator {
    pub number: u32,
    pub line: u32,
    state: u32,
    ghost in_range: { state < 2 ^ 31 },
    ghost is_next: { state ≡ draws.before_line number (line - 4) },
}

impl Generator {
    /// The generator of the script of this number, before its first line.
    #[tactic(auto, unfolding(crate::specs::Generator::before_line))]
    pub fn new(number: u32) -> Generator
        requires { number < 2 ^ 31 }
        ensures number { result.number ≡ number }
        ensures line { result.line ≡ 0 }
    {
        Generator {
            number,
            line: 0,
            state: number,
        }
    }

    /// Moves on to the line after the next.
    #[tactic(auto, unfolding(crate::specs::Generator::before_line))]
    pub fn skip_line(&mut self)
        requires { self.old.line < 2 ^ 32 - 1 }
        ensures number { self.new.number ≡ self.old.number }
        ensures next { self.new.line ≡ self.old.line + 1 }
    {
        let line = self.line;
        if line < 4 {
            self.line = line + 1;
        } else {
            self.state = after_line(self.state);
            self.line = line + 1;
        }
    }

    /// The next line.
    fn next_line(&self) -> GeneratedLine
        ensures line { result ≡ said.generated_line self.now.number self.now.line }
        ensures channel { result.channel < 4 }
        ensures drawn { said.AreDrawn result.command }
    {
        if self.line < 4 {
            GeneratedLine {
                channel: self.line,
                command: GeneratedCommand::Create { volume: self.line },
            }
        } else {
            drawn_line(self.state)
        }
    }

    /// Appends the next line with its LF, and moves on. After `Memory` a part of the line may stand there.
    pub fn push_line(&mut self, into: &mut Vec<u8>) -> Result<(), Memory>
        requires { self.old.line < 2 ^ 32 - 1 }
        ensures line { OnOk result (into.new.items
            ≡ into.old.items ++ said.text_of (said.generated_line self.old.number self.old.line) ++ codes "\n") }
        ensures number { self.new.number ≡ self.old.number }
        ensures next { self.new.line ≡ self.old.line + 1 }
    {
        let line = self.next_line();
        self.skip_line();
        line.push_text(into)?;
        into.push(b'\n')?;
        Ok(())
    }

    /// Appends the command of the next line to those of its channel, and moves on.
    fn push_command(&mut self, alloc: Global, script: &mut Script) -> Result<(), Memory>
        requires line { self.old.line < 2 ^ 32 - 1 }
        requires room { commands_in script.old < 131071 }
        ensures script { OnOk result (script.new
            ≡ with_request script.old (said.request_of (said.generated_line self.old.number self.old.line))) }
        ensures one_more { OnOk result (commands_in script.new ≡ commands_in script.old + 1) }
        ensures number { self.new.number ≡ self.old.number }
        ensures next { self.new.line ≡ self.old.line + 1 }
    {
        let line = self.next_line();
        self.skip_line();
        let command = line.command.command(alloc)?;
        script.push(line.channel as u8, command)
    }
}

/// Appends a line of the script of a number, from 0, with its LF: four lines make volumes, then come `size` drawn ones.
/// It draws all lines before it: a `Generator` gives all lines in the time of this for the last. After `Memory` a part
/// of the line may stand there.
pub fn generate_line(number: u32, size: u32, line: u32, into: &mut Vec<u8>) -> Result<(), Memory>
    requires number { number < 2 ^ 31 }
    requires size { size ≤ 65000 }
    requires line { line < size + 4 }
    ensures { OnOk result
        (into.new.items ≡ into.old.items ++ said.text_of (said.generated_line number line) ++ codes "\n") }
{
    let mut generator = Generator::new(number);
    for _ in 0..line {
        generator.skip_line();
    }
    generator.push_line(into)
}

/// The whole text of the script of a number: four lines that make volumes, then `size` drawn ones. They are lines of
/// the grammar, and within its limits on lines and pages; the text may have more bytes than a script may have.
pub fn generate_text(alloc: Global, number: u32, size: u32) -> Result<Vec<u8>, Memory>
    requires number { number < 2 ^ 31 }
    requires size { size ≤ 65000 }
    ensures text { IfOk result (λ text. text.items ≡ said.generated number size) }
    ensures grammar { IfOk result
        (λ text. requests_in (lines text.items) ≡ Some (said.generated_requests number (size + 4))) }
    ensures short { IfOk result (λ text. length text.items ≤ 22 * (size + 4)) }
{
    let mut text = Vec::new(alloc);
    let mut generator = Generator::new(number);
    for _ in 0..size + 4 {
        generator.push_line(&mut text)?;
    }
    Ok(text)
}

/// The script of a number: the commands of the lines of its text. Each of these lines is of the grammar, so `parse`
/// reads this script in the text, unless the text is too long for it.
pub fn generate(alloc: Global, number: u32, size: u32) -> Result<Script, Memory>
    requires number { number < 2 ^ 31 }
    requires size { size ≤ 65000 }
    ensures script { IfOk result (λ script. script ≡ script_of (said.generated_requests number (size + 4))) }
    ensures lines { IfOk result
        (λ script. option_map script_of (requests_in (lines (said.generated number size))) ≡ Some script) }
    ensures read { IfOk result (λ script. length (said.generated number size) ≤ 2 ^ 20
        → reads (said.generated number size) ≡ Some script) }
{
    let mut script = Script::new(alloc);
    let mut generator = Generator::new(number);
    for _ in 0..size + 4 {
        generator.push_command(alloc, &mut script)?;
    }
    Ok(script)
}
