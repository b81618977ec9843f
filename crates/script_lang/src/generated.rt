//! The lines of a generated script, each as a text and as a command.

ghost use Rattle.std.specs.Prelude.{◌≡◌, ◌<◌, ◌++◌, decimal, OnOk, IfOk};
ghost use Rattle.script_lang.specs.Generated as said;

use itoa::Buffer;
use out_of_memory::Memory;
use std::alloc::Global;
use volume_model::{Blobtext, Command, Name, PageWord, VolumeRef};

/// What a line asks for. The name of a volume is `v` and its number.
#[derive(Clone, Copy)]
pub enum GeneratedCommand {
    Create { volume: u32 },
    Write { volume: u32, page: u32, word: u32 },
    Read { volume: u32, page: u32 },
    Flush,
    Put { volume: u32, value: u32 },
}

/// A line, and the channel that it stands in.
#[derive(Clone, Copy)]
pub struct GeneratedLine {
    pub channel: u32,
    pub command: GeneratedCommand,
}

fn push_number(number: u32, into: &mut Vec<u8>) -> Result<(), Memory>
    ensures { OnOk result (into.new.items ≡ into.old.items ++ decimal number) }
{
    into.extend_from_slice(Buffer::new().format(number).as_bytes())?;
    Ok(())
}

/// Appends the name of a volume.
fn push_volume(volume: u32, into: &mut Vec<u8>) -> Result<(), Memory>
    ensures { OnOk result (into.new.items ≡ into.old.items ++ said.volume_name volume) }
{
    into.push(b'v')?;
    push_number(volume, into)
}

/// Appends ` create vV 8 thin`.
fn push_create(volume: u32, into: &mut Vec<u8>) -> Result<(), Memory>
    ensures { OnOk result (into.new.items ≡ into.old.items ++ said.words_of (GeneratedCommand.Create volume)) }
{
    into.extend_from_slice(b" create ")?;
    push_volume(volume, into)?;
    into.extend_from_slice(b" 8 thin")?;
    Ok(())
}

/// Appends ` write vV P 1 W`.
fn push_write(volume: u32, page: u32, word: u32, into: &mut Vec<u8>) -> Result<(), Memory>
    ensures { OnOk result
        (into.new.items ≡ into.old.items ++ said.words_of (GeneratedCommand.Write volume page word)) }
{
    into.extend_from_slice(b" write ")?;
    push_volume(volume, into)?;
    into.push(b' ')?;
    push_number(page, into)?;
    into.extend_from_slice(b" 1 ")?;
    push_number(word, into)
}

/// Appends ` read vV P 1`.
fn push_read(volume: u32, page: u32, into: &mut Vec<u8>) -> Result<(), Memory>
    ensures { OnOk result (into.new.items ≡ into.old.items ++ said.words_of (GeneratedCommand.Read volume page)) }
{
    into.extend_from_slice(b" read ")?;
    push_volume(volume, into)?;
    into.push(b' ')?;
    push_number(page, into)?;
    into.extend_from_slice(b" 1")?;
    Ok(())
}

/// Appends ` put vV k t:N`.
fn push_put(volume: u32, value: u32, into: &mut Vec<u8>) -> Result<(), Memory>
    ensures { OnOk result (into.new.items ≡ into.old.items ++ said.words_of (GeneratedCommand.Put volume value)) }
{
    into.extend_from_slice(b" put ")?;
    push_volume(volume, into)?;
    into.extend_from_slice(b" k t:")?;
    push_number(value, into)
}

/// The name of a volume.
fn name(volume: u32) -> Name
    requires { volume < 4 }
    ensures { result ≡ said.volume_name volume }
{
    Name::new(&[b'v', b'0' + volume as u8])
}

/// The text of a number.
fn number_text(alloc: Global, number: u32) -> Result<Blobtext, Memory>
    ensures { IfOk result (λ text. text ≡ decimal number) }
{
    Blobtext::new(alloc, Buffer::new().format(number).as_bytes())
}

impl GeneratedCommand {
    /// Appends the words, a space before each.
    fn push_words(self, into: &mut Vec<u8>) -> Result<(), Memory>
        ensures { OnOk result (into.new.items ≡ into.old.items ++ said.words_of self) }
    {
        match self {
            GeneratedCommand::Create { volume } => push_create(volume, into),
            GeneratedCommand::Write { volume, page, word } => push_write(volume, page, word, into),
            GeneratedCommand::Read { volume, page } => push_read(volume, page, into),
            GeneratedCommand::Flush => {
                into.extend_from_slice(b" flush")?;
                Ok(())
            }
            GeneratedCommand::Put { volume, value } => push_put(volume, value, into),
        }
    }

    /// The command itself.
    pub fn command(self, alloc: Global) -> Result<Command, Memory>
        requires { said.AreDrawn self }
        ensures { IfOk result (λ command. command ≡ said.generated_command self) }
    {
        Ok(match self {
            GeneratedCommand::Create { volume } => Command::Create {
                name: name(volume),
                slots: 8,
                thick: false,
                uuid: None,
            },
            GeneratedCommand::Write { volume, page, word } => Command::Write {
                volume: VolumeRef::Named(name(volume)),
                page: u64::from(page),
                word: PageWord::Fill(u64::from(word)),
            },
            GeneratedCommand::Read { volume, page } => Command::Read {
                volume: VolumeRef::Named(name(volume)),
                page: u64::from(page),
            },
            GeneratedCommand::Flush => Command::Flush,
            GeneratedCommand::Put { volume, value } => Command::Put {
                volume: VolumeRef::Named(name(volume)),
                key: Blobtext::new(alloc, b"k")?,
                value: number_text(alloc, value)?,
            },
        })
    }
}

impl GeneratedLine {
    /// Appends the text of the line, without its LF.
    pub fn push_text(self, into: &mut Vec<u8>) -> Result<(), Memory>
        ensures { OnOk result (into.new.items ≡ into.old.items ++ said.text_of self) }
    {
        push_number(self.channel, into)?;
        self.command.push_words(into)
    }
}
