//! Scripts as texts, to compare them.

use script_lang::{ScriptFault, parse};
use std::alloc::Global;
use std::process::Abort;
use std::test::Fail;
use volume_model::{Command, PageWord, Script, VolumeRef};

/// Expects that these are the bytes that are wanted.
pub fn expect(rt: &impl Abort, found: &[u8], wanted: &[u8]) {
    assert_eq!(rt; found, wanted);
}

fn push_number(into: &mut Vec<u8>, alloc: Global, number: u64) -> Result<(), Fail> {
    into.extend_from_slice(format!(in alloc; " {number}")?.as_bytes())?;
    Ok(())
}

fn push_word(into: &mut Vec<u8>, word: &[u8]) -> Result<(), Fail> {
    into.push(b' ')?;
    into.extend_from_slice(word)?;
    Ok(())
}

fn push_two_words(into: &mut Vec<u8>, first: &[u8], second: &[u8]) -> Result<(), Fail> {
    push_word(into, first)?;
    push_word(into, second)
}

fn push_volume(into: &mut Vec<u8>, alloc: Global, volume: &VolumeRef) -> Result<(), Fail> {
    match volume {
        VolumeRef::Head(head) => {
            into.extend_from_slice(format!(in alloc; " @{head}")?.as_bytes())?;
            Ok(())
        }
        VolumeRef::Named(name) => push_word(into, name.bytes()),
    }
}

fn push_digits(into: &mut Vec<u8>, alloc: Global, byte: u8) -> Result<(), Fail> {
    into.extend_from_slice(format!(in alloc; "{byte:02x}")?.as_bytes())?;
    Ok(())
}

/// Whether a new volume is thick, and its uuid, if one is given.
fn push_kind(
    into: &mut Vec<u8>,
    alloc: Global,
    thick: bool,
    uuid: &Option<[u8; 16]>,
) -> Result<(), Fail> {
    push_word(into, if thick { b"thick" } else { b"thin" })?;
    let Some(uuid) = uuid else {
        return Ok(());
    };
    into.push(b' ')?;
    for byte in uuid {
        push_digits(into, alloc, *byte)?;
    }
    Ok(())
}

/// The word of a command's verb.
fn verb(command: &Command) -> &'static [u8] {
    match command {
        Command::Create { .. } => b"create",
        Command::Write { .. } => b"write",
        Command::Read { .. } => b"read",
        Command::Flush => b"flush",
        Command::SetX { .. } => b"setx",
        Command::DelX { .. } => b"delx",
        Command::GetX { .. } => b"getx",
        Command::Put { .. } => b"put",
        Command::Sync { .. } => b"sync",
        Command::Resize { .. } => b"resize",
        Command::Snapshot { .. } => b"snapshot",
        Command::Clone { .. } => b"clone",
        Command::Inflate { .. } => b"inflate",
        Command::Decouple { .. } => b"decouple",
        Command::Delete { .. } => b"delete",
        Command::Rename { .. } => b"rename",
        Command::ReadOnly { .. } => b"readonly",
        Command::Info { .. } => b"info",
        Command::List => b"list",
        Command::Df => b"df",
    }
}

/// The volume that a command means, or the name of the one that it makes.
fn push_meant(into: &mut Vec<u8>, alloc: Global, command: &Command) -> Result<(), Fail> {
    match command {
        Command::Create { name, .. } => push_word(into, name.bytes()),
        Command::Write { volume, .. }
        | Command::Read { volume, .. }
        | Command::SetX { volume, .. }
        | Command::Put { volume, .. }
        | Command::DelX { volume, .. }
        | Command::GetX { volume, .. }
        | Command::Resize { volume, .. }
        | Command::Snapshot { volume, .. }
        | Command::Clone { volume, .. }
        | Command::Rename { volume, .. }
        | Command::Sync { volume }
        | Command::Inflate { volume }
        | Command::Decouple { volume }
        | Command::Delete { volume }
        | Command::ReadOnly { volume }
        | Command::Info { volume } => push_volume(into, alloc, volume),
        Command::Flush | Command::List | Command::Df => Ok(()),
    }
}

/// The page that a command reads or writes, or how many slots it asks for.
fn push_place(into: &mut Vec<u8>, alloc: Global, command: &Command) -> Result<(), Fail> {
    match command {
        Command::Create { slots: number, .. }
        | Command::Resize { slots: number, .. }
        | Command::Write { page: number, .. }
        | Command::Read { page: number, .. } => push_number(into, alloc, *number),
        _ => Ok(()),
    }
}

/// What stands behind the volume and the number.
fn push_rest(into: &mut Vec<u8>, alloc: Global, command: &Command) -> Result<(), Fail> {
    match command {
        Command::Create { thick, uuid, .. } => push_kind(into, alloc, *thick, uuid),
        Command::Write {
            word: PageWord::Fill(word),
            ..
        } => push_number(into, alloc, *word),
        Command::SetX { key, value, .. } | Command::Put { key, value, .. } => {
            push_two_words(into, key.bytes(), value.bytes())
        }
        Command::DelX { key, .. } | Command::GetX { key, .. } => push_word(into, key.bytes()),
        Command::Snapshot { name, .. }
        | Command::Clone { name, .. }
        | Command::Rename { name, .. } => push_word(into, name.bytes()),
        _ => Ok(()),
    }
}

/// A command: its verb, then numbers in decimal, and names, keys and values as they are.
fn push_command(into: &mut Vec<u8>, alloc: Global, command: &Command) -> Result<(), Fail> {
    push_word(into, verb(command))?;
    push_meant(into, alloc, command)?;
    push_place(into, alloc, command)?;
    push_rest(into, alloc, command)
}

/// The commands of a channel, with its number before each and `;` after each.
fn push_channel(
    into: &mut Vec<u8>,
    alloc: Global,
    channel: u8,
    commands: &[Command],
) -> Result<(), Fail> {
    let number = format!(in alloc; "{channel}")?;
    for command in commands {
        into.extend_from_slice(number.as_bytes())?;
        push_command(into, alloc, command)?;
        into.push(b';')?;
    }
    Ok(())
}

/// The commands of each channel.
pub fn told_of(alloc: Global, script: &Script) -> Result<Vec<u8>, Fail> {
    let mut into = Vec::new(alloc);
    for channel in 0..16u8 {
        push_channel(&mut into, alloc, channel, script.commands(channel))?;
    }
    Ok(into)
}

/// The line at fault and its kind, or which limit is passed.
fn fault_told(alloc: Global, fault: &ScriptFault) -> Result<Vec<u8>, Fail> {
    match fault {
        ScriptFault::BadLine { line, kind } => {
            Ok(format!(in alloc; "{line} {kind:?}")?.into_bytes())
        }
        ScriptFault::TooBig => Ok(Vec::from_slice(alloc, b"too big")?),
        ScriptFault::Memory => Ok(Vec::from_slice(alloc, b"no memory")?),
    }
}

/// What a text is as a script: its commands, or what is wrong with it.
pub fn told(alloc: Global, text: &[u8]) -> Result<Vec<u8>, Fail> {
    match parse(alloc, text) {
        Ok(script) => told_of(alloc, &script),
        Err(fault) => fault_told(alloc, &fault),
    }
}
