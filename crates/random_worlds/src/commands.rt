//! What is asked for, as commands of the plain machine.

use crate::asks::Ask;
use crate::attributes::{Attribute, key_text, value_of};
use lvol_store::check_name;
use std::alloc::Global;
use std::test::Fail;
use volume_model::{Blobtext, Command, Name, PageWord, VolumeRef};

/// The name that a letter tells.
fn name_of(letter: u8) -> Name {
    match check_name(&[letter]) {
        Ok(name) => name,
        Err(_) => Name::new(b"z"),
    }
}

fn volume_of(letter: u8) -> VolumeRef {
    VolumeRef::Named(name_of(letter))
}

fn value_text(alloc: Global, attribute: Attribute) -> Result<Blobtext, Fail> {
    let letters = value_of(alloc, attribute)?;
    Ok(Blobtext::new(alloc, &letters)?)
}

/// The command that sets an attribute, and that syncs, or not.
fn set(alloc: Global, name: u8, attribute: Attribute, syncs: bool) -> Result<Command, Fail> {
    let key = Blobtext::new(alloc, key_text(attribute.key).as_bytes())?;
    let value = value_text(alloc, attribute)?;
    let volume = volume_of(name);
    Ok(if syncs {
        Command::Put { volume, key, value }
    } else {
        Command::SetX { volume, key, value }
    })
}

/// The command that looks for a key, and removes its attribute, or tells it.
fn look(alloc: Global, name: u8, key: u8, removes: bool) -> Result<Command, Fail> {
    let key = Blobtext::new(alloc, key_text(key).as_bytes())?;
    let volume = volume_of(name);
    Ok(if removes {
        Command::DelX { volume, key }
    } else {
        Command::GetX { volume, key }
    })
}

/// The command that gives a name.
fn naming(ask: &Ask, name: u8, new: u8) -> Command {
    let volume = volume_of(name);
    let name = name_of(new);
    match ask {
        Ask::Snapshot { .. } => Command::Snapshot { volume, name },
        Ask::Clone { .. } => Command::Clone { volume, name },
        _ => Command::Rename { volume, name },
    }
}

/// Another command on a volume that is there.
fn on_volume(ask: &Ask, name: u8) -> Command {
    let volume = volume_of(name);
    match *ask {
        Ask::Resize { slots, .. } => Command::Resize { volume, slots },
        Ask::Write { page, word, .. } => Command::Write {
            volume,
            page,
            word: PageWord::Fill(word),
        },
        Ask::Read { page, .. } => Command::Read { volume, page },
        Ask::Sync { .. } => Command::Sync { volume },
        Ask::Delete { .. } => Command::Delete { volume },
        Ask::Inflate { .. } => Command::Inflate { volume },
        Ask::Decouple { .. } => Command::Decouple { volume },
        Ask::ReadOnly { .. } => Command::ReadOnly { volume },
        _ => Command::Info { volume },
    }
}

/// The command that asks for this.
pub fn command_of(alloc: Global, ask: &Ask) -> Result<Command, Fail> {
    let Some(name) = ask.name() else {
        return Ok(match ask {
            Ask::List => Command::List,
            Ask::Df => Command::Df,
            _ => Command::Flush,
        });
    };
    match *ask {
        Ask::Create { slots, thick, .. } => Ok(Command::Create {
            name: name_of(name),
            slots,
            thick,
            uuid: None,
        }),
        Ask::Set { attribute, .. } => set(alloc, name, attribute, false),
        Ask::Put { attribute, .. } => set(alloc, name, attribute, true),
        Ask::Remove { key, .. } => look(alloc, name, key, true),
        Ask::Get { key, .. } => look(alloc, name, key, false),
        Ask::Snapshot { new, .. } | Ask::Clone { new, .. } | Ask::Rename { new, .. } => {
            Ok(naming(ask, name, new))
        }
        _ => Ok(on_volume(ask, name)),
    }
}
