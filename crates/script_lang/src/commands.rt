//! The commands that a verb and the values of its words make.

ghost use Rattle.std.specs.Prelude.{◌≡◌, ◌≤◌, length};
ghost use Rattle.script_lang.specs.Answered.{AnswersAsSaid};
ghost use Rattle.script_lang.specs.Commands as said;
ghost use Rattle.script_lang.specs.Forms.{listed};

use crate::fault::{LineFault, LineKind};
use crate::form::Value;
use crate::page_commands::{reading, writing};
use crate::verb::Verb;
use std::alloc::Global;
use volume_model::{Blobtext, Command, ListOf, Name, VolumeRef};

/// The command of a verb that stands alone.
fn plain(verb: Verb) -> Option<Command>
    ensures { result ≡ said.plain verb }
{
    Some(match verb {
        Verb::Flush => Command::Flush,
        Verb::List => Command::List,
        Verb::Df => Command::Df,
        _ => return None,
    })
}

/// The command of `VOL`.
fn command_on_volume(verb: Verb, volume: VolumeRef) -> Option<Command>
    ensures { result ≡ said.command_on_volume verb volume }
{
    Some(match verb {
        Verb::Sync => Command::Sync { volume },
        Verb::Inflate => Command::Inflate { volume },
        Verb::Decouple => Command::Decouple { volume },
        Verb::Delete => Command::Delete { volume },
        Verb::ReadOnly => Command::ReadOnly { volume },
        Verb::Info => Command::Info { volume },
        _ => return None,
    })
}

/// The command of `VOL NUMBER`.
fn on_slots(verb: Verb, volume: VolumeRef, slots: u64) -> Option<Command>
    ensures { result ≡ said.on_slots verb volume slots }
{
    match verb {
        Verb::Resize => Some(Command::Resize { volume, slots }),
        _ => None,
    }
}

/// The command of `VOL NAME`.
fn on_name(verb: Verb, volume: VolumeRef, name: Name) -> Option<Command>
    ensures { result ≡ said.on_name verb volume name }
{
    Some(match verb {
        Verb::Snapshot => Command::Snapshot { volume, name },
        Verb::Clone => Command::Clone { volume, name },
        Verb::Rename => Command::Rename { volume, name },
        _ => return None,
    })
}

/// The command of `VOL KEY`.
fn on_key(verb: Verb, volume: VolumeRef, key: Blobtext) -> Option<Command>
    ensures { result ≡ said.on_key verb volume key }
{
    Some(match verb {
        Verb::DelX => Command::DelX { volume, key },
        Verb::GetX => Command::GetX { volume, key },
        _ => return None,
    })
}

/// The command of `VOL KEY VALUE`.
fn on_value(verb: Verb, volume: VolumeRef, key: Blobtext, value: Blobtext) -> Option<Command>
    ensures { result ≡ said.on_value verb volume key value }
{
    Some(match verb {
        Verb::SetX => Command::SetX { volume, key, value },
        Verb::Put => Command::Put { volume, key, value },
        _ => return None,
    })
}

/// The command of `NAME NUMBER thin` or `thick`, and perhaps a uuid.
fn creation(
    verb: Verb,
    name: Name,
    slots: u64,
    thick: bool,
    uuid: Option<[u8; 16]>,
) -> Option<Command>
    ensures { result ≡ said.creation verb name slots thick uuid }
{
    match verb {
        Verb::Create => Some(Command::Create {
            name,
            slots,
            thick,
            uuid,
        }),
        _ => None,
    }
}

/// The command of a verb on a volume, with the values of the words after it.
fn command_on(
    verb: Verb,
    volume: VolumeRef,
    first: Option<Value>,
    second: Option<Value>,
    third: Option<Value>,
) -> Option<Command>
    ensures { result ≡ said.command_on verb volume (listed first second third None) }
{
    match first {
        None => command_on_volume(verb, volume),
        Some(Value::Number(slots)) => match second {
            None => on_slots(verb, volume, slots),
            Some(_second) => None,
        },
        Some(Value::Name(name)) => match second {
            None => on_name(verb, volume, name),
            Some(_second) => None,
        },
        Some(Value::Text(key)) => match second {
            None => on_key(verb, volume, key),
            Some(Value::Text(value)) => match third {
                None => on_value(verb, volume, key, value),
                Some(_third) => None,
            },
            Some(_second) => None,
        },
        Some(_first) => None,
    }
}

/// The command of a verb that makes a volume of this name, with the values of the words after it.
fn command_of_name(
    verb: Verb,
    name: Name,
    first: Option<Value>,
    second: Option<Value>,
    third: Option<Value>,
) -> Option<Command>
    ensures { result ≡ said.command_of_name verb name (listed first second third None) }
{
    let Some(Value::Number(slots)) = first else {
        return None;
    };
    let Some(Value::Thick(thick)) = second else {
        return None;
    };
    match third {
        None => creation(verb, name, slots, thick, None),
        Some(Value::Uuid(uuid)) => creation(verb, name, slots, thick, Some(uuid)),
        Some(_third) => None,
    }
}

/// The command of a verb that is one command, with the values of its words.
fn command(
    verb: Verb,
    first: Option<Value>,
    second: Option<Value>,
    third: Option<Value>,
    fourth: Option<Value>,
) -> Option<Command>
    ensures { result ≡ said.command_said verb (listed first second third fourth) }
{
    match first {
        None => plain(verb),
        Some(Value::Volume(volume)) => command_on(verb, volume, second, third, fourth),
        Some(Value::Name(name)) => command_of_name(verb, name, second, third, fourth),
        Some(_first) => None,
    }
}

/// The one command, if there is one.
fn alone(alloc: Global, command: Option<Command>) -> Result<ListOf<Command>, LineFault>
    ensures { AnswersAsSaid (said.alone command) result }
{
    let Some(command) = command else {
        return Err(LineFault::Bad(LineKind::Form));
    };
    let mut commands = ListOf::new(alloc);
    commands.push(command)?;
    Ok(commands)
}

/// The values one by one.
fn one_by_one(
    alloc: Global,
    values: ListOf<Value>,
) -> (Option<Value>, Option<Value>, Option<Value>, Option<Value>)
    requires { length values ≤ 4 }
    ensures { values ≡ listed result.0 result.1 result.2 result.3 }
{
    let mut values = values;
    let mut left = values.take_all(alloc).into_iter();
    let first = left.next();
    let second = left.next();
    let third = left.next();
    let fourth = left.next();
    (first, second, third, fourth)
}

/// The commands of a verb and the values of its words.
pub fn commands(
    alloc: Global,
    verb: Verb,
    values: ListOf<Value>,
) -> Result<ListOf<Command>, LineFault>
    requires { length values ≤ 4 }
    ensures { AnswersAsSaid (said.commands_of verb values) result }
{
    let (first, second, third, fourth) = one_by_one(alloc, values);
    match verb {
        Verb::Write => match first {
            Some(Value::Volume(volume)) => writing(alloc, volume, second, third, fourth),
            Some(_first) => Err(LineFault::Bad(LineKind::Form)),
            None => Err(LineFault::Bad(LineKind::Form)),
        },
        Verb::Read => match first {
            Some(Value::Volume(volume)) => reading(alloc, volume, second, third, fourth),
            Some(_first) => Err(LineFault::Bad(LineKind::Form)),
            None => Err(LineFault::Bad(LineKind::Form)),
        },
        verb => alone(alloc, command(verb, first, second, third, fourth)),
    }
}
