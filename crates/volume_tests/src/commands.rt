//! Commands that rows of a table tell.

use std::alloc::Global;
use std::test::Fail;
use volume_model::{Blobtext, Command, Memory, Name, PageWord, VolumeRef};

/// What a row does.
pub(crate) enum Verb {
    Create,
    Write,
    Read,
    Flush,
    SetX,
    DelX,
    GetX,
    Put,
    Sync,
    Resize,
    Snapshot,
    Clone,
    Inflate,
    Decouple,
    Delete,
    Rename,
    ReadOnly,
    Info,
    List,
    Df,
}

/// A verb, its volume, a number, a text, and the reply that is wanted. The number is a page, a number of slots or the
/// length of a value of so many letters `a`; the text is a name or a key.
pub(crate) type Row = (Verb, &'static str, u64, &'static str, &'static str);

fn name(text: &str) -> Name {
    match text {
        "store" => Name::new(b"store"),
        "v" => Name::new(b"v"),
        "s" => Name::new(b"s"),
        "c" => Name::new(b"c"),
        "t" => Name::new(b"t"),
        "p" => Name::new(b"p"),
        _ => Name::new(b"nobody"),
    }
}

/// The volume that a row means, by its head or by its name.
fn volume(text: &str) -> VolumeRef {
    match text {
        "@0" => VolumeRef::Head(0),
        "@1" => VolumeRef::Head(1),
        "@2" => VolumeRef::Head(2),
        "@3" => VolumeRef::Head(3),
        "@4" => VolumeRef::Head(4),
        _ => VolumeRef::Named(name(text)),
    }
}

fn letters(alloc: Global, count: u64) -> Result<Blobtext, Memory> {
    let mut text = Vec::new(alloc);
    for _ in 0..count {
        text.push(b'a')?;
    }
    Blobtext::new(alloc, &text)
}

fn on_value(alloc: Global, row: &Row) -> Result<Command, Memory> {
    let value = letters(alloc, row.2)?;
    let key = Blobtext::new(alloc, row.3.as_bytes())?;
    let volume = volume(row.1);
    Ok(match row.0 {
        Verb::Put => Command::Put { volume, key, value },
        _ => Command::SetX { volume, key, value },
    })
}

fn on_key(alloc: Global, row: &Row) -> Result<Command, Memory> {
    let key = Blobtext::new(alloc, row.3.as_bytes())?;
    let volume = volume(row.1);
    Ok(match row.0 {
        Verb::DelX => Command::DelX { volume, key },
        _ => Command::GetX { volume, key },
    })
}

fn on_volume(row: &Row) -> Command {
    let volume = volume(row.1);
    match row.0 {
        Verb::Write => Command::Write {
            volume,
            page: row.2,
            word: PageWord::Fill(7),
        },
        Verb::Read => Command::Read {
            volume,
            page: row.2,
        },
        Verb::Resize => Command::Resize {
            volume,
            slots: row.2,
        },
        Verb::Sync => Command::Sync { volume },
        Verb::Inflate => Command::Inflate { volume },
        Verb::Decouple => Command::Decouple { volume },
        Verb::Delete => Command::Delete { volume },
        Verb::ReadOnly => Command::ReadOnly { volume },
        _ => Command::Info { volume },
    }
}

fn on_name(row: &Row) -> Command {
    let name = name(row.3);
    let volume = volume(row.1);
    match row.0 {
        Verb::Snapshot => Command::Snapshot { volume, name },
        Verb::Clone => Command::Clone { volume, name },
        _ => Command::Rename { volume, name },
    }
}

/// The command of a row.
pub(crate) fn command(alloc: Global, row: &Row) -> Result<Command, Fail> {
    Ok(match row.0 {
        Verb::Create => Command::Create {
            name: name(row.3),
            slots: row.2,
            thick: false,
            uuid: Some([0x11; 16]),
        },
        Verb::Snapshot | Verb::Clone | Verb::Rename => on_name(row),
        Verb::SetX | Verb::Put => on_value(alloc, row)?,
        Verb::DelX | Verb::GetX => on_key(alloc, row)?,
        Verb::Flush => Command::Flush,
        Verb::List => Command::List,
        Verb::Df => Command::Df,
        _ => on_volume(row),
    })
}
