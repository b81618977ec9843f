//! What the lines of a script ask for.

use crate::attributes::Attribute;

/// What one command asks for. A volume is told by the letter that is its name.
#[derive(Clone, Copy)]
pub enum Ask {
    Create { name: u8, slots: u64, thick: bool },
    Resize { name: u8, slots: u64 },
    Write { name: u8, page: u64, word: u64 },
    Read { name: u8, page: u64 },
    Flush,
    Set { name: u8, attribute: Attribute },
    Put { name: u8, attribute: Attribute },
    Remove { name: u8, key: u8 },
    Get { name: u8, key: u8 },
    Sync { name: u8 },
    Snapshot { name: u8, new: u8 },
    Clone { name: u8, new: u8 },
    Rename { name: u8, new: u8 },
    Delete { name: u8 },
    Inflate { name: u8 },
    Decouple { name: u8 },
    ReadOnly { name: u8 },
    Info { name: u8 },
    List,
    Df,
}

impl Ask {
    /// Where the name stands of the volume that is meant or made, if it is one.
    fn name_place(&mut self) -> Option<&mut u8> {
        match self {
            Ask::Create { name, .. }
            | Ask::Resize { name, .. }
            | Ask::Write { name, .. }
            | Ask::Read { name, .. }
            | Ask::Set { name, .. }
            | Ask::Put { name, .. }
            | Ask::Remove { name, .. }
            | Ask::Get { name, .. }
            | Ask::Sync { name }
            | Ask::Snapshot { name, .. }
            | Ask::Clone { name, .. }
            | Ask::Rename { name, .. }
            | Ask::Delete { name }
            | Ask::Inflate { name }
            | Ask::Decouple { name }
            | Ask::ReadOnly { name }
            | Ask::Info { name } => Some(name),
            Ask::Flush | Ask::List | Ask::Df => None,
        }
    }

    /// The volume that is meant or made, if it is one.
    pub fn name(&self) -> Option<u8> {
        let mut ask = *self;
        match ask.name_place() {
            Some(name) => Some(*name),
            None => None,
        }
    }

    /// The word of its verb.
    pub fn verb(&self) -> &'static str {
        match self {
            Ask::Create { .. } => "create",
            Ask::Resize { .. } => "resize",
            Ask::Write { .. } => "write",
            Ask::Read { .. } => "read",
            Ask::Flush => "flush",
            Ask::Set { .. } => "setx",
            Ask::Put { .. } => "put",
            Ask::Remove { .. } => "delx",
            Ask::Get { .. } => "getx",
            Ask::Sync { .. } => "sync",
            Ask::Snapshot { .. } => "snapshot",
            Ask::Clone { .. } => "clone",
            Ask::Rename { .. } => "rename",
            Ask::Delete { .. } => "delete",
            Ask::Inflate { .. } => "inflate",
            Ask::Decouple { .. } => "decouple",
            Ask::ReadOnly { .. } => "readonly",
            Ask::Info { .. } => "info",
            Ask::List => "list",
            Ask::Df => "df",
        }
    }

    /// Whether a new volume comes of it.
    pub fn makes(&self) -> bool {
        matches!(
            self,
            Ask::Create { .. } | Ask::Snapshot { .. } | Ask::Clone { .. }
        )
    }

    /// The same of another volume.
    pub fn of(self, other: u8) -> Ask {
        let mut ask = self;
        if let Some(name) = ask.name_place() {
            *name = other;
        }
        ask
    }

    /// What the command with this number asks for, from 0, of those that its line is.
    pub fn nth(self, at: u64) -> Ask {
        match self {
            Ask::Write { name, page, word } => Ask::Write {
                name,
                page: page.wrapping_add(at),
                word: word.wrapping_add(at),
            },
            Ask::Read { name, page } => Ask::Read {
                name,
                page: page.wrapping_add(at),
            },
            other => other,
        }
    }
}
