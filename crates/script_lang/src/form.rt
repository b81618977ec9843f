//! The forms of words, and what a word of each says.

ghost use Rattle.std.specs.Prelude.{◌≡◌, IfOk};
ghost use Rattle.std.specs.Option.{option_copied, option_map};
ghost use Rattle.script_lang.specs.Forms.{volume_in, says_word, kind_of_form};

use crate::fault::LineKind;
use crate::words::{count, head, key, name, number, thickness, value};
use lvol_store::uuid_in;
use out_of_memory::Memory;
use std::alloc::Global;
use volume_model::{Blobtext, Name, VolumeRef};

/// The form that a word has to have.
#[derive(Clone, Copy, Debug, PartialEq, Eq)]
pub enum Form {
    /// `@` and a head page below 2^32, or a name.
    Volume,
    /// The name of a volume.
    Name,
    /// A number of at most 2^64 - 1.
    Number,
    /// A number of pages, 1 to 256.
    Count,
    /// `thin` or `thick`.
    Thickness,
    /// A uuid.
    Uuid,
    /// The name of an attribute.
    Key,
    /// The value of an attribute.
    Value,
}

/// What a word says.
#[derive(Debug, Drop)]
pub enum Value {
    Volume(VolumeRef),
    Name(Name),
    Number(u64),
    Thick(bool),
    Uuid([u8; 16]),
    Text(Blobtext),
}

/// The volume that a word names: `@` and a head below 2^32, or a name. `None` where it is neither.
pub fn read_volume(word: &[u8]) -> Option<VolumeRef>
    ensures { result ≡ volume_in word.now }
{
    match word {
        [b'@', ..] => head(word).map(VolumeRef::Head),
        _ => name(word).map(VolumeRef::Named),
    }
}

/// A text, if there is one.
fn text(alloc: Global, bytes: Option<&[u8]>) -> Result<Option<Value>, Memory>
    ensures { IfOk result (λ text. text ≡ option_map Value.Text (option_copied bytes.entry)) }
{
    match bytes {
        Some(bytes) => Ok(Some(Value::Text(Blobtext::new(alloc, bytes)?))),
        None => Ok(None),
    }
}

impl Form {
    /// What a word of this form says; `None` where it is none.
    pub fn read(self, alloc: Global, word: &[u8]) -> Result<Option<Value>, Memory>
        ensures { IfOk result (λ value. value ≡ says_word self word.now) }
    {
        Ok(match self {
            Form::Volume => read_volume(word).map(Value::Volume),
            Form::Name => name(word).map(Value::Name),
            Form::Number => number(word).map(Value::Number),
            Form::Count => count(word).map(Value::Number),
            Form::Thickness => thickness(word).map(Value::Thick),
            Form::Uuid => uuid_in(word).map(Value::Uuid),
            Form::Key => text(alloc, key(word))?,
            Form::Value => value(alloc, word)?.map(Value::Text),
        })
    }

    /// What is wrong with a word that isn't of this form.
    pub fn kind(self) -> LineKind
        ensures { result ≡ kind_of_form self }
    {
        match self {
            Form::Volume | Form::Name => LineKind::Volume,
            Form::Number | Form::Count => LineKind::Number,
            Form::Thickness => LineKind::Form,
            Form::Uuid => LineKind::Uuid,
            Form::Key | Form::Value => LineKind::KeyValue,
        }
    }
}
