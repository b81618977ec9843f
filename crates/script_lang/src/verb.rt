//! The verbs of a script, and the forms of the words that follow each.

ghost use Rattle.std.specs.Prelude.{◌≡◌, ◌≤◌, length};
ghost use Rattle.script_lang.specs.Verbs.{name_of, is_verb, verb_in, forms_of, takes as takes_said, optional_words};

use crate::form::Form;

/// What a line asks for.
#[derive(Clone, Copy, Debug, PartialEq, Eq)]
pub enum Verb {
    Create,
    Write,
    Read,
    Flush,
    SetX,
    DelX,
    GetX,
    Put,
    Sync,
    Resize,
    Snapshot,
    Clone,
    Inflate,
    Decouple,
    Delete,
    Rename,
    ReadOnly,
    Info,
    List,
    Df,
}

/// All verbs.
const VERBS: [Verb; 20] = [
    Verb::Create,
    Verb::Write,
    Verb::Read,
    Verb::Flush,
    Verb::SetX,
    Verb::DelX,
    Verb::GetX,
    Verb::Put,
    Verb::Sync,
    Verb::Resize,
    Verb::Snapshot,
    Verb::Clone,
    Verb::Inflate,
    Verb::Decouple,
    Verb::Delete,
    Verb::Rename,
    Verb::ReadOnly,
    Verb::Info,
    Verb::List,
    Verb::Df,
];

impl Verb {
    /// The word that it is.
    pub fn name(self) -> &'static [u8]
        ensures { result.now ≡ name_of self }
    {
        match self {
            Verb::Create => b"create",
            Verb::Write => b"write",
            Verb::Read => b"read",
            Verb::Flush => b"flush",
            Verb::SetX => b"setx",
            Verb::DelX => b"delx",
            Verb::GetX => b"getx",
            Verb::Put => b"put",
            Verb::Sync => b"sync",
            Verb::Resize => b"resize",
            Verb::Snapshot => b"snapshot",
            Verb::Clone => b"clone",
            Verb::Inflate => b"inflate",
            Verb::Decouple => b"decouple",
            Verb::Delete => b"delete",
            Verb::Rename => b"rename",
            Verb::ReadOnly => b"readonly",
            Verb::Info => b"info",
            Verb::List => b"list",
            Verb::Df => b"df",
        }
    }

    /// Whether a word is this verb.
    fn is(self, word: &[u8]) -> bool
        ensures { result ≡ is_verb word.now self }
    {
        self.name() == word
    }

    /// The verb that a word is.
    #[tactic(auto, unfolding(crate::specs::Verbs::verb_in))]
    pub fn of(word: &[u8]) -> Option<Verb>
        ensures { result ≡ verb_in word.now }
    {
        VERBS.iter().find(|verb| verb.is(word)).copied()
    }

    /// The forms of the words that follow it.
    pub fn forms(self) -> &'static [Form]
        ensures forms { result.now ≡ forms_of self }
        ensures few { length result.now ≤ 4 }
    {
        match self {
            Verb::Create => &[Form::Name, Form::Number, Form::Thickness, Form::Uuid],
            Verb::Write => &[Form::Volume, Form::Number, Form::Count, Form::Number],
            Verb::Read => &[Form::Volume, Form::Number, Form::Count],
            Verb::SetX | Verb::Put => &[Form::Volume, Form::Key, Form::Value],
            Verb::DelX | Verb::GetX => &[Form::Volume, Form::Key],
            Verb::Resize => &[Form::Volume, Form::Number],
            Verb::Snapshot | Verb::Clone | Verb::Rename => &[Form::Volume, Form::Name],
            Verb::Sync
            | Verb::Inflate
            | Verb::Decouple
            | Verb::Delete
            | Verb::ReadOnly
            | Verb::Info => &[Form::Volume],
            Verb::Flush | Verb::List | Verb::Df => &[],
        }
    }

    /// How many of these words may be left out at the end: the uuid of a volume that is made.
    fn optional_words(self) -> usize
        ensures { result ≡ optional_words self }
    {
        match self {
            Verb::Create => 1,
            _ => 0,
        }
    }

    /// Whether it is followed by so many words.
    pub fn takes(self, words: usize) -> bool
        ensures { result ≡ takes_said self words }
    {
        let forms = self.forms().len();
        words <= forms && forms - words <= self.optional_words()
    }
}
