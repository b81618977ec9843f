//! The parts of a text between separators: the lines of a script, the words of a line.

ghost use Rattle.std.specs.Prelude.{◌≡◌, ◌==◌, ◌≤◌, position, count_by, ◌∷◌, ◌<◌, ◌+◌, [], length, Some, IfSome};
ghost use Rattle.std.specs.Prelude.{IfNone};
ghost use Rattle.std.specs.Option.{option_copied};
ghost use Rattle.script_lang.specs.Parts.{parts, size_left};

/// What is left of a text that is cut at each separator; nothing, not even an empty text, after the last part.
#[derive(Drop)]
pub struct TextParts<'a> {
    pub rest: Option<&'a [u8]>,
    pub separator: u8,
}

impl<'a> TextParts<'a> {
    /// All parts of a text.
    pub fn of(text: &'a [u8], separator: u8) -> TextParts<'a>
        ensures { parts result.separator (option_copied result.rest) ≡ parts separator (Some text.now) }
    {
        TextParts {
            rest: Some(text),
            separator,
        }
    }

    /// The next part; `None` after the last.
    pub fn next_part(&mut self) -> Option<&'a [u8]>
        ensures some { IfSome result (λ part. parts self.old.separator (option_copied self.old.rest)
            ≡ part.now ∷ parts self.new.separator (option_copied self.new.rest)) }
        ensures none { IfNone result (parts self.old.separator (option_copied self.old.rest) ≡ []) }
        ensures ended { IfNone result (parts self.new.separator (option_copied self.new.rest) ≡ []) }
        ensures shorter { IfSome result
            (λ part. size_left (option_copied self.new.rest) < size_left (option_copied self.old.rest)) }
    {
        let text = self.rest?;
        let (part, rest) = cut(text, self.separator);
        self.rest = rest;
        Some(part)
    }

    /// How many parts are left.
    pub fn count(&self) -> usize
        ensures { result ≡ length (parts self.now.separator (option_copied self.now.rest)) }
    {
        match self.rest {
            None => 0,
            Some(text) => parts_in(text, self.separator),
        }
    }
}

/// How many separators a text has.
fn separators(text: &[u8], separator: u8) -> usize
    ensures count { result ≡ count_by (λ b. b == separator) text.now }
    ensures within { result ≤ length text.now }
{
    text.iter().filter(|b| **b == separator).count()
}

/// How many parts a text has.
fn parts_in(text: &[u8], separator: u8) -> usize
    ensures { result ≡ length (parts separator (Some text.now)) }
{
    separators(text, separator) + 1
}

/// The bytes before the first separator, and those after it.
fn cut(text: &[u8], separator: u8) -> (&[u8], Option<&[u8]>)
    ensures cut { parts separator (Some text.now) ≡ result.0.now ∷ parts separator (option_copied result.1) }
    ensures shorter { size_left (option_copied result.1) < length text.now + 1 }
{
    match place_of(text, separator) {
        Some(at) => (&text[..at], Some(&text[at + 1..])),
        None => (text, None),
    }
}

/// The place of the first separator.
fn place_of(text: &[u8], separator: u8) -> Option<usize>
    ensures { result ≡ position (λ b. b == separator) text.now }
{
    text.iter().position(|b| *b == separator)
}
