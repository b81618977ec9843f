//! What is wrong with a text that is no script.

use out_of_memory::Memory;
use thiserror::Error;

/// What is wrong with a line.
#[derive(Clone, Copy, Debug, PartialEq, Eq)]
pub enum LineKind {
    /// A byte outside 0x20 to 0x7E, a space too many, a wrong number of words, or neither `thin` nor `thick`.
    Form,
    /// The channel.
    Channel,
    /// The verb.
    Verb,
    /// A number.
    Number,
    /// The volume, or a volume's name.
    Volume,
    /// A key or a value.
    KeyValue,
    /// A UUID.
    Uuid,
    /// A line too many, or a page too many with this line.
    Limit,
}

/// Why a line isn't taken.
#[derive(Debug, Drop)]
pub enum LineFault {
    /// This is wrong with it.
    Bad(LineKind),
    /// Memory ran out.
    Memory,
}

impl From<Memory> for LineFault {
    ghost use Rattle.std.specs.Prelude.{◌≡◌};
    ghost use Rattle.script_lang.specs.declared.fault.LineFault.TheVariants.{Memory};

    ghost from_gives = { λ _ e. e ≡ Memory };

    fn from(_want: Memory) -> LineFault {
        LineFault::Memory
    }
}

/// Why a text is no script.
#[derive(Debug, Drop, Error)]
pub enum ScriptFault {
    /// The first line, from 1, that is outside the grammar or over a limit.
    #[error("line {line}: bad {kind:?}")]
    BadLine { line: u32, kind: LineKind },
    /// More than 1,048,576 bytes.
    #[error("more than 1048576 bytes")]
    TooBig,
    /// Memory ran out.
    #[error("no memory")]
    Memory,
}

impl From<Memory> for ScriptFault {
    ghost use Rattle.std.specs.Prelude.{◌≡◌};
    ghost use Rattle.script_lang.specs.declared.fault.ScriptFault.TheVariants.{Memory};

    ghost from_gives = { λ _ e. e ≡ Memory };

    fn from(_want: Memory) -> ScriptFault {
        ScriptFault::Memory
    }
}
