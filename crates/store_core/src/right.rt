//! The right to change metadata.

use std::marker::Model;
use std::sync::ledger::Blank;

/// Who has it may change the metadata and the live attributes of its store. `Plant::start` alone makes one, for the
/// store that it makes; it can't be copied. Contracts see its name, which no other right has.
#[derive(Drop)]
pub struct MdRight {
    name: Blank,
}

impl Model for MdRight {
    ghost use Rattle.std.specs.Prelude.{ℕ};

    ghost Value = { ℕ };

    ghost view = { λ r. r.name.name };
}

impl MdRight {
    ghost use Rattle.std.specs.Prelude.{◌≡◌};

    /// The right of this name.
    pub(crate) fn new(name: Blank) -> MdRight
        ensures { result ≡ name.name }
    {
        MdRight { name }
    }

    /// The right ends with its store.
    pub(crate) fn end(self) {
        let MdRight { name: _ } = self;
    }
}
