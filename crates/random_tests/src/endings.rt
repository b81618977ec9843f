//! The ways in which lines of the log end.

use std::test::Fail;

/// The ways in which a line may end that scripts are to meet: five that those of families may miss, and at last
/// three that others may miss.
const ENDINGS: [&[u8]; 14] = [
    b" too large",
    b" too long",
    b" no value",
    b" reserved",
    b" no page",
    b" ok",
    b" full",
    b" out of range",
    b" name taken",
    b" no volume",
    b" not read only",
    b" busy 2",
    b" short",
    b" no parent",
];

/// Which of the endings some line has had.
#[derive(Drop)]
pub struct Endings {
    found: [bool; 14],
}

impl Endings {
    /// None yet.
    pub fn new() -> Endings {
        Endings { found: [false; 14] }
    }

    /// Notes the endings of the lines of a log.
    pub fn note(&mut self, printed: &[u8]) {
        for (ending, is_found) in ENDINGS.iter().zip(self.found.iter_mut()) {
            if printed
                .split(|byte| *byte == b'\n')
                .any(|line| line.ends_with(ending))
            {
                *is_found = true;
            }
        }
    }

    /// Expects that some line had each of them that the scripts are to meet.
    pub fn expect_all(&self, in_family: bool) -> Result<(), Fail> {
        let wanted = if in_family {
            self.found.get(5..)
        } else {
            self.found.get(..11)
        };
        if wanted.ok_or("no endings")?.contains(&false) {
            return Err(Fail::new(format_args!("an ending is missing: {:?}", self.found)));
        }
        Ok(())
    }
}
