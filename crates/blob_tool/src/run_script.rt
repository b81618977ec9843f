//! Which script is run.

use crate::generate_words::GeneratedScript;

/// Which script is run. Of one that is given each answer is printed, and of a generated one what sums them up.
#[derive(Clone, Copy, Debug, PartialEq, Eq)]
pub enum RunScript {
    /// The text of the source.
    Given,
    /// A generated one; the source isn't read.
    Generated(GeneratedScript),
}
