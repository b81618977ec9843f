//! Where the text of a script comes from.

ghost use Rattle.std.specs.Prelude.{◌≡◌, ◌≤◌, ℕ, List, Bool, IfOk, OnErr, IsTrue, length};
ghost use Rattle.streams.specs.Streams.{Caused, MovesBytes};

/// The source could not be read.
#[derive(Clone, Copy, Debug, PartialEq, Eq)]
pub struct SourceFault;

/// Bytes that are read from the front to the end.
pub trait Source {
    /// Whether sources of this type tell what is left of them.
    ghost tells: { Bool };

    /// The bytes that are still to be read.
    ghost left: { Self → List ℕ };

    /// How often a read has failed.
    ghost faults: { Self → ℕ };

    /// Moves the next bytes into the head of the buffer, and answers how many. 0 for a buffer that isn't empty is
    /// the end. After a fault all that was left is still left.
    fn read(&mut self, into: &mut [u8]) -> Result<usize, SourceFault>
        ensures within { IfOk result (λ n. n ≤ length into.new) }
        ensures moved { IsTrue tells → IfOk result (λ n. MovesBytes (left self.old) (left self.new) into.new n) }
        ensures kept { IsTrue tells → OnErr result (left self.new ≡ left self.old) }
        ensures faults { Caused (faults self.old) (faults self.new) result };
}
