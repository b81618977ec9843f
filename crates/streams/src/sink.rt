//! Where printed text goes.

ghost use Rattle.std.specs.Prelude.{◌≡◌, ◌≤◌, ◌<◌, ℕ, List, Bool, IfOk, OnErr, IsTrue, length};
ghost use Rattle.streams.specs.Streams.{Caused, AppendsBytes};

/// The sink could not take the bytes.
#[derive(Clone, Copy, Debug, PartialEq, Eq)]
pub struct SinkFault;

/// Bytes that are written one piece after another.
pub trait Sink {
    /// Whether sinks of this type tell what was written to them.
    ghost tells: { Bool };

    /// All that was written.
    ghost written: { Self → List ℕ };

    /// How often a write has failed.
    ghost faults: { Self → ℕ };

    /// Appends the first bytes of the piece, and answers how many: at least one of a piece that isn't empty. After a
    /// fault nothing was written.
    fn write(&mut self, from: &[u8]) -> Result<usize, SinkFault>
        ensures within { IfOk result (λ n. n ≤ length from.now) }
        ensures moves { IfOk result (λ n. 0 < length from.now → 0 < n) }
        ensures written { IsTrue tells
            → IfOk result (λ n. AppendsBytes (written self.old) (written self.new) from.now n) }
        ensures kept { IsTrue tells → OnErr result (written self.new ≡ written self.old) }
        ensures faults { Caused (faults self.old) (faults self.new) result };
}
