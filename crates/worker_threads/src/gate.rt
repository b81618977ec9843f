//! What a worker asks before each step.

ghost use Rattle.std.specs.Prelude.{IsTrue};

/// What a worker asks before each of its steps, without the lock: while the answer is false it makes none, and asks
/// again. `claimed` says whether its row held a claim behind the last turn that it made.
pub trait Gate {
    /// Whether the worker of this channel may make a step.
    fn ask(&self, channel: u8, claimed: bool) -> bool;
}

/// Lets every step be made.
#[derive(Clone, Copy, Debug)]
pub struct OpenGate;

impl Gate for OpenGate {
    fn ask(&self, _channel: u8, _claimed: bool) -> bool
        ensures { IsTrue result }
    {
        true
    }
}
