//! The two ends of a queue of messages, whether one thread has both or each has a thread of its own.

ghost use Rattle.std.specs.Prelude.{◌≡◌, ℕ, ◌↔◌, List, [], ◌∷◌, ◌++◌, IfErr, IfNone, IfSome, OnErr, OnOk};

use volume_model::Msg;

/// How many messages a queue holds at most.
pub const CAPACITY: usize = 8;

/// The end of a queue where messages are sent. Several outboxes may fill one queue, so what is promised here speaks of
/// an outbox's own messages. One that fills its queue alone says by `accepts` and `was_full` what the queue holds.
pub trait Outbox {
    ghost use Rattle.volume_model.specs.declared.reply.Msg.{Msg};

    /// The channels whose messages it sends.
    ghost serves: { Self → ℕ → Type 0 };

    /// The messages that it sent, the oldest first; where its queue is its own, those of them that the queue holds.
    ghost messages: { Self → List Msg };

    /// What it was, a message, and what it is then: that it sent the message.
    ghost accepts: { Self → Msg → Self → Type 0 };

    /// What it was before a call: that the queue was full at some moment of the call.
    ghost was_full: { Self → Type 0 };

    /// Sends a message of a channel that it serves. It hands the message back, and nothing is changed, only where the
    /// queue was full at some moment of the call.
    fn send(&mut self, msg: Msg) -> Result<(), Msg>
        requires { serves self.old msg.channel }
        ensures accepted { OnOk result (accepts self.old msg self.new) }
        ensures behind { OnOk result (messages self.new ≡ messages self.old ++ msg ∷ []) }
        ensures serves { OnOk result ((channel : ℕ) → serves self.old channel ↔ serves self.new channel) }
        ensures full { OnErr result (was_full self.old) }
        ensures returned { IfErr result (λ back. back ≡ msg) }
        ensures unchanged { OnErr result (self.new ≡ self.old) };
}

/// The end of a queue where messages are taken, the oldest first.
pub trait Inbox {
    ghost use Rattle.volume_model.specs.declared.reply.Msg.{Msg};

    /// What it was, a message, and what it is then: that it gave the message, the oldest of its queue.
    ghost gives: { Self → Msg → Self → Type 0 };

    /// What it was before a call: that the queue was empty at some moment of the call.
    ghost was_empty: { Self → Type 0 };

    /// Takes the oldest message. None, with nothing changed, comes only where the queue was empty at some moment of
    /// the call.
    fn take(&mut self) -> Option<Msg>
        ensures oldest { IfSome result (λ msg. gives self.old msg self.new) }
        ensures empty { IfNone result (was_empty self.old) }
        ensures unchanged { IfNone result (self.new ≡ self.old) };
}
