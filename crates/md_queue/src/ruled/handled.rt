//! What became of all messages.

ghost use Rattle.std.specs.Prelude.{◌≡◌, length, min};
ghost use Rattle.md_queue.specs.QueueEnds.{most_counted, IsHandled};

use super::rule::EndPass;
use crate::ends::CAPACITY;
use crate::message_list::MessageList;
use std::marker::Model;

/// What was sent, what was taken and what is left, once a line is closed: `close` alone makes one. Contracts see these
/// lists, and that they agree (`keeps`); the program stores what is left, and how many were taken.
#[derive(Drop)]
pub struct Handled {
    pub(super) pass: EndPass,
    pub(super) count: u64,
    pub(super) left: MessageList<CAPACITY>,
}

impl Model for Handled {
    ghost use Rattle.std.specs.Prelude.{◌≡◌, length, min};
    ghost use Rattle.crossbeam_queue.specs.Passes.{view as known};
    ghost use Rattle.md_queue.specs.QueueEnds.{Account, IsHandled, most_counted};

    ghost Value = { Account };

    ghost view = { λ h. record { sent = (known h.pass).joined; taken = (known h.pass).taken; left = h.left } };

    ghost invariant = { λ h.
        IsHandled (record { sent = (known h.pass).joined; taken = (known h.pass).taken; left = h.left })
        × (h.count ≡ min (length (known h.pass).taken) most_counted) };
}

impl Handled {
    /// How many messages were taken, or 2^64 - 1 where there are more.
    pub fn taken_count(&self) -> u64
        ensures count { result ≡ min (length self.now.taken) most_counted }
    {
        self.count
    }

    /// The messages that are left, the oldest first.
    pub fn left(&self) -> &MessageList<CAPACITY>
        ensures left { result.now ≡ self.now.left }
    {
        &self.left
    }

    /// A law for callers, with no code: of each channel, what was sent is what was taken of it, and then what is left
    /// of it, in order.
    pub fn keeps(&self)
        ensures handled { IsHandled self.now }
    {
        let _ = &self.left;
    }
}
