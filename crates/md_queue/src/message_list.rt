//! Lists of a few messages that take no memory.

use std::marker::Model;
use volume_model::Msg;

/// A list of at most so many messages. Contracts see the list, the oldest message first. No call takes memory.
#[derive(Drop)]
pub struct MessageList<const ROOM: usize> {
    messages: [Msg; ROOM],
    held: usize,
}

impl<const ROOM: usize> Model for MessageList<ROOM> {
    ghost use Rattle.std.specs.Prelude.{List, ◌≤◌, take};
    ghost use Rattle.volume_model.specs.declared.reply.Msg.{Msg};

    ghost Value = { List Msg };

    ghost view = { λ list. take list.held list.messages };

    ghost invariant = { λ list. list.held ≤ ROOM };
}

impl<const ROOM: usize> MessageList<ROOM> {
    ghost use Rattle.std.specs.Prelude.{◌≡◌, ◌<◌, ◌≤◌, ◌↔◌, ◌∷◌, ◌++◌, [], IfNone, IfSome, IsTrue, IsFalse, length};

    /// No message.
    pub fn new() -> MessageList<ROOM>
        ensures { result ≡ [] }
    {
        let blank = Msg {
            channel: 0,
            serial: 0,
        };
        MessageList {
            messages: [blank; ROOM],
            held: 0,
        }
    }

    /// The messages.
    pub fn as_slice(&self) -> &[Msg]
        ensures messages { result.now ≡ self.now }
        ensures few { length result.now ≤ ROOM }
    {
        &self.messages[..self.held]
    }

    /// Whether there is room for one more.
    pub fn has_room(&self) -> bool
        ensures room { IsTrue result ↔ (length self.now < ROOM) }
        ensures full { IsFalse result → length self.now ≡ ROOM }
    {
        self.as_slice().len() < ROOM
    }

    /// A message comes behind the others.
    pub fn push(&mut self, msg: Msg)
        requires { length self.old < ROOM }
        ensures { self.new ≡ self.old ++ msg ∷ [] }
    {
        self.messages[self.held] = msg;
        self.held += 1;
    }

    /// Takes the oldest message; `None` exactly where there is none.
    pub fn take_oldest(&mut self) -> Option<Msg>
        ensures oldest { IfSome result (λ msg. self.old ≡ msg ∷ self.new) }
        ensures none { IfNone result (self.old ≡ []) }
        ensures unchanged { IfNone result (self.new ≡ self.old) }
    {
        if self.held == 0 {
            return None;
        }
        let oldest = self.messages[0];
        self.messages.copy_within(1..self.held, 0);
        self.held -= 1;
        Some(oldest)
    }
}
