//! Lists of senders that take no memory.

ghost use Rattle.std.specs.Prelude.{◌≡◌, ◌<◌, [], ◌∷◌, ◌++◌, length, IfNone, IfSome};

use super::sender::MdSender;
use arrayvec::ArrayVec;
use std::marker::Model;

/// Up to sixteen senders, one a channel, in fixed places. Contracts see the list of them. No call takes memory.
#[derive(Drop)]
pub struct SenderList {
    places: ArrayVec<Option<MdSender>, 16>,
}

impl Model for SenderList {
    ghost use Rattle.std.specs.Prelude.{◌≡◌, List, length};
    ghost use Rattle.md_queue.specs.QueueEnds.{Sender, senders_in};

    ghost Value = { List Sender };

    ghost view = { λ list. senders_in list.places.items };

    ghost invariant = { λ list. length (senders_in list.places.items) ≡ length list.places.items };
}

impl SenderList {
    /// No sender.
    pub fn new() -> SenderList
        ensures none { result ≡ [] }
    {
        SenderList {
            places: ArrayVec::new(),
        }
    }

    /// How many senders there are.
    pub fn len(&self) -> usize
        ensures count { result ≡ length self.now }
    {
        self.places.len()
    }

    /// A sender comes behind the others.
    pub fn push(&mut self, sender: MdSender)
        requires room { length self.old < 16 }
        ensures { self.new ≡ self.old ++ sender ∷ [] }
    {
        self.places.push(Some(sender));
    }

    /// Takes the first sender out; None comes exactly where there is none.
    pub fn take_first(&mut self) -> Option<MdSender>
        ensures first { IfSome result (λ sender. self.old ≡ sender ∷ self.new) }
        ensures none { IfNone result ((self.old ≡ []) × (self.new ≡ [])) }
    {
        if self.places.is_empty() {
            return None;
        }
        self.places.remove(0)
    }
}
