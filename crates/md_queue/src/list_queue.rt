//! The queue of one thread.

ghost use Rattle.std.specs.Prelude.{◌≡◌, []};

use crate::ends::{CAPACITY, Inbox, Outbox};
use crate::message_list::MessageList;
use std::marker::Model;
use volume_model::Msg;

/// A queue of at most `CAPACITY` messages that one thread fills and empties, so it is both ends. It serves all channels.
/// Contracts see the list of its messages, the oldest first. No call takes memory.
#[derive(Drop)]
pub struct ListQueue {
    list: MessageList<CAPACITY>,
}

impl Model for ListQueue {
    ghost use Rattle.std.specs.Prelude.{List};
    ghost use Rattle.volume_model.specs.declared.reply.Msg.{Msg};

    ghost Value = { List Msg };

    ghost view = { λ queue. queue.list };
}

impl ListQueue {
    /// An empty queue.
    pub fn new() -> ListQueue
        ensures { result ≡ [] }
    {
        ListQueue {
            list: MessageList::new(),
        }
    }
}

/// A message stands behind the others once it is sent. It is handed back exactly where `CAPACITY` are
/// held.
impl Outbox for ListQueue {
    ghost use Rattle.std.specs.Prelude.{⊤};
    ghost use Rattle.md_queue.specs.Queue.{Appends, HasNoRoom};

    ghost serves = { λ _ _. ⊤ };

    ghost messages = { λ queue. queue };

    ghost accepts = { Appends };

    ghost was_full = { HasNoRoom };

    fn send(&mut self, msg: Msg) -> Result<(), Msg> {
        if !self.list.has_room() {
            return Err(msg);
        }
        self.list.push(msg);
        Ok(())
    }
}

/// The oldest message is taken; None comes exactly where there is none.
impl Inbox for ListQueue {
    ghost use Rattle.md_queue.specs.Queue.{GivesOldest, IsEmpty};

    ghost gives = { GivesOldest };

    ghost was_empty = { IsEmpty };

    fn take(&mut self) -> Option<Msg> {
        self.list.take_oldest()
    }
}
