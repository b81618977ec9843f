//! The receiving end.

ghost use Rattle.std.specs.Prelude.{◌≡◌, ◌<◌, length, IfNone, IfSome};
ghost use Rattle.md_queue.specs.QueueEnds.{IsCaughtUp, JoinsOne, TakesOne};

use super::rule::{EndPass, JoinSender, Line, Takes};
use super::sender::MdSender;
use std::marker::Model;
use std::sync::{Arc, Wait};
use volume_model::Msg;

/// The receiving end. Contracts see which line it is of, for how many channels that has senders, what was taken, and
/// what each sender has sent that was joined. Of these the program stores the number of messages taken alone.
#[derive(Drop)]
pub struct MdReceiver {
    pub(super) line: Arc<Line>,
    pub(super) pass: EndPass,
    pub(super) count: u64,
}

impl Model for MdReceiver {
    ghost use Rattle.std.specs.Prelude.{◌≡◌, [], length, min};
    ghost use Rattle.std.specs.Arc.{arc_value};
    ghost use Rattle.crossbeam_queue.specs.Passes.{view as known, IsPassOf, ruled_capacity};
    ghost use Rattle.md_queue.specs.Delivery.{receiver_view};
    ghost use Rattle.md_queue.specs.Queue.{capacity};
    ghost use Rattle.md_queue.specs.QueueEnds.{Receiver, most_counted};

    ghost Value = { Receiver };

    ghost view = { λ r. record {
      line = r.pass.table_id;
      channels = (known r.pass).channels;
      taken = (known r.pass).taken;
      joined = (known r.pass).joined;
    } };

    ghost invariant = { λ r. IsPassOf (arc_value r.line) r.pass
        × (known r.pass ≡ receiver_view (known r.pass).taken [] (known r.pass).channels (known r.pass).joined)
        × (ruled_capacity (arc_value r.line) ≡ capacity)
        × (r.count ≡ min (length (known r.pass).taken) most_counted) };
}

impl MdReceiver {
    /// Takes the message at the front of the queue. None comes, with nothing changed, only where the queue was empty at
    /// some moment of the call: all that the joined senders have sent was taken then. The call may wait for a call of
    /// another end.
    pub fn take<R: Wait>(&mut self, rt: &R) -> Option<Msg>
        ensures taken { IfSome result (λ msg. TakesOne self.old msg self.new) }
        ensures empty { IfNone result (IsCaughtUp self.old) }
        ensures unchanged { IfNone result (self.new ≡ self.old) }
    {
        let msg = self.line.pop_as::<Takes, R>(rt, &mut self.pass)?;
        self.count = self.count.saturating_add(1);
        Some(msg)
    }

    /// Joins the sender of the first channel whose sender wasn't joined. From now on it is known what that has sent.
    pub fn join(&mut self, sender: MdSender)
        requires line { sender.line ≡ self.old.line }
        requires next { sender.channel ≡ length self.old.joined }
        requires apart { length self.old.joined < self.old.channels }
        ensures joined { JoinsOne self.old sender self.new }
    {
        let MdSender { line: _, pass } = sender;
        self.line.absorb::<JoinSender>(&mut self.pass, pass);
    }
}
