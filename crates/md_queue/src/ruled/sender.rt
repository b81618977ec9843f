//! The sending end of one channel.

ghost use Rattle.std.specs.Prelude.{◌≡◌, IfErr, OnErr, OnOk};
ghost use Rattle.md_queue.specs.QueueEnds.{SendsOne, WasFull};

use super::rule::{EndPass, Line, Sends};
use std::marker::Model;
use std::sync::{Arc, Wait};
use volume_model::Msg;

/// The sending end of one channel. Contracts see which line it is of, its channel, and what it has sent; the program
/// stores none of the last two, and takes no memory for them.
#[derive(Drop)]
pub struct MdSender {
    pub(super) line: Arc<Line>,
    pub(super) pass: EndPass,
}

impl Model for MdSender {
    ghost use Rattle.std.specs.Prelude.{◌≡◌, true};
    ghost use Rattle.std.specs.Arc.{arc_value};
    ghost use Rattle.crossbeam_queue.specs.Passes.{view as known, IsPassOf, ruled_capacity};
    ghost use Rattle.md_queue.specs.Queue.{capacity};
    ghost use Rattle.md_queue.specs.QueueEnds.{Sender};

    ghost Value = { Sender };

    ghost view = { λ s. record {
      line = s.pass.table_id;
      channel = (known s.pass).channel;
      sent = (known s.pass).sent;
    } };

    ghost invariant = { λ s. IsPassOf (arc_value s.line) s.pass × ((known s.pass).is_sender ≡ true)
        × (ruled_capacity (arc_value s.line) ≡ capacity) };
}

impl MdSender {
    /// Sends a message of its channel. It comes back, with nothing changed, only where the queue was full at some
    /// moment of the call: it held `CAPACITY` messages then, and those of this channel were the last that were sent.
    /// The call may wait for a call of another end.
    pub fn send<R: Wait>(&mut self, rt: &R, msg: Msg) -> Result<(), Msg>
        requires channel { msg.channel ≡ self.old.channel }
        ensures sent { OnOk result (SendsOne self.old msg self.new) }
        ensures full { OnErr result (WasFull self.old) }
        ensures returned { IfErr result (λ back. back ≡ msg) }
        ensures unchanged { OnErr result (self.new ≡ self.old) }
    {
        self.line.push_as::<Sends, R>(rt, &mut self.pass, msg)
    }
}
