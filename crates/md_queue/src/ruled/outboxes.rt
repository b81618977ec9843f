//! The ends of a line beside the runtime by which their calls may wait, as an outbox and an inbox.

use super::receiver::MdReceiver;
use super::sender::MdSender;
use crate::ends::{Inbox, Outbox};
use std::marker::Model;
use std::sync::Wait;
use volume_model::Msg;

/// A sender with the runtime by which its calls may wait. Contracts see the sender.
#[derive(Drop)]
pub struct Sending<'a, R: Wait> {
    rt: &'a R,
    sender: MdSender,
}

impl<'a, R: Wait> Model for Sending<'a, R> {
    ghost use Rattle.md_queue.specs.QueueEnds.{Sender};

    ghost Value = { Sender };

    ghost view = { λ s. s.sender };
}

impl<'a, R: Wait> Sending<'a, R> {
    ghost use Rattle.std.specs.Prelude.{◌≡◌};

    /// The outbox of a sender.
    pub fn new(rt: &'a R, sender: MdSender) -> Sending<'a, R>
        ensures sender { result ≡ sender }
    {
        Sending { rt, sender }
    }

    /// The sender, as it is by now.
    pub fn into_sender(self) -> MdSender
        ensures sender { result ≡ self.entry }
    {
        self.sender
    }
}

/// It serves the sender's channel. A message is handed back only where `CAPACITY` messages were in the queue at some
/// moment of the call, those of this channel the last that were sent. A call may wait for a call of another end.
impl<'a, R: Wait> Outbox for Sending<'a, R> {
    ghost use Rattle.std.specs.Prelude.{◌≡◌};
    ghost use Rattle.md_queue.specs.QueueEnds.{SendsOne, WasFull};

    ghost serves = { λ s channel. channel ≡ s.channel };

    ghost messages = { λ s. s.sent };

    ghost accepts = { SendsOne };

    ghost was_full = { WasFull };

    fn send(&mut self, msg: Msg) -> Result<(), Msg> {
        self.sender.send(self.rt, msg)
    }
}

/// The receiver with the runtime by which its calls may wait. Contracts see the receiver.
#[derive(Drop)]
pub struct Receiving<'a, R: Wait> {
    rt: &'a R,
    receiver: MdReceiver,
}

impl<'a, R: Wait> Model for Receiving<'a, R> {
    ghost use Rattle.md_queue.specs.QueueEnds.{Receiver};

    ghost Value = { Receiver };

    ghost view = { λ r. r.receiver };
}

impl<'a, R: Wait> Receiving<'a, R> {
    ghost use Rattle.std.specs.Prelude.{◌≡◌};

    /// The inbox of the receiver.
    pub fn new(rt: &'a R, receiver: MdReceiver) -> Receiving<'a, R>
        ensures receiver { result ≡ receiver }
    {
        Receiving { rt, receiver }
    }

    /// The receiver, as it is by now.
    pub fn into_receiver(self) -> MdReceiver
        ensures receiver { result ≡ self.entry }
    {
        self.receiver
    }
}

/// None comes only where the queue was empty at some moment of the call: all that the joined senders have sent was
/// taken then. A call may wait for a call of another end.
impl<'a, R: Wait> Inbox for Receiving<'a, R> {
    ghost use Rattle.md_queue.specs.QueueEnds.{IsCaughtUp, TakesOne};

    ghost gives = { TakesOne };

    ghost was_empty = { IsCaughtUp };

    fn take(&mut self) -> Option<Msg> {
        self.receiver.take(self.rt)
    }
}
