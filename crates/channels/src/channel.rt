//! A channel, and the message that it has still to send.

use crate::own_turn::own_turn;
use data_path::Stage;
use md_queue::Outbox;
use md_thread::{Next, Turn};
use page_disk::PageDisk;
use std::marker::Model;
use store_core::{Plant, RowStage};
use volume_model::Msg;

/// A channel of a running store. What it is at stands in its row of the store; of its own it has the serial of the
/// message that it has still to send, and whether it has ended.
#[derive(Clone, Copy)]
pub struct Channel {
    channel: u8,
    unsent: Option<u64>,
    ended: bool,
}

impl Model for Channel {
    ghost use Rattle.channels.specs.ChannelState.{ChannelState};

    ghost Value = { ChannelState };

    ghost view = { λ c. record { channel = c.channel; unsent = c.unsent; ended = c.ended } };

    ghost inverse = { λ c. record { channel = c.channel; unsent = c.unsent; ended = c.ended } };
}

impl Channel {
    ghost use Rattle.std.specs.Prelude.{◌≡◌, ◌<◌, ◌↔◌, ℕ, ◌++◌, ◌∷◌, [], Some, None};
    ghost use Rattle.md_thread.specs.Leading.{TurnsOnceOrStays};
    ghost use Rattle.md_thread.specs.declared.state.Next.TheVariants as next;
    ghost use Rattle.md_thread.specs.declared.state.Turn.TheVariants.{Idle, Moved};
    ghost use Rattle.channels.specs.ChannelState.{channel_at, has_ended_at, message_of, next_step_of, sent_at};
    ghost use Rattle.channels.specs.ChannelSteps.{IsHeldUp, TurnsOrPosts};
    ghost use Rattle.running_store.specs.Stages.{is_stage};
    ghost use Rattle.running_store.specs.StoreView.{rows_of, state_of};
    ghost use Rattle.volume_model.specs.declared.reply.Msg.{Msg as AMsg};

    /// The channel of this number, whose row is at this stage: where it is posted, its message is still to be sent.
    pub fn new(channel: u8, stage: RowStage) -> Channel
        ensures { result ≡ channel_at channel stage }
    {
        let unsent = match stage {
            RowStage::Posted(msg) => Some(msg.serial),
            _ => None,
        };
        Channel {
            channel,
            unsent,
            ended: matches!(stage, RowStage::Ended),
        }
    }

    /// The channel of this number, whose row is posted, and whose message is sent.
    pub fn sent(channel: u8) -> Channel
        ensures { result ≡ sent_at channel }
    {
        Channel {
            channel,
            unsent: None,
            ended: false,
        }
    }

    /// What its next step is made on: the queue, where it has a message to send, and else the store, until it has
    /// ended.
    pub fn next(&self) -> Next
        ensures { result ≡ next_step_of self.now }
    {
        match self.unsent {
            Some(_) => Next::Queue,
            None if self.ended => Next::Ended,
            None => Next::Plant,
        }
    }

    /// Makes the turn that its row's stage names, and no other. `Idle` comes exactly where its blob is frozen, its
    /// request is at the metadata thread, or it has ended: the store is as it was.
    pub fn turn<D: PageDisk>(&mut self, plant: &mut Plant<D>) -> Turn
        requires next { next_step_of self.old ≡ next.Plant }
        requires low { self.old.channel < 16 }
        ensures moved { result ≡ Moved → TurnsOrPosts D.tells (state_of D.PageDisk plant.old.at)
            (state_of D.PageDisk plant.new.at) self.old.channel self.new.unsent }
        ensures idle { result ≡ Idle → IsHeldUp (state_of D.PageDisk plant.old.at) self.old.channel }
        ensures unchanged { result ≡ Idle → (plant.new ≡ plant.old) × (self.new.unsent ≡ None) }
        ensures leads { TurnsOnceOrStays D.tells (state_of D.PageDisk plant.old.at) (state_of D.PageDisk plant.new.at) }
        ensures ended { self.new.ended ≡ has_ended_at (is_stage (rows_of plant.new.at.rows self.old.channel)
            self.old.channel) }
        ensures channel { self.new.channel ≡ self.old.channel }
        ensures opening { plant.new.opening ≡ plant.old.opening }
        ensures right { plant.new.right ≡ plant.old.right }
    {
        let turn = match own_turn(plant, self.channel) {
            Stage::Waiting => Turn::Idle,
            Stage::Again | Stage::Logged => Turn::Moved,
            Stage::Send(msg) => {
                self.unsent = Some(msg.serial);
                Turn::Moved
            }
        };
        self.ended = matches!(plant.stage(self.channel), RowStage::Ended);
        turn
    }

    /// Sends its message. `Idle` comes only where the queue was full at some moment of the call: the message is kept,
    /// to be sent by a later step.
    pub fn send<O: Outbox>(&mut self, out: &mut O) -> Turn
        requires next { next_step_of self.old ≡ next.Queue }
        requires serves { O.serves out.old self.old.channel }
        ensures sent { (msg : AMsg) → result ≡ Moved → message_of self.old ≡ Some msg
            → O.accepts out.old msg out.new × (O.messages out.new ≡ O.messages out.old ++ msg ∷ []) }
        ensures emptied { result ≡ Moved → self.new ≡ record self.old { unsent = None } }
        ensures serves { result ≡ Moved → (channel : ℕ) → O.serves out.old channel ↔ O.serves out.new channel }
        ensures full { result ≡ Idle → O.was_full out.old }
        ensures unchanged { result ≡ Idle → (out.new ≡ out.old) × (self.new ≡ self.old) }
    {
        let Some(serial) = self.unsent else {
            return Turn::Idle;
        };
        let msg = Msg {
            channel: self.channel,
            serial,
        };
        if out.send(msg).is_err() {
            return Turn::Idle;
        }
        self.unsent = None;
        Turn::Moved
    }
}
