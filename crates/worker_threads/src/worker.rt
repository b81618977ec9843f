//! A worker: the thread of one channel.

ghost use Rattle.std.specs.Prelude.{◌≡◌, ◌<◌, Some};
ghost use Rattle.channels.specs.ChannelState.{message_of, next_step_of};
ghost use Rattle.md_queue.specs.QueueEnds.{SendsOne};
ghost use Rattle.md_thread.specs.declared.state.Next.TheVariants as next;
ghost use Rattle.md_thread.specs.declared.state.Turn.TheVariants.{Idle, Moved};
ghost use Rattle.volume_model.specs.declared.reply.Msg.{Msg as AMsg};
ghost use Rattle.worker_threads.specs.Senders.{end_of};

use crate::gate::Gate;
use crate::locked_store::GivenStore;
use crate::shared_store::SharedStore;
use channels::Channel;
use crossbeam_utils::Backoff;
use md_queue::{MdSender, Sending};
use md_thread::{Next, Turn};
use page_disk::PageDisk;
use std::sync::Wait;

/// The worker of a channel: its number, the channel, and whether its row held a claim behind the last turn.
#[derive(Drop)]
pub(crate) struct Worker {
    channel: u8,
    own: Channel,
    claimed: bool,
    ghost number: { own.channel ≡ channel },
    ghost low: { channel < 16 },
}

impl Worker {
    /// The worker of a channel, before its first step.
    pub(crate) fn new(channel: u8, own: Channel) -> Worker
        requires number { own.channel ≡ channel }
        requires low { channel < 16 }
        ensures { result.channel ≡ channel }
    {
        Worker {
            channel,
            own,
            claimed: false,
        }
    }

    /// Makes its steps, each once the gate lets it, until its channel has ended or all are to end. Its sender comes
    /// back.
    pub(crate) fn run<D: PageDisk, O: GivenStore<D>, G: Gate, R: Wait>(
        mut self,
        rt: &R,
        shared: &SharedStore<D, O>,
        gate: &G,
        sender: MdSender,
    ) -> MdSender
        requires serves { sender.channel ≡ self.channel }
        ensures { end_of result ≡ end_of sender }
    {
        let backoff = Backoff::new();
        let mut out = Sending::new(rt, sender);
        for _ in rt.forever() {
            if shared.is_to_end() {
                break;
            }
            if !gate.ask(self.channel, self.claimed) {
                backoff.snooze();
                continue;
            }
            match self.step(rt, shared, &mut out) {
                None => break,
                Some(Turn::Moved) => backoff.reset(),
                Some(Turn::Idle) => backoff.snooze(),
            }
        }
        out.into_sender()
    }

    /// One step of its channel; `None` where that has ended.
    fn step<'a, D: PageDisk, O: GivenStore<D>, R: Wait>(
        &mut self,
        rt: &R,
        shared: &SharedStore<D, O>,
        out: &mut Sending<'a, R>,
    ) -> Option<Turn>
        requires serves { out.old.channel ≡ self.old.channel }
        ensures channel { self.new.channel ≡ self.old.channel }
        ensures end { end_of out.new ≡ end_of out.old }
    {
        match self.own.next() {
            Next::Ended => None,
            Next::Queue => Some(self.send(out)),
            Next::Plant => Some(self.turn(rt, shared)),
        }
    }

    /// One turn of its channel, for which alone it takes the lock.
    fn turn<D: PageDisk, O: GivenStore<D>, R: Wait>(
        &mut self,
        rt: &R,
        shared: &SharedStore<D, O>,
    ) -> Turn
        requires next { next_step_of self.old.own ≡ next.Plant }
        ensures channel { self.new.channel ≡ self.old.channel }
    {
        let mut store = shared.store.lock(rt);
        let turn = store.turn(&mut self.own);
        self.claimed = store.holds_claim(self.channel, self.claimed);
        turn
    }

    /// Sends the message that its channel has to send; `Idle` comes where the queue was full. It has no lock.
    fn send<'a, R: Wait>(&mut self, out: &mut Sending<'a, R>) -> Turn
        requires next { next_step_of self.old.own ≡ next.Queue }
        requires serves { out.old.channel ≡ self.old.channel }
        ensures sent { (msg : AMsg) → result ≡ Moved → message_of self.old.own ≡ Some msg
            → SendsOne out.old msg out.new }
        ensures kept { result ≡ Idle → out.new ≡ out.old }
        ensures channel { self.new.channel ≡ self.old.channel }
        ensures end { end_of out.new ≡ end_of out.old }
    {
        self.own.send(out)
    }
}
