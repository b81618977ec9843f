//! The end of a line.

ghost use Rattle.std.specs.Prelude.{◌≡◌, [], length, map};
ghost use Rattle.crossbeam_queue.specs.Passes.{view, IsPassOf, ruled_capacity};
ghost use Rattle.md_queue.specs.Delivery.{receiver_view, AccountsForAll};
ghost use Rattle.md_queue.specs.Queue.{capacity};
ghost use Rattle.md_queue.specs.QueueEnds.{AreAllOf, AreOf, IsHandled};

use super::handled::Handled;
use super::receiver::MdReceiver;
use super::rule::{EndPass, JoinSender, Leaves, Line};
use super::sender::MdSender;
use super::sender_list::SenderList;
use crate::ends::CAPACITY;
use crate::message_list::MessageList;
use std::sync::Wait;

/// Closes a line, of which all ends are handed in, the senders by channels: of each channel, what was sent is what was
/// taken of it, and then what is left of it, in order. No call takes memory. The call may wait for a call of another
/// end, and there is none.
pub fn close<R: Wait>(rt: &R, senders: SenderList, receiver: MdReceiver) -> Handled
    requires all { AreAllOf senders receiver }
    ensures sent { result.sent ≡ map (λ s. s.sent) senders }
    ensures taken { result.taken ≡ receiver.taken }
    ensures handled { IsHandled result }
{
    let MdReceiver { line, pass, count } = receiver;
    let pass = join_all(&line, pass, senders);
    let (pass, left) = collect(rt, &line, pass);
    Handled { pass, count, left }
}

/// Joins the senders, by channels.
fn join_all(line: &Line, mut pass: EndPass, mut senders: SenderList) -> EndPass
    requires pass { IsPassOf line.now pass }
    requires known { view pass ≡ receiver_view (view pass).taken [] (length senders) [] }
    requires senders { AreOf pass.table_id 0 senders }
    ensures pass { IsPassOf line.now result }
    ensures known { view result ≡ receiver_view (view pass).taken [] (length senders) (map (λ s. s.sent) senders) }
{
    while let Some(sender) = senders.take_first() {
        let MdSender {
            line: _,
            pass: theirs,
        } = sender;
        line.absorb::<JoinSender>(&mut pass, theirs);
    }
    pass
}

/// Takes out what is left, once all senders were joined. There is room for it: how many messages were sent is known,
/// and how many of them were taken, and the queue held no more than `CAPACITY`.
fn collect<R: Wait>(rt: &R, line: &Line, mut pass: EndPass) -> (EndPass, MessageList<CAPACITY>)
    requires pass { IsPassOf line.now pass }
    requires room { ruled_capacity line.now ≡ capacity }
    requires known { view pass ≡ receiver_view (view pass).taken [] (view pass).channels (view pass).joined }
    requires all { (view pass).channels ≡ length (view pass).joined }
    ensures left { view result.0
        ≡ receiver_view (view pass).taken result.1 (view pass).channels (view pass).joined }
    ensures whole { AccountsForAll (view result.0) [] }
{
    let mut left = MessageList::new();
    line.len_as::<Leaves, R>(rt, &mut pass);
    for _ in rt.forever() {
        match line.pop_as::<Leaves, R>(rt, &mut pass) {
            Some(msg) => left.push(msg),
            None => return (pass, left),
        }
    }
    unreachable!()
}
