//! Two threads that send, and one that takes what they send.

ghost use Rattle.std.specs.Prelude.{◌≡◌};

use md_queue::{MdReceiver, MdSender, close, make};
use std::sync::Wait;
use std::test::*;
use std::thread;
use std::thread::{Threads, join};
use volume_model::Msg;

/// How many messages each thread sends.
const COUNT: u64 = 1000;

// Sends a message, again and again until the queue takes it in.
fn send_one<R: Wait>(rt: &R, sender: &mut MdSender, msg: Msg)
    requires { msg.channel ≡ sender.old.channel }
    ensures line { sender.new.line ≡ sender.old.line }
    ensures channel { sender.new.channel ≡ sender.old.channel }
{
    for _ in rt.forever() {
        if sender.send(rt, msg).is_ok() {
            return;
        }
        thread::yield_now();
    }
}

// Sends all messages of a channel, in order.
fn send_all<R: Wait>(rt: &R, mut sender: MdSender, channel: u8) -> MdSender
    requires { sender.channel ≡ channel }
    ensures line { result.line ≡ sender.line }
    ensures channel { result.channel ≡ sender.channel }
{
    for serial in 0..COUNT {
        send_one(rt, &mut sender, Msg { channel, serial });
    }
    sender
}

// Takes a message as soon as there is one.
fn take_one<R: Wait>(rt: &R, receiver: &mut MdReceiver) -> Msg
    ensures line { receiver.new.line ≡ receiver.old.line }
    ensures channels { receiver.new.channels ≡ receiver.old.channels }
    ensures joined { receiver.new.joined ≡ receiver.old.joined }
{
    for _ in rt.forever() {
        if let Some(msg) = receiver.take(rt) {
            return msg;
        }
        thread::yield_now();
    }
    unreachable!()
}

// Takes all messages of both channels: whether each channel's came in order.
fn take_all<R: Wait>(rt: &R, mut receiver: MdReceiver) -> (MdReceiver, bool)
    ensures line { result.0.line ≡ receiver.line }
    ensures channels { result.0.channels ≡ receiver.channels }
    ensures joined { result.0.joined ≡ receiver.joined }
{
    let mut next = [0_u64; 2];
    let mut are_in_order = true;
    for _ in 0..2 * COUNT {
        let msg = take_one(rt, &mut receiver);
        match next.get_mut(usize::from(msg.channel)) {
            Some(serial) if *serial == msg.serial => *serial = serial.wrapping_add(1),
            _ => are_in_order = false,
        }
    }
    (receiver, are_in_order)
}

// Two threads send all of channels 0 and 1, and a third takes all: whether each channel's messages came in order.
fn send_and_take<R: Threads + Wait + Sync>(
    rt: &R,
    first: MdSender,
    second: MdSender,
    receiver: MdReceiver,
) -> (MdSender, MdSender, MdReceiver, bool)
    requires first { first.channel ≡ 0 }
    requires second { second.channel ≡ 1 }
    ensures first { (result.0.line ≡ first.line) × (result.0.channel ≡ 0) }
    ensures second { (result.1.line ≡ second.line) × (result.1.channel ≡ 1) }
    ensures receiver { (result.2.line ≡ receiver.line) × (result.2.channels ≡ receiver.channels)
        × (result.2.joined ≡ receiver.joined) }
{
    let (first, (second, (receiver, are_in_order))) = join(
        rt,
        move || -> MdSender
            requires { first.channel ≡ 0 }
            ensures { (result.line ≡ first.line) × (result.channel ≡ 0) }
        { send_all(rt, first, 0) },
        move || -> (MdSender, (MdReceiver, bool))
            requires { second.channel ≡ 1 }
            ensures { (result.0.line ≡ second.line) × (result.0.channel ≡ 1)
                × (result.1.0.line ≡ receiver.line) × (result.1.0.channels ≡ receiver.channels)
                × (result.1.0.joined ≡ receiver.joined) }
        { send_beside_taking(rt, second, receiver) },
    );
    (first, second, receiver, are_in_order)
}

// One thread sends all of channel 1, and another takes all messages.
fn send_beside_taking<R: Threads + Wait + Sync>(
    rt: &R,
    second: MdSender,
    receiver: MdReceiver,
) -> (MdSender, (MdReceiver, bool))
    requires { second.channel ≡ 1 }
    ensures second { (result.0.line ≡ second.line) × (result.0.channel ≡ 1) }
    ensures receiver { (result.1.0.line ≡ receiver.line) × (result.1.0.channels ≡ receiver.channels)
        × (result.1.0.joined ≡ receiver.joined) }
{
    join(
        rt,
        move || -> MdSender
            requires { second.channel ≡ 1 }
            ensures { (result.line ≡ second.line) × (result.channel ≡ 1) }
        { send_all(rt, second, 1) },
        move || -> (MdReceiver, bool)
            ensures { (result.0.line ≡ receiver.line) × (result.0.channels ≡ receiver.channels)
                × (result.0.joined ≡ receiver.joined) }
        { take_all(rt, receiver) },
    )
}

#[test]
fn each_senders_messages_come_whole_and_in_order(rt: HostRuntime) -> Result<(), Fail> {
    let (mut senders, receiver) = make(rt.alloc(), 2)?;
    let first = senders.take_first().ok_or("no sender")?;
    let second = senders.take_first().ok_or("no second sender")?;
    let (first, second, receiver, are_in_order) = send_and_take(&rt, first, second, receiver);
    assert!(rt; are_in_order);
    senders.push(first);
    senders.push(second);
    let handled = close(&rt, senders, receiver);
    assert!(rt; handled.taken_count() == 2 * COUNT);
    assert!(rt; handled.left().as_slice().is_empty());
    Ok(())
}
