//! Messages that are sent into a queue at one end, and taken out of it at the other.

use md_queue::{Inbox, ListQueue, Outbox};
use std::test::Fail;
use volume_model::Msg;

/// A message's channel and serial, and whether the queue has room for it.
type Case = (u8, u64, bool);

const CASES: [Case; 9] = [
    (3, 7, true),
    (0, 7, true),
    (3, 8, true),
    (15, 0, true),
    (1, u64::MAX, true),
    (2, 6, true),
    (2, 5, true),
    (0, 8, true),
    (4, 1, false),
];

#[test]
fn nine_are_sent_and_eight_are_taken() -> Result<(), Fail> {
    let mut queue = ListQueue::new();
    for (channel, serial, has_room) in &CASES {
        let msg = Msg {
            channel: *channel,
            serial: *serial,
        };
        let wanted = if *has_room { Ok(()) } else { Err(msg) };
        if queue.send(msg) != wanted {
            return Err(Fail::new(format_args!("serial {serial}: another answer to its sending")));
        }
    }
    for (channel, serial, was_sent) in &CASES {
        let msg = Msg {
            channel: *channel,
            serial: *serial,
        };
        let wanted = if *was_sent { Some(msg) } else { None };
        if queue.take() != wanted {
            return Err(Fail::new(format_args!("serial {serial}: another message is taken")));
        }
    }
    Ok(())
}
