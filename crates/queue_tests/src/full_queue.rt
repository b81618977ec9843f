//! A sender from which nobody takes.

ghost use Rattle.std.specs.Prelude.{◌≡◌};

use md_queue::{MdSender, close, make};
use std::sync::Wait;
use std::test::*;
use volume_model::Msg;

// Sends the messages 0, 1 and so on of channel 0, at most so many: the first that is handed back.
fn first_refused<R: Wait>(rt: &R, sender: &mut MdSender, most: u64) -> Option<Msg>
    requires { sender.old.channel ≡ 0 }
    ensures line { sender.new.line ≡ sender.old.line }
    ensures channel { sender.new.channel ≡ 0 }
{
    for serial in 0..most {
        if let Err(back) = sender.send(rt, Msg { channel: 0, serial }) {
            return Some(back);
        }
    }
    None
}

#[test]
fn the_ninth_message_is_handed_back(rt: HostRuntime) -> Result<(), Fail> {
    let (mut senders, mut receiver) = make(rt.alloc(), 1)?;
    let mut sender = senders.take_first().ok_or("no sender")?;
    let refused = first_refused(&rt, &mut sender, 10);
    assert!(rt; refused.is_some_and(|msg| msg.serial == 8));
    let first = receiver.take(&rt);
    assert!(rt; first.is_some_and(|msg| msg.serial == 0));
    senders.push(sender);
    let handled = close(&rt, senders, receiver);
    assert!(rt; handled.taken_count() == 1);
    let left = handled.left().as_slice();
    assert!(rt; left.len() == 7);
    for (msg, serial) in left.iter().zip(1..8_u64) {
        assert!(rt; msg.channel == 0 && msg.serial == serial);
    }
    Ok(())
}
