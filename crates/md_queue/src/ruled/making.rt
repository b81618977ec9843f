//! A new line with its ends.

ghost use Rattle.std.specs.Prelude.{◌≡◌, ◌<◌, ◌≤◌, true, [], length, All, IfOk};
ghost use Rattle.std.specs.Arc.{arc_value};
ghost use Rattle.crossbeam_queue.specs.Passes.{view, IsPassOf, ruled_capacity};
ghost use Rattle.md_queue.specs.Delivery.{receiver_view};
ghost use Rattle.md_queue.specs.Queue.{capacity};
ghost use Rattle.md_queue.specs.QueueEnds.{AreAllOf, AreOf};

use super::receiver::MdReceiver;
use super::rule::{EndPass, Line, NewSender};
use super::sender::MdSender;
use super::sender_list::SenderList;
use crate::ends::CAPACITY;
use out_of_memory::Memory;
use std::alloc::Global;
use std::sync::Arc;

/// An empty queue of `CAPACITY` places with a sender for each of so many channels, from 0 on, and the one receiver:
/// all ends of a new line. `Memory` comes where there is none for the places or for what the ends share, and nothing
/// is made then. No call of an end takes memory later.
pub fn make(alloc: Global, channels: u8) -> Result<(SenderList, MdReceiver), Memory>
    requires some { 0 < channels }
    requires few { channels ≤ 16 }
    ensures all { IfOk result (λ ends. AreAllOf ends.0 ends.1) }
    ensures channels { IfOk result (λ ends. ends.1.channels ≡ channels) }
    ensures unsent { IfOk result (λ ends. All (λ s. s.sent ≡ []) ends.0) }
    ensures untaken { IfOk result (λ ends. ends.1.taken ≡ []) }
{
    let (line, pass) = Line::ruled(alloc, CAPACITY)?;
    let line = Arc::new(alloc, line)?;
    let (senders, pass) = split_all(&line, pass, channels)?;
    Ok((
        senders,
        MdReceiver {
            line,
            pass,
            count: 0,
        },
    ))
}

/// Splits a sender off the first end for each channel; the receiver's pass is left.
fn split_all(
    line: &Arc<Line>,
    mut pass: EndPass,
    channels: u8,
) -> Result<(SenderList, EndPass), Memory>
    requires few { channels ≤ 16 }
    requires pass { IsPassOf (arc_value line.now) pass }
    requires known { view pass ≡ receiver_view [] [] 0 [] }
    requires room { ruled_capacity (arc_value line.now) ≡ capacity }
    ensures pass { IfOk result (λ made. IsPassOf (arc_value line.now) made.1) }
    ensures known { IfOk result (λ made. view made.1 ≡ receiver_view [] [] channels []) }
    ensures senders { IfOk result (λ made. AreOf made.1.table_id 0 made.0) }
    ensures count { IfOk result (λ made. length made.0 ≡ channels) }
    ensures unsent { IfOk result (λ made. All (λ s. s.sent ≡ []) made.0) }
{
    let mut senders = SenderList::new();
    for _channel in 0..channels {
        let theirs = Arc::try_clone(line)?;
        let other = line.another::<NewSender>(&mut pass);
        senders.push(MdSender {
            line: theirs,
            pass: other,
        });
    }
    Ok((senders, pass))
}
