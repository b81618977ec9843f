//! Turns of a metadata thread.

ghost use Rattle.std.specs.Prelude.{◌≡◌};
ghost use Rattle.running_store.specs.StoreView.{state_of};
ghost use Rattle.store_model.specs.Repairing.{IsRepaired};

use md_queue::{Inbox, ListQueue, Outbox};
use md_thread::{MdState, Turn};
use page_disk::PageDisk;
use std::alloc::Global;
use store_core::{MdRight, Plant};
use volume_model::Msg;

/// A metadata thread has this message queued, and makes so many turns.
pub fn make_turns<D: PageDisk>(
    alloc: Global,
    plant: &mut Plant<D>,
    right: &mut MdRight,
    msg: Msg,
    count: u32,
)
    requires right { right.old ≡ plant.old.right }
    requires repaired { IsRepaired (state_of D.PageDisk plant.old.at) }
    ensures repaired { IsRepaired (state_of D.PageDisk plant.new.at) }
    ensures opening { plant.new.opening ≡ plant.old.opening }
    ensures right { (right.new ≡ right.old) × (plant.new.right ≡ plant.old.right) }
{
    let mut metadata = MdState::new();
    let mut queue = ListQueue::new();
    if queue.send(msg).is_err() {
        return;
    }
    for _ in 0..count {
        if let Turn::Idle = metadata.md_turn(alloc, right, plant) {
            metadata.md_take(&mut queue);
        }
    }
}
