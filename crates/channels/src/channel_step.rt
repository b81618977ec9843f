//! One step of a channel, between the store and the queue.

ghost use Rattle.std.specs.Prelude.{◌≡◌, ◌<◌};
ghost use Rattle.channels.specs.ChannelSteps.{MadeStep};
ghost use Rattle.channels.specs.Driving.{IsChannelOf};

use crate::channel::Channel;
use md_queue::ListQueue;
use md_thread::Next;
use page_disk::PageDisk;
use store_core::Plant;

/// A channel sends the message that it has, or makes its turn.
pub(crate) fn channel_step<D: PageDisk>(
    own: &mut Channel,
    plant: &mut Plant<D>,
    queue: &mut ListQueue,
)
    requires channel { IsChannelOf plant.old.at.rows own.old.channel own.old }
    requires low { own.old.channel < 16 }
    ensures step { MadeStep D.PageDisk plant.old plant.new own.old own.new queue.old queue.new }
    ensures channel { IsChannelOf plant.new.at.rows own.old.channel own.new }
    ensures opening { plant.new.opening ≡ plant.old.opening }
    ensures right { plant.new.right ≡ plant.old.right }
{
    match own.next() {
        Next::Queue => {
            own.send(queue);
        }
        Next::Plant => {
            own.turn(plant);
        }
        Next::Ended => {}
    }
}
