//! The channels with which a run of a store begins.

ghost use Rattle.std.specs.Prelude.{◌≡◌};
ghost use Rattle.channels.specs.ChannelState.{starting_at};
ghost use Rattle.channels.specs.Driving.{AreStarting};
ghost use Rattle.running_store.specs.Stages.{is_stage};
ghost use Rattle.running_store.specs.StoreView.{rows_of};

use crate::channel::Channel;
use page_disk::PageDisk;
use store_core::{Plant, RowStage};

/// A channel at the stage of its row. The message of the command that slots are filled for is sent.
fn channel_on<D: PageDisk>(plant: &Plant<D>, channel: u8) -> Channel
    ensures { result ≡ starting_at plant.now.at.filling channel
        (is_stage (rows_of plant.now.at.rows channel) channel) }
{
    match plant.filled_channel() {
        Some(filled) if filled == channel => Channel::sent(channel),
        _ => Channel::new(channel, plant.stage(channel)),
    }
}

/// The sixteen channels of a store, each at the stage of its row, by their numbers: those with which a run begins that
/// takes the store over.
pub fn channels_of<D: PageDisk>(plant: &Plant<D>) -> [Channel; 16]
    ensures { AreStarting plant.now.at.filling plant.now.at.rows result }
{
    let mut channels = [Channel::new(0, RowStage::Ended); 16];
    for channel in 0..16 {
        channels[usize::from(channel)] = channel_on(plant, channel);
    }
    channels
}
