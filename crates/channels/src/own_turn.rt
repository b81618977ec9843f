//! One turn of a row's channel on the store.

ghost use Rattle.std.specs.Prelude.{◌≡◌, ◌⊎◌, ◌<◌};
ghost use Rattle.volume_model.specs.declared.reply.Msg.{Msg as AMsg};
ghost use Rattle.data_path.specs.declared.reading.Stage.TheVariants.{Again, Logged, Send, Waiting};
ghost use Rattle.running_store.specs.StoreView.{state_of};
ghost use Rattle.run_moves.specs.DriverSteps.{ChannelTurn};
ghost use Rattle.channels.specs.ChannelSteps.{IsHeldUp, PostsRow};

use data_path::{Stage, read_turn};
use page_disk::PageDisk;
use store_core::{Plant, RowStage};
use thin_write::write_turn;

/// The turn that the stage of a channel's row names. `Waiting`: it can't make one now, and nothing is done.
pub(crate) fn own_turn<D: PageDisk>(plant: &mut Plant<D>, channel: u8) -> Stage
    requires low { channel < 16 }
    ensures turns { (result ≡ Again) ⊎ (result ≡ Logged)
        → ChannelTurn D.tells (state_of D.PageDisk plant.old.at) (state_of D.PageDisk plant.new.at) channel }
    ensures posts { (msg : AMsg) → result ≡ Send msg → PostsRow D.PageDisk plant.old.at plant.new.at channel msg }
    ensures waits { result ≡ Waiting → IsHeldUp (state_of D.PageDisk plant.old.at) channel }
    ensures waiting { result ≡ Waiting → plant.new ≡ plant.old }
    ensures opening { plant.new.opening ≡ plant.old.opening }
    ensures right { plant.new.right ≡ plant.old.right }
{
    plant.keeps();
    match plant.stage(channel) {
        RowStage::Read => read_turn(plant, channel),
        RowStage::Flush => {
            plant.flush(channel);
            Stage::Logged
        }
        RowStage::Meta => Stage::Send(plant.post(channel)),
        RowStage::Decided => {
            plant.settle(channel);
            Stage::Again
        }
        RowStage::Over => {
            plant.end(channel);
            Stage::Again
        }
        RowStage::Posted(_) | RowStage::InJob | RowStage::Ended => Stage::Waiting,
        RowStage::Write | RowStage::Claim | RowStage::Copy { .. } | RowStage::Ready => {
            write_turn(plant, channel)
        }
    }
}
