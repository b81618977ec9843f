//! A channel's read of a page.

ghost use Rattle.std.specs.Prelude.{◌≡◌, ◌⊎◌};
ghost use Rattle.data_path.specs.declared.reading.Stage.TheVariants.{Logged, Waiting};
ghost use Rattle.running_store.specs.declared.rows.RowStage.TheVariants.{Read};
ghost use Rattle.channel_turns.specs.ChannelTurns.{IsFrozenFor, IsOfRead};
ghost use Rattle.running_store.specs.TurnMade.{TurnsAs};
ghost use Rattle.running_store.specs.Stages.{is_stage};
ghost use Rattle.running_store.specs.Steps.{gone_on, Asks, OnlyRow};
ghost use Rattle.running_store.specs.StoreView.{rows_of, state_of};

use page_disk::PageDisk;
use store_core::{Plant, ReadTurn};
use volume_model::Msg;

/// What a turn of a channel's read or write leaves.
#[derive(Clone, Copy)]
pub enum Stage {
    /// The next turn goes on with it.
    Again,
    /// This message is to be sent.
    Send(Msg),
    /// Something else has to be done first; the same turn is made again.
    Waiting,
    /// The command is logged.
    Logged,
}

/// One turn of a channel's read of a page: it is logged, or it waits while its blob is frozen.
pub fn read_turn<D: PageDisk>(plant: &mut Plant<D>, channel: u8) -> Stage
    requires { is_stage (rows_of plant.old.at.rows channel) channel ≡ Read }
    ensures stage { (result ≡ Waiting) ⊎ (result ≡ Logged) }
    ensures frozen { result ≡ Waiting → Asks plant.old.at channel (IsFrozenFor (state_of D.PageDisk plant.old.at)) }
    ensures waiting { result ≡ Waiting → plant.new ≡ plant.old }
    ensures logged { result ≡ Logged → TurnsAs D.PageDisk IsOfRead plant.old.at plant.new.at }
    ensures row { result ≡ Logged → OnlyRow plant.old.at.rows plant.new.at.rows channel
        (gone_on (rows_of plant.old.at.rows channel)) }
    ensures job { plant.new.at.job ≡ plant.old.at.job }
    ensures opening { plant.new.opening ≡ plant.old.opening }
    ensures right { plant.new.right ≡ plant.old.right }
{
    match plant.read_page(channel) {
        ReadTurn::Frozen => Stage::Waiting,
        ReadTurn::Logged => Stage::Logged,
    }
}
