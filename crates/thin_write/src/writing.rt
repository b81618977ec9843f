//! A channel's write of a page.

ghost use Rattle.std.specs.Prelude.{◌≡◌, ◌⊎◌, ◌<◌};
ghost use Rattle.data_path.specs.declared.reading.Stage.TheVariants.{Again, Logged, Send, Waiting};
ghost use Rattle.channel_turns.specs.ChannelTurns.{IsFrozenFor};
ghost use Rattle.running_store.specs.Stages.{is_stage};
ghost use Rattle.running_store.specs.declared.rows.RowStage.TheVariants.{Claim, Write};
ghost use Rattle.running_store.specs.Steps.{gone_on, Asks, OnlyRow};
ghost use Rattle.running_store.specs.StoreView.{rows_of, state_of};
ghost use Rattle.thin_write.specs.Turns.{GoesOn, IsAtWrite, LogsWrite, OthersStay, PostsInsert};
ghost use Rattle.volume_model.specs.declared.reply.Msg.{Msg as AMsg};

use data_path::Stage;
use page_disk::PageDisk;
use store_core::{ClaimTurn, CopyTurn, Plant, RowStage, SendTurn, WriteTurn};

/// One turn of a channel's write of a page, the one that its row's stage names. `Again`: the next turn goes on with it.
/// `Send`: its cluster is filled, and this message asks for its insert; it goes on once that is decided. `Waiting`: its
/// blob is frozen where it would be written or a cluster claimed, nothing is done, and the same turn is made again.
/// `Logged`: it is logged.
pub fn write_turn<D: PageDisk>(plant: &mut Plant<D>, channel: u8) -> Stage
    requires channel { channel < 16 }
    requires stage { IsAtWrite (is_stage (rows_of plant.old.at.rows channel) channel) }
    ensures frozen { result ≡ Waiting → Asks plant.old.at channel (IsFrozenFor (state_of D.PageDisk plant.old.at)) }
    ensures stage { result ≡ Waiting → (is_stage (rows_of plant.old.at.rows channel) channel ≡ Write)
        ⊎ (is_stage (rows_of plant.old.at.rows channel) channel ≡ Claim) }
    ensures waiting { result ≡ Waiting → plant.new ≡ plant.old }
    ensures again { result ≡ Again
        → GoesOn D.PageDisk (is_stage (rows_of plant.old.at.rows channel) channel) plant.old.at plant.new.at }
    ensures sent { (msg : AMsg) → result ≡ Send msg → PostsInsert D.PageDisk
        (is_stage (rows_of plant.old.at.rows channel) channel) plant.old.at plant.new.at channel msg }
    ensures logged { result ≡ Logged
        → LogsWrite D.PageDisk (is_stage (rows_of plant.old.at.rows channel) channel) plant.old.at plant.new.at }
    ensures row { result ≡ Logged → OnlyRow plant.old.at.rows plant.new.at.rows channel
        (gone_on (rows_of plant.old.at.rows channel)) }
    ensures others { OthersStay plant.old.at.rows plant.new.at.rows channel }
    ensures job { plant.new.at.job ≡ plant.old.at.job }
    ensures opening { plant.new.opening ≡ plant.old.opening }
    ensures right { plant.new.right ≡ plant.old.right }
{
    match plant.stage(channel) {
        RowStage::Write => match plant.write_page(channel) {
            WriteTurn::Frozen => Stage::Waiting,
            WriteTurn::Empty => Stage::Again,
            WriteTurn::Logged => Stage::Logged,
        },
        RowStage::Claim => match plant.claim(channel) {
            ClaimTurn::Frozen => Stage::Waiting,
            ClaimTurn::Filled | ClaimTurn::Claimed => Stage::Again,
            ClaimTurn::Logged => Stage::Logged,
        },
        RowStage::Copy { .. } => match plant.copy_page(channel) {
            CopyTurn::Lost | CopyTurn::Copied(_) => Stage::Again,
            CopyTurn::Logged => Stage::Logged,
        },
        RowStage::Ready => match plant.send_ready(channel) {
            SendTurn::Post(msg) => Stage::Send(msg),
            SendTurn::Logged => Stage::Logged,
        },
        _ => unreachable!(),
    }
}
