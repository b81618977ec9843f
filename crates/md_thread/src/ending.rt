//! Whether a run's channels have ended, and whether slots are filled.

ghost use Rattle.std.specs.Prelude.{◌≡◌, ◌↔◌, IsTrue};
ghost use Rattle.md_thread.specs.Holding.{HaveEnded};
ghost use Rattle.run_moves.specs.DrivenStore.{message_filled_for};
ghost use Rattle.running_store.specs.Stages.{is_stage};
ghost use Rattle.running_store.specs.StoreView.{rows_of, state_of};
ghost use Rattle.running_store.specs.declared.rows.RowStage.TheVariants.{Over};
ghost use Rattle.store_model.specs.Rows.{fill_row, Ended};

use page_disk::PageDisk;
use store_core::{FILL_ROW, Plant, RowStage};
use volume_model::Msg;

/// Whether every channel has ended.
pub fn have_ended<D: PageDisk>(plant: &Plant<D>) -> bool
    ensures { IsTrue result ↔ HaveEnded plant.now.at.rows }
{
    for channel in 0..16 {
        if !has_ended(plant, channel) {
            return false;
        }
    }
    true
}

/// Whether a channel has ended.
fn has_ended<D: PageDisk>(plant: &Plant<D>, channel: u8) -> bool
    ensures { IsTrue result ↔ (rows_of plant.now.at.rows channel).stage ≡ Ended }
{
    matches!(plant.stage(channel), RowStage::Ended)
}

/// The message of the command that the fill's row works for, if that works for one.
pub(crate) fn message_filled_for<D: PageDisk>(plant: &Plant<D>) -> Option<Msg>
    ensures { result ≡ message_filled_for (state_of D.PageDisk plant.now.at) }
{
    let channel = plant.filled_channel()?;
    match plant.stage(channel) {
        RowStage::Posted(msg) => Some(msg),
        _ => None,
    }
}

/// Whether the row is unused on which slots are filled.
pub fn fill_row_is_over<D: PageDisk>(plant: &Plant<D>) -> bool
    ensures { IsTrue result ↔ (is_stage (rows_of plant.now.at.rows fill_row) fill_row ≡ Over) }
{
    matches!(plant.stage(FILL_ROW), RowStage::Over)
}
