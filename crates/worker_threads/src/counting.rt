//! How many workers a store is run by.

ghost use Rattle.std.specs.Prelude.{◌≡◌, ◌≢◌, ◌⊎◌, ◌↔◌, ℕ, ◌<◌, ◌≤◌, ◌-◌, IsTrue};
ghost use Rattle.running_store.specs.StoreView.{rows_of};
ghost use Rattle.store_model.specs.Rows.{Ended};

use page_disk::PageDisk;
use store_core::{Plant, RowStage};

/// How many workers a store is run by: one for each channel up to the greatest that hasn't ended. A store that was
/// started has one for each channel of its script, and 0 where that has none.
pub(crate) fn count_workers<D: PageDisk>(plant: &Plant<D>) -> u8
    ensures few { result ≤ 16 }
    ensures last { (result ≡ 0) ⊎ ((rows_of plant.now.at.rows (result - 1)).stage ≢ Ended) }
    ensures above { (channel : ℕ) → result ≤ channel → channel < 16
        → (rows_of plant.now.at.rows channel).stage ≡ Ended }
{
    let mut workers = 16;
    while workers > 0 && has_ended(plant, workers - 1) {
        workers -= 1;
    }
    workers
}

/// Whether a channel has ended.
fn has_ended<D: PageDisk>(plant: &Plant<D>, channel: u8) -> bool
    ensures { IsTrue result ↔ (rows_of plant.now.at.rows channel).stage ≡ Ended }
{
    matches!(plant.stage(channel), RowStage::Ended)
}
