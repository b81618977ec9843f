//! How much of a running store is free.

use crate::running::Running;
use page_disk::PageDisk;
use volume_model::Df;

impl<D: PageDisk> Running<D> {
    ghost use Rattle.std.specs.Prelude.{◌≡◌};
    ghost use Rattle.super_block.specs.Faults.{IsFaultless};
    ghost use Rattle.store_model.specs.Cases.{df_of};
    ghost use Rattle.running_store.specs.Running.{view_of};
    ghost use Rattle.running_store.specs.StoreView.{state_of};

    /// How many clusters and metadata pages are clear now, and how many there are.
    pub fn df(&self) -> Df
        requires { IsFaultless self.now.sup }
        ensures { result ≡ df_of (state_of D.PageDisk (view_of self.now)) }
    {
        Df {
            free_clusters: self.clusters.clear_count(),
            clusters: self.sup.clusters(),
            free_pages: self.pages.clear_count(),
            pages: self.sup.md_len,
        }
    }
}
