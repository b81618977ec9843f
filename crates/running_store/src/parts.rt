//! What a run leaves of a store.

ghost use Rattle.std.specs.Prelude.{◌≡◌, if◌then◌else◌};

use crate::giving_back::clear_claimed;
use crate::running::Running;
use pools::{ClusterPool, PagePool};
use super_block::{Masks, Super};
use volume_model::EntryList;

/// What a run leaves of a store: its device and super block, which says whether the store is clean; which metadata
/// pages, clusters and heads are in use; and the log.
pub struct Parts<D> {
    pub disk: D,
    pub sup: Super,
    pub masks: Masks,
    pub entries: EntryList,
}

/// The number by which a super block says whether the store is clean.
fn clean_number(is_clean: bool) -> u32
    ensures { result ≡ (if is_clean then 1 else 0) }
{
    if is_clean {
        return 1;
    }
    0
}

impl<D> Running<D> {
    ghost use Rattle.std.specs.Prelude.{◌≡◌, [], length};
    ghost use Rattle.running_store.specs.Running.{super_left};
    ghost use Rattle.running_store.specs.LoadedWhole.{without_first};
    ghost use Rattle.running_store.specs.StoreView.{rows_of};

    /// What is left of the store once the rows' claims are given back.
    pub fn into_parts(self) -> Parts<D>
        requires no_page { self.pages.claims ≡ [] }
        requires no_cluster { self.clusters.claims ≡ [] }
        ensures disk { result.disk ≡ self.disk }
        ensures sup { result.sup ≡ super_left self.is_clean self.sup }
        ensures pages { result.masks.pages ≡ self.pages.bits }
        ensures clusters { result.masks.clusters
            ≡ without_first self.clusters.bits (rows_of self.rows.items) (length self.rows.items) }
        ensures heads { result.masks.blobs ≡ self.heads }
        ensures entries { result.entries ≡ self.entries.items }
    {
        let Running {
            alloc: _,
            disk,
            mut sup,
            is_clean,
            metas: _,
            marked: _,
            chains: _,
            live: _,
            pages,
            mut clusters,
            heads: blobs,
            guards: _,
            rows,
            filling: _,
            job: _,
            serial: _,
            entries,
            logged: _,
            marks: _,
            stopped: _,
        } = self;
        clear_claimed(&mut clusters, rows.as_slice());
        sup.clean = clean_number(is_clean);
        Parts {
            disk,
            sup,
            masks: Masks {
                pages: PagePool::into_bits(pages),
                clusters: ClusterPool::into_bits(clusters),
                blobs,
            },
            entries: EntryList::from_vec(entries),
        }
    }
}
