//! A request for pages, split by clusters.

ghost use Rattle.std.specs.Prelude.{◌+◌, ◌<◌, ◌^◌};
ghost use Rattle.data_path.specs.Parts.{IsSplit};

use std::marker::Model;

/// Pages of a request that lie in one cluster: `count` of them from page `first` of the slot on.
#[derive(Clone, Copy, Debug, PartialEq, Eq)]
pub struct Part {
    pub slot: u64,
    pub first: u32,
    pub count: u32,
}

/// The parts of a request, in order. Contracts see the list of those that are left.
#[derive(Drop)]
pub struct PartIter {
    page: u64,
    count: u32,
    cluster_pages: u32,
}

impl Model for PartIter {
    ghost use Rattle.std.specs.Prelude.{List, ◌<◌, ◌+◌, ◌^◌};
    ghost use Rattle.data_path.specs.declared.splitting.Part.{Part};
    ghost use Rattle.data_path.specs.Parts.{parts_of};

    ghost Value = { List Part };

    ghost view = { λ it. parts_of it.cluster_pages it.count it.page it.count };

    ghost invariant = { λ it. (0 < it.cluster_pages) × (it.page + it.count < 2 ^ 64) };
}

impl Iterator for PartIter {
    type Item = Part;

    ghost use Rattle.std.specs.Iterator.{item_count, YieldsFirst};

    ghost next_gives = { YieldsFirst (λ it. it) };

    ghost remaining = { item_count (λ it. it) };

    fn next(&mut self) -> Option<Part> {
        if self.count == 0 {
            return None;
        }
        let first = (self.page % u64::from(self.cluster_pages)) as u32;
        let count = self.count.min(self.cluster_pages - first);
        let part = Part {
            slot: self.page / u64::from(self.cluster_pages),
            first,
            count,
        };
        self.page += u64::from(count);
        self.count -= count;
        Some(part)
    }
}

/// The parts of a request for so many pages from a page on: one for each cluster that it touches.
pub fn split(page: u64, count: u32, cluster_pages: u32) -> PartIter
    requires some { 0 < cluster_pages }
    requires fits { page + count < 2 ^ 64 }
    ensures { IsSplit cluster_pages page count result }
{
    PartIter {
        page,
        count,
        cluster_pages,
    }
}
