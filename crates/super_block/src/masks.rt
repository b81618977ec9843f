//! The three masks of a store.

ghost use Rattle.std.specs.Prelude.{◌≡◌, IfOk};
ghost use Rattle.super_block.specs.Layout.{IsPlanned, new_masks};

use crate::laws::layouts_are_placed;
use crate::layout::Layout;
use bit_array::{Bits, Memory};
use std::alloc::Global;

/// What a store uses. Bit k of a mask is clear where k is free.
#[derive(Drop)]
pub struct Masks {
    /// One bit for each metadata page, by its place in the metadata region.
    pub pages: Bits,
    /// One bit for each cluster of the store.
    pub clusters: Bits,
    /// One bit for each metadata page, set where a live blob has its first page.
    pub blobs: Bits,
}

impl Masks {
    /// The masks of a new store with this layout: the fixed clusters are used, every metadata page is free, and there
    /// is no blob.
    pub fn new(alloc: Global, layout: &Layout) -> Result<Masks, Memory>
        requires { IsPlanned layout.now }
        ensures { IfOk result (λ masks. masks ≡ new_masks layout.now) }
    {
        layouts_are_placed();
        Ok(Masks {
            pages: Bits::new(alloc, layout.md_pages)?,
            clusters: Bits::of_first(alloc, layout.clusters, layout.fixed_clusters)?,
            blobs: Bits::new(alloc, layout.md_pages)?,
        })
    }
}
