//! A chain as it is read.

use descriptors::ItemList;
use volume_model::PlaceList;

/// The number that ends a chain.
pub(crate) const CHAIN_END: u32 = 0xFFFF_FFFF;

/// The chain of a blob's metadata pages.
#[derive(Drop)]
pub struct Chain {
    /// The places of its pages in the metadata region, from the head on.
    pub pages: PlaceList,
    /// The items of all their bodies, in order.
    pub items: ItemList,
}
