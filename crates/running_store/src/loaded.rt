//! A store as it was loaded.

use blob_meta::{Chains, Metas, ReplacementList};
use super_block::{Masks, Super};

/// What a store was loaded with.
pub struct Loaded<D> {
    pub disk: D,
    pub sup: Super,
    /// The metadata of each blob, by its head, after recovery.
    pub metas: Metas,
    /// The blobs that recovery removes, as they were read.
    pub removed: Metas,
    /// The blobs with a mark, as they were read: those that recovery removes, and those that it keeps.
    pub marked: Metas,
    /// The places of each blob's chain of metadata pages, the head first, as they were read.
    pub chains: Chains,
    /// The replacements by which recovery is made lasting, in order.
    pub repairs: ReplacementList,
    /// Which metadata pages, clusters and heads are in use.
    pub masks: Masks,
    /// Whether the masks were read, and not every metadata page.
    pub quick: bool,
}
