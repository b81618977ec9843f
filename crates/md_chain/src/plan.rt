//! The pages of a chain that is to be written.

use page_disk::Page;
use volume_model::ListOf;

/// A page that is to be written at a place of the metadata region.
#[derive(Clone, Copy)]
pub struct PlannedPage {
    /// Where it stands, counted from the region's first page.
    pub place: u32,
    /// Its bytes, with the sum at their end.
    pub page: Page,
}

/// The pages of a chain, from the head on.
pub type Plan = ListOf<PlannedPage>;
