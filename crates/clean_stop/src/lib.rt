//! The mark of a store that is in use, and the masks with which it is unloaded.
#![tactic(auto)]

mod laws;
mod masks;
mod stopping;
mod super_page;

pub use laws::unloaded_masks_are_read;
pub use stopping::{mark_dirty, unload};
