//! Runs of pages that are written one after the other: zeros, and the masks of sets.
#![tactic(auto)]

mod content;
mod writing;

pub use content::Content;
pub use writing::write_pages;
