//! What a loaded store lists of itself, in the formats that can be asked for.
#![tactic(auto)]

mod drawing;
mod format;
mod objects;
mod tree;

pub use format::{ListFormat, render_listing};
pub use objects::render_json;
