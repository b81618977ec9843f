//! A request for pages, split by clusters, and a channel's read as one turn of the running store.
#![tactic(auto)]

mod reading;
mod splitting;

pub use reading::{Stage, read_turn};
pub use splitting::{Part, PartIter, split};
