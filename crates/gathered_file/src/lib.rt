//! A file that gathers writes: pages that lie one behind the other go to the file below in one call, and a sync with no
//! write since the last makes none.
#![tactic(auto)]

mod gathering;
mod place;

pub use gathering::GatheringFile;
