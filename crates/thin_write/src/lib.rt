//! A channel's write of a page, turn by turn: in place, or into a cluster that is claimed, filled with what the slot
//! showed, and inserted.
#![tactic(auto)]

mod writing;

pub use writing::write_turn;
