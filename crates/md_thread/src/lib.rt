//! The metadata thread, a step at a time: it takes a message, or makes one turn of the store.
#![tactic(auto)]

mod ending;
mod filling;
mod serving;
mod state;
mod tasks;

pub use ending::{fill_row_is_over, have_ended};
pub use state::{MdState, Next, Turn};
