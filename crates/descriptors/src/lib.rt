//! Descriptors of a blob's metadata, as they stand in the body of a page.
#![tactic(auto)]

mod item;
mod longest;
mod numbers;
mod reading;
mod rows;
mod runs;
mod slot_map;
mod writing;

pub use item::{Item, ItemFault, ItemList};
pub use longest::longest_runs_are_one;
pub use reading::{one_reading, read_items};
pub use runs::{MapFault, runs_of, slot_count, slots_of};
pub use slot_map::SlotMap;
pub use writing::write_items;
