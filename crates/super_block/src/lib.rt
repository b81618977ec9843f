//! The super block of a store, the numbers that follow from it, and the layout of a new store.
#![tactic(auto)]

mod checks;
mod fault;
mod laws;
mod layout;
mod masks;
mod numbers;
mod page;
mod span;

pub use fault::{Region, SuperFault};
pub use laws::{layouts_are_placed, regions_are_placed, shared_pages};
pub use layout::Layout;
pub use masks::Masks;
pub use page::{ROWS, Super, read_super, rows_tile, write_super};
pub use span::Span;
