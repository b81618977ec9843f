//! Guards of blobs: which are frozen, and the generation of each.
#![tactic(auto)]

mod guards;
mod laws;
mod rows;

pub use guards::Guards;
pub use laws::generations_never_repeat;
pub use out_of_memory::Memory;
