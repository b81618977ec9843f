//! The chain of metadata pages of a blob.
#![tactic(auto)]

mod chain;
mod copying;
mod fault;
mod laws;
mod packing;
mod plan;
mod planning;
mod reading;
mod size;

pub use chain::Chain;
pub use fault::ChainFault;
pub use laws::{chains, metadata_is_plannable, written_items_say};
pub use out_of_memory::Memory;
pub use plan::{Plan, PlannedPage};
pub use planning::plan_chain;
pub use reading::read_chain;
pub use size::chain_len;
