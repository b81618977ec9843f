//! Pools of places that are in use or clear, and claims on the clear ones.
#![tactic(auto)]

mod claims;
mod laws;
mod pool;

pub use bit_array::Bits;
pub use laws::given_back_at_once;
pub use pool::{Claim, ClusterPool, Clusters, PagePool, Pages, Pool};
