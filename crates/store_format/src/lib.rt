//! A new store is written to a device: an empty one, or a logical volume store with its super blob.
#![tactic(auto)]

mod fault;
mod formatting;
mod super_blob;

pub use fault::FormatFault;
pub use formatting::write_store;
pub use super_blob::StoreName;
