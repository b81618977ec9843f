//! Snapshots and clones: what they make of metadata is planned as a job, or refused.
#![tactic(auto)]

mod cloning;
mod marks;
mod refusing;
mod snapshotting;

pub use cloning::plan_clone;
pub use marks::{with_named, with_parent_of};
pub use snapshotting::plan_snapshot;
