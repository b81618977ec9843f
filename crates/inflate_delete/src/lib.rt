//! Deletes, and inflates and decouples, which fill slots: what they make of metadata is planned as a job, or refused.
#![tactic(auto)]

mod clones;
mod deleting;
mod fill_parent;
mod fill_refusal;
mod filled;
mod filling;
mod handing;
mod refusing;

pub use clones::clones_of;
pub use deleting::plan_delete;
pub use filling::{Fill, FillKind};
