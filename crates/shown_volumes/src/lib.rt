//! The volumes that metadata shows, and what jobs on metadata make of them: definitions and laws, without code.
#![tactic(auto)]

mod laws;

pub use laws::{clones_show, deletes_show, fills_show, jobs_are_stored, snapshots_show};
