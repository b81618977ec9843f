//! The begins of jobs: of what commands ask for, of inserts, and of repairs.
#![tactic(auto)]

mod alone;
mod asking;
mod begin;
mod besides;
mod deleting;
mod drafts;
mod erasing;
mod filling;
mod inserting;
mod preparing;
mod repairing;
mod single_jobs;
mod snapshotting;
mod steps;
mod taking;

pub use alone::add_clusters;
pub use begin::{BeginTurn, begin_or_halt};
pub use inserting::{InsertTurn, begin_insert_or_halt};
pub use repairing::{RepairTurn, begin_repair};
