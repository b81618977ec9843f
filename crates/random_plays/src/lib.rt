//! Random scripts on one channel for tests, with what each of their commands prints and leaves.
#![tactic(auto)]

mod leavings;
mod plays;

pub use leavings::{expect_left, number_at, number_in_family};
pub use plays::{Play, new_store, new_stores, play_of, size_of, store_for};
pub use test_runs::{Call, Ran, Status, perform, perform_on_threads, play, run};
