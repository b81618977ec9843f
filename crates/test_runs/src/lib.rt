//! Calls of the whole program over a device in memory, for tests.
#![tactic(auto)]

mod cases;
mod ends;
mod runs;

pub use blob_tool::Status;
pub use cases::{On, Scheduled, TwoRuns, expect_scheduled, expect_two_runs};
pub use ends::{End, expect_end};
pub use runs::{
    Call, Ran, expect_printed, perform, perform_export, perform_gated, perform_on_threads, play,
    run,
};
