//! Lines with long values, for tests.
#![tactic(auto)]

mod lines;

pub use lines::{Letters, push_long, push_told};
