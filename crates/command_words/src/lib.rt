//! The program's words, read by `clap`.
#![tactic(auto)]

mod command_line;
mod reading;
mod refusing;

pub use reading::{CommandWords, FormatOptions, read_words};
pub use refusing::refusal;
