//! The turns of the metadata thread: it answers commands in memory, and makes the phases of the running job.
#![tactic(auto)]

mod adopting;
mod answering;
mod head_turns;
mod infos;
mod job_turn;
mod marking;
mod page_turns;
mod telling;

pub use answering::{answer_or_halt, live_at};
pub use job_turn::{JobTurn, job_turn_or_end};
