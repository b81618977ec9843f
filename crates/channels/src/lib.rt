//! The channels of a running store: each makes the turns of its row, and sends the messages of what it posts. And a run
//! of all of them and of the metadata thread, by a schedule.
#![tactic(auto)]

mod channel;
mod channel_step;
mod driver;
mod first_channels;
mod own_turn;
mod stepwise;

pub use channel::Channel;
pub use first_channels::channels_of;
pub use stepwise::{RunEnd, run_stepwise};
