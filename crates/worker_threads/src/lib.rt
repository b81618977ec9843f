//! A store that is run by threads: a worker for each channel, and the metadata thread, around one lock.
#![tactic(auto)]

mod counting;
mod crew;
mod gate;
mod joining;
mod locked_store;
mod metadata;
mod run;
mod run_memory;
mod shared_store;
mod starting;
mod worker;

pub use gate::{Gate, OpenGate};
pub use run::run_threads;
