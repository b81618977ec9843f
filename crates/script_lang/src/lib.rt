//! Scripts, schedules and generated scripts as texts.
#![tactic(auto)]

mod commands;
mod fault;
mod form;
mod generated;
mod generator;
mod line;
mod page_commands;
mod parsing;
mod parts;
mod reading;
mod schedule;
mod values;
mod verb;
mod words;

pub use fault::{LineKind, ScriptFault};
pub use form::read_volume;
pub use generator::{Generator, generate, generate_line, generate_text};
pub use parsing::parse;
pub use reading::parse_schedule;
pub use schedule::{Actor, Part, Schedule, ScheduleFault};
pub use words::number_below;
