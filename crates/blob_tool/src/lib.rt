//! The command line tool over any source, sink and device.
#![tactic(auto)]

mod closing;
mod driving;
mod exporting;
mod finishing;
mod format_words;
mod formatting;
mod generate_words;
mod generating;
mod laws;
mod list_words;
mod listing;
mod loading;
mod opening;
mod preparing;
mod repairing;
mod reporting;
mod run_script;
mod run_words;
mod status;
mod task;
mod threadless;
mod top;

pub use driving::Drive;
pub use laws::{left_images_are_loaded, undisturbed_runs_tell_no_fault};
pub use script_lang::LineKind;
pub use status::Status;
pub use streams::{ListSink, ListSource, Sink, SinkFault, Source, SourceFault};
pub use threadless::blobtool;
pub use top::{blobtool_gated, blobtool_two};
pub use unclean_load::LoadFault;
pub use worker_threads::{Gate, OpenGate};
