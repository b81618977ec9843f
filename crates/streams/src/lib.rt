//! Where the text of a script comes from, and where printed text goes.
#![tactic(auto)]

mod list_sink;
mod list_source;
mod printing;
mod reading;
mod sink;
mod source;

pub use list_sink::ListSink;
pub use list_source::ListSource;
pub use printing::{PrintFault, offer, print, print_summary};
pub use reading::{ReadFault, read_text};
pub use sink::{Sink, SinkFault};
pub use source::{Source, SourceFault};
