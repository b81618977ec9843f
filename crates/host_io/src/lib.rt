//! The program's edge: the file of an image, opened and locked, a disk over it, the standard streams as a source and a
//! sink, and how the program ends, in an exit status and in words.
#![tactic(auto)]

mod ending;
mod error_line;
mod failure;
mod fault_words;
mod held_device;
mod image;
mod image_disk;
mod kept_input;
mod on_line;
mod std_sink;
mod std_source;
mod std_streams;
mod super_words;
mod word_faults;
mod words;

pub use ending::Ending;
pub use error_line::ErrorLine;
pub use failure::{CallFailure, SystemCall};
pub use held_device::DeviceHolder;
pub use image::{Access, OpenFault, OtherFile};
pub use image_disk::{FileDisk, close, open};
pub use kept_input::KeptInput;
pub use std_sink::StdSink;
pub use std_source::StdSource;
pub use std_streams::{HeldStreams, hold_streams};
pub use super_words::ImageSizes;
pub use word_faults::{WordFault, word_fault};
pub use words::{image_beside, is_asked_for, take_new};
