//! A disk of pages over a file whose calls are recorded: what it holds, and what a power failure may leave of it, are
//! read off the record.
#![tactic(auto)]

mod call_notes;
mod disk;
mod failure;
mod memory_file;
mod page_calls;
mod page_file;
mod run_notes;

pub use call_notes::CallNotes;
pub use disk::FileDisk;
pub use failure::{FailedCall, FileFailure};
pub use memory_file::MemFile;
pub use page_calls::PageCalls;
pub use page_file::PageFile;
