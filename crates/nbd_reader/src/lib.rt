//! Reading what a client of a block export says from a source, in whatever pieces its bytes come.
#![tactic(auto)]

mod fault;
mod options;
mod payloads;
mod requests;
mod taking;

pub use fault::ReadFault;
pub use options::{ClientOption, OptionBytes, first_words, next_option};
pub use payloads::Payload;
pub use requests::{Request, next_request};
