//! The words of the NBD protocol in its fixed newstyle: what a client says to a server of a block export, and what the
//! server answers.
//!
//! A connection has two phases. In the handshake the server greets, the client answers with four bytes of flags and
//! then sends options; one of them opens an export. Then the client sends requests, and the server answers each. All
//! numbers stand with their highest byte first.
#![tactic(auto)]

mod answers;
mod numbers;
mod options;
mod reading;
mod requests;
mod taking;

pub use answers::{
    Export, OptionError, RequestError, acknowledgement, block_size_answer, export_answer, greeting,
    named_export_head, opened_export, option_refusal, simple_reply,
};
pub use options::{
    ClientFlags, InfoRequest, OptionHead, OptionKind, WrongMagic, client_flags, info_request,
    option_head,
};
pub use reading::one_reading;
pub use requests::{RequestHead, RequestKind, request_head};
pub use taking::refusal;
