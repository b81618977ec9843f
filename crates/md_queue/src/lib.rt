//! Messages to the metadata thread: how they are sent and taken, and the queues in between: the list of one thread, and
//! the line, which a thread for each channel shares with the metadata thread.
#![tactic(auto)]

mod ends;
mod laws;
mod list_queue;
mod message_list;
mod ruled;

pub use ends::{CAPACITY, Inbox, Outbox};
pub use laws::first_in_first_out;
pub use list_queue::ListQueue;
pub use message_list::MessageList;
pub use ruled::{Handled, MdReceiver, MdSender, Receiving, SenderList, Sending, close, make};
