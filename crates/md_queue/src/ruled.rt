//! The line: a queue that many threads share, a sender for each channel and one receiver, and the rule that it keeps.

mod closing;
mod handled;
mod making;
mod outboxes;
mod receiver;
mod rule;
mod sender;
mod sender_list;

pub use closing::close;
pub use handled::Handled;
pub use making::make;
pub use outboxes::{Receiving, Sending};
pub use receiver::MdReceiver;
pub use sender::MdSender;
pub use sender_list::SenderList;
