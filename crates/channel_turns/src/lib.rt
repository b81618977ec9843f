//! The turns that a channel makes: it reads, writes, flushes, claims a cluster and copies into it, posts and settles;
//! and those of the fill's row, which claims, copies, posts and settles too.
#![tactic(auto)]

mod claiming;
mod copying;
mod filling;
mod flushing;
mod page_reading;
mod page_writing;
mod sending;
mod settling;
mod turns;

pub use claiming::{ClaimTurn, claim_or_halt};
pub use copying::{CopyTurn, copy_or_halt};
pub use filling::{claim_fill_or_halt, end_fill};
pub use flushing::flush_or_halt;
pub use page_reading::{ReadTurn, read_or_halt};
pub use page_writing::{WriteTurn, write_or_halt};
pub use sending::{SendTurn, send_or_halt};
pub use settling::{SettleTurn, settle_or_wait};
pub use turns::{end, post};
