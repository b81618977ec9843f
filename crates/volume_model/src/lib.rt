//! Plain values that all layers of the store speak of.
#![tactic(auto)]

mod command;
mod copy;
pub mod laws;
mod lists;
mod machine;
mod name;
mod page;
mod reply;
mod script;
mod text;
mod uuids;
mod xattrs;

pub use command::{Command, PageWord, VolumeRef};
pub use copy::TryCopy;
pub use lists::{ListOf, NumberList, Pair, PairList, PlaceList, RunList, SlotList, SlotRun};
pub use machine::Volumes;
pub use name::Name;
pub use out_of_memory::Memory;
pub use page::page_of;
pub use reply::{Df, Entry, EntryList, Info, InfoList, Msg, MsgList, Reply};
pub use script::Script;
pub use text::{Blobtext, Xattr, XattrList};
pub use uuids::{named_xattrs, uuid_for, uuid_of_new, uuid_said};
pub use xattrs::with_nul;
