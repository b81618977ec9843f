//! The state of a running store in memory, and the steps that its turns are made of.
#![tactic(auto)]

mod clearing;
mod device;
mod effects;
mod entries;
mod freezing;
mod giving_back;
mod job;
mod loaded;
mod logging;
mod marks;
mod parts;
mod refusing;
mod replacements;
mod requests;
mod reserved;
mod rows;
mod running;
mod space;
mod stages;
mod stopping;
mod taking;

pub use clearing::clear_places;
pub use device::{flush_once, mark_in_use, read_at, replace, write_last, write_one};
pub use effects::{Effects, effects_of};
pub use entries::{EntryChange, place, put};
pub use freezing::release;
pub use giving_back::{FILL_ROW, give_back, give_up, rest};
pub use job::{RunningJob, Serves, Work, Zeroed, waiting_for};
pub use loaded::Loaded;
pub use logging::{log, log_content, log_here};
pub use parts::Parts;
pub use refusing::{halt, halt_here, halt_work, refuse_or_halt};
pub use replacements::{Change, Commit, Erasure, LaidReplacement, Planned, Rooms};
pub use requests::{Request, Stale, asked_in};
pub use rows::{Row, RowStage, first_of};
pub use running::Running;
pub use stages::{Decision, OpenClaim, Stage};
pub use stopping::stop_here;
pub use taking::take_places;
