//! A volume's whole content is written to a second device, page by page, as the volume shows it.
#![tactic(auto)]

mod copying;
mod finding;

pub use copying::{CopyFault, copy_volume};
pub use finding::{MeantVolume, find_volume};
