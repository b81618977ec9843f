//! What the commands on logical volumes make of metadata: each is planned as a job, or refused. Names and uuids as they
//! are given.
#![tactic(auto)]

mod attributes;
mod copying;
mod creating;
mod deleting;
mod filling;
mod renaming;
mod resizing;
mod slots;
mod words;

pub use attributes::{plan_put, plan_readonly, plan_sync};
pub use copying::{plan_clone, plan_snapshot};
pub use creating::{plan_create, store_uuid};
pub use deleting::plan_delete;
pub use filling::{FillPlan, plan_fill};
pub use renaming::plan_rename;
pub use resizing::plan_resize;
pub use volume_model::uuid_for;
pub use words::{BadName, LvolFault, check_name, parse_uuid, uuid_in};
