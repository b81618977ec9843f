//! The metadata of blobs: what the items of a chain say, the maps from heads to metadata and to chains, changes of
//! metadata, what recovery makes of it, and why a command on a blob's attributes is refused.
#![tactic(auto)]

mod checks;
mod entries;
mod fault;
mod head_map;
mod job;
mod laws;
mod looking_up;
mod making;
mod marks;
mod meta;
mod naming;
mod page_places;
mod page_refusal;
mod parent;
mod reading;
mod recovery;
mod refusal;
mod repair_laws;
mod slot_count;
mod slot_refusal;
mod writing;

pub use fault::MetaFault;
pub use head_map::{Chains, HeadMap, Metas, Room};
pub use job::{Job, Replacement, ReplacementList};
pub use laws::{least_heads_are_meant, metadata_is_shown};
pub use looking_up::{find, is_taken};
pub use making::{new_meta, resized_meta};
pub use marks::{mark_of, without_marks};
pub use meta::{Flags, Meta};
pub use naming::HasName;
pub use out_of_memory::Memory;
pub use page_places::{own_place, place_read};
pub use page_refusal::{refusal_of_read, refusal_of_write};
pub use parent::parent_of;
pub use reading::from_items;
pub use recovery::{Resolved, resolve};
pub use refusal::{asked_volume, is_super, refusal_of};
pub use repair_laws::{
    marks_alone_are_repaired, repairs_give_what_is_resolved, repairs_may_be_cut_off,
    resolved_blobs_have_no_marks,
};
pub use slot_count::{all_slots, has_longer_parent, is_too_large};
pub use slot_refusal::{refusal_of_create, refusal_of_resize};
pub use writing::{items_say, to_items};
