//! Loading a store: by its masks, where these can be trusted, or else by reading every metadata page.
#![tactic(auto)]

mod claimed;
mod fault;
mod finding;
mod heads;
mod laws;
mod loading;
mod mask_pages;
mod masks;
mod parents;
mod recovering;
mod sharing;
mod super_page;
mod walking;

pub use fault::LoadFault;
pub use laws::{clean_stores_are_quick, fixed_clusters_decide, stores_are_accepted};
pub use loading::load;
