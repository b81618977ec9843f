//! Tests of the program's calls over a device in memory: the verbs on attributes, new volumes, volumes that are thick
//! or get another number of slots, volumes that are renamed or told, pages that are read and written, clones,
//! snapshots, deletes, volumes that are inflated or decoupled, many volumes, channels that take turns, new stores,
//! listings, exports, generated scripts, printed or run, what a run leaves of the super block and the masks, and each status.
#![tactic(auto)]

#[cfg(test)]
mod clones;
#[cfg(test)]
mod deletes;
#[cfg(test)]
mod device_pages;
#[cfg(test)]
mod exercises;
#[cfg(test)]
mod exports;
#[cfg(test)]
mod failures;
#[cfg(test)]
mod family_faults;
#[cfg(test)]
mod fill_faults;
#[cfg(test)]
mod fill_schedules;
#[cfg(test)]
mod fills;
#[cfg(test)]
mod formats;
#[cfg(test)]
mod generated_scripts;
#[cfg(test)]
mod json_listings;
#[cfg(test)]
mod listed;
#[cfg(test)]
mod listings;
#[cfg(test)]
mod lvol_stores;
#[cfg(test)]
mod many_volumes;
#[cfg(test)]
mod names;
#[cfg(test)]
mod padded_stores;
#[cfg(test)]
mod page_faults;
#[cfg(test)]
mod pages;
#[cfg(test)]
mod quick_loads;
#[cfg(test)]
mod schedules;
#[cfg(test)]
mod slots;
#[cfg(test)]
mod snapshot_runs;
#[cfg(test)]
mod tree_listings;
#[cfg(test)]
mod unloads;
#[cfg(test)]
mod verbs;
#[cfg(test)]
mod volumes;
#[cfg(test)]
mod writes;
