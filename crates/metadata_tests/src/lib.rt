//! Tests of `descriptors`, `blob_meta` and `md_chain` over their public calls: worked bytes, every fault, and each call
//! once; and of families of blobs: what recovery makes of marked ones, and the plans of snapshots, clones, deletes,
//! inflates and decouples.
#![tactic(auto)]

#[cfg(test)]
mod blobs;
#[cfg(test)]
mod bodies;
#[cfg(test)]
mod chain_faults;
#[cfg(test)]
mod chains;
#[cfg(test)]
mod fill_slots;
#[cfg(test)]
mod fills;
#[cfg(test)]
mod fixtures;
#[cfg(test)]
mod head_maps;
#[cfg(test)]
mod metadata;
#[cfg(test)]
mod plans;
#[cfg(test)]
mod recovery;
#[cfg(test)]
mod refusals;
#[cfg(test)]
mod slot_commands;
#[cfg(test)]
mod slots;
