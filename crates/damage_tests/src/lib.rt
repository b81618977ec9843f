//! Tests of what is loaded: whole stores, by their masks or by a scan, damaged images and failing calls. Each fault
//! with its numbers, which of two faults is told, what looks wrong and is no fault, and how whole runs end.
#![tactic(auto)]

#[cfg(test)]
mod calls;
#[cfg(test)]
mod chains;
#[cfg(test)]
mod clusters;
#[cfg(test)]
mod faults;
#[cfg(test)]
mod harmless;
#[cfg(test)]
mod images;
#[cfg(test)]
mod loads;
#[cfg(test)]
mod mask_headers;
#[cfg(test)]
mod metadata;
#[cfg(test)]
mod orders;
#[cfg(test)]
mod parents;
#[cfg(test)]
mod parts;
#[cfg(test)]
mod regions;
#[cfg(test)]
mod runs;
#[cfg(test)]
mod sizes;
#[cfg(test)]
mod super_blocks;
#[cfg(test)]
mod whole_stores;
