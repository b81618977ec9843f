//! Tests of what is found after power failed, by whole runs of the program: of any verb, of puts whose metadata takes
//! more than one page, and of recovery itself, on families of blobs that are made page by page, where a snapshot is
//! being made or removed.
#![tactic(auto)]

#[cfg(test)]
mod chains;
#[cfg(test)]
mod clones;
#[cfg(test)]
mod crashes;
#[cfg(test)]
mod creates;
#[cfg(test)]
mod cut_puts;
#[cfg(test)]
mod families;
#[cfg(test)]
mod family_steps;
#[cfg(test)]
mod fills;
#[cfg(test)]
mod long_creates;
#[cfg(test)]
mod no_room;
#[cfg(test)]
mod parents;
#[cfg(test)]
mod points;
#[cfg(test)]
mod power;
#[cfg(test)]
mod put_stops;
#[cfg(test)]
mod renames;
#[cfg(test)]
mod repair_crashes;
#[cfg(test)]
mod repairs;
#[cfg(test)]
mod settled;
#[cfg(test)]
mod slots;
#[cfg(test)]
mod snapshot_crashes;
#[cfg(test)]
mod snapshot_stops;
#[cfg(test)]
mod stops;
#[cfg(test)]
mod unloads;
#[cfg(test)]
mod writes;
