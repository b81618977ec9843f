//! The runs of a map, and the map of runs.

ghost use Rattle.std.specs.Prelude.{◌≡◌, ◌≢◌, ◌+◌, ◌-◌, ◌<◌, ◌≤◌, ◌^◌, length, take, get_or, Some, None, unwrap_or};
ghost use Rattle.std.specs.Prelude.{false, IfOk, IfErr, OnOk};
ghost use Rattle.std.specs.List.{All};
ghost use Rattle.descriptors.specs.Slots.{IsSlot, run_slots};
ghost use Rattle.descriptors.specs.Runs.{slots_in, IsLongest, goes_on, slots_of_run};
ghost use Rattle.descriptors.specs.Runs.{slots_of_all, at_most, Reaches, IsTooLarge};

use crate::slot_map::SlotMap;
use out_of_memory::Memory;
use std::alloc::Global;
use thiserror::Error;
use volume_model::{RunList, SlotRun};

/// How many slots at the front are empty.
fn empty_front(slots: &[Option<u32>]) -> usize
    ensures within { result ≤ length slots.now }
    ensures empty { take result slots.now ≡ run_slots None result }
    ensures ends { result < length slots.now → get_or slots.now result None ≢ None }
{
    for count in 0..slots.len() {
        if slots[count].is_some() {
            return count;
        }
    }
    slots.len()
}

/// How many slots at the front hold consecutive clusters from this one on.
fn filled_front(slots: &[Option<u32>], cluster: u32) -> usize
    requires { length slots.now ≤ 2 ^ 20 }
    ensures within { result ≤ length slots.now }
    ensures consecutive { take result slots.now ≡ run_slots (Some cluster) result }
    ensures ends { result < length slots.now → get_or slots.now result None ≢ Some (cluster + result) }
{
    for count in 0..slots.len() {
        let next = u64::from(cluster) + count as u64;
        match slots[count] {
            Some(held) if u64::from(held) == next => {}
            _ => return count,
        }
    }
    slots.len()
}

/// The longest run at the front.
fn front_run(slots: &[Option<u32>]) -> SlotRun
    requires few { length slots.now ≤ 2 ^ 20 }
    requires filled { All IsSlot slots.now }
    requires some { 0 < length slots.now }
    ensures within { (0 < result.length) × (result.length ≤ length slots.now) }
    ensures first { result.cluster ≡ unwrap_or (get_or slots.now 0 None) 0 }
    ensures slots { slots_of_run result ≡ take result.length slots.now }
    ensures ends { result.length < length slots.now
        → goes_on result (unwrap_or (get_or slots.now result.length None) 0) ≡ false }
{
    match slots[0] {
        None => SlotRun {
            cluster: 0,
            length: empty_front(slots) as u32,
        },
        Some(cluster) => SlotRun {
            cluster,
            length: filled_front(slots, cluster) as u32,
        },
    }
}

/// The runs, one turn a run.
fn runs_of_slots(alloc: Global, slots: &[Option<u32>]) -> Result<RunList, Memory>
    requires few { length slots.now ≤ 2 ^ 20 }
    requires filled { All IsSlot slots.now }
    ensures slots { IfOk result (λ runs. slots_in runs ≡ slots.now) }
    ensures longest { IfOk result (λ runs. IsLongest runs) }
{
    let mut runs = RunList::new(alloc);
    let mut done = 0;
    while done < slots.len() {
        let run = front_run(&slots[done..]);
        runs.push(run)?;
        done += run.length as usize;
    }
    Ok(runs)
}

/// The longest runs that spell the map: consecutive clusters are one run, and so are neighbouring empty slots.
pub fn runs_of(alloc: Global, map: &SlotMap) -> Result<RunList, Memory>
    ensures slots { IfOk result (λ runs. slots_in runs ≡ map.now) }
    ensures longest { IfOk result (λ runs. IsLongest runs) }
{
    runs_of_slots(alloc, map.as_slice())
}

/// Why runs are no map.
#[derive(Debug, Drop, Error)]
pub enum MapFault {
    /// The runs have more than 2^20 slots: this many, or 2^64 - 1 where they are more than that.
    #[error("{slots} slots where at most 1048576 are possible")]
    TooLarge { slots: u64 },
    /// Memory ran out.
    #[error("no memory")]
    Memory,
}

/// How many slots the runs have together, or 2^64 - 1 where they have more.
pub fn slot_count(runs: &RunList) -> u64
    ensures { result ≡ at_most (2 ^ 64 - 1) (length (slots_in runs.now)) }
{
    count_of(runs.as_slice())
}

/// The slots of the runs together, up to the last number of 64 bits.
fn count_of(runs: &[SlotRun]) -> u64
    ensures { result ≡ at_most (2 ^ 64 - 1) (slots_of_all runs.now) }
{
    let mut total = 0u64;
    for run in runs {
        total = total.saturating_add(u64::from(run.length));
    }
    total
}

/// The map of runs that have few slots.
fn map_of(alloc: Global, runs: &[SlotRun]) -> Result<SlotMap, Memory>
    requires few { slots_of_all runs.now ≤ 2 ^ 20 }
    requires reaches { All Reaches runs.now }
    ensures { IfOk result (λ map. map ≡ slots_in runs.now) }
{
    let mut map = SlotMap::new(alloc);
    for run in runs {
        let cluster = if run.cluster == 0 {
            None
        } else {
            Some(run.cluster)
        };
        map.push_run(cluster, run.length)?;
    }
    Ok(map)
}

/// The map that the runs spell, written out slot by slot. No run of clusters may reach past the last number of 32 bits.
/// `TooLarge` comes exactly where the runs have more than 2^20 slots.
pub fn slots_of(alloc: Global, runs: &RunList) -> Result<SlotMap, MapFault>
    requires { All Reaches runs.now }
    ensures found { IfOk result (λ map. map ≡ slots_in runs.now) }
    ensures small { OnOk result (slots_of_all runs.now ≤ 2 ^ 20) }
    ensures fault { IfErr result (λ e. IsTooLarge runs.now e) }
{
    let slots = count_of(runs.as_slice());
    if slots > 1 << 20 {
        return Err(MapFault::TooLarge { slots });
    }
    match map_of(alloc, runs.as_slice()) {
        Ok(map) => Ok(map),
        Err(_) => Err(MapFault::Memory),
    }
}
