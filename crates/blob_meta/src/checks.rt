//! The tests of metadata, one function each.

ghost use Rattle.std.specs.Prelude.{◌≡◌, ◌^◌, ◌<◌, ◌≤◌, OnOk, IfErr, IfNone as OnNone, None, length, find, position};
ghost use Rattle.std.specs.Prelude.{is_none, option_copied};
ghost use Rattle.std.specs.List.{All};
ghost use Rattle.descriptors.specs.Runs.{slots_in, slots_of_run, Reaches};
ghost use Rattle.blob_meta.specs.Faults.{unknown_flag as unknown, too_large as large, is_outside, clusters_held};
ghost use Rattle.blob_meta.specs.Faults.{cluster_outside as outside, hole_in_thick as hole, is_mark as is_a_mark};
ghost use Rattle.blob_meta.specs.Faults.{is_bad_mark, bad_mark as bad, IsMetaFaultOf};

use crate::fault::MetaFault;
use crate::meta::Flags;
use descriptors::{SlotMap, slot_count};
use std::alloc::Global;
use volume_model::{RunList, SlotRun, TryCopy, Xattr, XattrList};

/// The fault of unknown flags.
pub fn unknown_flag(flags: Flags) -> Option<MetaFault>
    ensures { result ≡ unknown flags }
{
    let bits = flags.invalid / 4 * 4;
    if bits == 0 {
        None
    } else {
        Some(MetaFault::UnknownFlag { bits })
    }
}

/// The fault of too many slots.
pub fn too_large(runs: &RunList) -> Option<MetaFault>
    ensures { result ≡ large (slots_in runs.now) }
{
    let slots = slot_count(runs);
    if slots <= 1 << 20 {
        None
    } else {
        Some(MetaFault::TooLarge { slots })
    }
}

/// The first cluster of a run that a blob may not have.
fn outside_of_run(run: SlotRun, fixed: u32, clusters: u32) -> Option<u64>
    ensures first { result ≡ find (is_outside fixed clusters) (clusters_held (slots_of_run run)) }
    ensures reaches { OnNone result (Reaches run) }
{
    if run.cluster == 0 || run.length == 0 {
        return None;
    }
    let first = u64::from(run.cluster);
    if run.cluster < fixed {
        return Some(first);
    }
    let end = first + u64::from(run.length);
    let clusters = u64::from(clusters);
    if end <= clusters {
        None
    } else {
        Some(first.max(clusters))
    }
}

fn outside_of_runs(runs: &[SlotRun], fixed: u32, clusters: u32) -> Option<u64>
    ensures first { result ≡ find (is_outside fixed clusters) (clusters_held (slots_in runs.now)) }
    ensures reaches { OnNone result (All Reaches runs.now) }
{
    for run in runs {
        if let Some(cluster) = outside_of_run(*run, fixed, clusters) {
            return Some(cluster);
        }
    }
    None
}

/// The fault of a cluster that a blob may not have. Where there is none, no run reaches past the last number of 32
/// bits.
pub fn cluster_outside(runs: &RunList, fixed: u32, clusters: u32) -> Option<MetaFault>
    ensures first { result ≡ outside fixed clusters (slots_in runs.now) }
    ensures reaches { OnNone result (All Reaches runs.now) }
{
    match outside_of_runs(runs.as_slice(), fixed, clusters) {
        Some(cluster) => Some(MetaFault::ClusterOutside { cluster }),
        None => None,
    }
}

fn first_hole(slots: &[Option<u32>]) -> Option<usize>
    ensures { result ≡ position is_none slots.now }
{
    slots.iter().position(|slot| slot.is_none())
}

/// The fault of an empty slot in a thick blob.
pub fn hole_in_thick(flags: Flags, map: &SlotMap) -> Option<MetaFault>
    ensures { result ≡ hole flags map.now }
{
    if flags.is_thin() {
        return None;
    }
    match first_hole(map.as_slice()) {
        Some(slot) => Some(MetaFault::HoleInThick { slot: slot as u32 }),
        None => None,
    }
}

/// Whether a name is one of the three marks.
fn is_mark(key: &[u8]) -> bool
    ensures { result ≡ is_a_mark key.now }
{
    key == b"SNAP".as_slice() || key == b"SNAPTMP".as_slice() || key == b"SNAPRM".as_slice()
}

/// The first mark that isn't 8 bytes long.
fn first_bad(internal: &[Xattr]) -> Option<&Xattr>
    ensures { option_copied result ≡ find is_bad_mark internal.now }
{
    internal
        .iter()
        .find(|x| is_mark(x.key.bytes()) && x.value.bytes().len() != 8)
}

/// The fault of a mark of another length, or want of memory for its name.
pub fn bad_mark(alloc: Global, internal: &XattrList) -> Result<(), MetaFault>
    ensures ok { OnOk result (bad internal.now ≡ None) }
    ensures fault { IfErr result (λ e. IsMetaFaultOf e (bad internal.now)) }
{
    match first_bad(internal.as_slice()) {
        None => Ok(()),
        Some(x) => Err(MetaFault::BadMark {
            key: x.key.try_copy(alloc)?,
            length: u32::try_from(x.value.bytes().len()).unwrap_or(u32::MAX),
        }),
    }
}
