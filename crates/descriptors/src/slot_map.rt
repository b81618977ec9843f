//! The map of a blob: which cluster each of its slots holds.

ghost use Rattle.std.specs.Prelude.{◌≡◌, ◌++◌, ◌+◌, ◌<◌, ◌≤◌, ◌^◌, [], length, take, slice_get, slice_set, OnOk, OnErr};
ghost use Rattle.std.specs.Prelude.{IfOk, IfSome, Some, None};
ghost use Rattle.std.specs.List.{All};
ghost use Rattle.descriptors.specs.Slots.{IsSlot, run_slots};

use out_of_memory::Memory;
use std::alloc::Global;
use std::marker::Model;
use volume_model::TryCopy;

/// The slots of a blob, at most 2^20; each holds a cluster or is empty. Contracts see the list of optional clusters,
/// none of which is 0.
#[derive(Debug, Drop)]
pub struct SlotMap {
    slots: Vec<Option<u32>>,
}

impl Model for SlotMap {
    ghost use Rattle.std.specs.Prelude.{List, Option, ℕ, ◌≤◌, ◌^◌, length};
    ghost use Rattle.std.specs.List.{All};
    ghost use Rattle.descriptors.specs.Slots.{IsSlot};

    ghost Value = { List (Option ℕ) };

    ghost view = { λ a. a.slots.items };

    ghost invariant = { λ a. (length a.slots.items ≤ 2 ^ 20) × All IsSlot a.slots.items };
}

impl SlotMap {
    /// A map without slots.
    pub fn new(alloc: Global) -> SlotMap
        ensures { result ≡ [] }
    {
        SlotMap {
            slots: Vec::new(alloc),
        }
    }

    /// How many slots the map has.
    pub fn len(&self) -> u32
        ensures { result ≡ length self.now }
    {
        self.slots.len() as u32
    }

    /// The cluster in a slot, if it holds one.
    pub fn get(&self, at: u32) -> Option<u32>
        requires { at < length self.now }
        ensures { slice_get self.now at ≡ Some result }
    {
        self.slots[at as usize]
    }

    /// All slots, in order.
    pub fn as_slice(&self) -> &[Option<u32>]
        ensures slots { result.now ≡ self.now }
        ensures few { length self.now ≤ 2 ^ 20 }
        ensures filled { All IsSlot self.now }
    {
        self.slots.as_slice()
    }

    /// Puts a cluster other than 0 into a slot, or empties it. After `Memory` the map is as before.
    pub fn set(&mut self, at: u32, cluster: Option<u32>) -> Result<(), Memory>
        requires within { at < length self.old }
        requires slot { IsSlot cluster }
        ensures ok { OnOk result (self.new ≡ slice_set self.old at cluster) }
        ensures memory { OnErr result (self.new ≡ self.old) }
    {
        self.slots[at as usize] = cluster;
        Ok(())
    }

    /// Appends so many empty slots, or slots with consecutive clusters from one other than 0. After `Memory` the map is
    /// as before.
    pub fn push_run(&mut self, cluster: Option<u32>, count: u32) -> Result<(), Memory>
        requires room { length self.old + count ≤ 2 ^ 20 }
        requires filled { IfSome cluster (λ c. (0 < c) × (c + count ≤ 2 ^ 32)) }
        ensures ok { OnOk result (self.new ≡ self.old ++ run_slots cluster count) }
        ensures memory { OnErr result (self.new ≡ self.old) }
    {
        match cluster {
            None => push_empty(&mut self.slots, count),
            Some(cluster) => push_filled(&mut self.slots, cluster, count),
        }
    }

    /// Cuts the map to so many of its slots.
    pub fn cut(&mut self, len: u32)
        requires { len ≤ length self.old }
        ensures { self.new ≡ take len self.old }
    {
        self.slots.truncate(len as usize);
    }
}

impl TryCopy for SlotMap {
    fn try_copy(&self, alloc: Global) -> Result<SlotMap, Memory> {
        Ok(SlotMap {
            slots: Vec::from_slice(alloc, self.slots.as_slice())?,
        })
    }
}

fn push_empty(slots: &mut Vec<Option<u32>>, count: u32) -> Result<(), Memory>
    ensures ok { OnOk result (slots.new.items ≡ slots.old.items ++ run_slots None count) }
    ensures memory { OnErr result (slots.new.items ≡ slots.old.items) }
{
    let len = slots.len();
    for _ in 0..count {
        if slots.push(None).is_err() {
            slots.truncate(len);
            return Err(Memory);
        }
    }
    Ok(())
}

fn push_filled(slots: &mut Vec<Option<u32>>, cluster: u32, count: u32) -> Result<(), Memory>
    requires fits { cluster + count ≤ 2 ^ 32 }
    requires some { 0 < cluster }
    ensures ok { OnOk result (slots.new.items ≡ slots.old.items ++ run_slots (Some cluster) count) }
    ensures memory { OnErr result (slots.new.items ≡ slots.old.items) }
    ensures few { length slots.new.items ≤ length slots.old.items + count }
    ensures filled { All IsSlot slots.old.items → All IsSlot slots.new.items }
{
    let len = slots.len();
    for i in 0..count {
        if slots.push(Some(cluster + i)).is_err() {
            slots.truncate(len);
            return Err(Memory);
        }
    }
    Ok(())
}
