//! Lists that grow, one body for every kind of item.

ghost use Rattle.std.specs.Prelude.{◌≡◌, ◌++◌, ◌∷◌, [], length, slice_get, OnOk, OnErr, IfOk, IfSome, IfNone};
ghost use Rattle.std.specs.Option.{option_copied};

use crate::copy::TryCopy;
use out_of_memory::Memory;
use std::alloc::Global;
use std::marker::Model;
use std::mem;

/// A list that grows at its end. Contracts see it as the list of its items.
#[derive(Debug, Drop)]
pub struct ListOf<T> {
    items: Vec<T>,
}

impl<T> Model for ListOf<T> {
    ghost use Rattle.std.specs.Prelude.{List};

    ghost Value = { List T };

    ghost view = { λ a. a.items.items };
}

impl<T: Drop> ListOf<T> {
    /// The empty list.
    pub fn new(alloc: Global) -> ListOf<T>
        ensures { result ≡ [] }
    {
        ListOf {
            items: Vec::new(alloc),
        }
    }

    /// The list of these items.
    pub fn from_vec(items: Vec<T>) -> ListOf<T>
        ensures { result ≡ items.items }
    {
        ListOf { items }
    }

    /// Takes all items out, in order.
    pub fn take_all(&mut self, alloc: Global) -> Vec<T>
        ensures taken { result.items ≡ self.old }
        ensures left { self.new ≡ [] }
    {
        mem::replace(&mut self.items, Vec::new(alloc))
    }

    /// Appends an item. After `Memory` the list is as before.
    pub fn push(&mut self, item: T) -> Result<(), Memory>
        ensures ok { OnOk result (self.new ≡ self.old ++ item ∷ []) }
        ensures memory { OnErr result (self.new ≡ self.old) }
    {
        self.items.push(item)?;
        Ok(())
    }

    /// Takes the last item; `None` exactly where the list is empty.
    pub fn pop(&mut self) -> Option<T>
        ensures some { IfSome result (λ item. self.old ≡ self.new ++ item ∷ []) }
        ensures none { IfNone result ((self.old ≡ []) × (self.new ≡ [])) }
    {
        self.items.pop()
    }

    /// How many items the list has.
    pub fn len(&self) -> usize
        ensures { result ≡ length self.now }
    {
        self.items.len()
    }

    /// The item at a place, from 0; `None` exactly where the list is no longer than that.
    pub fn get(&self, at: usize) -> Option<&T>
        ensures { option_copied result ≡ slice_get self.now at }
    {
        self.items.get(at)
    }

    /// All items, in order.
    pub fn as_slice(&self) -> &[T]
        ensures { result.now ≡ self.now }
    {
        self.items.as_slice()
    }
}

impl<T: TryCopy + Drop> TryCopy for ListOf<T> {
    fn try_copy(&self, alloc: Global) -> Result<ListOf<T>, Memory> {
        let mut copy = ListOf::new(alloc);
        for item in self.items.as_slice() {
            copy.push(item.try_copy(alloc)?)?;
        }
        Ok(copy)
    }
}

/// A run of slots of a map: `length` consecutive clusters from `cluster` on, or empty slots where `cluster` is 0.
#[derive(Clone, Copy, Debug, PartialEq, Eq)]
pub struct SlotRun {
    pub cluster: u32,
    pub length: u32,
}

impl TryCopy for SlotRun {
    fn try_copy(&self, _alloc: Global) -> Result<SlotRun, Memory> {
        Ok(*self)
    }
}

/// Places of metadata pages: `count` of them from `page` on, or absent ones where `page` is 0.
#[derive(Clone, Copy, Debug, PartialEq, Eq)]
pub struct Pair {
    pub page: u32,
    pub count: u32,
}

impl TryCopy for Pair {
    fn try_copy(&self, _alloc: Global) -> Result<Pair, Memory> {
        Ok(*self)
    }
}

/// Places of metadata pages.
pub type PlaceList = ListOf<u32>;

/// Places of slots within a map.
pub type SlotList = ListOf<u32>;

/// Plain numbers.
pub type NumberList = ListOf<u32>;

/// The runs of a map, in order.
pub type RunList = ListOf<SlotRun>;

/// The pairs of an extent table, in order.
pub type PairList = ListOf<Pair>;
