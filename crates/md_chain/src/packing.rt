//! Items laid on the pages of a chain.

ghost use Rattle.std.specs.Prelude.{◌≡◌, ◌+◌, ◌-◌, ◌/◌, ◌<◌, ◌≤◌, ◌++◌, ◌∷◌, [], ℕ, List, length, map, IfOk, OnOk};
ghost use Rattle.descriptors.specs.declared.item.Item.{Item as AnItem};
ghost use Rattle.md_chain.specs.Packing.{ArePlannable, parts_from, parts_of as parts_said, run_parts, pieces, on_page};
ghost use Rattle.md_chain.specs.Laid.{CanPack, IsRuns, laid};

use crate::copying::copy_of;
use crate::size::{BODY, BODY_RUNS, ONE_RUN, size_of};
use descriptors::{Item, ItemList};
use out_of_memory::Memory;
use std::alloc::Global;
use std::mem;
use volume_model::{ListOf, RunList, SlotRun};

/// The items of each page.
pub type PartList = ListOf<ItemList>;

/// The pages that are full, the current one, and how many bytes are left in it.
#[derive(Drop)]
struct Packing {
    full: PartList,
    current: ItemList,
    room: u64,
}

fn list_of(alloc: Global, runs: &[SlotRun]) -> Result<RunList, Memory>
    ensures { IfOk result (λ list. list ≡ runs.now) }
{
    let mut list = RunList::new(alloc);
    for run in runs {
        list.push(*run)?;
    }
    Ok(list)
}

impl Packing {
    fn new(alloc: Global) -> Packing
        ensures full { result.full ≡ [] }
        ensures current { result.current ≡ [] }
        ensures room { result.room ≡ 4072 }
    {
        Packing {
            full: PartList::new(alloc),
            current: ItemList::new(alloc),
            room: BODY,
        }
    }

    /// Begins a new page.
    fn turn_page(&mut self, alloc: Global) -> Result<(), Memory>
        ensures full { OnOk result (self.new.full ≡ self.old.full ++ self.old.current ∷ []) }
        ensures current { OnOk result (self.new.current ≡ []) }
        ensures room { OnOk result (self.new.room ≡ 4072) }
    {
        let page = mem::replace(&mut self.current, ItemList::new(alloc));
        self.full.push(page)?;
        self.room = BODY;
        Ok(())
    }

    /// An attribute or flags go to the current page where they fit, else to a new one.
    fn add_whole(&mut self, alloc: Global, item: &Item) -> Result<(), Memory>
        requires can { CanPack item.now }
        requires whole { IsRuns item.now → ⊥ }
        ensures { OnOk result ((rest : List AnItem) → laid self.new.full self.new.current
            (parts_from self.new.room rest) ≡ laid self.old.full self.old.current
            (parts_from self.old.room (item.now ∷ rest))) }
    {
        let size = size_of(item);
        if size > self.room {
            self.turn_page(alloc)?;
        }
        self.current.push(copy_of(alloc, item)?)?;
        self.room -= size;
        Ok(())
    }

    /// As many runs as fit go to the current page, the others to pages of their own.
    fn put_runs(&mut self, alloc: Global, runs: &[SlotRun]) -> Result<(), Memory>
        requires { 13 ≤ self.old.room }
        ensures { OnOk result (self.new.full ++ self.new.current
            ∷ [] ≡ laid self.old.full self.old.current (map on_page (pieces ((self.old.room - 5) / 8) runs.now))) }
    {
        let fit = ((self.room - 5) / 8) as usize;
        let (first, mut rest) = runs.split_at(runs.len().min(fit));
        self.current.push(Item::Rle(list_of(alloc, first)?))?;
        while rest.len() > 0 {
            let (piece, more) = rest.split_at(rest.len().min(BODY_RUNS));
            self.turn_page(alloc)?;
            self.current.push(Item::Rle(list_of(alloc, piece)?))?;
            rest = more;
        }
        Ok(())
    }

    /// Runs go to the current page where one fits, else to a new one.
    fn add_runs(&mut self, alloc: Global, runs: &[SlotRun]) -> Result<(), Memory>
        ensures { OnOk result (self.new.full ++ self.new.current
            ∷ [] ≡ laid self.old.full self.old.current (run_parts self.old.room runs.now)) }
    {
        if self.room < ONE_RUN {
            self.turn_page(alloc)?;
        }
        self.put_runs(alloc, runs)
    }

    /// Lays one item more. Nothing follows runs.
    fn add(&mut self, alloc: Global, item: &Item) -> Result<(), Memory>
        requires { CanPack item.now }
        ensures { OnOk result ((rest : List AnItem) → (IsRuns item.now → rest ≡ [])
            → laid self.new.full self.new.current (parts_from self.new.room rest)
            ≡ laid self.old.full self.old.current (parts_from self.old.room (item.now ∷ rest))) }
    {
        match item {
            Item::Rle(runs) => self.add_runs(alloc, runs.as_slice()),
            _ => self.add_whole(alloc, item),
        }
    }

    /// The items of each page.
    fn pages(self) -> Result<PartList, Memory>
        ensures { IfOk result (λ parts. parts ≡ self.full ++ self.current ∷ []) }
    {
        let Packing {
            mut full,
            current,
            ..
        } = self;
        full.push(current)?;
        Ok(full)
    }
}

/// The items of each page of the chain in which these are written.
pub fn parts_of(alloc: Global, items: &ItemList) -> Result<PartList, Memory>
    requires { ArePlannable items.now }
    ensures { IfOk result (λ parts. parts ≡ parts_said items.now) }
{
    let mut packing = Packing::new(alloc);
    for item in items.as_slice() {
        packing.add(alloc, item)?;
    }
    packing.pages()
}
