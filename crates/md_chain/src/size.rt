//! How many bytes items take in the body of a page.

ghost use Rattle.std.specs.Prelude.{◌≡◌, ◌≤◌, ◌<◌, ◌+◌, ◌^◌, ◌∷◌, [], List, length};
ghost use Rattle.descriptors.specs.Writing.{item_size};
ghost use Rattle.volume_model.specs.declared.lists.SlotRun.{SlotRun};
ghost use Rattle.descriptors.specs.declared.item.Item.{Item as AnItem};
ghost use Rattle.md_chain.specs.Packing.{ArePlannable, AreFew, parts_from, parts_of, run_parts};
ghost use Rattle.blob_meta.specs.Says.{runs_in};
ghost use Rattle.md_chain.specs.Laid.{CanPack, IsRuns};

use descriptors::{Item, ItemList};

/// The bytes of a page's body.
pub const BODY: u64 = 4072;

/// The runs that a body takes in one descriptor.
pub const BODY_RUNS: usize = 508;

/// A descriptor of runs with one run.
pub const ONE_RUN: u64 = 13;

/// How many bytes an item takes, its type and its length among them, or 2^64 - 1 where it takes more.
pub fn size_of(item: &Item) -> u64
    ensures exact { result ≤ 4072 → result ≡ item_size item.now }
    ensures small { item_size item.now ≤ 4072 → result ≡ item_size item.now }
{
    match item {
        Item::Rle(runs) => (runs.len() as u64).saturating_mul(8).saturating_add(5),
        Item::Xattr { key, value } | Item::InternalXattr { key, value } => {
            let key = key.bytes().len() as u64;
            let value = value.bytes().len() as u64;
            key.saturating_add(value).saturating_add(9)
        }
        Item::Flags { .. } => 29,
        Item::Unknown { .. } => 5,
    }
}

/// How many pages runs take besides the current one, in which so many bytes are left.
fn more_pages(room: u64, runs: usize) -> usize
    requires { 0 < runs }
    ensures pages { (rs : List SlotRun) → length rs ≡ runs → length (run_parts room rs) ≡ result + 1 }
    ensures few { result ≤ runs }
{
    let fit = if room < ONE_RUN {
        0
    } else {
        ((room - 5) / 8) as usize
    };
    runs.saturating_sub(fit).div_ceil(BODY_RUNS)
}

/// How many pages are begun, and how many bytes are left in the last.
#[derive(Drop)]
struct PageCount {
    pages: u32,
    room: u64,
}

impl PageCount {
    /// Counts an attribute or flags.
    fn add_whole(&mut self, item: &Item)
        requires can { CanPack item.now }
        requires whole { IsRuns item.now → ⊥ }
        requires few { self.old.pages ≤ 2 ^ 31 }
        ensures { (rest : List AnItem) → self.new.pages + length (parts_from self.new.room rest) ≡ self.old.pages
            + length (parts_from self.old.room (item.now ∷ rest)) }
    {
        let size = size_of(item);
        if size > self.room {
            self.pages += 1;
            self.room = BODY;
        }
        self.room -= size;
    }

    /// Counts so many runs.
    fn add_runs(&mut self, runs: usize)
        requires some { 0 < runs }
        requires small { runs < 2 ^ 31 }
        requires few { self.old.pages ≤ 2 ^ 31 }
        ensures { (rs : List SlotRun) → length rs ≡ runs
            → self.new.pages + 1 ≡ self.old.pages + length (run_parts self.old.room rs) }
    {
        self.pages += more_pages(self.room, runs) as u32;
    }

    /// Counts one item more. Nothing follows runs.
    fn add(&mut self, item: &Item)
        requires can { CanPack item.now }
        requires small { length (runs_in item.now) < 2 ^ 31 }
        requires few { self.old.pages ≤ 2 ^ 31 }
        ensures { (rest : List AnItem) → (IsRuns item.now → rest ≡ [])
            → self.new.pages + length (parts_from self.new.room rest) ≡ self.old.pages
            + length (parts_from self.old.room (item.now ∷ rest)) }
    {
        match item {
            Item::Rle(runs) => self.add_runs(runs.len()),
            _ => self.add_whole(item),
        }
    }
}

/// How many pages the chain has in which these items are written: as many as `plan_chain` plans, and at least one.
pub fn chain_len(items: &ItemList) -> u32
    requires plannable { ArePlannable items.now }
    requires few { AreFew items.now }
    ensures { result ≡ length (parts_of items.now) }
{
    let mut count = PageCount {
        pages: 1,
        room: BODY,
    };
    for item in items.as_slice() {
        count.add(item);
    }
    count.pages
}
