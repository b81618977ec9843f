//! Writing descriptors into a body.

ghost use Rattle.std.specs.Prelude.{◌≡◌, ◌+◌, ◌*◌, ◌<◌, ◌≤◌, ◌^◌, ◌++◌, ◌∷◌, [], ◌-◌, length, take, drop, replicate};
ghost use Rattle.std.specs.List.{flat_map, All};
ghost use Rattle.descriptors.specs.Grammar.{Spells};
ghost use Rattle.descriptors.specs.Writing.{run_bytes, pair_bytes, flags_bytes, item_bytes, item_size, spelled_size};
ghost use Rattle.descriptors.specs.Writing.{spelling, IsWritable, RunFits, ItemFits, framed};
ghost use Rattle.page_fields.specs.Fields.{number_bytes};

use crate::item::{Item, ItemList};
use page_fields::{bytes_of_u32, bytes_of_u64};
use volume_model::SlotRun;

// Each function writes at a place, and gives the place after what it wrote.

fn put_bytes(into: &mut [u8], at: usize, bytes: &[u8]) -> usize
    requires { at + length bytes.now ≤ length into.old }
    ensures end { result ≡ at + length bytes.now }
    ensures bytes { take result into.new ≡ take at into.old ++ bytes.now }
{
    let end = at + bytes.len();
    into[at..end].copy_from_slice(bytes);
    end
}

#[tactic(auto, unfolding(page_fields::specs::Fields::number_bytes))]
fn put_u16(into: &mut [u8], at: usize, n: u16) -> usize
    requires { at + 2 ≤ length into.old }
    ensures end { result ≡ at + 2 }
    ensures bytes { take result into.new ≡ take at into.old ++ number_bytes 2 n }
{
    put_bytes(into, at, &n.to_le_bytes())
}

fn put_u32(into: &mut [u8], at: usize, n: u32) -> usize
    requires { at + 4 ≤ length into.old }
    ensures end { result ≡ at + 4 }
    ensures bytes { take result into.new ≡ take at into.old ++ number_bytes 4 n }
{
    put_bytes(into, at, &bytes_of_u32(n))
}

fn put_u64(into: &mut [u8], at: usize, n: u64) -> usize
    requires { at + 8 ≤ length into.old }
    ensures end { result ≡ at + 8 }
    ensures bytes { take result into.new ≡ take at into.old ++ number_bytes 8 n }
{
    put_bytes(into, at, &bytes_of_u64(n))
}

fn put_run(into: &mut [u8], at: usize, run: SlotRun) -> usize
    requires { at + 8 ≤ length into.old }
    ensures end { result ≡ at + 8 }
    ensures bytes { take result into.new ≡ take at into.old ++ run_bytes run }
    ensures fits { RunFits run }
{
    let at = put_u32(into, at, run.cluster);
    put_u32(into, at, run.length)
}

fn put_runs(into: &mut [u8], at: usize, runs: &[SlotRun]) -> usize
    requires { at + 8 * length runs.now ≤ length into.old }
    ensures end { result ≡ at + 8 * length runs.now }
    ensures bytes { take result into.new ≡ take at into.old ++ flat_map run_bytes runs.now }
    ensures fits { All RunFits runs.now }
{
    let mut end = at;
    for run in runs {
        end = put_run(into, end, *run);
    }
    end
}

#[tactic(auto, unfolding(crate::specs::Writing::pair_bytes))]
fn put_pair(into: &mut [u8], at: usize, name: &[u8], value: &[u8]) -> usize
    requires room { at + 4 + length name.now + length value.now ≤ length into.old }
    requires small { length into.old < 2 ^ 16 }
    ensures end { result ≡ at + 4 + length name.now + length value.now }
    ensures bytes { take result into.new ≡ take at into.old ++ pair_bytes name.now value.now }
{
    let at = put_u16(into, at, name.len() as u16);
    let at = put_u16(into, at, value.len() as u16);
    let at = put_bytes(into, at, name);
    put_bytes(into, at, value)
}

#[tactic(auto, unfolding(crate::specs::Writing::flags_bytes))]
fn put_flags(into: &mut [u8], at: usize, invalid: u64, data_ro: u64, md_ro: u64) -> usize
    requires { at + 24 ≤ length into.old }
    ensures end { result ≡ at + 24 }
    ensures bytes { take result into.new ≡ take at into.old ++ flags_bytes invalid data_ro md_ro }
{
    let at = put_u64(into, at, invalid);
    let at = put_u64(into, at, data_ro);
    put_u64(into, at, md_ro)
}

fn put_head(into: &mut [u8], at: usize, kind: u8, size: u32) -> usize
    requires { at + 5 ≤ length into.old }
    ensures end { result ≡ at + 5 }
    ensures bytes { take result into.new ≡ take at into.old ++ (kind ∷ number_bytes 4 size) }
{
    let at = put_bytes(into, at, &[kind]);
    put_u32(into, at, size)
}

fn put_rle(into: &mut [u8], at: usize, runs: &[SlotRun]) -> usize
    requires room { at + 5 + 8 * length runs.now ≤ length into.old }
    requires small { length into.old < 2 ^ 16 }
    ensures end { result ≡ at + 5 + 8 * length runs.now }
    ensures bytes { take result into.new ≡ take at into.old ++ framed 1 (flat_map run_bytes runs.now) }
    ensures fits { All RunFits runs.now }
{
    let at = put_head(into, at, 1, 8 * runs.len() as u32);
    put_runs(into, at, runs)
}

fn put_xattr(into: &mut [u8], at: usize, kind: u8, key: &[u8], value: &[u8]) -> usize
    requires room { at + 9 + length key.now + length value.now ≤ length into.old }
    requires small { length into.old < 2 ^ 16 }
    ensures end { result ≡ at + 9 + length key.now + length value.now }
    ensures bytes { take result into.new ≡ take at into.old ++ framed kind (pair_bytes key.now value.now) }
{
    let at = put_head(into, at, kind, (4 + key.len() + value.len()) as u32);
    put_pair(into, at, key, value)
}

fn put_flags_item(into: &mut [u8], at: usize, invalid: u64, data_ro: u64, md_ro: u64) -> usize
    requires room { at + 29 ≤ length into.old }
    ensures end { result ≡ at + 29 }
    ensures bytes { take result into.new ≡ take at into.old ++ framed 3 (flags_bytes invalid data_ro md_ro) }
    ensures fits { (invalid < 2 ^ 64) × (data_ro < 2 ^ 64) × (md_ro < 2 ^ 64) }
{
    let at = put_head(into, at, 3, 24);
    put_flags(into, at, invalid, data_ro, md_ro)
}

fn put_item(into: &mut [u8], at: usize, item: &Item) -> usize
    requires room { at + item_size item.now ≤ length into.old }
    requires small { length into.old < 2 ^ 16 }
    requires writable { IsWritable item.now }
    ensures end { result ≡ at + item_size item.now }
    ensures bytes { take result into.new ≡ take at into.old ++ item_bytes item.now }
    ensures fits { ItemFits item.now }
{
    match item {
        Item::Rle(runs) => put_rle(into, at, runs.as_slice()),
        Item::Xattr { key, value } => put_xattr(into, at, 2, key.bytes(), value.bytes()),
        Item::Flags {
            invalid,
            data_ro,
            md_ro,
        } => put_flags_item(into, at, *invalid, *data_ro, *md_ro),
        Item::InternalXattr { key, value } => put_xattr(into, at, 4, key.bytes(), value.bytes()),
        Item::Unknown { .. } => unreachable!(),
    }
}

fn put_items(into: &mut [u8], items: &[Item]) -> usize
    requires room { length (spelling items.now) ≤ length into.old }
    requires small { length into.old < 2 ^ 16 }
    requires writable { All IsWritable items.now }
    ensures end { result ≡ length (spelling items.now) }
    ensures bytes { take result into.new ≡ spelling items.now }
    ensures fits { All ItemFits items.now }
{
    let mut end = 0;
    for item in items {
        end = put_item(into, end, item);
    }
    end
}

fn clear_from(into: &mut [u8], from: usize)
    requires { from ≤ length into.old }
    ensures { into.new ≡ take from into.old ++ replicate (length into.old - from) 0 }
{
    for i in from..into.len() {
        into[i] = 0;
    }
}

/// Writes the items, which fit, and zeros after them. Each run-length item has a run, and none is of an unknown type.
pub fn write_items(items: &ItemList, into: &mut [u8; 4072])
    requires room { spelled_size items.now ≤ 4072 }
    requires writable { All IsWritable items.now }
    ensures bytes { into.new ≡ spelling items.now ++ replicate (4072 - spelled_size items.now) 0 }
    // What is written is read again.
    ensures again { Spells into.new items.now }
{
    let end = put_items(into, items.as_slice());
    clear_from(into, end);
}
