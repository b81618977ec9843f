//! One entry for each head of a map, in the order of the heads, and beside the entries the checksums of the names of
//! their values. A name is looked for among the checksums, since they lie close together.

ghost use Rattle.std.specs.Prelude.{◌≡◌, ◌++◌, ◌+◌, ◌<◌, ◌≤◌, OnOk, OnErr, IsOk, MatchResult, IfSome, IfNone, None};
ghost use Rattle.std.specs.Prelude.{length, vec_capacity, vec_len, true, false};
ghost use Rattle.std.specs.List.{AllWithin, HoldsAt, insert};
ghost use Rattle.std.specs.List.Sorted.{IsSearchInRange, IsPartitionPoint};
ghost use Rattle.std.specs.Ordering.{nat_cmp};
ghost use Rattle.std.specs.FinMap.{find, put as with_entry};
ghost use Rattle.std.specs.Str.{bytes_eq};
ghost use Rattle.crc32c.specs.Crc.{crc32c_of};
ghost use Rattle.blob_meta.specs.Heads.{IsInOrder, AreKept, IsFirstNamed, sums_of};

use crate::naming::HasName;
use out_of_memory::Memory;

/// Where the entry of a head stands, or else where it would go.
pub(crate) fn place_of<V>(entries: &[(u32, V)], head: u32) -> Result<usize, usize>
    requires { IsInOrder entries.now }
    ensures within { IsSearchInRange result (length entries.now) }
    ensures place { MatchResult result (HoldsAt (λ e. e.0 ≡ head) entries.now)
        (IsPartitionPoint (λ e. e.0 < head) (λ e. head < e.0) entries.now) }
{
    entries.binary_search_by_key(&head, |entry| entry.0)
}

/// The first place of an entry whose head isn't below this one, or the end.
pub(crate) fn start_of<V>(entries: &[(u32, V)], head: u32) -> usize
    requires { IsInOrder entries.now }
    ensures within { result ≤ length entries.now }
    ensures parts { IsPartitionPoint (λ e. e.0 < head) (λ e. head ≤ e.0) entries.now result }
{
    entries.partition_point(|entry| entry.0 < head)
}

/// Whether a value has the name: where the checksums differ, the names needn't be compared.
#[inline]
fn is_named<V: HasName>(value: &V, sum: u32, name: &[u8], name_sum: u32) -> bool
    requires sum { sum ≡ crc32c_of (V.name_of value.now) }
    requires name_sum { name_sum ≡ crc32c_of name.now }
    ensures { result ≡ bytes_eq (V.name_of value.now) name.now }
{
    sum == name_sum && value.name() == name
}

/// The first place, from this one on, of an entry whose value has the name.
pub(crate) fn named_from<V: HasName>(
    entries: &[(u32, V)],
    sums: &[u32],
    first: usize,
    name: &[u8],
) -> Option<usize>
    requires { sums.now ≡ sums_of V.name_of entries.now }
    ensures some { IfSome result (IsFirstNamed V.name_of name.now entries.now first) }
    ensures none { IfNone result (AllWithin (λ e. bytes_eq (V.name_of e.1) name.now ≡ false) entries.now first
        (length entries.now)) }
{
    let name_sum = crc32c::sum(name);
    for place in first..sums.len() {
        if is_named(&entries[place].1, sums[place], name, name_sum) {
            return Some(place);
        }
    }
    None
}

/// Puts a new entry at a place. `Memory` comes only where the entries or the checksums fill the memory that they have;
/// both are then as before.
fn add_entry<V: HasName + Drop>(
    entries: &mut Vec<(u32, V)>,
    sums: &mut Vec<u32>,
    place: usize,
    head: u32,
    value: V,
) -> Result<(), Memory>
    requires entries { place ≤ vec_len entries.old }
    requires sums { place ≤ vec_len sums.old }
    ensures entries { OnOk result (entries.new.items ≡ insert entries.old.items place (head, value)) }
    ensures sums { OnOk result (sums.new.items ≡ insert sums.old.items place (crc32c_of (V.name_of value))) }
    ensures succeeds { vec_len entries.old < vec_capacity entries.old → vec_len sums.old < vec_capacity sums.old
        → IsOk result }
    ensures entries_stay { OnErr result (entries.new.items ≡ entries.old.items) }
    ensures sums_stay { OnErr result (sums.new.items ≡ sums.old.items) }
{
    sums.insert(place, crc32c::sum(value.name()))?;
    if entries.insert(place, (head, value)).is_err() {
        sums.remove(place);
        return Err(Memory);
    }
    Ok(())
}

/// Gives a head this value, in the entry that it has or in a new one. `Memory` comes only for a new one, and only where
/// the entries or the checksums fill the memory that they have; both are then as before.
pub(crate) fn insert_entry<V: HasName + Drop>(
    entries: &mut Vec<(u32, V)>,
    sums: &mut Vec<u32>,
    head: u32,
    value: V,
) -> Result<(), Memory>
    requires { AreKept V.name_of entries.old.items sums.old.items }
    ensures ok { OnOk result (entries.new.items ≡ with_entry nat_cmp head value entries.old.items) }
    ensures kept { AreKept V.name_of entries.new.items sums.new.items }
    ensures succeeds { vec_len entries.old < vec_capacity entries.old → vec_len sums.old < vec_capacity sums.old
        → IsOk result }
    ensures absent { OnErr result (find nat_cmp head entries.old.items ≡ None) }
    ensures memory { OnErr result (entries.new.items ≡ entries.old.items) }
{
    match place_of(entries, head) {
        Ok(place) => {
            let sum = crc32c::sum(value.name());
            entries[place].1 = value;
            sums[place] = sum;
            Ok(())
        }
        Err(place) => add_entry(entries, sums, place, head, value),
    }
}

/// Moves all items behind those of a vector that has memory for them.
pub(crate) fn move_all<T: Drop>(from: &mut Vec<T>, into: &mut Vec<T>)
    requires { vec_len into.old + vec_len from.old ≤ vec_capacity into.old }
    ensures items { into.new.items ≡ into.old.items ++ from.old.items }
    ensures memory { vec_capacity into.old ≤ vec_capacity into.new }
{
    if into.append(from).is_err() {
        unreachable!()
    }
}
