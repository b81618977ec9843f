//! The bytes of one descriptor, by its type.

ghost use Rattle.std.specs.Prelude.{◌≡◌, ◌+◌, ◌*◌, ◌<◌, ◌≤◌, ◌^◌, length, option_map, IfOk};
ghost use Rattle.descriptors.specs.Rows.{row, rle, pair_in, flags, spelled_runs};
ghost use Rattle.descriptors.specs.UnlessMemory.{Gives, RunsGive};

use crate::item::Item;
use crate::numbers::{u16_at, u32_at, u64_at};
use out_of_memory::Memory as NoMemory;
use std::alloc::Global;
use volume_model::{Blobtext, RunList, SlotRun};

/// Why the bytes of a descriptor say no item.
#[derive(Debug, Drop)]
pub enum RowFault {
    /// They don't fit their row.
    Bad,
    /// Memory ran out.
    Memory,
}

impl From<NoMemory> for RowFault {
    ghost use Rattle.std.specs.Prelude.{◌≡◌};
    ghost use Rattle.descriptors.specs.declared.rows.RowFault.TheVariants.{Memory};

    ghost from_gives = { λ _ e. e ≡ Memory };

    fn from(_want: NoMemory) -> RowFault {
        RowFault::Memory
    }
}

/// So many runs, eight bytes each.
fn runs_of_bytes(alloc: Global, count: usize, bytes: &[u8]) -> Result<RunList, NoMemory>
    requires { count * 8 ≤ length bytes.now }
    ensures { RunsGive result (spelled_runs count bytes.now) }
{
    let mut runs = RunList::new(alloc);
    let mut rest = bytes;
    for _ in 0..count {
        let run = SlotRun {
            cluster: u32_at(rest, 0),
            length: u32_at(rest, 4),
        };
        runs.push(run)?;
        rest = rest.split_at(8).1;
    }
    Ok(runs)
}

/// The runs that a descriptor of type 1 says.
#[tactic(auto, unfolding(crate::specs::Rows::rle))]
fn rle_of(alloc: Global, body: &[u8]) -> Result<Item, RowFault>
    ensures { Gives result (rle body.now) }
{
    if body.len() == 0 || body.len() % 8 != 0 {
        return Err(RowFault::Bad);
    }
    Ok(Item::Rle(runs_of_bytes(alloc, body.len() / 8, body)?))
}

/// The name and the value that a descriptor of type 2 or 4 says.
#[tactic(auto, unfolding(crate::specs::Rows::pair_in))]
fn pair_of(body: &[u8]) -> Option<(&[u8], &[u8])>
    ensures { option_map (λ p. (p.0.now, p.1.now)) result ≡ pair_in body.now }
{
    if body.len() < 4 {
        return None;
    }
    let name = u16_at(body, 0) as usize;
    let value = u16_at(body, 2) as usize;
    if body.len() != 4 + name + value {
        return None;
    }
    Some(body[4..].split_at(name))
}

/// The three words that a descriptor of type 3 says.
#[tactic(auto, unfolding(crate::specs::Rows::flags))]
fn flags_of(body: &[u8]) -> Option<Item>
    ensures { result ≡ flags body.now }
{
    if body.len() != 24 {
        return None;
    }
    Some(Item::Flags {
        invalid: u64_at(body, 0),
        data_ro: u64_at(body, 8),
        md_ro: u64_at(body, 16),
    })
}

/// Copies of the two.
fn texts_of(alloc: Global, body: &[u8]) -> Result<(Blobtext, Blobtext), RowFault>
    ensures { Gives result (pair_in body.now) }
{
    let Some((name, value)) = pair_of(body) else {
        return Err(RowFault::Bad);
    };
    Ok((Blobtext::new(alloc, name)?, Blobtext::new(alloc, value)?))
}

/// The item that the bytes after the head of a descriptor say, or why they say none.
pub fn item_of(alloc: Global, kind: u8, body: &[u8]) -> Result<Item, RowFault>
    ensures { Gives result (row kind body.now) }
{
    match kind {
        1 => rle_of(alloc, body),
        2 => {
            let (key, value) = texts_of(alloc, body)?;
            Ok(Item::Xattr { key, value })
        }
        3 => flags_of(body).ok_or(RowFault::Bad),
        4 => {
            let (key, value) = texts_of(alloc, body)?;
            Ok(Item::InternalXattr { key, value })
        }
        kind => Ok(Item::Unknown { kind }),
    }
}
