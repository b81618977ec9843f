//! The commands of `write` and `read`, page by page.

ghost use Rattle.std.specs.Prelude.{◌≡◌, ◌+◌, ◌<◌, ◌^◌, nat_lt, ◌∷◌, map, IfOk};
ghost use Rattle.std.specs.List.{range_with_len};
ghost use Rattle.script_lang.specs.Answered.{AnswersAsSaid};
ghost use Rattle.script_lang.specs.Commands as said;
ghost use Rattle.script_lang.specs.Forms.{listed};

use crate::fault::{LineFault, LineKind};
use crate::form::Value;
use out_of_memory::Memory;
use std::alloc::Global;
use volume_model::{Command, ListOf, PageWord, TryCopy, VolumeRef};

/// The writes of so many pages; page i of them, from 0, has 512 copies of the word plus i.
#[tactic(auto, using(crate::proofs::Pages::one_page_more))]
fn write_commands(
    alloc: Global,
    volume: &VolumeRef,
    page: u64,
    count: u64,
    word: u64,
) -> Result<ListOf<Command>, Memory>
    requires { page + count < 2 ^ 64 }
    ensures { IfOk result (λ commands. commands ≡ map (said.write_at volume.now page word) (range_with_len 0 count)) }
{
    let mut commands = ListOf::new(alloc);
    for i in 0..count {
        commands.push(Command::Write {
            volume: volume.try_copy(alloc)?,
            page: page + i,
            word: PageWord::Fill(word.wrapping_add(i)),
        })?;
    }
    Ok(commands)
}

/// The reads of so many pages.
#[tactic(auto, using(crate::proofs::Pages::one_page_more))]
fn read_commands(
    alloc: Global,
    volume: &VolumeRef,
    page: u64,
    count: u64,
) -> Result<ListOf<Command>, Memory>
    requires { page + count < 2 ^ 64 }
    ensures { IfOk result (λ commands. commands ≡ map (said.read_at volume.now page) (range_with_len 0 count)) }
{
    let mut commands = ListOf::new(alloc);
    for i in 0..count {
        commands.push(Command::Read {
            volume: volume.try_copy(alloc)?,
            page: page + i,
        })?;
    }
    Ok(commands)
}

/// Whether pages end below 2^64.
fn are_pages(page: u64, count: u64) -> bool
    ensures { result ≡ nat_lt (page + count) (2 ^ 64) }
{
    page.checked_add(count).is_some()
}

/// The commands of `write VOL PAGE COUNT WORD`, with the values of the words after `VOL`.
pub fn writing(
    alloc: Global,
    volume: VolumeRef,
    first: Option<Value>,
    second: Option<Value>,
    third: Option<Value>,
) -> Result<ListOf<Command>, LineFault>
    ensures { AnswersAsSaid (said.write_commands (Value.Volume volume ∷ listed first second third None)) result }
{
    let Some(Value::Number(page)) = first else {
        return Err(LineFault::Bad(LineKind::Form));
    };
    let Some(Value::Number(count)) = second else {
        return Err(LineFault::Bad(LineKind::Form));
    };
    let Some(Value::Number(word)) = third else {
        return Err(LineFault::Bad(LineKind::Form));
    };
    if !are_pages(page, count) {
        return Err(LineFault::Bad(LineKind::Number));
    }
    Ok(write_commands(alloc, &volume, page, count, word)?)
}

/// The commands of `read VOL PAGE COUNT`, with the values of the words after `VOL`.
pub fn reading(
    alloc: Global,
    volume: VolumeRef,
    first: Option<Value>,
    second: Option<Value>,
    third: Option<Value>,
) -> Result<ListOf<Command>, LineFault>
    ensures { AnswersAsSaid (said.read_commands (Value.Volume volume ∷ listed first second third None)) result }
{
    let Some(Value::Number(page)) = first else {
        return Err(LineFault::Bad(LineKind::Form));
    };
    let Some(Value::Number(count)) = second else {
        return Err(LineFault::Bad(LineKind::Form));
    };
    if third.is_some() {
        return Err(LineFault::Bad(LineKind::Form));
    }
    if !are_pages(page, count) {
        return Err(LineFault::Bad(LineKind::Number));
    }
    Ok(read_commands(alloc, &volume, page, count)?)
}
