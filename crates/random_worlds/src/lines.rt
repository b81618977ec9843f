//! What is asked for, as lines of a script.

use crate::asks::Ask;
use crate::attributes::{Attribute, key_text};
use std::alloc::Global;
use std::test::Fail;
use test_lines::push_long;

/// The numbers of a line, in order; a read and a write are for so many pages.
fn numbers(ask: &Ask, count: u64) -> [Option<u64>; 3] {
    match *ask {
        Ask::Create { slots, .. } | Ask::Resize { slots, .. } => [Some(slots), None, None],
        Ask::Write { page, word, .. } => [Some(page), Some(count), Some(word)],
        Ask::Read { page, .. } => [Some(page), Some(count), None],
        _ => [None; 3],
    }
}

fn push_word(script: &mut Vec<u8>, word: &[u8]) -> Result<(), Fail> {
    script.push(b' ')?;
    script.extend_from_slice(word)?;
    Ok(())
}

/// Appends a number in decimal behind these bytes.
fn push_number(alloc: Global, script: &mut Vec<u8>, begin: &[u8], number: u64) -> Result<(), Fail> {
    script.extend_from_slice(begin)?;
    script.extend_from_slice(format!(in alloc; "{number}")?.as_bytes())?;
    Ok(())
}

/// Appends the word that tells a volume: by its head, if there is one here, and else by its name.
fn push_volume(
    alloc: Global,
    script: &mut Vec<u8>,
    name: u8,
    head: Option<u32>,
) -> Result<(), Fail> {
    match head {
        Some(head) => push_number(alloc, script, b" @", u64::from(head)),
        None => push_word(script, &[name]),
    }
}

/// Appends the words that tell an attribute, and ends the line.
fn push_attribute(script: &mut Vec<u8>, attribute: Attribute) -> Result<(), Fail> {
    push_word(script, key_text(attribute.key).as_bytes())?;
    push_long(script, b" t:", (attribute.letter, attribute.length))
}

/// Appends the word behind the numbers of a line, where there is one and it tells no attribute.
fn push_last(script: &mut Vec<u8>, ask: &Ask) -> Result<(), Fail> {
    match ask {
        Ask::Create { thick, .. } => push_word(script, if *thick { b"thick" } else { b"thin" }),
        Ask::Snapshot { new, .. } | Ask::Clone { new, .. } | Ask::Rename { new, .. } => {
            push_word(script, &[*new])
        }
        Ask::Remove { key, .. } | Ask::Get { key, .. } => {
            push_word(script, key_text(*key).as_bytes())
        }
        _ => Ok(()),
    }
}

/// Appends what stands behind the numbers of a line, and ends it.
fn push_end(script: &mut Vec<u8>, ask: &Ask) -> Result<(), Fail> {
    if let Ask::Set { attribute, .. } | Ask::Put { attribute, .. } = ask {
        return push_attribute(script, *attribute);
    }
    push_last(script, ask)?;
    script.push(b'\n')?;
    Ok(())
}

/// Appends the line of a channel that asks for this, a read or a write for so many pages. Its volume is told by its
/// head, if there is one here, and else by its name.
pub fn push_line(
    alloc: Global,
    script: &mut Vec<u8>,
    channel: u8,
    (ask, head): (&Ask, Option<u32>),
    count: u64,
) -> Result<(), Fail> {
    push_number(alloc, script, b"", u64::from(channel))?;
    push_word(script, ask.verb().as_bytes())?;
    if let Some(name) = ask.name() {
        push_volume(alloc, script, name, head)?;
    }
    for number in &numbers(ask, count) {
        if let Some(number) = number {
            push_number(alloc, script, b" ", *number)?;
        }
    }
    push_end(script, ask)
}
