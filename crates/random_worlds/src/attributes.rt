//! Attributes of plain volumes, as lists.

use std::alloc::Global;
use std::test::Fail;

/// An attribute: its key, told by a letter, and a value of so many times one letter.
#[derive(Clone, Copy)]
pub struct Attribute {
    pub key: u8,
    pub letter: u8,
    pub length: usize,
}

/// The key that a letter tells. One of them is reserved.
pub fn key_text(key: u8) -> &'static str {
    match key {
        b'i' => "i",
        b'j' => "j",
        b'k' => "k",
        _ => "name",
    }
}

/// The letters of a value.
pub fn value_of(alloc: Global, attribute: Attribute) -> Result<Vec<u8>, Fail> {
    let mut value = Vec::new(alloc);
    for _ in 0..attribute.length {
        value.push(attribute.letter)?;
    }
    Ok(value)
}

/// Sets an attribute: in the place of that with its key, or behind all others.
pub fn set(list: &mut Vec<Attribute>, attribute: Attribute) -> Result<(), Fail> {
    for other in list.iter_mut() {
        if other.key == attribute.key {
            *other = attribute;
            return Ok(());
        }
    }
    list.push(attribute)?;
    Ok(())
}

/// The attributes without that of a key.
pub fn without(alloc: Global, list: &[Attribute], key: u8) -> Result<Vec<Attribute>, Fail> {
    let mut rest = Vec::new(alloc);
    for attribute in list {
        if attribute.key != key {
            rest.push(*attribute)?;
        }
    }
    Ok(rest)
}

/// Whether a list has an attribute of this key.
pub fn has(list: &[Attribute], key: u8) -> bool {
    for attribute in list {
        if attribute.key == key {
            return true;
        }
    }
    false
}
