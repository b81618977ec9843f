//! Lines of a script and printed lines that have a long value.

use std::alloc::Global;
use std::test::Fail;

/// A value: a letter, and how often it stands there.
pub type Letters = (u8, usize);

/// Appends a line that begins so and ends with a value.
pub fn push_long(script: &mut Vec<u8>, begin: &[u8], value: Letters) -> Result<(), Fail> {
    let (letter, length) = value;
    script.extend_from_slice(begin)?;
    for _ in 0..length {
        script.push(letter)?;
    }
    script.push(b'\n')?;
    Ok(())
}

/// Appends the line of an entry with this number that tells a value, or that there is none.
pub fn push_told(
    alloc: Global,
    lines: &mut Vec<u8>,
    index: usize,
    value: Option<Letters>,
) -> Result<(), Fail> {
    let Some((letter, length)) = value else {
        lines.extend_from_slice(format!(in alloc; "0 {index} no value\n")?.as_bytes())?;
        return Ok(());
    };
    lines.extend_from_slice(format!(in alloc; "0 {index} value ")?.as_bytes())?;
    let digits = format!(in alloc; "{letter:02x}")?;
    for _ in 0..length {
        lines.extend_from_slice(digits.as_bytes())?;
    }
    lines.push(b'\n')?;
    Ok(())
}
