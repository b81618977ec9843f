//! Words, as a shell splits a line.

use std::alloc::Global;
use std::test::Fail;

/// The words of a line.
pub fn words_of(alloc: Global, line: &str) -> Result<Vec<String>, Fail> {
    let mut words = Vec::new(alloc);
    for word in line.split_whitespace() {
        words.push(format!(in alloc; "{word}")?)?;
    }
    Ok(words)
}
