//! A script that makes a family and removes it, and what plain volumes hold behind each of its commands.

use std::alloc::Global;
use std::test::Fail;

/// A command, and what is read behind it of `v`, `s` and `c`: of each the words that fill its pages 0 and 4, and the
/// value of its attribute `k`, in hexadecimal, or `none`. Of a volume that isn't there each is `-`.
pub(crate) type FamilyStep = (&'static [u8], &'static str);

/// A volume with a page in both of its slots, a snapshot that keeps them, and a clone of that: volume and clone then
/// write one of the two pages, and get attributes of their own. Clone and snapshot are removed again; the first delete
/// is refused.
pub(crate) static STEPS: [FamilyStep; 20] = [
    (b"", "- - - - - - - - -"),
    (b"0 create v 2 thin\n", "0 0 none - - - - - -"),
    (b"0 put v k t:1\n", "0 0 31 - - - - - -"),
    (b"0 write v 0 1 5\n", "5 0 31 - - - - - -"),
    (b"0 flush\n", "5 0 31 - - - - - -"),
    (b"0 write v 4 1 7\n", "5 7 31 - - - - - -"),
    (b"0 snapshot v s\n", "5 7 31 5 7 none - - -"),
    (b"0 write v 0 1 6\n", "6 7 31 5 7 none - - -"),
    (b"0 flush\n", "6 7 31 5 7 none - - -"),
    (b"0 put v k t:2\n", "6 7 32 5 7 none - - -"),
    (b"0 clone s c\n", "6 7 32 5 7 none 5 7 none"),
    (b"0 write c 4 1 8\n", "6 7 32 5 7 none 5 8 none"),
    (b"0 put c k t:3\n", "6 7 32 5 7 none 5 8 33"),
    (b"0 write v 0 1 9\n", "9 7 32 5 7 none 5 8 33"),
    (b"0 flush\n", "9 7 32 5 7 none 5 8 33"),
    (b"0 delete s\n", "9 7 32 5 7 none 5 8 33"),
    (b"0 delete c\n", "9 7 32 5 7 none - - -"),
    (b"0 delete s\n", "9 7 32 - - - - - -"),
    (b"0 write v 4 1 4\n", "9 4 32 - - - - - -"),
    (b"0 flush\n", "9 4 32 - - - - - -"),
];

/// A look at these.
pub(crate) const LOOK: &[u8] =
    b"0 read v 0 1\n0 read v 4 1\n0 getx v k\n0 read s 0 1\n0 read s 4 1\n0 getx s k\n\
    0 read c 0 1\n0 read c 4 1\n0 getx c k\n";

/// One of the nine words.
fn word_at(words: &'static str, index: usize) -> Result<&'static str, Fail> {
    let mut words = words.split_whitespace();
    Ok(words.nth(index).ok_or("a line too many")?)
}

/// What a look prints for a word.
fn line_of(alloc: Global, index: usize, word: &str) -> Result<String, Fail> {
    if word == "-" {
        return Ok(format!(in alloc; "0 {index} no volume")?);
    }
    if word == "none" {
        return Ok(format!(in alloc; "0 {index} no value")?);
    }
    if index % 3 == 2 {
        return Ok(format!(in alloc; "0 {index} value {word}")?);
    }
    Ok(format!(in alloc; "0 {index} page fill 000000000000000{word}")?)
}

/// Whether a printed line tells this word; or, where another one stood there until a write that isn't settled, that
/// one, or a torn page.
fn may_be_told(alloc: Global, index: usize, line: &str, was: &str, is: &str) -> Result<bool, Fail> {
    if line_of(alloc, index, is)?.as_str() == line {
        return Ok(true);
    }
    let is_before = line_of(alloc, index, was)?.as_str() == line;
    Ok(was != is && (is_before || line.contains(" page crc ")))
}

/// What was found before a step, if that is a write, and else what is found behind it.
fn words_before(step: usize, line: &[u8], words: &'static str) -> &'static str {
    if !line.starts_with(b"0 write ") {
        return words;
    }
    match STEPS.get(step.saturating_sub(1)) {
        Some((_, before)) => *before,
        None => words,
    }
}

/// Whether a printed look tells what is found behind so many commands. The page of a write is settled by the command
/// behind it.
pub(crate) fn tells_step(alloc: Global, step: usize, told: &[u8]) -> Result<bool, Fail> {
    let Ok(text) = str::from_utf8(told) else {
        return Err(Fail::new("no text is printed"));
    };
    let Some((line, is)) = STEPS.get(step) else {
        return Ok(false);
    };
    let was = words_before(step, line, is);
    let mut fits = text.lines().count() == 9;
    for (index, line) in text.lines().enumerate() {
        fits = fits
            && may_be_told(
                alloc,
                index,
                line,
                word_at(was, index)?,
                word_at(is, index)?,
            )?;
    }
    Ok(fits)
}
