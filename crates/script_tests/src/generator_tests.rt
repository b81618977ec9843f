//! Generated scripts.

use crate::told::{expect, told, told_of};
use script_lang::{generate, generate_line, generate_text};
use std::alloc::Global;
use std::test::Fail;

/// Two lines of a script of three draws from 1: the last, and the first behind it.
fn two_lines(alloc: Global) -> Result<Vec<u8>, Fail> {
    let mut lines = Vec::new(alloc);
    generate_line(1, 3, 6, &mut lines)?;
    generate_line(1, 3, 0, &mut lines)?;
    Ok(lines)
}

/// A script whose draws are those of the first ten of the generator from 1.
#[test]
fn the_first_draws(rt: HostRuntime) -> Result<(), Fail> {
    let alloc = rt.alloc();
    let wanted: &[u8] =
        b"0 create v0 8 thin\n1 create v1 8 thin\n2 create v2 8 thin\n3 create v3 8 thin\n\
        2 flush\n1 write v1 11 1 5627\n2 write v2 20 1 4086\n";
    expect(&rt, &generate_text(alloc, 1, 3)?, wanted);
    let wanted: &[u8] = b"2 write v2 20 1 4086\n0 create v0 8 thin\n";
    expect(&rt, &two_lines(alloc)?, wanted);
    Ok(())
}

/// The commands of a script of three draws.
fn short_script_told(alloc: Global) -> Result<Vec<u8>, Fail> {
    let script = generate(alloc, 1, 3)?;
    told_of(alloc, &script)
}

/// What the text of the largest script is as a script.
fn largest_text_told(alloc: Global) -> Result<Vec<u8>, Fail> {
    let text = generate_text(alloc, 1, 65000)?;
    told(alloc, &text)
}

/// How many commands the largest script has in the first four channels.
fn largest_script_length(alloc: Global) -> Result<usize, Fail> {
    let script = generate(alloc, 1, 65000)?;
    let mut count: usize = 0;
    for channel in 0..4 {
        count = script.commands(channel).len().wrapping_add(count);
    }
    Ok(count)
}

/// The commands of this script; and the largest text is longer than a script may be, while the script is made.
#[test]
fn the_scripts_of_numbers(rt: HostRuntime) -> Result<(), Fail> {
    let alloc = rt.alloc();
    let wanted: &[u8] = b"0 create v0 8 thin;1 create v1 8 thin;1 write v1 11 5627;\
        2 create v2 8 thin;2 flush;2 write v2 20 4086;3 create v3 8 thin;";
    expect(&rt, &short_script_told(alloc)?, wanted);
    expect(&rt, &largest_text_told(alloc)?, b"too big");
    assert_eq!(rt; largest_script_length(alloc)?, 65004);
    Ok(())
}
