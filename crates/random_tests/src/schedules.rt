//! Random schedules.

use random_worlds::Draws;
use std::alloc::Global;
use std::test::Fail;

/// Appends a number in decimal between two words.
fn push_number(
    alloc: Global,
    list: &mut String,
    (before, number, behind): (&str, u64, &str),
) -> Result<(), Fail> {
    list.push_str(format!(in alloc; "{before}{number}{behind}")?.as_str())?;
    Ok(())
}

/// Appends an actor behind this word: a channel below an end, or the metadata thread.
fn push_actor(
    alloc: Global,
    draws: &mut Draws,
    end: u64,
    before: &str,
    list: &mut String,
) -> Result<(), Fail> {
    if draws.is_zero(4) {
        list.push_str(before)?;
        list.push('m')?;
        return Ok(());
    }
    push_number(alloc, list, (before, draws.below(end), ""))
}

/// Appends a part: up to four actors, of channels below an end and of the metadata thread, up to 24 times.
fn push_part(alloc: Global, draws: &mut Draws, end: u64, list: &mut String) -> Result<(), Fail> {
    for at in 0..draws.below(4).wrapping_add(1) {
        push_actor(alloc, draws, end, if at > 0 { "+" } else { "" }, list)?;
    }
    if !draws.is_zero(4) {
        push_number(alloc, list, ("*", draws.below(24).wrapping_add(1), ""))?;
    }
    list.push(',')?;
    Ok(())
}

/// Appends a schedule of so many channels, at most 15, in which they end and channel 15 has no step: drawn parts, whose
/// actors are maybe of the next number too, and then more rounds of the channels and the metadata thread than a short
/// script needs.
pub fn push_schedule(
    alloc: Global,
    draws: &mut Draws,
    channels: u64,
    list: &mut String,
) -> Result<(), Fail> {
    let end = if channels < 15 {
        channels.wrapping_add(1)
    } else {
        15
    };
    for _ in 0..draws.below(8) {
        push_part(alloc, draws, end, list)?;
    }
    push_rounds(alloc, channels, list)
}

/// Appends 700 rounds of so many channels and the metadata thread.
fn push_rounds(alloc: Global, channels: u64, list: &mut String) -> Result<(), Fail> {
    for channel in 0..channels {
        push_number(alloc, list, ("", channel, "+"))?;
    }
    list.push_str("m*700")?;
    Ok(())
}
