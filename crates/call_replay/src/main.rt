//! Replays device calls over a file: reads them from standard input, a line each (`r PAGE`, `w PAGE`, `w PAGE PAGES`
//! or `f`), prints how many they are, and then makes just these, on pages of 4096 bytes. Who times them begins at that
//! line.
#![tactic(auto)]

mod call;

use anyhow::{Result, bail};
use call::{Call, MOST_BYTES};
use std::env;
use std::fs::File;
use std::io::Read;

const USAGE: &str = "usage: call_replay IMAGE < CALLS";

/// The image that the words name.
fn image(rt: &HostRuntime) -> Result<File> {
    let mut words = env::args(rt)?.skip(1);
    match (words.next(), words.next()) {
        (Some(path), None) => Ok(
            File::options()
                .read(true)
                .write(true)
                .open(rt, path.as_str())?,
        ),
        _ => bail!("{USAGE}"),
    }
}

/// The calls that standard input lists.
fn listed_calls(rt: &HostRuntime) -> Result<Vec<Call>> {
    let mut text = String::new(rt.alloc());
    rt.stdin().read_to_string(&mut text)?;
    let mut calls = Vec::new(rt.alloc());
    for line in text.as_str().lines() {
        calls.push(line.parse::<Call>()?)?;
    }
    Ok(calls)
}

fn main(rt: HostRuntime) -> Result<()> {
    let file = image(&rt)?;
    let calls = listed_calls(&rt)?;
    println!(rt; "{} calls", calls.len())?;
    let mut page = [1; 4096];
    let bytes = vec![in rt.alloc(); 1; MOST_BYTES]?;
    for call in calls.as_slice() {
        call.make(&file, &mut page, bytes.as_slice())?;
    }
    Ok(())
}
