//! Cuts the power off in a run: runs the script from standard input on the store in an image file, over a disk in
//! memory that stops after so many calls, prints the log, and writes to the file what a crash leaves of the disk.
//!
//! The image of its stored run, `data/store.img`, is what `blobtool format store.img --cluster 4096 --md-pages 2` makes
//! of 16 pages.
#![tactic(auto)]

mod cut;
mod image;

use anyhow::{Context, Result, bail};
use cut::{Cut, Left};
use image::Image;
use std::env;
use std::fs::File;
use std::io::{Read, Write};

const USAGE: &str = "usage: power_cut IMAGE CALLS PICK < SCRIPT";

/// The image that the words name, and where they cut.
fn words(rt: &HostRuntime) -> Result<(String, Cut)> {
    let mut words = env::args(rt)?.skip(1);
    match (words.next(), words.next(), words.next(), words.next()) {
        (Some(image), Some(calls), Some(pick), None) => {
            let calls = calls.as_str().parse::<u32>().context(USAGE)?;
            let pick = pick.as_str().parse::<u64>().context(USAGE)?;
            Ok((image, Cut { calls, pick }))
        }
        _ => bail!("{USAGE}"),
    }
}

fn main(rt: HostRuntime) -> Result<()> {
    let (path, cut) = words(&rt)?;
    let image = Image::new(
        File::options()
            .read(true)
            .write(true)
            .open(&rt, path.as_str())?,
    )?;
    let mut script = Vec::new(rt.alloc());
    rt.stdin().read_to_end(&mut script)?;
    let disk = image.read(rt.alloc(), cut.calls)?;
    let Left {
        out,
        mut disk,
        calls,
    } = cut.run(rt.alloc(), script, disk)?;
    rt.stdout().write_all(out.bytes())?;
    image.write(&mut disk)?;
    println!(rt; "power failed after {calls} device calls")?;
    Ok(())
}
