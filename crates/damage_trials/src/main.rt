//! Damages images of stores at random, and gives each to the program: `damage_trials SEED COUNT`. Each is listed, and
//! run where it can be, or refused with its fault; no listing makes more reads than a load may. An image that is
//! answered otherwise ends the program. How often each answer came is told on standard error.
#![tactic(auto)]

mod calls;
mod damage;
mod stores;
mod trials;

use anyhow::{Context, Result, bail};
use damage::damaged;
use page_disk::MemDisk;
use rand_pcg::Pcg32;
use std::env;
use stores::stores;
use trials::{MOST_READS, Tally, tried};

const USAGE: &str = "usage: damage_trials SEED COUNT";

/// The seed and the number of images that the words ask for.
fn words(rt: &HostRuntime) -> Result<(u64, u32)> {
    let mut words = env::args(rt)?.skip(1);
    match (words.next(), words.next(), words.next()) {
        (Some(seed), Some(count), None) => {
            let seed = seed.as_str().parse::<u64>().context(USAGE)?;
            let count = count.as_str().parse::<u32>().context(USAGE)?;
            Ok((seed, count))
        }
        _ => bail!("{USAGE}"),
    }
}

/// The store whose turn it is: one after another, and then the first again.
fn in_turn(stores: &[MemDisk], number: u32) -> Result<&MemDisk> {
    let place = number as usize % stores.len().max(1);
    stores.get(place).context("there is no store")
}

fn main(rt: HostRuntime) -> Result<()> {
    let (seed, count) = words(&rt)?;
    let stores = stores(rt.alloc())?;
    let mut draws = Pcg32::new(seed, 54);
    let mut tally = Tally::default();
    for number in 0..count {
        let disk = damaged(in_turn(stores.as_slice(), number)?, &mut draws)?;
        tally.add(tried(rt.alloc(), disk)?);
    }
    println!(rt; "{count} damaged images, each listed or refused within {MOST_READS} reads")?;
    eprintln!(rt; "{tally}")?;
    Ok(())
}
