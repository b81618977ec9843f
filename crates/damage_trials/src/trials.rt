//! A damaged image is given to the program.

use crate::calls::{Ended, call};
use anyhow::{Result, bail};
use blob_tool::Status;
use page_disk::{CallKind, FaultDisk, MemDisk};
use std::alloc::Global;
use std::fmt;
use unclean_load::LoadFault;

/// How many reads a load makes at most: of the super block, of three masks of a page each, and four times of each of 16
/// metadata pages.
pub const MOST_READS: u64 = 1 + 3 + 4 * 16;

/// What is run on an image that is listed.
const SCRIPT: &[u8] =
    b"0 list\n0 df\n0 read a 0 1\n0 write a 4 1 9\n0 create n 2 thin\n0 write n 0 1 7\n\
    0 snapshot n m\n0 delete a\n0 delete n\n0 list\n";

/// What came of an image: it was run, or it has a fault.
#[derive(Clone, Copy)]
pub enum Outcome {
    Run,
    Super,
    Chain,
    Meta,
    Maps,
    Parents,
    Shared,
    NoRoom,
}

/// How often each came.
#[derive(Default, Drop)]
pub struct Tally {
    run: u64,
    super_block: u64,
    chain: u64,
    meta: u64,
    maps: u64,
    parents: u64,
    shared: u64,
    no_room: u64,
}

impl Tally {
    pub fn add(&mut self, outcome: Outcome) {
        let count = match outcome {
            Outcome::Run => &mut self.run,
            Outcome::Super => &mut self.super_block,
            Outcome::Chain => &mut self.chain,
            Outcome::Meta => &mut self.meta,
            Outcome::Maps => &mut self.maps,
            Outcome::Parents => &mut self.parents,
            Outcome::Shared => &mut self.shared,
            Outcome::NoRoom => &mut self.no_room,
        };
        *count = count.saturating_add(1);
    }
}

impl fmt::Display for Tally {
    fn fmt<W: fmt::Write>(&self, f: &mut fmt::Formatter<W>) -> fmt::Result {
        write!(
            f,
            "run {} super {} chain {} meta {} ",
            self.run, self.super_block, self.chain, self.meta
        )?;
        write!(
            f,
            "maps {} parents {} shared {} no room {}",
            self.maps, self.parents, self.shared, self.no_room
        )
    }
}

/// The fault of an image.
fn refused(fault: &LoadFault) -> Result<Outcome> {
    match fault {
        LoadFault::Super(_) => Ok(Outcome::Super),
        LoadFault::Chain { .. } => Ok(Outcome::Chain),
        LoadFault::Meta { .. } => Ok(Outcome::Meta),
        LoadFault::MapsTooLarge { .. } => Ok(Outcome::Maps),
        LoadFault::NoParentBlob { .. }
        | LoadFault::WritableParent { .. }
        | LoadFault::ParentLoop { .. } => Ok(Outcome::Parents),
        LoadFault::Shared { .. } => Ok(Outcome::Shared),
        LoadFault::NoRoom { .. } => Ok(Outcome::NoRoom),
        LoadFault::ReadFault | LoadFault::Memory => bail!("an image that {fault}"),
    }
}

/// Runs a script on an image that was listed.
fn ran(alloc: Global, disk: MemDisk) -> Result<Outcome> {
    let Ended { status, disk: _ } = call(alloc, "run image", SCRIPT, disk)?;
    match status {
        Status::Good => Ok(Outcome::Run),
        Status::Image { fault } => refused(&fault),
        status => bail!("a run ended with {status:?}"),
    }
}

/// Lists an image, and runs it where it can be.
pub fn tried(alloc: Global, disk: MemDisk) -> Result<Outcome> {
    let disk = FaultDisk::new(disk, Vec::new(alloc));
    let Ended { status, disk } = call(alloc, "list image", b"", disk)?;
    let reads = disk.calls(CallKind::Read);
    if reads > MOST_READS {
        bail!("a listing made {reads} reads");
    }
    match status {
        Status::Good => ran(alloc, disk.into_inner()),
        Status::Image { fault } => refused(&fault),
        status => bail!("a listing ended with {status:?}"),
    }
}
