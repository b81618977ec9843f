//! Orders of turns, and what each comes to.

use crate::sessions::Session;
use page_disk::MemDisk;
use std::alloc::Global;
use std::process::Abort;
use std::test::Fail;
use test_stores::{ChainRow, expect_chains};

/// What is done next: a turn of a channel; its turns to the post of an insert, from the first one or from the claim;
/// the begin of what it has posted; one turn of the job, or those to its last; a look at what is clear.
#[derive(Clone, Copy, Debug)]
pub enum Next {
    Turn(u8),
    Post(u8),
    Fill(u8),
    Begin(u8),
    Job,
    Finish,
    Clear(u32),
}

/// A script, what is done next each time and the word that tells what comes of it, the log, how many clusters are used
/// at the end, and the chains.
#[derive(Clone, Copy)]
pub struct Order {
    pub script: &'static [u8],
    pub nexts: &'static [(Next, &'static str)],
    pub log: &'static [u8],
    pub used: u32,
    pub chains: &'static [ChainRow<'static>],
}

/// The word that tells what comes of a step.
fn told(alloc: Global, session: &mut Session, next: Next) -> &'static str {
    match next {
        Next::Turn(channel) => session.turn(channel),
        Next::Post(channel) => session.post(channel),
        Next::Fill(channel) => session.fill(channel),
        Next::Begin(channel) => session.begin(alloc, channel),
        Next::Job => session.job_turn(),
        Next::Finish => session.finish(),
        Next::Clear(clusters) => {
            if session.clear().0 == clusters {
                "clear"
            } else {
                "another number"
            }
        }
    }
}

/// Does what is next each time, and expects what comes of it.
fn expect_nexts(alloc: Global, session: &mut Session, order: &Order) -> Result<(), Fail> {
    for (at, (next, wanted)) in order.nexts.iter().enumerate() {
        let found = told(alloc, session, *next);
        if found != *wanted {
            return Err(Fail::new(format_args!("{at}: {next:?} is {found} and not {wanted}")));
        }
    }
    let log = session.log(alloc)?;
    if log.as_slice() != order.log {
        return Err(Fail::new(format_args!("the log is {:?}", log.as_slice())));
    }
    Ok(())
}

/// Runs an order on a device, and expects what it comes to. Where it comes to something else, a job may run still.
pub fn expect_order(
    rt: &impl Abort,
    alloc: Global,
    order: &Order,
    disk: MemDisk,
) -> Result<(), Fail> {
    let mut session = Session::start(alloc, disk, order.script)?;
    let expected = expect_nexts(alloc, &mut session, order);
    session.finish();
    let (disk, used) = session.close(rt);
    expected?;
    if used != order.used {
        return Err(Fail::new(format_args!("{used} clusters are used")));
    }
    expect_chains(alloc, disk.crash(0)?, order.chains)
}
