//! A store that runs, turn by turn, each told by a word.

ghost use Rattle.std.specs.Prelude.{◌≡◌};

use crate::metadata::make_turns;
use blob_report::render_entry;
use page_disk::MemDisk;
use script_lang::parse;
use std::alloc::Global;
use std::process::Abort;
use std::test::Fail;
use store_core::{
    ClaimTurn, CopyTurn, InsertTurn, JobTurn, Loaded, MdRight, Parts, Plant, ReadTurn, Request,
    RowStage, SendTurn, SettleTurn, WriteTurn,
};
use store_model::{state_stops, state_turns};
use unclean_load::{load, stores_are_accepted};

/// A running store, and the right to change its metadata.
pub struct Session {
    plant: Plant<MemDisk>,
    right: MdRight,
    ghost is_its_own: { right ≡ plant.right },
}

/// Lets go of what was loaded.
pub fn let_go(loaded: Loaded<MemDisk>) {
    let Loaded {
        disk: _,
        sup: _,
        metas: _,
        removed: _,
        marked: _,
        chains: _,
        repairs: _,
        masks: _,
        quick: _,
    } = loaded;
}

impl Session {
    /// Starts the store of a device with a script.
    pub fn start(alloc: Global, disk: MemDisk, text: &[u8]) -> Result<Session, Fail> {
        state_stops();
        state_turns();
        stores_are_accepted();
        let Ok(script) = parse(alloc, text) else {
            return Err(Fail::new("the script is outside the grammar"));
        };
        let loaded = match load(alloc, disk) {
            Ok(loaded) => loaded,
            Err((_, fault)) => return Err(Fail::new(fault)),
        };
        match Plant::start(alloc, loaded, script) {
            Ok((plant, right)) => Ok(Session { plant, right }),
            Err(loaded) => {
                let_go(loaded);
                Err(Fail::new("no memory"))
            }
        }
    }

    /// The turn of a channel that has found its slot empty, or has a cluster to fill or to post.
    fn claim_turn(&mut self, channel: u8) -> &'static str {
        match self.plant.stage(channel) {
            RowStage::Claim => match self.plant.claim(channel) {
                ClaimTurn::Frozen => "frozen",
                ClaimTurn::Filled => "filled",
                ClaimTurn::Claimed => "claimed",
                ClaimTurn::Logged => "logged",
            },
            RowStage::Copy { .. } => match self.plant.copy_page(channel) {
                CopyTurn::Lost => "lost",
                CopyTurn::Copied(_) => "copied",
                CopyTurn::Logged => "logged",
            },
            RowStage::Ready => match self.plant.send_ready(channel) {
                SendTurn::Post(_) => "posted",
                SendTurn::Logged => "logged",
            },
            _ => "no turn",
        }
    }

    /// The turn of a channel at the begin of a command.
    fn first_turn(&mut self, channel: u8) -> &'static str {
        match self.plant.stage(channel) {
            RowStage::Read => match self.plant.read_page(channel) {
                ReadTurn::Frozen => "frozen",
                ReadTurn::Logged => "logged",
            },
            RowStage::Write => match self.plant.write_page(channel) {
                WriteTurn::Frozen => "frozen",
                WriteTurn::Empty => "empty",
                WriteTurn::Logged => "logged",
            },
            RowStage::Flush => {
                self.plant.flush(channel);
                "logged"
            }
            RowStage::Meta => {
                self.plant.post(channel);
                "posted"
            }
            _ => self.claim_turn(channel),
        }
    }

    /// The turn of a channel that its stage names.
    pub fn turn(&mut self, channel: u8) -> &'static str {
        match self.plant.stage(channel) {
            RowStage::Posted(_) | RowStage::InJob | RowStage::Decided => {
                match self.plant.settle(channel) {
                    SettleTurn::Waiting => "waiting",
                    SettleTurn::Won => "won",
                    SettleTurn::Lost => "lost",
                    SettleTurn::Logged => "settled",
                }
            }
            _ => self.first_turn(channel),
        }
    }

    /// A channel's turns from its claim to its post.
    pub fn fill(&mut self, channel: u8) -> &'static str {
        let mut told = "copied";
        for _ in 0..6 {
            if told == "copied" {
                told = self.turn(channel);
            }
        }
        told
    }

    /// A channel's turns to the post of its insert.
    pub fn post(&mut self, channel: u8) -> &'static str {
        let empty = self.turn(channel);
        if empty != "empty" {
            return empty;
        }
        let claimed = self.turn(channel);
        if claimed != "claimed" {
            return claimed;
        }
        self.fill(channel)
    }

    /// The metadata thread begins what a channel has posted.
    pub fn begin(&mut self, alloc: Global, channel: u8) -> &'static str {
        if self.plant.job_runs() || self.plant.stopped().is_some() || !self.plant.is_unmarked() {
            return "not now";
        }
        let RowStage::Posted(msg) = self.plant.stage(channel) else {
            return "not posted";
        };
        if !matches!(self.plant.request(&self.right, msg), Ok(Request::Insert)) {
            make_turns(alloc, &mut self.plant, &mut self.right, msg, 2);
            return if self.plant.job_runs() {
                "began"
            } else {
                "logged"
            };
        }
        match self.plant.begin_insert(&mut self.right, msg) {
            InsertTurn::Began => "began",
            InsertTurn::Decided => "decided",
            InsertTurn::Logged => "logged",
        }
    }

    /// One turn of the job that runs.
    pub fn job_turn(&mut self) -> &'static str {
        if !self.plant.job_runs() {
            return "no job";
        }
        self.plant.keeps();
        match self.plant.job_turn(&mut self.right) {
            JobTurn::More => "more",
            JobTurn::Done => "done",
            JobTurn::Stopped(_) => "stopped",
        }
    }

    /// The turns of the job that runs, to its last.
    pub fn finish(&mut self) -> &'static str {
        let mut told = "more";
        for _ in 0..64 {
            if told == "more" {
                told = self.job_turn();
            }
        }
        told
    }

    /// How many clusters and metadata pages are clear.
    pub fn clear(&self) -> (u32, u32) {
        let df = self.plant.df();
        (df.free_clusters, df.free_pages)
    }

    /// The log, as it is printed.
    pub fn log(&self, alloc: Global) -> Result<Vec<u8>, Fail> {
        let mut lines = Vec::new(alloc);
        for entry in self.plant.entries() {
            render_entry(entry, &mut lines)?;
        }
        Ok(lines)
    }

    /// Ends the store, and gives its device and how many clusters its mask has.
    pub fn close(self, rt: &impl Abort) -> (MemDisk, u32) {
        let Session { plant, right } = self;
        if plant.job_runs() {
            panic!(rt; "a job runs still");
        }
        let Parts {
            disk,
            sup: _,
            masks,
            entries: _,
        } = plant.into_parts(right);
        (disk, masks.clusters.count())
    }
}
