//! The rows of the channels.

ghost use Rattle.std.specs.Prelude.{None, ◌≡◌, ◌<◌, ◌∷◌, List, length};
ghost use Rattle.volume_model.specs.declared.command.Command.{Command as ACommand};
ghost use Rattle.running_store.specs.StoreView.{rows_of};

use crate::reserved::{Taken, is_read, pages_for};
use crate::stages::{Decision, OpenClaim, Stage};
use out_of_memory::Memory;
use page_disk::Page;
use std::alloc::Global;
use std::boxed::Box;
use std::collections::VecDeque;
use std::marker::Model;
use volume_model::{Command, Msg};

/// What a channel's row waits for.
#[derive(Clone, Copy)]
pub enum RowStage {
    /// The first command reads a page.
    Read,
    /// The first command writes a page.
    Write,
    /// The first command is a flush.
    Flush,
    /// The first command is one for the metadata thread, and is to be posted.
    Meta,
    /// A page write has found its slot empty, and is to claim a cluster.
    Claim,
    /// The claim has so many pages of its cluster to copy.
    Copy { left: u32 },
    /// All pages are copied, and the insert is to be posted.
    Ready,
    /// The request is posted by this message.
    Posted(Msg),
    /// The running job serves it.
    InJob,
    /// A command has been logged, and the channel is to settle.
    Decided,
    /// No command is left.
    Over,
    /// The channel has ended.
    Ended,
}

impl RowStage {
    ghost use Rattle.std.specs.Prelude.{◌≡◌};
    ghost use Rattle.running_store.specs.Stages.{waits_for};

    /// What a first command waits for that nothing was done for.
    fn of(command: &Command) -> RowStage
        ensures { result ≡ waits_for command.now }
    {
        match command {
            Command::Read { .. } => RowStage::Read,
            Command::Write { .. } => RowStage::Write,
            Command::Flush => RowStage::Flush,
            _ => RowStage::Meta,
        }
    }
}

/// What a channel has left of its commands, how far the first of them has come, and the cluster that it has claimed, if
/// it has. Contracts see these. For each command that reads a page it has one reserved.
#[derive(Drop)]
pub struct Row {
    left: VecDeque<Command>,
    stage: Stage,
    claim: Option<OpenClaim>,
    reserved: Vec<Box<Page>>,
}

impl Model for Row {
    ghost use Rattle.std.specs.Option.{option_map};
    ghost use Rattle.store_model.specs.Rows.{Row};
    ghost use Rattle.running_store.specs.Stages.{claim_seen, row_code, stage_seen};

    ghost Value = { Row };

    ghost coded = { row_code };

    ghost view = { λ r. record {
      left = r.left.items;
      stage = stage_seen r.stage;
      claim = option_map claim_seen r.claim;
    } };

    ghost use Rattle.std.specs.Prelude.{◌≤◌, length};
    ghost use Rattle.running_store.specs.Reserved.{reads_in};

    ghost invariant = { λ r. reads_in r.left.items ≤ length r.reserved.items };
}

impl Row {
    ghost use Rattle.std.specs.Prelude.{
      ◌≡◌,
      ◌∷◌,
      [],
      length,
      option_copied,
      slice_get,
      true,
      None,
      Some,
      IfOk,
      IfSome,
      IfNone,
      IsSome,
    };
    ghost use Rattle.running_store.specs.Reserved.{is_read};
    ghost use Rattle.std.specs.Option.{option_map};
    ghost use Rattle.store_model.specs.Rows.{Copying, Idle, Posted, InJob, Ended};
    ghost use Rattle.running_store.specs.Requests.{posted_in};
    ghost use Rattle.running_store.specs.Stages.{claim_seen, decided_in, decision_seen, is_stage, stage_seen};
    ghost use Rattle.running_store.specs.Stages.{to_copy_in};

    /// The row of a channel with these commands, of which none is posted.
    pub fn new(alloc: Global, commands: Vec<Command>) -> Result<Row, Memory>
        ensures { IfOk result (λ row. row ≡ record { left = commands.items; stage = Idle; claim = None }) }
    {
        let reserved = pages_for(alloc, commands.as_slice())?;
        Ok(Row {
            left: VecDeque::from_vec(commands),
            stage: Stage::Idle,
            claim: None,
            reserved,
        })
    }

    /// The row of a number that is no channel of the script.
    pub fn ended(alloc: Global) -> Row
        ensures { result ≡ record { left = []; stage = Ended; claim = None } }
    {
        Row {
            left: VecDeque::new(alloc),
            stage: Stage::Ended,
            claim: None,
            reserved: Vec::new(alloc),
        }
    }

    /// What the row of this channel waits for.
    pub fn stage(&self, channel: u8) -> RowStage
        ensures { result ≡ is_stage self.now channel }
    {
        match self.stage {
            Stage::Idle => match self.left.front() {
                Some(command) => RowStage::of(command),
                None => RowStage::Over,
            },
            Stage::Claiming => RowStage::Claim,
            Stage::Copying(left) => RowStage::Copy { left },
            Stage::Ready => RowStage::Ready,
            Stage::Posted(serial) => RowStage::Posted(Msg { channel, serial }),
            Stage::InJob => RowStage::InJob,
            Stage::Decided(_) => RowStage::Decided,
            Stage::Ended => RowStage::Ended,
        }
    }

    /// The number under which the first command is posted, if it is.
    pub(crate) fn posted(&self) -> Option<u64>
        ensures { result ≡ posted_in self.now.stage }
    {
        match self.stage {
            Stage::Posted(serial) => Some(serial),
            _ => None,
        }
    }

    /// How many commands are left.
    pub fn len(&self) -> usize
        ensures { result ≡ length self.now.left }
    {
        self.left.len()
    }

    /// The first command.
    pub(crate) fn first(&self) -> Option<&Command>
        ensures { option_copied result ≡ slice_get self.now.left 0 }
    {
        self.left.front()
    }

    /// The first command is posted under a number.
    pub fn post(&mut self, serial: u64)
        ensures { self.new ≡ record self.old { stage = Posted serial } }
    {
        self.stage = Stage::Posted(serial);
    }

    /// The running job serves the first command.
    pub fn serve(&mut self)
        ensures { self.new ≡ record self.old { stage = InJob } }
    {
        self.stage = Stage::InJob;
    }

    /// Takes out the first command, which is logged; the row is at this stage then.
    pub(crate) fn take(&mut self, next: Stage) -> Option<Taken>
        ensures some { IfSome result (λ taken. self.old.left ≡ taken.command ∷ self.new.left) }
        ensures page { IfSome result (λ taken. is_read taken.command ≡ true → IsSome taken.page) }
        ensures unclaimed { IfSome result (λ _. self.new.claim ≡ None) }
        ensures stage { IfSome result (λ _. self.new.stage ≡ stage_seen next) }
        ensures none { IfNone result ((self.old.left ≡ []) × (self.new ≡ self.old)) }
    {
        let command = self.left.pop_front()?;
        self.stage = next;
        self.claim = None;
        let page = if is_read(&command) {
            self.reserved.pop()
        } else {
            None
        };
        Some(Taken { command, page })
    }

    /// The channel has the word that its command is logged.
    pub fn settle(&mut self)
        ensures { self.new ≡ record self.old { stage = Idle } }
    {
        self.stage = Stage::Idle;
    }

    /// The channel ends.
    pub fn end(&mut self)
        ensures { self.new ≡ record self.old { stage = Ended } }
    {
        self.stage = Stage::Ended;
    }

    /// The first command is at this stage from now on.
    pub fn go_to(&mut self, next: Stage)
        ensures { self.new ≡ record self.old { stage = stage_seen next } }
    {
        self.stage = next;
    }

    /// The cluster that is claimed for its slot, if one is.
    pub fn claim(&self) -> Option<OpenClaim>
        ensures { option_map claim_seen result ≡ self.now.claim }
    {
        self.claim
    }

    /// A cluster is claimed for its slot, of which so many pages are to be copied.
    pub fn hold(&mut self, claim: OpenClaim, pages: u32)
        ensures { self.new ≡ record self.old { stage = Copying pages; claim = Some (claim_seen claim) } }
    {
        self.stage = Stage::Copying(pages);
        self.claim = Some(claim);
    }

    /// The claim, if there is one, is taken out of the row, which is at this stage then.
    pub fn let_go(&mut self, next: Stage) -> Option<OpenClaim>
        ensures claim { option_map claim_seen result ≡ self.old.claim }
        ensures row { self.new ≡ record self.old { stage = stage_seen next; claim = None } }
    {
        self.stage = next;
        self.claim.take()
    }

    /// What is decided of the row, if something is.
    pub fn decision(&self) -> Option<Decision>
        ensures { option_map decision_seen result ≡ decided_in self.now.stage }
    {
        match self.stage {
            Stage::Decided(outcome) => Some(outcome),
            _ => None,
        }
    }

    /// How many pages of the claimed cluster are to be copied, at the stage where they are.
    pub fn to_copy(&self) -> Option<u32>
        ensures { result ≡ to_copy_in self.now.stage }
    {
        match self.stage {
            Stage::Copying(left) => Some(left),
            _ => None,
        }
    }
}

/// The first command of a channel that has one.
pub fn first_of(rows: &[Row], channel: u8) -> &Command
    requires low { channel < length rows.now }
    requires left { 0 < length (rows_of rows.now channel).left }
    ensures { (command : ACommand) (rest : List ACommand) → (rows_of rows.now channel).left ≡ command ∷ rest
        → result.now ≡ command }
{
    match rows[channel as usize].first() {
        Some(command) => command,
        None => unreachable!(),
    }
}
