//! The turns by which the metadata thread serves commands: what is kept of a running store over them.

use crate::keeping::{goes_on, leaves};
use crate::plant::Plant;
use crate::right::MdRight;
use blob_meta::Job;
use job_begins::{BeginTurn, begin_or_halt};
use metadata_turns::{JobTurn, answer_or_halt, job_turn_or_end};
use page_disk::PageDisk;
use running_store::refuse_or_halt;
use volume_model::{Msg, Reply};

impl<D: PageDisk> Plant<D> {
    ghost use Rattle.std.specs.Prelude.{◌≡◌, ◌≢◌, None, Some, IsSome};
    ghost use Rattle.std.specs.FinMap as map;
    ghost use Rattle.metadata_turns.specs.Answering.{IsAnswerable};
    ghost use Rattle.job_begins.specs.Begins.{row_begun, BeginsOrNot, IsJobOf};
    ghost use Rattle.metadata_turns.specs.JobTurns.{answer_of, TurnsJob};
    ghost use Rattle.job_begins.specs.declared.begin.BeginTurn.TheVariants.{Logged as LoggedNow};
    ghost use Rattle.page_disk.specs.Moments.{CallsLeaveOnly};
    ghost use Rattle.running_store.specs.Requests.{IsPostedBy};
    ghost use Rattle.running_store.specs.Steps.{decided, Asks, log_with, OnlyRow, refused_with};
    ghost use Rattle.running_store.specs.StoreView.{base_of, rows_of, state_of};
    ghost use Rattle.running_store.specs.Surviving.{OldOrNew};
    ghost use Rattle.store_core.specs.StoreInvariant.{OpensAsRead};
    ghost use Rattle.running_store.specs.TurnMade.{TurnMade};
    ghost use Rattle.store_model.specs.Cases.{IsRefusedBy};
    ghost use Rattle.store_model.specs.Cases as kind;
    ghost use Rattle.store_model.specs.Repairing.{IsRepaired};
    ghost use Rattle.store_model.specs.StoreState.{JobState};

    /// Answers in memory the command that a message posts, one on attributes or `df`; on a stopped store it is logged
    /// as that.
    pub fn answer(&mut self, right: &mut MdRight, msg: Msg)
        requires right { right.old ≡ self.old.right }
        requires posted { IsPostedBy self.old.at.rows msg }
        requires unfilled { self.old.at.filling ≢ Some msg.channel }
        requires answerable { Asks self.old.at msg.channel IsAnswerable }
        requires no_job { self.old.at.job ≡ None }
        ensures answered { self.old.at.stopped ≡ None → TurnMade D.PageDisk self.old.at self.new.at kind.answers }
        ensures halted { IsSome self.old.at.stopped → TurnMade D.PageDisk self.old.at self.new.at kind.halts }
        ensures row { OnlyRow self.old.at.rows self.new.at.rows msg.channel
            (decided (rows_of self.old.at.rows msg.channel)) }
        ensures opening { self.new.opening ≡ self.old.opening }
        ensures right { (right.new ≡ right.old) × (self.new.right ≡ self.old.right) }
    {
        goes_on::<D>();
        answer_or_halt(&mut self.running, msg.channel);
    }

    /// Logs the refusal of the command that a message posts: by the first cause that holds, or for want of memory; on a
    /// stopped store it is logged as that.
    pub fn refuse(&mut self, right: &mut MdRight, msg: Msg, reply: Reply)
        requires right { right.old ≡ self.old.right }
        requires posted { IsPostedBy self.old.at.rows msg }
        requires unfilled { self.old.at.filling ≢ Some msg.channel }
        requires why { self.old.at.stopped ≡ None
            → Asks self.old.at msg.channel (λ command. IsRefusedBy (state_of D.PageDisk self.old.at) command reply) }
        ensures refused { self.old.at.stopped ≡ None → TurnMade D.PageDisk self.old.at self.new.at kind.refuses }
        ensures halted { IsSome self.old.at.stopped → TurnMade D.PageDisk self.old.at self.new.at kind.halts }
        // The entry has the reply that is given.
        ensures told { Asks self.old.at msg.channel (λ command. self.new.at.log
            ≡ log_with self.old.at.log msg.channel command (refused_with self.old.at.stopped reply)) }
        ensures row { OnlyRow self.old.at.rows self.new.at.rows msg.channel
            (decided (rows_of self.old.at.rows msg.channel)) }
        ensures opening { self.new.opening ≡ self.old.opening }
        ensures right { (right.new ≡ right.old) × (self.new.right ≡ self.old.right) }
    {
        goes_on::<D>();
        refuse_or_halt(&mut self.running, msg.channel, reply);
    }

    /// Begins the job that the command asks for which a message posts, where nothing is left to repair. `Logged` comes
    /// where fewer pages are clear than it needs, where fewer clusters are clear than it has slots of zeros, where
    /// memory ran out, and on a stopped store, as which the command is logged then.
    pub fn begin_job(&mut self, right: &mut MdRight, msg: Msg, job: Job) -> BeginTurn
        requires right { right.old ≡ self.old.right }
        requires posted { IsPostedBy self.old.at.rows msg }
        requires unfilled { self.old.at.filling ≢ Some msg.channel }
        requires no_job { self.old.at.job ≡ None }
        requires repaired { IsRepaired (state_of D.PageDisk self.old.at) }
        requires asks { self.old.at.stopped ≡ None
            → Asks self.old.at msg.channel (λ command. IsJobOf (state_of D.PageDisk self.old.at) command job) }
        ensures begins { self.old.at.stopped ≡ None → BeginsOrNot D.PageDisk self.old.at self.new.at result }
        ensures halted { IsSome self.old.at.stopped
            → (result ≡ LoggedNow) × TurnMade D.PageDisk self.old.at self.new.at kind.halts }
        ensures row { OnlyRow self.old.at.rows self.new.at.rows msg.channel
            (row_begun result (rows_of self.old.at.rows msg.channel)) }
        ensures opening { self.new.opening ≡ self.old.opening }
        ensures right { (right.new ≡ right.old) × (self.new.right ≡ self.old.right) }
    {
        goes_on::<D>();
        begin_or_halt(&mut self.running, msg.channel, job)
    }

    /// One phase of the running job: its next device calls. `More` where it runs on, `Done` with its last, `Stopped`
    /// where one failed, and on a stopped store, where no call is made, the job's command is logged as that if it has
    /// no entry yet, and no job runs any more. With the last turn of an insert its row is decided as won; where one
    /// fails the command that its row works for is logged, and its claim given back if the cluster isn't in its slot
    /// yet.
    pub fn job_turn(&mut self, right: &mut MdRight) -> JobTurn
        requires right { right.old ≡ self.old.right }
        requires runs { IsSome self.old.at.job }
        ensures case { TurnsJob D.PageDisk self.old.at self.new.at }
        ensures answer { result ≡ answer_of self.new.at }
        // While the store runs, a crash leaves at any moment of the turn the metadata from before it, or that with the
        // job's blob's replaced.
        ensures any_moment { OpensAsRead D.PageDisk self.old.opening → self.old.at.stopped ≡ None
            → (job : JobState) → self.old.at.job ≡ Some job
            → CallsLeaveOnly D.PageDisk self.old.at.disk self.new.at.disk
            (OldOrNew self.old.opening.super (base_of self.old.at.metas self.old.at.marked) (map.get self.old.at.chains)
            job.todo) }
        ensures opening { self.new.opening ≡ self.old.opening }
        ensures right { (right.new ≡ right.old) × (self.new.right ≡ self.old.right) }
    {
        goes_on::<D>();
        leaves::<D>();
        job_turn_or_end(&mut self.running)
    }
}
