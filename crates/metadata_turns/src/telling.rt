//! Whoever waits for a job is told how it goes.

ghost use Rattle.std.specs.Prelude.{◌≡◌, ◌<◌, None, []};
ghost use Rattle.store_model.specs.Claiming as claiming;
ghost use Rattle.store_model.specs.Phases.{erasing};
ghost use Rattle.metadata_turns.specs.JobTurns.{answer_of, guards_left, stopped_at};
ghost use Rattle.running_store.specs.Running.{view_of, InOrder};
ghost use Rattle.running_store.specs.Stages.{stage_seen};
ghost use Rattle.running_store.specs.Jobs.{freeze_of};
ghost use Rattle.metadata_turns.specs.Telling.{let_go_at, HasFailed, HasInsertRow, HasServedRow, HasWaitingRow, IsTold};
ghost use Rattle.metadata_turns.specs.Telling.{job_gone_on, IsWon};

use crate::job_turn::JobTurn;
use io_freeze::Guards;
use page_disk::PageDisk;
use running_store::{Decision, Running, RunningJob, Serves, Stage, give_up, log, release};
use volume_model::{PlaceList, Reply};

/// The replacement is made: a command is logged with its reply, where it has one now; the row of an insert, which has
/// its cluster, goes on at this stage. No row waits for a repair.
pub(crate) fn tell<D: PageDisk>(
    running: &mut Running<D>,
    serves: Serves,
    reply: Option<Reply>,
    next: Stage,
)
    requires order { InOrder D.PageDisk running.old }
    requires row { HasServedRow running.old.rows.items serves reply }
    ensures told { IsTold serves reply (stage_seen next) (view_of running.old) (view_of running.new)
        (D.clock running.new.disk) }
    ensures order { InOrder D.PageDisk running.new }
{
    match serves {
        Serves::Command { channel, freeze: _ } => {
            if let Some(reply) = reply {
                log(running, channel, reply);
            }
        }
        Serves::Insert(row) => let_go(running, row, next),
        Serves::Repair => {}
    }
}

/// The stage of an insert's row once its cluster stands in its slot: it waits for the old pages, where some are left.
pub(crate) fn stage_behind(old: &PlaceList) -> Stage
    ensures { stage_seen result ≡ claiming.stage_behind (erasing old.now old.now []) }
{
    if old.len() == 0 {
        Stage::Decided(Decision::Won)
    } else {
        Stage::InJob
    }
}

/// The old pages are clear: the row of an insert is decided as won.
pub(crate) fn win<D: PageDisk>(running: &mut Running<D>, serves: Serves)
    requires order { InOrder D.PageDisk running.old }
    requires row { HasInsertRow serves }
    ensures won { IsWon serves (view_of running.old) (view_of running.new) }
    ensures order { InOrder D.PageDisk running.new }
{
    match serves {
        Serves::Command { .. } | Serves::Repair => {}
        Serves::Insert(row) => let_go(running, row, Stage::Decided(Decision::Won)),
    }
}

/// A row goes on at this stage, and its claim has ended.
fn let_go<D: PageDisk>(running: &mut Running<D>, row: u8, next: Stage)
    requires order { InOrder D.PageDisk running.old }
    requires row { row < 17 }
    ensures row { view_of running.new ≡ let_go_at (view_of running.old) row (stage_seen next) }
    ensures order { InOrder D.PageDisk running.new }
{
    running.rows[row as usize].let_go(next);
}

/// The store stops, the blob that the job froze is released, and what waits for it, in this row, is logged as failed:
/// its command, or that which the row of its insert works for, whose claim is given back if the cluster isn't in its
/// slot yet. Nothing waits for a repair, nor for a job behind its commit.
pub(crate) fn fail_job<D: PageDisk>(
    running: &mut Running<D>,
    serves: Serves,
    waiting: Option<u8>,
) -> JobTurn
    requires order { InOrder D.PageDisk running.old }
    requires taken { running.old.job ≡ None }
    requires row { HasWaitingRow running.old.filling running.old.rows.items waiting }
    ensures failed { HasFailed (freeze_of serves) waiting (view_of running.old) (view_of running.new)
        (D.clock running.new.disk) }
    ensures answer { result ≡ answer_of (view_of running.new) }
    ensures order { InOrder D.PageDisk running.new }
{
    let turn = stop(running, serves.freeze());
    let Some(row) = waiting else {
        return turn;
    };
    give_up(
        running,
        row,
        Reply::Fault,
        Stage::Decided(Decision::Answered),
    );
    turn
}

/// The store stops behind the entries so far, and the blob that its job froze is released.
fn stop<D: PageDisk>(running: &mut Running<D>, freeze: Option<u32>) -> JobTurn
    requires order { InOrder D.PageDisk running.old }
    requires taken { running.old.job ≡ None }
    ensures stopped { view_of running.new ≡ stopped_at (view_of running.old) freeze }
    ensures answer { result ≡ answer_of (view_of running.new) }
    ensures order { InOrder D.PageDisk running.new }
{
    release(&mut running.guards, freeze);
    let entries = running.entries.len() as u32;
    running.stopped = Some(entries);
    JobTurn::Stopped(entries)
}

/// The job goes on with what is left of it. Where that is nothing the blob that it froze is released.
pub(crate) fn go_on<D>(running: &mut Running<D>, serves: Serves, left: Option<RunningJob>)
    ensures { running.new ≡ job_gone_on running.old serves left }
{
    thaw(&mut running.guards, serves, &left);
    running.job = left;
}

/// Where nothing is left of a job the blob that it froze is released.
fn thaw(guards: &mut Guards, serves: Serves, left: &Option<RunningJob>)
    ensures { guards.new ≡ guards_left guards.old serves left.now }
{
    if left.is_none() {
        release(guards, serves.freeze());
    }
}
