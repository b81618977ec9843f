//! The begin of a job.

ghost use Rattle.std.specs.Prelude.{◌≡◌, ◌≢◌, ◌<◌, false, None, Some, IfErr, IfOk, IsSome, OnErr};
ghost use Rattle.super_block.specs.Faults.{IsFaultless};
ghost use Rattle.store_model.specs.Cases.{Begins, IsRefusedAtBegin};
ghost use Rattle.store_model.specs.Cases as kind;
ghost use Rattle.job_begins.specs.declared.begin.BeginTurn.TheVariants.{Began, Logged};
ghost use Rattle.job_begins.specs.Begins.{row_begun, with_begun, AsksToWrite, BeginsOrNot, IsJobOf};
ghost use Rattle.job_begins.specs.Asks.{IsAskedAs};
ghost use Rattle.job_begins.specs.JobBegins.{CanBegin};
ghost use Rattle.running_store.specs.Jobs.{IsHeaded};
ghost use Rattle.running_store.specs.RunningState.{IsRunning};
ghost use Rattle.running_store.specs.TurnMade.{TurnMade};
ghost use Rattle.running_store.specs.Blobs.{blobs_of, WillBeKept};
ghost use Rattle.running_store.specs.Running.{view_of, InOrder};
ghost use Rattle.store_model.specs.Repairing.{IsRepaired};
ghost use Rattle.running_store.specs.StoreView.{rows_of, state_of};
ghost use Rattle.running_store.specs.Steps.{Asks, IsPostedAt, OnlyRow};

use crate::asking::{Ask, ask_of};
use crate::deleting::deletion_job;
use crate::erasing::erasing_job;
use crate::filling::fill_slots;
use crate::preparing::{lack_beside_clusters, prepare};
use crate::snapshotting::snapshot_job;
use blob_meta::{Job, Meta};
use page_disk::PageDisk;
use running_store::{Running, RunningJob, clear_places, effects_of, first_of, halt, log};
use volume_model::{Reply, SlotList};

/// What the begin of a job comes to.
#[derive(Clone, Copy)]
pub enum BeginTurn {
    /// The job runs.
    Began,
    /// Too few pages or clusters are clear, or memory ran out: the command is logged as that.
    Logged,
}

/// Begins the job of what a posted command of a channel asks for. Where it lacks something, the command is logged
/// instead, and nothing else changes: as `NoPage` where fewer pages are clear than the job takes; as `Full` where pages
/// are enough, and fewer clusters are clear than it has slots of zeros; or as `Memory`.
fn begin<D: PageDisk>(running: &mut Running<D>, channel: u8, ask: Ask) -> BeginTurn
    requires can { CanBegin D.PageDisk running.old channel }
    requires asks { Asks (view_of running.old) channel
        (λ command. IsAskedAs (state_of D.PageDisk (view_of running.old)) command ask) }
    ensures began { result ≡ Began → TurnMade D.PageDisk (view_of running.old) (view_of running.new) kind.begins }
    ensures logged { result ≡ Logged → TurnMade D.PageDisk (view_of running.old) (view_of running.new) kind.refuses }
    ensures row { OnlyRow running.old.rows.items running.new.rows.items channel
        (row_begun result (rows_of running.old.rows.items channel)) }
    ensures order { InOrder D.PageDisk running.new }
{
    match job_asked(running, channel, ask) {
        Ok(job) => {
            running.job = Some(job.with_mark(running.is_clean));
            running.rows[channel as usize].serve();
            BeginTurn::Began
        }
        Err(reply) => {
            log(running, channel, reply);
            BeginTurn::Logged
        }
    }
}

/// The job of what a posted command of a channel asks for, once all that it needs is taken. `Err` says what it lacks,
/// and nothing is taken then.
fn job_asked<D: PageDisk>(
    running: &mut Running<D>,
    channel: u8,
    ask: Ask,
) -> Result<RunningJob, Reply>
    requires can { CanBegin D.PageDisk running.old channel }
    requires asks { Asks (view_of running.old) channel
        (λ command. IsAskedAs (state_of D.PageDisk (view_of running.old)) command ask) }
    ensures begins { IfOk result (λ job. Begins (state_of D.PageDisk (view_of running.old))
        (state_of D.PageDisk (with_begun (view_of running.new) channel job))) }
    ensures unmarked { IfOk result (λ job. job.marks ≡ false) }
    ensures headed { IfOk result IsHeaded }
    ensures kept { IfOk result (WillBeKept (blobs_of running.new)) }
    ensures lack { IfErr result (λ reply. Asks (view_of running.old) channel
        (λ command. IsRefusedAtBegin (state_of D.PageDisk (view_of running.old)) command reply)) }
    ensures same { OnErr result (running.new ≡ running.old) }
    ensures disk { running.new.disk ≡ running.old.disk }
    ensures rows { running.new.rows ≡ running.old.rows }
    ensures order { InOrder D.PageDisk running.new }
{
    match ask {
        Ask::Writes { head, new, zeros } => job_for(running, channel, head, new, &zeros),
        Ask::Erases(head) => Ok(erasing_job(running, channel, head)?),
        Ask::Deletes(ask) => deletion_job(running, channel, ask),
        Ask::Snapshots(ask) => snapshot_job(running, channel, ask),
        Ask::Other => Err(Reply::Memory),
    }
}

/// The job that gives the blob at `head` the metadata `new`, or makes it, with a cluster of zeros in each of the slots
/// `zeros`, for the posted command of a channel, once its pages and clusters are taken. `Err` says what it lacks, and
/// nothing is taken then.
fn job_for<D: PageDisk>(
    running: &mut Running<D>,
    channel: u8,
    head: u32,
    mut new: Meta,
    zeros: &SlotList,
) -> Result<RunningJob, Reply>
    requires can { CanBegin D.PageDisk running.old channel }
    requires asks { Asks (view_of running.old) channel
        (λ command. AsksToWrite (state_of D.PageDisk (view_of running.old)) command head new zeros.now) }
    ensures begins { IfOk result (λ job. Begins (state_of D.PageDisk (view_of running.old))
        (state_of D.PageDisk (with_begun (view_of running.new) channel job))) }
    ensures unmarked { IfOk result (λ job. job.marks ≡ false) }
    ensures headed { IfOk result IsHeaded }
    ensures kept { IfOk result (WillBeKept (blobs_of running.new)) }
    ensures lack { IfErr result (λ reply. Asks (view_of running.old) channel
        (λ command. IsRefusedAtBegin (state_of D.PageDisk (view_of running.old)) command reply)) }
    ensures same { OnErr result (running.new ≡ running.old) }
    ensures disk { running.new.disk ≡ running.old.disk }
    ensures rows { running.new.rows ≡ running.old.rows }
    ensures order { InOrder D.PageDisk running.new }
{
    let command = first_of(running.rows.as_slice(), channel);
    let mut effects = effects_of(running, command, head, &new)?;
    let makes = effects.rooms.chain.is_some();
    effects.claimed = fill_slots(running.alloc, &mut running.clusters, &mut new, zeros)?;
    if effects.claimed.len() < zeros.len() {
        return Err(lack_beside_clusters(running.alloc, &running.pages, &new, makes));
    }
    match prepare(
        running.alloc,
        &running.chains,
        &mut running.pages,
        head,
        &new,
        makes,
    ) {
        Ok(prepared) => {
            let cluster_pages = running.sup.cluster_pages();
            Ok(prepared.job(running.alloc, channel, head, new, effects, cluster_pages))
        }
        Err(reply) => {
            clear_places(&mut running.clusters, &effects.claimed);
            Err(reply)
        }
    }
}

/// Begins the job that the posted command of a channel asks for, of a store without a repair that is left; or, on a
/// stopped store, logs that it is stopped.
pub fn begin_or_halt<D: PageDisk>(running: &mut Running<D>, channel: u8, job: Job) -> BeginTurn
    requires order { InOrder D.PageDisk running.old }
    requires channel { channel < 16 }
    requires posted { IsPostedAt (view_of running.old) channel }
    requires unfilled { running.old.filling ≢ Some channel }
    requires faultless { IsFaultless running.old.sup }
    requires asks { running.old.stopped ≡ None → Asks (view_of running.old) channel
        (λ command. IsJobOf (state_of D.PageDisk (view_of running.old)) command job) }
    requires running { IsRunning (state_of D.PageDisk (view_of running.old)) }
    requires no_job { running.old.job ≡ None }
    requires repaired { IsRepaired (state_of D.PageDisk (view_of running.old)) }
    ensures begins { running.old.stopped ≡ None
        → BeginsOrNot D.PageDisk (view_of running.old) (view_of running.new) result }
    ensures halted { IsSome running.old.stopped
        → (result ≡ Logged) × TurnMade D.PageDisk (view_of running.old) (view_of running.new) kind.halts }
    ensures row { OnlyRow running.old.rows.items running.new.rows.items channel
        (row_begun result (rows_of running.old.rows.items channel)) }
    ensures order { InOrder D.PageDisk running.new }
{
    if running.stopped.is_some() {
        halt(running, channel);
        return BeginTurn::Logged;
    }
    begin(running, channel, ask_of(job))
}
