//! The begin of a snapshot's job, of four replacements: the blob that is made, three times, and the volume.

ghost use Rattle.std.specs.Prelude.{◌≡◌, ◌≢◌, ◌<◌, ◌+◌, ◌^◌, [], All, false, None, Some, IfErr, IfOk, OnErr};
ghost use Rattle.std.specs.FinMap as map;
ghost use Rattle.md_chain.specs.Packing.{FitsPage};
ghost use Rattle.job_begins.specs.Begins.{with_begun};
ghost use Rattle.job_begins.specs.JobBegins.{CanBegin};
ghost use Rattle.job_begins.specs.Snapshots.{AreSnapshotEffects, AreSnapshotSteps, AsksToSnapshot};
ghost use Rattle.running_store.specs.Blobs.{blobs_of, WillBeKept};
ghost use Rattle.running_store.specs.Jobs.{IsHeaded};
ghost use Rattle.running_store.specs.Running.{view_of, InOrder};
ghost use Rattle.running_store.specs.Steps.{Asks};
ghost use Rattle.running_store.specs.StoreView.{state_of};
ghost use Rattle.store_model.specs.Cases.{Begins, IsRefusedAtBegin};

use crate::asking::SnapshotAsk;
use crate::besides::{committing, in_rooms};
use crate::steps::Step;
use crate::taking::job_on_pages;
use out_of_memory::Memory;
use page_disk::PageDisk;
use running_store::{Commit, Effects, EntryChange, Rooms, Running, RunningJob, place};
use volume_model::{PlaceList, Reply, TryCopy};

/// What a snapshot's begin and its commit do besides: the blob that is made has room in the maps of blobs and gets its first
/// generation, and with the commit it is shown, with its attributes, and both blobs get new generations. (Want of
/// memory too if too few generations are left.)
fn effects_of<D>(running: &Running<D>, ask: &SnapshotAsk) -> Result<(Effects, Effects), Memory>
    ensures are { IfOk result (λ both. AreSnapshotEffects (blobs_of running.now) ask.now both.0 both.1) }
    ensures room { IfOk result (λ _. map.len running.now.guards.generations < running.now.guards.room) }
    ensures numbers { IfOk result (λ _. running.now.guards.drawn + 3 < 2 ^ 64) }
{
    let alloc = running.alloc;
    if !running.guards.can_add() || !running.guards.can_draw(3) {
        return Err(Memory);
    }
    let chain_room = place(alloc, &running.chains, ask.head)?;
    let mark_room = place(alloc, &running.marked, ask.head)?;
    let live_room = place(alloc, &running.live, ask.head)?;
    let shown_room = place(alloc, &running.metas, ask.head)?;
    let renews = vec![in alloc; ask.of, ask.head]?;
    let xattrs = ask.made.xattrs.try_copy(alloc)?;
    let shown = ask.made.try_copy(alloc)?;
    let rooms = Rooms {
        chain: chain_room,
        meta: mark_room,
    };
    let commit = Commit {
        made: Some(ask.head),
        live: Some(EntryChange {
            head: ask.head,
            value: Some(xattrs),
            room: live_room,
        }),
        renews: PlaceList::from_vec(renews),
        shows: Some(EntryChange {
            head: ask.head,
            value: Some(shown),
            room: shown_room,
        }),
    };
    Ok((in_rooms(alloc, rooms), committing(alloc, commit)))
}

/// The replacements of a snapshot's job.
fn steps_of<D>(running: &Running<D>, ask: SnapshotAsk) -> Result<Vec<Step>, Memory>
    requires begun { All FitsPage ask.begun.xattrs × All FitsPage ask.begun.internal }
    requires filled { All FitsPage ask.filled.xattrs × All FitsPage ask.filled.internal }
    requires emptied { All FitsPage ask.emptied.xattrs × All FitsPage ask.emptied.internal }
    requires made { All FitsPage ask.made.xattrs × All FitsPage ask.made.internal }
    ensures { IfOk result (λ steps. AreSnapshotSteps (blobs_of running.now) ask steps.items) }
{
    let (begin, commit) = effects_of(running, &ask)?;
    ask.steps(running.alloc, begin, commit)
}

/// The job of a snapshot, for the posted command of a channel, once its pages are taken and the volume is frozen. `Err`
/// says what it lacks, and nothing is taken or frozen then.
pub(crate) fn snapshot_job<D: PageDisk>(
    running: &mut Running<D>,
    channel: u8,
    ask: SnapshotAsk,
) -> Result<RunningJob, Reply>
    requires can { CanBegin D.PageDisk running.old channel }
    requires asks { Asks (view_of running.old) channel
        (λ command. AsksToSnapshot (state_of D.PageDisk (view_of running.old)) command ask) }
    ensures begins { IfOk result (λ job. Begins (state_of D.PageDisk (view_of running.old))
        (state_of D.PageDisk (with_begun (view_of running.new) channel job))) }
    ensures unmarked { IfOk result (λ job. job.marks ≡ false) }
    ensures headed { IfOk result IsHeaded }
    ensures kept { IfOk result (WillBeKept (blobs_of running.new)) }
    ensures lack { IfErr result (λ reply. Asks (view_of running.old) channel
        (λ command. IsRefusedAtBegin (state_of D.PageDisk (view_of running.old)) command reply)) }
    ensures same { OnErr result (running.new ≡ running.old) }
    ensures disk { running.new.disk ≡ running.old.disk }
    ensures rows { running.new.rows ≡ running.old.rows }
    ensures order { InOrder D.PageDisk running.new }
{
    let of = ask.of;
    let steps = steps_of(running, ask)?;
    let job = job_on_pages(
        running.alloc,
        &running.chains,
        &mut running.pages,
        steps,
        channel,
        Some(of),
    )?;
    running.guards.freeze(of);
    Ok(job)
}
