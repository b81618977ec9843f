//! The begin of a delete's job, of a blob with one clone, of three replacements: the blob is marked, its clone takes
//! over from it, and it is erased.

ghost use Rattle.std.specs.Prelude.{◌≡◌, ◌≢◌, ◌<◌, ◌-◌, ◌^◌, ℕ, [], true, false, All, length, None, Some, IfErr, IfOk};
ghost use Rattle.std.specs.Prelude.{OnErr};
ghost use Rattle.std.specs.FinMap as map;
ghost use Rattle.blob_meta.specs.Faults.{clusters_held};
ghost use Rattle.job_begins.specs.Alone.{AreChained, HaveRoom};
ghost use Rattle.job_begins.specs.Begins.{with_begun};
ghost use Rattle.job_begins.specs.JobBegins.{CanBegin};
ghost use Rattle.job_begins.specs.Deletions.{AreDeletionEffects, AreDeletionSteps, AsksToDelete};
ghost use Rattle.md_chain.specs.Chain.{is_among};
ghost use Rattle.md_chain.specs.Packing.{FitsPage};
ghost use Rattle.running_store.specs.Blobs.{blobs_of, WillBeKept};
ghost use Rattle.running_store.specs.Jobs.{IsHeaded};
ghost use Rattle.running_store.specs.Running.{view_of, InOrder};
ghost use Rattle.running_store.specs.Steps.{Asks};
ghost use Rattle.running_store.specs.StoreView.{base_of, state_of};
ghost use Rattle.store_model.specs.Cases.{Begins, IsRefusedAtBegin};

use crate::alone::{add_clusters, clusters_beside, missing};
use crate::asking::DeletionAsk;
use crate::besides::{committing, in_rooms};
use crate::steps::Step;
use crate::taking::job_on_pages;
use out_of_memory::Memory;
use page_disk::PageDisk;
use running_store::{Commit, Effects, EntryChange, Rooms, Running, RunningJob, place};
use volume_model::{PlaceList, Reply};

/// What a delete's replacements do besides: the blob has room among the marked ones, with the commit it is gone and
/// its clone gets a new generation, and its clusters that neither its clone nor another blob has are freed at last.
/// (Want of memory too if no generation is left.)
fn effects_of<D>(
    running: &Running<D>,
    ask: &DeletionAsk,
) -> Result<(Effects, Effects, PlaceList), Memory>
    requires room { HaveRoom (base_of running.now.metas running.now.marked) (length running.now.clusters.bits) }
    requires chained { AreChained (base_of running.now.metas running.now.marked) (map.get running.now.chains) }
    requires taking { (c : ℕ) → is_among c (clusters_held ask.now.taking.map) ≡ true
        → c < length running.now.clusters.bits }
    requires going { (c : ℕ) → is_among c (clusters_held ask.now.going.map) ≡ true
        → c < length running.now.clusters.bits }
    ensures are { IfOk result (λ all. AreDeletionEffects running.now.sup.md_len (blobs_of running.now)
        (length running.now.clusters.bits) ask.now all.0 all.1 all.2) }
    ensures numbers { IfOk result (λ _. running.now.guards.drawn < 2 ^ 64 - 1) }
{
    let alloc = running.alloc;
    if !running.guards.can_renew() {
        return Err(Memory);
    }
    let room = place(alloc, &running.marked, ask.of)?;
    let renews = vec![in alloc; ask.clone]?;
    let mut beside = clusters_beside(running, ask.of)?;
    add_clusters(&mut beside, &ask.taking.map);
    let freed = missing(alloc, &mut beside, &ask.going.map)?;
    let rooms = Rooms {
        chain: None,
        meta: room,
    };
    let commit = Commit {
        made: None,
        live: Some(EntryChange {
            head: ask.of,
            value: None,
            room: None,
        }),
        renews: PlaceList::from_vec(renews),
        shows: Some(EntryChange {
            head: ask.of,
            value: None,
            room: None,
        }),
    };
    Ok((in_rooms(alloc, rooms), committing(alloc, commit), freed))
}

/// The replacements of a delete's job.
fn steps_of<D>(running: &Running<D>, ask: DeletionAsk) -> Result<Vec<Step>, Memory>
    requires room { HaveRoom (base_of running.now.metas running.now.marked) (length running.now.clusters.bits) }
    requires chained { AreChained (base_of running.now.metas running.now.marked) (map.get running.now.chains) }
    requires taking_low { (c : ℕ) → is_among c (clusters_held ask.taking.map) ≡ true
        → c < length running.now.clusters.bits }
    requires going_low { (c : ℕ) → is_among c (clusters_held ask.going.map) ≡ true
        → c < length running.now.clusters.bits }
    requires going { All FitsPage ask.going.xattrs × All FitsPage ask.going.internal }
    requires taking { All FitsPage ask.taking.xattrs × All FitsPage ask.taking.internal }
    ensures { IfOk result (λ steps. AreDeletionSteps running.now.sup.md_len (blobs_of running.now)
        (length running.now.clusters.bits) ask steps.items) }
{
    let (begin, commit, freed) = effects_of(running, &ask)?;
    ask.steps(running.alloc, begin, commit, freed)
}

/// The job of a delete of a blob with one clone, for the posted command of a channel, once its pages are taken. `Err`
/// says what it lacks, and nothing is taken then.
pub(crate) fn deletion_job<D: PageDisk>(
    running: &mut Running<D>,
    channel: u8,
    ask: DeletionAsk,
) -> Result<RunningJob, Reply>
    requires can { CanBegin D.PageDisk running.old channel }
    requires asks { Asks (view_of running.old) channel
        (λ command. AsksToDelete (state_of D.PageDisk (view_of running.old)) command ask) }
    ensures begins { IfOk result (λ job. Begins (state_of D.PageDisk (view_of running.old))
        (state_of D.PageDisk (with_begun (view_of running.new) channel job))) }
    ensures unmarked { IfOk result (λ job. job.marks ≡ false) }
    ensures headed { IfOk result IsHeaded }
    ensures kept { IfOk result (WillBeKept (blobs_of running.new)) }
    ensures lack { IfErr result (λ reply. Asks (view_of running.old) channel
        (λ command. IsRefusedAtBegin (state_of D.PageDisk (view_of running.old)) command reply)) }
    ensures same { OnErr result (running.new ≡ running.old) }
    ensures disk { running.new.disk ≡ running.old.disk }
    ensures rows { running.new.rows ≡ running.old.rows }
    ensures order { InOrder D.PageDisk running.new }
{
    let steps = steps_of(running, ask)?;
    job_on_pages(
        running.alloc,
        &running.chains,
        &mut running.pages,
        steps,
        channel,
        None,
    )
}
