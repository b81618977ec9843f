//! The begin of an insert: the job that puts a claimed cluster into its slot.

ghost use Rattle.std.specs.Prelude.{◌≡◌, ◌<◌, None, Some, IsSome, IfNone, IfOk, IfSome};
ghost use Rattle.std.specs.Prelude.{◌↔◌, length, IsTrue};
ghost use Rattle.std.specs.FinMap as map;
ghost use Rattle.blob_meta.specs.declared.meta.Meta.{Meta as AMeta};
ghost use Rattle.blob_meta.specs.Parents.{slot};
ghost use Rattle.blob_meta.specs.Repairs.{HasNoMarks};
ghost use Rattle.store_model.specs.Repairing.{IsRepaired};
ghost use Rattle.store_model.specs.Claiming.{CanInsert};
ghost use Rattle.store_model.specs.Filling.{FillStands};
ghost use Rattle.store_model.specs.Inserting.{with_slot};
ghost use Rattle.job_begins.specs.declared.inserting.InsertTurn.TheVariants.{Logged};
ghost use Rattle.job_begins.specs.Inserts.{Fills, HoldsPosted, InsertsOrNot, RowsInserting};
ghost use Rattle.running_store.specs.GivingBack.{halting};
ghost use Rattle.running_store.specs.Running.{view_of, InOrder};
ghost use Rattle.running_store.specs.Stages.{claim_seen};
ghost use Rattle.running_store.specs.RunningState.{IsRunning};
ghost use Rattle.running_store.specs.StoreView.{base_of, rows_of, state_of};
ghost use Rattle.running_store.specs.TurnMade.{TurnMade};

use crate::preparing::prepare;
use blob_meta::Meta;
use out_of_memory::Memory;
use page_disk::PageDisk;
use running_store::{
    Decision, OpenClaim, Row, Running, Serves, Stage, give_back, give_up, halt_work,
};
use std::alloc::Global;
use volume_model::{Reply, TryCopy};

/// What the begin of an insert comes to.
#[derive(Clone, Copy)]
pub enum InsertTurn {
    /// The job runs that puts the cluster into its slot.
    Began,
    /// The claim is lost: the blob is gone or has another generation, or the slot isn't there or is filled. It is given
    /// back, and whoever works on the row begins again.
    Decided,
    /// Too few pages are clear, memory ran out, or the store has stopped: the command that the row works for is logged
    /// as that, and the claim given back.
    Logged,
}

/// The stage of a row behind an entry: whoever waits for it is to be told.
const ANSWERED: Stage = Stage::Decided(Decision::Answered);

/// Begins the job that puts the cluster of a posted row into its slot, or decides that the claim is lost, or logs the
/// command that the row works for as `NoPage` or `Memory`.
pub(crate) fn begin_insert<D: PageDisk>(running: &mut Running<D>, row: u8) -> InsertTurn
    requires order { InOrder D.PageDisk running.old }
    requires row { row < 17 }
    requires posted { HoldsPosted D.PageDisk (view_of running.old) row }
    requires running { IsRunning (state_of D.PageDisk (view_of running.old)) }
    requires fill { FillStands (state_of D.PageDisk (view_of running.old)) }
    requires runs { running.old.stopped ≡ None }
    requires no_job { running.old.job ≡ None }
    requires unmarked { HasNoMarks (base_of running.old.metas running.old.marked) }
    ensures case { InsertsOrNot D.PageDisk (view_of running.old) (view_of running.new) result }
    ensures rows { RowsInserting result running.old.filling running.old.rows.items running.new.rows.items row }
    ensures order { InOrder D.PageDisk running.new }
{
    let claim = claim_of(running.rows.as_slice(), row);
    match filled(running, claim) {
        None => {
            give_back(running, row, Stage::Decided(Decision::Lost));
            InsertTurn::Decided
        }
        Some(Ok(new)) => start(running, row, claim, new),
        Some(Err(Memory)) => {
            give_up(running, row, Reply::Memory, ANSWERED);
            InsertTurn::Logged
        }
    }
}

/// The claim of a row that holds one.
fn claim_of(rows: &[Row], row: u8) -> OpenClaim
    requires low { row < length rows.now }
    requires claimed { IsSome (rows_of rows.now row).claim }
    ensures { (rows_of rows.now row).claim ≡ Some (claim_seen result) }
{
    match rows[row as usize].claim() {
        Some(claim) => claim,
        None => unreachable!(),
    }
}

/// The metadata of a claim's blob with the cluster in its slot, as it was last synced otherwise; `None` where the claim
/// is lost.
fn filled<D: PageDisk>(running: &Running<D>, claim: OpenClaim) -> Option<Result<Meta, Memory>>
    requires cluster { 0 < claim.cluster }
    requires same { base_of running.now.metas running.now.marked ≡ map.get running.now.metas }
    ensures lost { IfNone result ((meta : AMeta)
        → CanInsert (state_of D.PageDisk (view_of running.now)) (claim_seen claim) meta → ⊥) }
    ensures fills { IfSome result (Fills (state_of D.PageDisk (view_of running.now)) (claim_seen claim)) }
{
    let meta = running.metas.get(claim.head)?;
    match running.guards.generation(claim.head) {
        Some(generation) if generation == claim.generation => {}
        _ => return None,
    }
    if is_empty(meta, claim.slot) {
        Some(fill(running.alloc, meta, claim.slot, claim.cluster))
    } else {
        None
    }
}

/// Whether the slot is there, and empty.
fn is_empty(meta: &Meta, place: u32) -> bool
    ensures { IsTrue result ↔ ((place < length meta.now.map) × (slot meta.now place ≡ None)) }
{
    place < meta.map.len() && meta.map.get(place).is_none()
}

/// The metadata with this cluster in a slot.
fn fill(alloc: Global, meta: &Meta, place: u32, cluster: u32) -> Result<Meta, Memory>
    requires within { place < length meta.now.map }
    requires some { 0 < cluster }
    ensures { IfOk result (λ new. new ≡ with_slot meta.now place cluster) }
{
    let mut new = meta.try_copy(alloc)?;
    new.map.set(place, Some(cluster))?;
    Ok(new)
}

/// Begins the job that gives a claim's blob this metadata, or logs that too few pages are clear for it, or that memory
/// ran out.
fn start<D: PageDisk>(running: &mut Running<D>, row: u8, claim: OpenClaim, new: Meta) -> InsertTurn
    requires order { InOrder D.PageDisk running.old }
    requires row { row < 17 }
    requires posted { HoldsPosted D.PageDisk (view_of running.old) row }
    requires claimed { (rows_of running.old.rows.items row).claim ≡ Some (claim_seen claim) }
    requires fills { (meta : AMeta)
        × CanInsert (state_of D.PageDisk (view_of running.old)) (claim_seen claim) meta
        × (new ≡ with_slot meta claim.slot claim.cluster) }
    requires running { IsRunning (state_of D.PageDisk (view_of running.old)) }
    requires fill { FillStands (state_of D.PageDisk (view_of running.old)) }
    requires runs { running.old.stopped ≡ None }
    requires no_job { running.old.job ≡ None }
    requires unmarked { HasNoMarks (base_of running.old.metas running.old.marked) }
    ensures case { InsertsOrNot D.PageDisk (view_of running.old) (view_of running.new) result }
    ensures rows { RowsInserting result running.old.filling running.old.rows.items running.new.rows.items row }
    ensures order { InOrder D.PageDisk running.new }
{
    let head = claim.head;
    match prepare(
        running.alloc,
        &running.chains,
        &mut running.pages,
        head,
        &new,
        false,
    ) {
        Ok(prepared) => {
            let job = prepared.alone(running.alloc, Serves::Insert(row), head, new);
            running.job = Some(job.with_mark(running.is_clean));
            running.rows[row as usize].serve();
            InsertTurn::Began
        }
        Err(reply) => {
            give_up(running, row, reply, ANSWERED);
            InsertTurn::Logged
        }
    }
}

/// Begins the insert of a posted row, of a store without a repair that is left, or, on a stopped store, logs the
/// command that the row works for as that.
pub fn begin_insert_or_halt<D: PageDisk>(running: &mut Running<D>, row: u8) -> InsertTurn
    requires order { InOrder D.PageDisk running.old }
    requires row { row < 17 }
    requires posted { HoldsPosted D.PageDisk (view_of running.old) row }
    requires running { IsRunning (state_of D.PageDisk (view_of running.old)) }
    requires fill { FillStands (state_of D.PageDisk (view_of running.old)) }
    requires no_job { running.old.job ≡ None }
    requires repaired { IsRepaired (state_of D.PageDisk (view_of running.old)) }
    ensures begins { running.old.stopped ≡ None
        → InsertsOrNot D.PageDisk (view_of running.old) (view_of running.new) result }
    ensures halted { IsSome running.old.stopped
        → (result ≡ Logged) × TurnMade D.PageDisk (view_of running.old) (view_of running.new) (halting row) }
    ensures rows { RowsInserting result running.old.filling running.old.rows.items running.new.rows.items row }
    ensures order { InOrder D.PageDisk running.new }
{
    if running.stopped.is_some() {
        halt_work(running, row, ANSWERED);
        InsertTurn::Logged
    } else {
        begin_insert(running, row)
    }
}
