//! What comes behind the run of a store: it is unloaded, and its log is printed.

ghost use Rattle.std.specs.Prelude.{◌≡◌, ◌≢◌, List, None};
ghost use Rattle.std.specs.FinMap as map;
ghost use Rattle.blob_meta.specs.Repairs.{HasNoMarks};
ghost use Rattle.blob_tool.specs.Found.{ReadsAs};
ghost use Rattle.blob_tool.specs.Repairing.{AreMade};
ghost use Rattle.blob_tool.specs.Runs.{Ended, Finishes, FollowsDrive, HasEndedRun};
ghost use Rattle.blob_tool.specs.declared.driving.Drive.{Drive as ADrive};
ghost use Rattle.channels.specs.declared.stepwise.RunEnd.TheVariants.{Memory};
ghost use Rattle.running_store.specs.Recovered.{base_of};
ghost use Rattle.running_store.specs.StoreView.{StoreView};
ghost use Rattle.store_core.specs.Opening.{AreRows};
ghost use Rattle.store_core.specs.StoreInvariant.{StoreInvariant};
ghost use Rattle.volume_model.specs.declared.command.Command.{Command as ACommand};

use crate::closing::close;
use crate::reporting::report;
use crate::run_script::RunScript;
use crate::status::Status;
use channels::RunEnd;
use clean_stop::unloaded_masks_are_read;
use insert_runs::inserts_commit_once;
use page_disk::PageDisk;
use std::alloc::Global;
use store_core::{MdRight, Parts, Plant};
use store_model::state_stops;
use streams::Sink;
use unclean_load::{clean_stores_are_quick, fixed_clusters_decide, stores_are_accepted};

/// The device of a store on which nothing more is done.
pub(crate) fn device_left<D: PageDisk>(plant: Plant<D>, right: MdRight) -> D
    requires right { right ≡ plant.right }
    requires no_job { plant.at.job ≡ None }
    ensures disk { result ≡ plant.at.disk }
    ensures kept { StoreInvariant D.PageDisk plant }
{
    let Parts {
        disk,
        sup: _,
        masks: _,
        entries: _,
    } = plant.into_parts(right);
    disk
}

/// Unloads a store whose run has ended, and prints what is printed of its log.
fn finish_run<K: Sink, D: PageDisk>(
    alloc: Global,
    from: RunScript,
    plant: Plant<D>,
    right: MdRight,
    quick: bool,
    out: &mut K,
) -> (Status, D)
    requires right { right ≡ plant.right }
    requires read { ReadsAs D.PageDisk quick plant.opening.super (base_of plant.opening.metas plant.opening.marked)
        (map.get plant.opening.chains) plant.opening.disk }
    requires ended { HasEndedRun plant.at }
    ensures { (script : List (List ACommand)) (drive : ADrive) (repaired : StoreView D)
        → AreRows script plant.opening.rows → AreMade D.PageDisk plant.opening repaired → repaired.stopped ≡ None
        → HasNoMarks (base_of repaired.metas repaired.marked) → FollowsDrive D.PageDisk drive repaired plant.at
        → Ended D.PageDisk script drive from K.Sink out.old out.new result.1 plant.opening result.0 }
{
    state_stops();
    inserts_commit_once();
    stores_are_accepted();
    clean_stores_are_quick();
    fixed_clusters_decide();
    unloaded_masks_are_read();
    let stopped = plant.stopped();
    let Parts {
        mut disk,
        mut sup,
        masks,
        entries,
    } = plant.into_parts(right);
    let ended = close(
        &mut disk,
        &mut sup,
        &masks,
        quick,
        stopped,
        entries.len() as u32,
    );
    let printed = report(alloc, from, entries.as_slice(), out);
    (Status::of_run(ended, printed), disk)
}

/// Unloads a store, and prints what is printed of its log. Where memory ran out before the first step of the run, the
/// store is left as its repairs have made it.
pub(crate) fn finish<K: Sink, D: PageDisk>(
    alloc: Global,
    from: RunScript,
    quick: bool,
    plant: Plant<D>,
    right: MdRight,
    end: RunEnd,
    out: &mut K,
) -> (Status, D)
    requires right { right ≡ plant.right }
    requires read { ReadsAs D.PageDisk quick plant.opening.super (base_of plant.opening.metas plant.opening.marked)
        (map.get plant.opening.chains) plant.opening.disk }
    requires ended { end ≢ Memory → HasEndedRun plant.at }
    requires no_job { end ≡ Memory → plant.at.job ≡ None }
    ensures { Finishes D.PageDisk from K.Sink out.old out.new result.1 plant end result.0 }
{
    state_stops();
    stores_are_accepted();
    clean_stores_are_quick();
    fixed_clusters_decide();
    unloaded_masks_are_read();
    match end {
        RunEnd::Memory => (Status::Memory, device_left(plant, right)),
        RunEnd::Ended | RunEnd::Stopped(_) => finish_run(alloc, from, plant, right, quick, out),
    }
}
