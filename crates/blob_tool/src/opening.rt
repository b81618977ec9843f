//! A loaded store is opened with a script, and its repairs are made.

ghost use Rattle.std.specs.Prelude.{◌≡◌, ◌≤◌, ◌+◌, false, IfErr, IfOk};
ghost use Rattle.std.specs.FinMap as map;
ghost use Rattle.blob_tool.specs.Found.{ReadsAs};
ghost use Rattle.blob_tool.specs.Runs.{EndedFrom, IsMended};
ghost use Rattle.blob_tool.specs.Statuses.{is_usage};
ghost use Rattle.blob_tool.specs.declared.driving.Drive.{Drive as ADrive};
ghost use Rattle.blob_tool.specs.declared.run_script.RunScript.{RunScript as AnOrigin};
ghost use Rattle.running_store.specs.Recovered.{base_of, IsLoadedFrom};
ghost use Rattle.super_block.specs.Faults.{IsFaultless};

use crate::finishing::device_left;
use crate::repairing::repair;
use crate::status::Status;
use clean_stop::unloaded_masks_are_read;
use page_disk::PageDisk;
use std::alloc::Global;
use store_core::{Loaded, MdRight, Plant};
use store_model::state_stops;
use streams::Sink;
use unclean_load::{clean_stores_are_quick, fixed_clusters_decide, stores_are_accepted};
use volume_model::Script;

/// A store on which a script can be run: it is opened, and nothing is left to repair.
pub(crate) struct ReadyStore<D: PageDisk> {
    pub(crate) plant: Plant<D>,
    pub(crate) right: MdRight,
    /// Whether it was loaded by its masks.
    pub(crate) quick: bool,
}

/// The device of a loaded store.
pub(crate) fn disk_of<D>(loaded: Loaded<D>) -> D
    ensures { result ≡ loaded.disk }
{
    let Loaded {
        disk,
        sup: _,
        metas: _,
        removed: _,
        marked: _,
        chains: _,
        repairs: _,
        masks: _,
        quick: _,
    } = loaded;
    disk
}

/// Opens a loaded store with a script, and makes its repairs. Where the run ends with them, or there is no memory for the
/// store, that is how it ended, whatever it was to print.
pub(crate) fn open_store<K: Sink, D: PageDisk>(
    alloc: Global,
    script: Script,
    loaded: Loaded<D>,
) -> Result<ReadyStore<D>, (Status, D)>
    requires recovered { IsLoadedFrom (base_of loaded.metas loaded.marked) loaded }
    requires faultless { IsFaultless loaded.sup }
    requires read { ReadsAs D.PageDisk loaded.quick loaded.sup (base_of loaded.metas loaded.marked)
        (map.get loaded.chains) loaded.disk }
    requires inside { loaded.sup.md_start + loaded.sup.md_len ≤ D.pages loaded.disk }
    ensures mended { IfOk result (λ r. IsMended D.PageDisk script loaded r.quick r.plant) }
    ensures right { IfOk result (λ r. r.right ≡ r.plant.right) }
    ensures no_usage { IfErr result (λ r. is_usage r.0 ≡ false) }
    ensures ended { IfErr result (λ r. (from : AnOrigin) (drive : ADrive) (out : K)
        → EndedFrom D.PageDisk script drive from K.Sink out out r.1 loaded r.0) }
{
    state_stops();
    stores_are_accepted();
    clean_stores_are_quick();
    fixed_clusters_decide();
    unloaded_masks_are_read();
    let quick = loaded.quick;
    let (mut plant, mut right) = match Plant::start(alloc, loaded, script) {
        Ok(made) => made,
        Err(loaded) => return Err((Status::Memory, disk_of(loaded))),
    };
    let end = repair(&mut plant, &mut right);
    match end.status() {
        Some(status) => Err((status, device_left(plant, right))),
        None => Ok(ReadyStore {
            plant,
            right,
            quick,
        }),
    }
}
