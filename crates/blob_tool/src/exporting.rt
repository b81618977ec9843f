//! What a volume shows is written to a second device.

ghost use Rattle.std.specs.Prelude.{◌≡◌, ◌≤◌, OnErr, OnOk};
ghost use Rattle.blob_tool.specs.ExportOutcome.{ExportEnded, ExportTold, IsCutOff};
ghost use Rattle.blob_tool.specs.Exporting.{IsPlan, line_of as line_said};
ghost use Rattle.md_chain.specs.Reading.{OnlyRead};
ghost use Rattle.running_store.specs.Recovered.{base_of, IsLoadedFrom};
ghost use Rattle.super_block.specs.Faults.{IsFaultless};
ghost use Rattle.volume_model.specs.declared.command.VolumeRef.{VolumeRef as AReference};

use crate::loading::load_store;
use crate::opening::disk_of;
use crate::status::Status;
use blob_report::ExportLine;
use page_disk::PageDisk;
use running_store::Loaded;
use std::alloc::Global;
use streams::{Sink, SinkFault, offer};
use volume_model::VolumeRef;
use whole_copy::{CopyFault, MeantVolume, copy_volume, find_volume};

/// The volume that is written to a target of so many pages, or the line that tells why none is.
fn plan<D: PageDisk>(
    loaded: &Loaded<D>,
    reference: &VolumeRef,
    room: u64,
) -> Result<MeantVolume, ExportLine>
    requires recovered { IsLoadedFrom (base_of loaded.now.metas loaded.now.marked) loaded.now }
    requires faultless { IsFaultless loaded.now.sup }
    ensures { IsPlan loaded.now.sup loaded.now.metas reference.now room result }
{
    match find_volume(&loaded.metas, &loaded.sup, reference) {
        Some(volume) if volume.pages <= room => Ok(volume),
        Some(_) => Err(ExportLine::OutOfRange),
        None => Err(ExportLine::NoVolume),
    }
}

/// The line that is printed once the plan is carried out.
fn line_of(plan: &Result<MeantVolume, ExportLine>) -> ExportLine
    ensures { result ≡ line_said plan.now }
{
    match plan {
        Ok(volume) => ExportLine::Exported(volume.pages),
        Err(line) => *line,
    }
}

/// Copies the planned volume, if there is one.
fn carry_out<D: PageDisk, E: PageDisk>(
    loaded: &mut Loaded<D>,
    plan: &Result<MeantVolume, ExportLine>,
    target: &mut E,
) -> Result<(), CopyFault>
    requires recovered { IsLoadedFrom (base_of loaded.old.metas loaded.old.marked) loaded.old }
    requires faultless { IsFaultless loaded.old.sup }
    requires device { loaded.old.sup.device_pages ≤ D.pages loaded.old.disk }
    requires planned { (reference : AReference)
        × IsPlan loaded.old.sup loaded.old.metas reference (E.pages target.old) plan.now }
    ensures told { OnOk result ((reference : AReference)
        → IsPlan loaded.old.sup loaded.old.metas reference (E.pages target.old) plan.now
        → ExportTold loaded.old.sup loaded.old.metas reference D.PageDisk loaded.old.disk E.PageDisk target.old target.new
        (line_said plan.now)) }
    ensures cut_off { OnErr result ((reference : AReference)
        → IsPlan loaded.old.sup loaded.old.metas reference (E.pages target.old) plan.now
        → IsCutOff loaded.old.sup loaded.old.metas reference D.PageDisk loaded.old.disk E.PageDisk target.old target.new
        loaded.new.disk) }
    ensures reads { OnlyRead D.PageDisk loaded.old.disk loaded.new.disk }
{
    match plan {
        Ok(volume) => copy_volume(&mut loaded.disk, &loaded.sup, &loaded.metas, volume, target),
        Err(_) => Ok(()),
    }
}

/// Loads the store of the image, writes what it shows of the volume to the target, and prints how many pages that is; or
/// prints that no volume is meant, or that it is longer than the target, which then stays as it is. The image is read
/// and nothing else.
pub(crate) fn export_image<K: Sink, D: PageDisk, E: PageDisk>(
    alloc: Global,
    reference: &VolumeRef,
    out: &mut K,
    disk: D,
    target: E,
) -> (Status, D, E)
    ensures ended { ExportEnded D.PageDisk disk result.1 E.PageDisk target result.2 reference.now K.Sink out.old out.new
        result.0 }
    ensures reads { OnlyRead D.PageDisk disk result.1 }
{
    let mut loaded = match load_store(alloc, disk) {
        Ok(loaded) => loaded,
        Err((status, disk)) => return (status, disk, target),
    };
    let mut target = target;
    let plan = plan(&loaded, reference, target.pages());
    let Ok(text) = line_of(&plan).render(alloc) else {
        return (Status::Memory, disk_of(loaded), target);
    };
    if carry_out(&mut loaded, &plan, &mut target).is_err() {
        return (Status::Device { at: 0 }, disk_of(loaded), target);
    }
    match offer(&text, out) {
        Ok(()) => (Status::Good, disk_of(loaded), target),
        Err(SinkFault) => (Status::OutWrite, disk_of(loaded), target),
    }
}
