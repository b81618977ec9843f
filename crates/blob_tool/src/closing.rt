//! The end of a run: what was written is made lasting, and the store is clean.

ghost use Rattle.std.specs.Prelude.{◌≡◌, ◌≤◌, None, OnOk, OnErr, IsTrue};
ghost use Rattle.blob_tool.specs.Closing.{AreTrusted, Closes, Closing, IsCleanWith, IsOfClosing};
ghost use Rattle.clean_stop.specs.Masks.{MasksFit};
ghost use Rattle.page_disk.specs.Disk.{HasCause, Only};
ghost use Rattle.page_disk.specs.Moments.{CallsLeaveOnly};
ghost use Rattle.page_runs.specs.Writing.{SameBut};
ghost use Rattle.super_block.specs.Faults.{IsFaultless};

use clean_stop::{mark_dirty, unload, unloaded_masks_are_read};
use page_disk::{DiskFault, PageDisk};
use super_block::{Masks, Super};

/// Marks a store as in use, and unloads it, so that its masks are written anew.
fn unload_anew<D: PageDisk>(disk: &mut D, sup: &mut Super, masks: &Masks) -> Result<(), DiskFault>
    requires faultless { IsFaultless sup.old }
    requires device { sup.old.device_pages ≤ D.pages disk.old }
    requires masks { MasksFit sup.old masks.now }
    ensures any_moment { CallsLeaveOnly D.PageDisk disk.old disk.new (Closing sup.old masks.now (D.images disk.old)) }
    ensures unloaded { IsTrue D.tells → OnOk result (IsCleanWith sup.old masks.now (D.now disk.new)) }
    ensures others { IsTrue D.tells → OnOk result (SameBut (IsOfClosing sup.old) (D.now disk.old) (D.now disk.new)) }
    ensures one_image { IsTrue D.tells → OnOk result (Only (D.now disk.new) (D.images disk.new)) }
    ensures faults { HasCause (D.write_faults disk.old) (D.write_faults disk.new) result }
    ensures no_fault { OnOk result (D.write_faults disk.new ≡ D.write_faults disk.old) }
    ensures read_faults { D.read_faults disk.new ≡ D.read_faults disk.old }
    ensures pages { D.pages disk.new ≡ D.pages disk.old }
{
    unloaded_masks_are_read();
    mark_dirty(disk, sup)?;
    unload(disk, sup, masks)
}

/// Unloads a store. Where it is clean, and its masks on the device weren't trusted when it was loaded, they are written
/// anew.
fn unload_store<D: PageDisk>(
    disk: &mut D,
    sup: &mut Super,
    masks: &Masks,
    quick: bool,
) -> Result<(), DiskFault>
    requires faultless { IsFaultless sup.old }
    requires device { sup.old.device_pages ≤ D.pages disk.old }
    requires masks { MasksFit sup.old masks.now }
    ensures any_moment { CallsLeaveOnly D.PageDisk disk.old disk.new (Closing sup.old masks.now (D.images disk.old)) }
    ensures same { IsTrue D.tells → AreTrusted sup.old quick → D.now disk.new ≡ D.now disk.old }
    ensures unloaded { IsTrue D.tells → (AreTrusted sup.old quick → ⊥)
        → OnOk result (IsCleanWith sup.old masks.now (D.now disk.new)) }
    ensures others { IsTrue D.tells → OnOk result (SameBut (IsOfClosing sup.old) (D.now disk.old) (D.now disk.new)) }
    ensures one_image { IsTrue D.tells → OnOk result (Only (D.now disk.new) (D.images disk.new)) }
    ensures faults { HasCause (D.write_faults disk.old) (D.write_faults disk.new) result }
    ensures no_fault { OnOk result (D.write_faults disk.new ≡ D.write_faults disk.old) }
    ensures read_faults { D.read_faults disk.new ≡ D.read_faults disk.old }
    ensures pages { D.pages disk.new ≡ D.pages disk.old }
{
    unloaded_masks_are_read();
    if sup.clean == 1 && !quick {
        unload_anew(disk, sup, masks)
    } else {
        unload(disk, sup, masks)
    }
}

/// Unloads a store behind a run of so many entries, unless the run stopped. Gives where it ended: `None` where all went
/// well, and else where it stopped, which for a failed unload is behind all entries.
pub(crate) fn close<D: PageDisk>(
    disk: &mut D,
    sup: &mut Super,
    masks: &Masks,
    quick: bool,
    stopped: Option<u32>,
    entries: u32,
) -> Option<u32>
    requires faultless { IsFaultless sup.old }
    requires device { sup.old.device_pages ≤ D.pages disk.old }
    requires masks { stopped ≡ None → MasksFit sup.old masks.now }
    ensures closes { Closes D.PageDisk sup.old masks.now disk.old disk.new quick entries stopped result }
    ensures read_faults { D.read_faults disk.new ≡ D.read_faults disk.old }
    ensures pages { D.pages disk.new ≡ D.pages disk.old }
{
    if stopped.is_some() {
        return stopped;
    }
    match unload_store(disk, sup, masks, quick) {
        Ok(()) => None,
        Err(DiskFault) => Some(entries),
    }
}
