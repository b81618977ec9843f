//! The mark of a store that is in use, and what its unloading leaves.

ghost use Rattle.std.specs.Prelude.{◌≡◌, ◌≢◌, ◌≤◌, ◌<◌, ◌+◌, OnOk, OnErr, IsTrue};
ghost use Rattle.clean_stop.specs.Masks.{MasksFit};
ghost use Rattle.clean_stop.specs.Stopping.{with_clean, IsSuperPage, IsUnloaded, IsUnloading};
ghost use Rattle.page_disk.specs.Disk.{HasCause, IsSameElsewhere, Only, with_page};
ghost use Rattle.page_disk.specs.Moments.{CallsLeaveOnly, IsReplaced};
ghost use Rattle.super_block.specs.Faults.{IsFaultless};
ghost use Rattle.super_block.specs.Page.{super_bytes};

use crate::masks::write_masks;
use crate::super_page::replace_super;
use page_disk::{DiskFault, PageDisk};
use super_block::{Masks, Super, regions_are_placed};

/// Marks the store as in use, before a session changes it: a flush, a whole write of the super block with `clean` = 0,
/// and a flush. From then on its masks count for nothing, until it is unloaded. The first of the three calls that fails
/// is the answer; `sup` is then as it was.
pub fn mark_dirty<D: PageDisk>(disk: &mut D, sup: &mut Super) -> Result<(), DiskFault>
    requires faultless { IsFaultless sup.old }
    requires device { sup.old.device_pages ≤ D.pages disk.old }

    ensures dirty { OnOk result (sup.new ≡ with_clean 0 sup.old) }
    ensures kept { OnErr result (sup.new ≡ sup.old) }

    // A crash at any moment leaves one of the images from before, or the super block replaced by the one that says so.
    ensures any_moment { CallsLeaveOnly D.PageDisk disk.old disk.new
        (IsReplaced (D.images disk.old) (D.now disk.old) 0 (super_bytes (with_clean 0 sup.old))) }
    ensures read { IsSuperPage (with_clean 0 sup.old) (super_bytes (with_clean 0 sup.old)) }

    ensures marked { IsTrue D.tells
        → OnOk result (D.now disk.new ≡ with_page (D.now disk.old) 0 (super_bytes (with_clean 0 sup.old))) }
    ensures elsewhere { IsTrue D.tells → IsSameElsewhere 0 (D.now disk.old) (D.now disk.new) }
    ensures one_image { IsTrue D.tells → OnOk result (Only (D.now disk.new) (D.images disk.new)) }
    ensures later { D.clock disk.old ≤ D.clock disk.new }
    // a flush, a write and a flush
    ensures rises { OnOk result (D.clock disk.old + 3 ≤ D.clock disk.new) }
    ensures pages { D.pages disk.new ≡ D.pages disk.old }
    ensures faults { HasCause (D.write_faults disk.old) (D.write_faults disk.new) result }
    ensures no_fault { OnOk result (D.write_faults disk.new ≡ D.write_faults disk.old) }
    ensures read_faults { D.read_faults disk.new ≡ D.read_faults disk.old }
    ensures reads { D.reads disk.new ≡ D.reads disk.old }
{
    replace_super(disk, sup, 0)
}

/// Unloads a store, after which a load may trust its masks. Where it is marked as in use the three masks are written,
/// and once they are on the disk the super block with `clean` = 1; where it isn't, all of this stands there already,
/// and one flush makes lasting what was written. The first call that fails is the answer; `sup` is then as it was.
pub fn unload<D: PageDisk>(disk: &mut D, sup: &mut Super, masks: &Masks) -> Result<(), DiskFault>
    requires faultless { IsFaultless sup.old }
    requires device { sup.old.device_pages ≤ D.pages disk.old }
    requires masks { MasksFit sup.old masks.now }

    ensures clean { OnOk result (sup.new ≡ with_clean 1 sup.old) }
    ensures kept { OnErr result (sup.new ≡ sup.old) }

    // A store that isn't clean: a crash at any moment leaves the old super block, or the new one beside whole masks.
    ensures any_moment { CallsLeaveOnly D.PageDisk disk.old disk.new
        (IsUnloading sup.old masks.now (D.images disk.old) (D.now disk.old)) }
    ensures unloaded { IsTrue D.tells → sup.old.clean ≢ 1
        → OnOk result (IsUnloaded sup.old masks.now (D.now disk.old) (D.now disk.new)) }

    // One that is clean: nothing is written.
    ensures only_flushed { sup.old.clean ≡ 1 → CallsLeaveOnly D.PageDisk disk.old disk.new (D.images disk.old) }
    ensures same { IsTrue D.tells → sup.old.clean ≡ 1 → D.now disk.new ≡ D.now disk.old }

    ensures one_image { IsTrue D.tells → OnOk result (Only (D.now disk.new) (D.images disk.new)) }
    ensures later { D.clock disk.old ≤ D.clock disk.new }
    ensures rises { OnOk result (D.clock disk.old < D.clock disk.new) }
    ensures pages { D.pages disk.new ≡ D.pages disk.old }
    ensures faults { HasCause (D.write_faults disk.old) (D.write_faults disk.new) result }
    ensures no_fault { OnOk result (D.write_faults disk.new ≡ D.write_faults disk.old) }
    ensures read_faults { D.read_faults disk.new ≡ D.read_faults disk.old }
    ensures reads { D.reads disk.new ≡ D.reads disk.old }
{
    regions_are_placed();
    if sup.clean == 1 {
        return disk.flush();
    }
    write_masks(disk, sup, masks)?;
    replace_super(disk, sup, 1)
}
