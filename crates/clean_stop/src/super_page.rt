//! The super block is written anew.

ghost use Rattle.std.specs.Prelude.{◌≡◌, ◌≤◌, ◌+◌, OnOk, OnErr, IsTrue};
ghost use Rattle.clean_stop.specs.Stopping.{with_clean, IsSuperPage};
ghost use Rattle.page_disk.specs.Disk.{HasCause, IsSameElsewhere, Only, with_page};
ghost use Rattle.page_disk.specs.Moments.{CallsLeaveOnly, IsReplaced};
ghost use Rattle.super_block.specs.Faults.{IsFaultless};
ghost use Rattle.super_block.specs.Page.{super_bytes};

use page_disk::{DiskFault, PageDisk, replace_page};
use super_block::{Super, regions_are_placed, write_super};

/// Replaces the super block by one with this `clean`, by a whole write between two flushes. After a fault `sup` is as
/// it was.
pub fn replace_super<D: PageDisk>(
    disk: &mut D,
    sup: &mut Super,
    clean: u32,
) -> Result<(), DiskFault>
    requires faultless { IsFaultless sup.old }
    requires device { sup.old.device_pages ≤ D.pages disk.old }
    ensures set { OnOk result (sup.new ≡ with_clean clean sup.old) }
    ensures kept { OnErr result (sup.new ≡ sup.old) }
    ensures read { IsSuperPage (with_clean clean sup.old) (super_bytes (with_clean clean sup.old)) }
    ensures any_moment { CallsLeaveOnly D.PageDisk disk.old disk.new
        (IsReplaced (D.images disk.old) (D.now disk.old) 0 (super_bytes (with_clean clean sup.old))) }
    ensures replaced { IsTrue D.tells
        → OnOk result (D.now disk.new ≡ with_page (D.now disk.old) 0 (super_bytes (with_clean clean sup.old))) }
    ensures elsewhere { IsTrue D.tells → IsSameElsewhere 0 (D.now disk.old) (D.now disk.new) }
    ensures durable { IsTrue D.tells → OnOk result (Only (D.now disk.new) (D.images disk.new)) }
    ensures later { D.clock disk.old ≤ D.clock disk.new }
    ensures rises { OnOk result (D.clock disk.old + 3 ≤ D.clock disk.new) }
    ensures pages { D.pages disk.new ≡ D.pages disk.old }
    ensures faults { HasCause (D.write_faults disk.old) (D.write_faults disk.new) result }
    ensures no_fault { OnOk result (D.write_faults disk.new ≡ D.write_faults disk.old) }
    ensures read_faults { D.read_faults disk.new ≡ D.read_faults disk.old }
    ensures reads { D.reads disk.new ≡ D.reads disk.old }
{
    regions_are_placed();
    let was = sup.clean;
    sup.clean = clean;
    let mut page = [0; 4096];
    write_super(sup, &mut page);
    let outcome = replace_page(disk, 0, &page);
    if outcome.is_err() {
        sup.clean = was;
    }
    outcome
}
