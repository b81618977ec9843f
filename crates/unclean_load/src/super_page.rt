//! The super block of a device.

ghost use Rattle.std.specs.Prelude.{◌≡◌, ◌≤◌, ◌+◌, IsTrue, OnOk, IfOk, IfErr};
ghost use Rattle.md_chain.specs.Reading.{OnlyRead};
ghost use Rattle.super_block.specs.Faults.{IsFaultless};
ghost use Rattle.unclean_load.specs.Accepted.{IsSuperFault, SuperAt};
ghost use Rattle.unclean_load.specs.Reading.{IsOnlyFault};

use crate::fault::LoadFault;
use page_disk::PageDisk;
use super_block::{Super, SuperFault, read_super, regions_are_placed};

/// The super block of the device; one without pages has no signature.
pub fn super_on<D: PageDisk>(disk: &mut D) -> Result<Super, LoadFault>
    ensures found { IsTrue D.tells → IfOk result (λ sup. SuperAt (D.pages disk.old) (D.now disk.old) sup) }
    ensures faultless { IfOk result IsFaultless }
    ensures device { IfOk result (λ sup. sup.device_pages ≡ D.pages disk.old) }
    ensures inside { IfOk result (λ sup. sup.md_start + sup.md_len ≤ D.pages disk.old) }
    ensures fault { IsTrue D.tells → IfErr result (λ e. IsSuperFault (D.pages disk.old) (D.now disk.old) e) }
    ensures counted { IfErr result (λ e. IsOnlyFault (D.read_faults disk.old) (D.read_faults disk.new) e) }
    ensures quiet { OnOk result (D.read_faults disk.new ≡ D.read_faults disk.old) }
    ensures reads { D.reads disk.new ≤ D.reads disk.old + 1 }
    ensures same { OnlyRead D.PageDisk disk.old disk.new }
{
    regions_are_placed();
    let pages = disk.pages();
    if pages == 0 {
        return Err(LoadFault::Super(SuperFault::BadSignature));
    }
    let mut page = [0; 4096];
    if disk.read(0, &mut page).is_err() {
        return Err(LoadFault::ReadFault);
    }
    match read_super(&page, pages) {
        Ok(sup) => Ok(sup),
        Err(fault) => Err(LoadFault::Super(fault)),
    }
}
