//! The store of a device is loaded, for commands that only read it.

ghost use Rattle.std.specs.Prelude.{◌≡◌, IfErr, IfOk};
ghost use Rattle.blob_tool.specs.Found.{IsFound};
ghost use Rattle.blob_tool.specs.Loading.{IsNotLoaded};
ghost use Rattle.md_chain.specs.Reading.{OnlyRead};
ghost use Rattle.super_block.specs.Faults.{IsFaultless};

use crate::status::Status;
use page_disk::PageDisk;
use running_store::Loaded;
use std::alloc::Global;
use unclean_load::load;

/// Loads the store of the device; where that fails, the device is handed back with the status that tells why.
pub(crate) fn load_store<D: PageDisk>(alloc: Global, disk: D) -> Result<Loaded<D>, (Status, D)>
    ensures found { IfOk result (IsFound D.PageDisk disk) }
    ensures faultless { IfOk result (λ l. IsFaultless l.sup) }
    ensures device_pages { IfOk result (λ l. l.sup.device_pages ≡ D.pages l.disk) }
    ensures unloaded { IfErr result (λ r. IsNotLoaded D.PageDisk disk r.1 r.0) }
    ensures reads { IfErr result (λ r. OnlyRead D.PageDisk disk r.1) }
{
    match load(alloc, disk) {
        Ok(loaded) => Ok(loaded),
        Err((disk, fault)) => Err((Status::from(fault), disk)),
    }
}
