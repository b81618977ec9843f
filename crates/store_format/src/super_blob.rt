//! The super blob of a new logical volume store.

ghost use Rattle.std.specs.Prelude.{◌≡◌, IfOk, OnOk};
ghost use Rattle.std.specs.Option.{option_copied};
ghost use Rattle.store_format.specs.SuperBlob.{super_blob_page, super_blob_page_of as page_said, AreReadable};
ghost use Rattle.store_format.specs.SuperBlob.{IsReadable};

use blob_meta::{new_meta, to_items};
use descriptors::longest_runs_are_one;
use md_chain::plan_chain;
use out_of_memory::Memory;
use page_disk::Page;
use std::alloc::Global;
use volume_model::{Name, PlaceList, named_xattrs};

/// The name and the uuid of a logical volume store, which its super blob carries.
#[derive(Debug, Drop)]
pub struct StoreName {
    pub name: Name,
    pub uuid: [u8; 16],
}

/// The page of the super blob of a store with this name and uuid, which is its whole chain.
fn super_blob_page(alloc: Global, named: &StoreName) -> Result<Page, Memory>
    ensures page { IfOk result (λ page. page ≡ super_blob_page named.now) }
    ensures readable { OnOk result (IsReadable named.now) }
{
    longest_runs_are_one();
    let xattrs = named_xattrs(alloc, &named.name, named.uuid)?;
    let meta = new_meta(alloc, 0, xattrs, true, 0)?;
    let items = to_items(alloc, &meta)?;
    let plan = plan_chain(alloc, &items, 0, &PlaceList::new(alloc))?;
    Ok(plan.as_slice()[0].page)
}

/// The page of the super blob, if the store has a name.
pub(crate) fn page_of(alloc: Global, named: Option<&StoreName>) -> Result<Option<Page>, Memory>
    ensures page { IfOk result (λ page. page ≡ page_said (option_copied named.entry)) }
    ensures readable { OnOk result (AreReadable (option_copied named.entry)) }
{
    match named {
        Some(named) => Ok(Some(super_blob_page(alloc, named)?)),
        None => Ok(None),
    }
}
