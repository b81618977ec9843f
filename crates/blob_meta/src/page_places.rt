//! Where the pages of a blob lie on the device.

ghost use Rattle.std.specs.Prelude.{◌≡◌, ◌*◌, ◌<◌, length};
ghost use Rattle.std.specs.FinMap as map;
ghost use Rattle.blob_meta.specs.Pages as p;
ghost use Rattle.blob_meta.specs.SlotCounts.{HeadsFit};

use crate::head_map::Metas;
use crate::meta::Meta;
use crate::parent::parent_of;

/// How many pages a blob has, with so many in a cluster.
pub(crate) fn pages_of(meta: &Meta, cluster_pages: u32) -> u64
    ensures { result ≡ cluster_pages * length meta.now.map }
{
    u64::from(cluster_pages) * u64::from(meta.map.len())
}

/// The page of the device where the cluster in a page's slot has it; `None` exactly where the slot is empty, or past
/// the blob's end.
pub fn own_place(meta: &Meta, cluster_pages: u32, page: u64) -> Option<u64>
    requires { 0 < cluster_pages }
    ensures { result ≡ p.own_place cluster_pages meta.now page }
{
    let slot = page / u64::from(cluster_pages);
    if slot >= u64::from(meta.map.len()) {
        return None;
    }
    let cluster = meta.map.get(slot as u32)?;
    Some(u64::from(cluster) * u64::from(cluster_pages) + page % u64::from(cluster_pages))
}

/// The head of a blob's parent, if it has one that has the page.
fn parent_with(metas: &Metas, meta: &Meta, cluster_pages: u32, page: u64) -> Option<u32>
    ensures { HeadsFit metas.now → result ≡ p.parent_with cluster_pages (map.get metas.now) meta.now page }
{
    let Ok(head) = u32::try_from(parent_of(meta)?) else {
        return None;
    };
    let parent = metas.get(head)?;
    if page < pages_of(parent, cluster_pages) {
        Some(head)
    } else {
        None
    }
}

/// The page of the device where a page of the blob at a head is read: that of its own cluster, or, where its slot is
/// empty, that of its parent's page, and so on. `None` comes where it reads as zeros. Parents are followed so many
/// times at most, the blob itself counted.
pub fn place_read(
    metas: &Metas,
    cluster_pages: u32,
    times: u32,
    head: u32,
    page: u64,
) -> Option<u64>
    requires { 0 < cluster_pages }
    ensures { HeadsFit metas.now → result ≡ p.place_read cluster_pages (map.get metas.now) times head page }
{
    let mut at = head;
    for done in 0..times {
        let meta = metas.get(at)?;
        if let Some(place) = own_place(meta, cluster_pages, page) {
            return Some(place);
        }
        at = parent_with(metas, meta, cluster_pages, page)?;
    }
    None
}
