//! What a job takes before it begins: memory, pages, and what it will write.

ghost use Rattle.std.specs.Prelude.{◌≡◌, ◌+◌, ◌<◌, ◌≤◌, ◌∷◌, [], true, false, Some, None, length, is_some, IfOk, IfErr};
ghost use Rattle.std.specs.Prelude.{not, IsSome, OnErr};
ghost use Rattle.std.specs.FinMap as map;
ghost use Rattle.std.specs.List.{All};
ghost use Rattle.pools.specs.Pool.{clear_in};
ghost use Rattle.blob_meta.specs.Items.{IsItemsOf};
ghost use Rattle.md_chain.specs.Packing.{parts_of, ArePlannable, AreFew, FitsPage};
ghost use Rattle.job_begins.specs.Begins.{behind_in, HasChain, IsFreshHead, IsChainLaid, IsPrepared, IsTaken};
ghost use Rattle.job_begins.specs.Begins.{needed, IsUnprepared};

use blob_meta::{Chains, Meta, to_items};
use descriptors::ItemList;
use md_chain::{Plan, chain_len, plan_chain};
use out_of_memory::Memory;
use pools::PagePool;
use running_store::{clear_places, take_places};
use std::alloc::Global;
use volume_model::{PlaceList, Reply};

/// Metadata with as many attributes and slots together isn't written: what counts the pages of a chain takes fewer.
const MOST_PARTS: usize = (1 << 31) - 2;

/// A chain that is to be written: its places, the head first, and their pages.
#[derive(Drop)]
pub(crate) struct Laid {
    pub(crate) chain: PlaceList,
    pub(crate) pages: Plan,
}

/// What a job needs on the device for the metadata that it writes.
#[derive(Drop)]
pub(crate) struct Prepared {
    pub(crate) laid: Laid,
    /// The places that stand behind the head.
    pub(crate) old: PlaceList,
}

/// These places, as a list.
pub(crate) fn places_from(alloc: Global, places: &[u32]) -> Result<PlaceList, Memory>
    ensures { IfOk result (λ list. list ≡ places.now) }
{
    let mut list = Vec::new(alloc);
    list.extend_from_slice(places)?;
    Ok(PlaceList::from_vec(list))
}

/// Makes what a job needs for new metadata at a head, and takes its pages, that of the head too where the blob is new.
/// `Err` is `NoPage` exactly where too few are clear, and else `Memory`, and the same ones are in use as before.
pub(crate) fn prepare(
    alloc: Global,
    chains: &Chains,
    pages: &mut PagePool,
    head: u32,
    new: &Meta,
    makes: bool,
) -> Result<Prepared, Reply>
    requires there { makes ≡ false → HasChain chains.now head }
    requires none { makes ≡ true → map.get chains.now head ≡ None }
    requires next { makes ≡ true → IsFreshHead pages.old.bits head }
    requires unclaimed { pages.old.claims ≡ [] }
    requires xattrs { All FitsPage new.now.xattrs }
    requires internal { All FitsPage new.now.internal }
    ensures prepared { IfOk result (IsPrepared chains.now head new.now makes pages.old.bits pages.new.bits) }
    ensures lack { IfErr result (IsUnprepared false (is_some (map.get chains.now head)) new.now pages.old.bits) }
    ensures same { OnErr result (pages.new.bits ≡ pages.old.bits) }
    ensures unclaimed { pages.new.claims ≡ [] }
{
    let items = items_of(alloc, new)?;
    let old = places_behind(alloc, chains, head)?;
    let needs = pages_needed(&items, makes);
    if pages.clear_count() < needs {
        return Err(Reply::NoPage);
    }
    let laid = take_chain(alloc, pages, &items, head, makes)?;
    Ok(Prepared { laid, old })
}

/// What a job lacks for whose slots of zeros too few clusters are clear: pages too, where too few are clear with these
/// slots empty; else just the clusters (`Full`). Or memory.
pub(crate) fn lack_beside_clusters(
    alloc: Global,
    pages: &PagePool,
    new: &Meta,
    makes: bool,
) -> Reply
    requires xattrs { All FitsPage new.now.xattrs }
    requires internal { All FitsPage new.now.internal }
    ensures { IsUnprepared true (not makes) new.now pages.now.bits result }
{
    let Ok(items) = items_of(alloc, new) else {
        return Reply::Memory;
    };
    if pages.clear_count() < pages_needed(&items, makes) {
        Reply::NoPage
    } else {
        Reply::Full
    }
}

/// How many pages the chain of these items takes: those behind the head, and the head's where the blob is new.
pub(crate) fn pages_needed(items: &ItemList, makes: bool) -> u32
    requires plannable { ArePlannable items.now }
    requires few { AreFew items.now }
    ensures { result ≡ needed makes items.now }
{
    let len = chain_len(items);
    if makes { len } else { len - 1 }
}

/// The items by which metadata is written: few enough for a chain, each short enough for a page.
pub(crate) fn items_of(alloc: Global, new: &Meta) -> Result<ItemList, Memory>
    requires xattrs { All FitsPage new.now.xattrs }
    requires internal { All FitsPage new.now.internal }
    ensures are { IfOk result (IsItemsOf new.now) }
    ensures plannable { IfOk result ArePlannable }
    ensures few { IfOk result AreFew }
{
    let attributes = new.xattrs.len().saturating_add(new.internal.len());
    if attributes.saturating_add(new.map.len() as usize) >= MOST_PARTS {
        return Err(Memory);
    }
    to_items(alloc, new)
}

/// The places that stand behind the head in the chain of a blob; none where no blob is there.
pub(crate) fn places_behind(alloc: Global, chains: &Chains, head: u32) -> Result<PlaceList, Memory>
    requires { IsSome (map.get chains.now head) → HasChain chains.now head }
    ensures there { IfOk result (λ behind. IsSome (map.get chains.now head)
        → map.get chains.now head ≡ Some (head ∷ behind)) }
    ensures none { IfOk result (λ behind. map.get chains.now head ≡ None → behind ≡ []) }
{
    match chains.get(head) {
        Some(chain) => places_from(alloc, &chain.as_slice()[1..]),
        None => Ok(PlaceList::new(alloc)),
    }
}

/// Takes the pages that the items need, and lays them on the head and on these. After `Memory` the same pages are in
/// use as before.
fn take_chain(
    alloc: Global,
    pages: &mut PagePool,
    items: &ItemList,
    head: u32,
    makes: bool,
) -> Result<Laid, Memory>
    requires plannable { ArePlannable items.now }
    requires few { AreFew items.now }
    requires unclaimed { pages.old.claims ≡ [] }
    requires enough { needed makes items.now ≤ clear_in pages.old.bits }
    requires next { makes ≡ true → IsFreshHead pages.old.bits head }
    ensures taken { IfOk result (IsTaken items.now head makes pages.old.bits pages.new.bits) }
    ensures memory { IfErr result (λ _. pages.new.bits ≡ pages.old.bits) }
    ensures unclaimed { pages.new.claims ≡ [] }
{
    let taken = take_places(alloc, pages, pages_needed(items, makes))?;
    let fresh = behind_head(taken.as_slice(), makes);
    match lay(alloc, items, head, fresh) {
        Ok(laid) => Ok(laid),
        Err(Memory) => {
            clear_places(pages, &taken);
            Err(Memory)
        }
    }
}

/// Of places that are taken for a chain, those behind its head: all, but for the first where the blob is new.
pub(crate) fn behind_head(taken: &[u32], makes: bool) -> &[u32]
    requires { makes ≡ true → 0 < length taken.now }
    ensures { result.now ≡ behind_in makes taken.now }
{
    if makes { &taken[1..] } else { taken }
}

/// The chain of a head and fresh places on which the items are written.
pub(crate) fn lay(alloc: Global, items: &ItemList, head: u32, fresh: &[u32]) -> Result<Laid, Memory>
    requires plannable { ArePlannable items.now }
    requires few { AreFew items.now }
    requires places { length fresh.now + 1 ≡ length (parts_of items.now) }
    ensures { IfOk result (IsChainLaid items.now head fresh.now) }
{
    let mut chain = Vec::new(alloc);
    chain.push(head)?;
    chain.extend_from_slice(fresh)?;
    let pages = plan_chain(alloc, items, head, &places_from(alloc, fresh)?)?;
    Ok(Laid {
        chain: PlaceList::from_vec(chain),
        pages,
    })
}
