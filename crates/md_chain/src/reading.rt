//! Reading a chain from a device.

ghost use Rattle.std.specs.Prelude.{◌≡◌, ◌+◌, ◌<◌, ◌≤◌, ◌++◌, ◌∷◌, [], None, ℕ, length, take, IsTrue, IfOk, IfErr};
ghost use Rattle.std.specs.Prelude.{OnOk, OnErr, MatchResult};
ghost use Rattle.crc32c.specs.Crc.{is_sound};
ghost use Rattle.descriptors.specs.Grammar.{Spells};
ghost use Rattle.md_page.specs.Page.{body_of, next_of};
ghost use Rattle.page_disk.specs.Disk.{RoseByOne};
ghost use Rattle.super_block.specs.Faults.{IsFaultless};
ghost use Rattle.md_chain.specs.Chain.{Chain as IsChain, IsBroken};
ghost use Rattle.md_chain.specs.Fetching.{place_fault, page_fault, IsFetchFault, IsNthPageFault};
ghost use Rattle.md_chain.specs.Reading.{OnlyRead, GaveChain, IsChainCause, IsPagesFault, NoReadFailed, RoseBy};
ghost use Rattle.md_chain.specs.Reading.{region_look};

use crate::chain::{CHAIN_END, Chain};
use crate::copying::copy_of;
use crate::fault::ChainFault;
use descriptors::{ItemFault, ItemList, read_items};
use out_of_memory::Memory;
use page_disk::{Page, PageDisk};
use std::alloc::Global;
use super_block::{Super, regions_are_placed};
use volume_model::PlaceList;

/// What one page of a chain says: the items of its body, and the place of the next page.
#[derive(Drop)]
struct Link {
    items: ItemList,
    next: u32,
}

/// Reads the page at a place of the metadata region, to which the page at `before` links and behind those at `seen`.
fn fetch<D: PageDisk>(
    disk: &mut D,
    sup: &Super,
    seen: &[u32],
    before: u32,
    place: u32,
) -> Result<Page, ChainFault>
    requires { sup.now.md_start + sup.now.md_len ≤ D.pages disk.old }
    ensures place { OnOk result (place_fault sup.now.md_len seen.now before place ≡ None) }
    ensures content { IsTrue D.tells → IfOk result (λ page. page ≡ D.now disk.old (sup.now.md_start + place)) }
    ensures fault { IfErr result (λ e. IsFetchFault sup.now.md_len seen.now before place (D.read_faults disk.old)
        (D.read_faults disk.new) e) }
    ensures no_fault { OnOk result (D.read_faults disk.new ≡ D.read_faults disk.old) }
    ensures once { OnOk result (RoseByOne (D.reads disk.old) (D.reads disk.new)) }
    ensures at_most { OnErr result (place_fault sup.now.md_len seen.now before place ≡ None
        → D.reads disk.new ≤ D.reads disk.old + 1) }
    ensures none { (place_fault sup.now.md_len seen.now before place ≡ None → ⊥) → D.reads disk.new ≡ D.reads disk.old }
    ensures same { OnlyRead D.PageDisk disk.old disk.new }
{
    if place >= sup.md_len {
        return Err(ChainFault::LinkPastEnd {
            page: before,
            next: place,
        });
    }
    if seen.contains(&place) {
        return Err(ChainFault::Loop { page: place });
    }
    let mut page = [0; 4096];
    let at = u64::from(sup.md_start) + u64::from(place);
    if disk.read(at, &mut page).is_err() {
        return Err(ChainFault::ReadFault);
    }
    Ok(page)
}

/// What a page says that is the one with this sequence in the chain of `head`.
fn link_of(
    alloc: Global,
    head: u32,
    sequence: u32,
    place: u32,
    page: &Page,
) -> Result<Link, ChainFault>
    ensures passes { OnOk result (page_fault page.now head sequence place ≡ None) }
    ensures items { IfOk result (λ link. Spells (body_of page.now) link.items) }
    ensures next { IfOk result (λ link. link.next ≡ next_of page.now) }
    ensures fault { IfErr result (λ e. IsNthPageFault page.now head sequence place e) }
{
    let Ok(md) = md_page::read(page) else {
        return Err(ChainFault::Unsound { page: place });
    };
    if md.id != (1 << 32) + u64::from(head) {
        return Err(ChainFault::WrongId {
            page: place,
            found: md.id,
        });
    }
    if md.sequence != sequence {
        return Err(ChainFault::WrongSequence {
            page: place,
            found: md.sequence,
            wanted: sequence,
        });
    }
    match read_items(alloc, &md.body) {
        Ok(items) => Ok(Link {
            items,
            next: md.next,
        }),
        Err(ItemFault::BadItem { at, kind }) => Err(ChainFault::BadItem {
            page: place,
            at,
            kind,
        }),
        Err(ItemFault::Memory) => Err(ChainFault::Memory),
    }
}

fn append(alloc: Global, items: &mut ItemList, more: &ItemList) -> Result<(), Memory>
    ensures { OnOk result (items.new ≡ items.old ++ more.now) }
{
    for item in more.as_slice() {
        items.push(copy_of(alloc, item)?)?;
    }
    Ok(())
}

/// Reads the chain at a head of the metadata region. Each page of it is read once. A fault is that of the first test
/// that fails, at the first place that fails one; `ReadFault` comes where the device counted a failed read, and
/// `Memory` where memory ran out.
pub fn read_chain<D: PageDisk>(
    alloc: Global,
    disk: &mut D,
    sup: &Super,
    head: u32,
) -> Result<Chain, ChainFault>
    requires faultless { IsFaultless sup.now }
    requires device { sup.now.device_pages ≡ D.pages disk.old }

    // Where the device tells, the answer is the one of its image.
    ensures chain { IsTrue D.tells → IfOk result (λ c.
        IsChain (region_look sup.now (D.now disk.old)) sup.now.md_len head c.items c.pages) }
    ensures broken { IsTrue D.tells → IfErr result (λ e. IsPagesFault e
        → IsBroken (region_look sup.now (D.now disk.old)) sup.now.md_len head e) }

    // Whatever it tells, the answer is the one of the pages that it gave.
    ensures found { IfOk result (λ c. GaveChain D.PageDisk sup.now disk.old head c.pages c.items) }
    ensures fault { IfErr result (λ e. IsChainCause D.PageDisk sup.now disk.old disk.new head e) }
    ensures no_fault { NoReadFailed result (D.read_faults disk.old) (D.read_faults disk.new) }

    // Each page of the chain is read once, and nothing else is done.
    ensures once { IfOk result (λ c. RoseBy (length c.pages) (D.reads disk.old) (D.reads disk.new)) }
    ensures few { D.reads disk.new ≤ D.reads disk.old + sup.now.md_len }
    ensures same { OnlyRead D.PageDisk disk.old disk.new }
{
    regions_are_placed();
    let mut pages = PlaceList::new(alloc);
    let mut items = ItemList::new(alloc);
    let mut before = head;
    let mut place = head;
    'chain: loop {
        let page = fetch(disk, sup, pages.as_slice(), before, place)?;
        let link = link_of(alloc, head, pages.len() as u32, place, &page)?;
        append(alloc, &mut items, &link.items)?;
        pages.push(place)?;
        if link.next == CHAIN_END {
            return Ok(Chain { pages, items });
        }
        before = place;
        place = link.next;
    }
}
