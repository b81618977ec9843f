//! Chains: the pages of a plan, and a plan read again.

ghost use Rattle.std.specs.Prelude.{IfOk};
ghost use Rattle.md_chain.specs.Packing.{ArePlannable, AreFew};

use crate::fixtures::{attribute, expect_text, list_of, small, text_of};
use crc32c::page_ok;
use descriptors::{Item, ItemList};
use md_chain::{Chain, ChainFault, Memory, Plan, chain_len, plan_chain, read_chain};
use page_disk::{MemDisk, Page, PageDisk, WriteKind};
use std::alloc::Global;
use std::process::Abort;
use std::test::Fail as TestFail;
use volume_model::{PlaceList, SlotRun};

/// Four empty slots, and three clusters from 7 on.
const TWO_RUNS: [SlotRun; 2] = [
    SlotRun {
        cluster: 0,
        length: 4,
    },
    SlotRun {
        cluster: 7,
        length: 3,
    },
];

/// The items of a thin volume: flags, a name, a uuid, an attribute that fills a page, and the runs of a map.
fn volume(alloc: Global) -> Result<ItemList, Memory>
    ensures plannable { IfOk result (λ items. ArePlannable items) }
    ensures few { IfOk result (λ items. AreFew items) }
{
    let mut items = ItemList::new(alloc);
    items.push(Item::Flags {
        invalid: 1,
        data_ro: 0,
        md_ro: 0,
    })?;
    items.push(attribute(alloc, b"name", b"v\0")?)?;
    items.push(attribute(alloc, b"uuid", b"11223344-5566-4788-99aa-bbccddeeff00\0")?)?;
    items.push(attribute(alloc, b"k", &[b'x'; 4062])?)?;
    items.push(Item::Rle(list_of(alloc, &TWO_RUNS)?))?;
    Ok(items)
}

/// The pages of these items, which are three: a head at 5, and then 2 and 9.
fn planned(rt: &impl Abort, alloc: Global, items: &ItemList) -> Result<Plan, TestFail>
    requires plannable { ArePlannable items.now }
    requires few { AreFew items.now }
{
    let mut fresh = PlaceList::new(alloc);
    fresh.push(2)?;
    fresh.push(9)?;
    assert!(rt; chain_len(items) == 3);
    Ok(plan_chain(alloc, items, 5, &fresh)?)
}

/// A page of a plan: its place, the bytes that it begins with, the byte that fills the rest of its body, and its next
/// place.
struct PlannedPage {
    place: u32,
    front: &'static [u8],
    rest: u8,
    next: [u8; 4],
}

static PAGES: [PlannedPage; 3] = [
    PlannedPage {
        place: 5,
        front: b"\x05\0\0\0\x01\0\0\0\0\0\0\0\0\0\0\0\
            \x03\x18\0\0\0\x01\0\0\0\0\0\0\0\0\0\0\0\0\0\0\0\0\0\0\0\0\0\0\0\
            \x02\x0A\0\0\0\x04\0\x02\0namev\0\
            \x02\x2D\0\0\0\x04\0\x25\0uuid11223344-5566-4788-99aa-bbccddeeff00\0",
        rest: 0,
        next: [2, 0, 0, 0],
    },
    PlannedPage {
        place: 2,
        front: b"\x05\0\0\0\x01\0\0\0\x01\0\0\0\0\0\0\0\x02\xE3\x0F\0\0\x01\0\xDE\x0Fk",
        rest: b'x',
        next: [9, 0, 0, 0],
    },
    PlannedPage {
        place: 9,
        front: b"\x05\0\0\0\x01\0\0\0\x02\0\0\0\0\0\0\0\x01\x10\0\0\0\0\0\0\0\x04\0\0\0\x07\0\0\0\x03\0\0\0",
        rest: 0,
        next: [0xFF; 4],
    },
];

/// A page that begins with these bytes, has this byte in the rest of its body, and then this next place.
fn page_with(front: &[u8], rest: u8, next: [u8; 4]) -> Page {
    let mut page = [rest; 4096];
    if front.len() <= 4088 {
        page[..front.len()].copy_from_slice(front);
    }
    page[4088..4092].copy_from_slice(&next);
    page
}

/// Whether the pages have the same bytes before their sums.
fn bytes_agree(page: &Page, wanted: &Page) -> bool {
    page[..4092] == wanted[..4092]
}

/// Expects the page of a plan at its place.
fn expect_page(rt: &impl Abort, place: u32, page: &Page, wanted: &PlannedPage) {
    assert!(rt; place == wanted.place);
    let bytes = page_with(wanted.front, wanted.rest, wanted.next);
    assert!(rt; bytes_agree(page, &bytes));
    assert!(rt; page_ok(page));
}

/// Expects the three pages of a plan.
fn expect_pages(rt: &impl Abort, plan: &Plan) {
    assert!(rt; plan.len() == 3);
    for (found, wanted) in plan.as_slice().iter().zip(&PAGES) {
        expect_page(rt, found.place, &found.page, wanted);
    }
}

#[test]
fn a_volume_with_a_full_attribute_and_a_map_takes_three_pages(
    rt: HostRuntime,
) -> Result<(), TestFail> {
    let items = volume(rt.alloc())?;
    let plan = planned(&rt, rt.alloc(), &items)?;
    expect_pages(&rt, &plan);
    Ok(())
}

/// Writes a page at a place of the metadata region.
pub(crate) fn put<D: PageDisk>(
    rt: &impl Abort,
    disk: &mut D,
    place: u32,
    page: &Page,
) -> Result<(), TestFail> {
    let at = 4 + u64::from(place);
    assert!(rt; at < disk.pages());
    disk.write(at, page, WriteKind::Whole)?;
    Ok(())
}

/// What comes of reading the chain at a head of this device.
pub(crate) fn chain_in<D: PageDisk>(
    rt: &impl Abort,
    alloc: Global,
    disk: &mut D,
    head: u32,
) -> Result<Result<Chain, ChainFault>, TestFail> {
    let sup = small(u64::MAX)?;
    assert!(rt; sup.device_pages == disk.pages());
    Ok(read_chain(alloc, disk, &sup, head))
}

/// A device on which the pages of a plan are written.
fn disk_of(rt: &impl Abort, alloc: Global, plan: &Plan) -> Result<MemDisk, TestFail> {
    let mut disk = MemDisk::new(alloc, 64, 8)?;
    for planned in plan.as_slice() {
        put(rt, &mut disk, planned.place, &planned.page)?;
    }
    Ok(disk)
}

/// A device on which the pages of the plan of these items are written.
fn disk_with(rt: &impl Abort, alloc: Global, items: &ItemList) -> Result<MemDisk, TestFail>
    requires plannable { ArePlannable items.now }
    requires few { AreFew items.now }
{
    let plan = planned(rt, alloc, items)?;
    disk_of(rt, alloc, &plan)
}

fn expect_items(
    rt: &impl Abort,
    alloc: Global,
    found: &ItemList,
    wanted: &ItemList,
) -> Result<(), TestFail> {
    let wanted = text_of(alloc, wanted)?;
    let said = text_of(alloc, found)?;
    expect_text(rt, &said, wanted.as_str());
    Ok(())
}

/// Expects that the chain at 5 has three pages, which say these items.
fn expect_chain(
    rt: &impl Abort,
    alloc: Global,
    disk: &mut MemDisk,
    wanted: &ItemList,
) -> Result<(), TestFail> {
    let chain = chain_in(rt, alloc, disk, 5)??;
    assert!(rt; chain.pages.as_slice() == [5, 2, 9].as_slice());
    expect_items(rt, alloc, &chain.items, wanted)
}

#[test]
fn a_written_plan_is_read_again(rt: HostRuntime) -> Result<(), TestFail> {
    let items = volume(rt.alloc())?;
    let mut disk = disk_with(&rt, rt.alloc(), &items)?;
    expect_chain(&rt, rt.alloc(), &mut disk, &items)
}
