//! Planning the pages of a chain.

ghost use Rattle.std.specs.Prelude.{◌≡◌, ◌+◌, ◌<◌, ◌≤◌, ◌^◌, ◌∷◌, ℕ, List, drop, length, nat_eq, slice_index_or, IfOk};
ghost use Rattle.std.specs.List.{All, IsDistinct};
ghost use Rattle.descriptors.specs.Writing.{spelled_size, IsWritable};
ghost use Rattle.md_chain.specs.Chain.{Look, Chain};
ghost use Rattle.md_chain.specs.Packing.{ArePlannable, AreFew, parts_of as parts_said};
ghost use Rattle.md_chain.specs.Planned.{page_written, next_in, chain_pages, written_items, IsNthPage, IsPageOfPlan};
ghost use Rattle.md_chain.specs.declared.plan.PlannedPage.{PlannedPage as APlannedPage};

use crate::chain::CHAIN_END;
use crate::packing::parts_of;
use crate::plan::{Plan, PlannedPage};
use descriptors::{ItemList, write_items};
use md_page::MdPage;
use out_of_memory::Memory;
use page_disk::Page;
use std::alloc::Global;
use volume_model::PlaceList;

/// The page with this sequence in the chain of `head`, with these items and this next place.
fn page_of(head: u32, sequence: u32, items: &ItemList, next: u32) -> Page
    requires room { spelled_size items.now ≤ 4072 }
    requires writable { All IsWritable items.now }
    ensures bytes { result ≡ page_written head sequence items.now next }
    ensures planned { IsNthPage head sequence items.now next result }
{
    let mut body = [0; 4072];
    write_items(items, &mut body);
    let mut page = [0; 4096];
    md_page::write(
        &MdPage {
            id: (1 << 32) + u64::from(head),
            sequence,
            body,
            next,
        },
        &mut page,
    );
    page
}

/// The place that follows so many fresh ones.
fn next_place(fresh: &PlaceList, passed: usize) -> u32
    ensures { result ≡ next_in (drop passed fresh.now) }
{
    match fresh.get(passed) {
        Some(place) => *place,
        None => CHAIN_END,
    }
}

/// The pages by which the items are written as the chain of `head`, which goes on at the fresh places: one place less
/// than `chain_len` says. The items are flags, then attributes with at most 4063 bytes of name and value, then at most
/// one item of runs. An attribute that doesn't fit what is left of a page begins a new one; runs fill the page from 13
/// bytes on. Each page has its sum. `Memory` comes where memory ran out, and for no other cause.
pub fn plan_chain(
    alloc: Global,
    items: &ItemList,
    head: u32,
    fresh: &PlaceList,
) -> Result<Plan, Memory>
    requires plannable { ArePlannable items.now }
    requires few { AreFew items.now }
    requires places { length fresh.now + 1 ≡ length (parts_said items.now) }

    // The plan is this list, with one page for each place.
    ensures exact { IfOk result (λ plan. plan ≡ chain_pages items.now head fresh.now) }
    ensures count { IfOk result (λ plan. length plan ≡ length (head ∷ fresh.now)) }

    // The ith page is sound, and is read as the ith of the chain, with its items and the place that follows.
    ensures pages { IfOk result (λ plan. (i : ℕ) (d : APlannedPage) → i < length plan
        → IsPageOfPlan head (head ∷ fresh.now) (parts_said items.now) i (slice_index_or plan i d)) }

    // At distinct places of the metadata region the pages are a chain of the head.
    ensures chain { IfOk result (λ plan. (look : Look) (md_len : ℕ) → md_len < 2 ^ 32
        → IsDistinct nat_eq (head ∷ fresh.now) → All (λ p. p < md_len) (head ∷ fresh.now) →
        All (λ p. look p.place ≡ p.page) plan → Chain look md_len head (written_items items.now) (head ∷ fresh.now)) }
{
    let parts = parts_of(alloc, items)?;
    let mut plan = Plan::new(alloc);
    let mut place = head;
    for (n, part) in parts.as_slice().iter().enumerate() {
        let next = next_place(fresh, n);
        let page = page_of(head, n as u32, part, next);
        plan.push(PlannedPage { place, page })?;
        place = next;
    }
    Ok(plan)
}
