//! The masks of the metadata pages that the chains of blobs have, and of their heads.

ghost use Rattle.std.specs.Prelude.{◌≡◌, ◌<◌, ◌↔◌, ℕ, [], true, length, OnOk, IfOk, IfErr, IsSome, option_copied};
ghost use Rattle.std.specs.FinMap as map;
ghost use Rattle.bit_array.specs.Bits.{is_in};
ghost use Rattle.md_chain.specs.Chain.{is_among};
ghost use Rattle.running_store.specs.Recovered.{chains_of};
ghost use Rattle.store_model.specs.Places.{AreDistinct, UsedPages};
ghost use Rattle.unclean_load.specs.Claiming.{AreAdded, ChainsAreApart, AreBelow, AreChains, AreNew, IsInTwo};
ghost use Rattle.unclean_load.specs.Claiming.{IsPageFault};

use crate::fault::LoadFault;
use bit_array::Bits;
use blob_meta::{Chains, Metas};
use md_chain::ChainFault;
use out_of_memory::Memory;
use std::alloc::Global;
use volume_model::PlaceList;

/// Marks the places of a head's chain. One that is marked already is another chain's: on a device that gives each page
/// alike whenever it is read there is none, since the page has the id of one blob.
fn mark_pages(bits: &mut Bits, head: u32, pages: &PlaceList) -> Result<(), LoadFault>
    requires low { AreBelow (length bits.old) pages.now }
    requires differ { AreDistinct pages.now }
    ensures count { length bits.new ≡ length bits.old }
    ensures added { OnOk result (AreAdded bits.old pages.now bits.new) }
    ensures new { OnOk result (AreNew bits.old pages.now) }
    ensures fault { IfErr result
        (λ e. IsPageFault
        (λ at place. (at ≡ head) × (is_among place pages.now ≡ true) × (is_in bits.old place ≡ true)) e) }
{
    for page in pages.as_slice() {
        if bits.get(*page) {
            return Err(LoadFault::Chain {
                head,
                fault: ChainFault::Loop { page: *page },
            });
        }
        bits.set(*page);
    }
    Ok(())
}

/// The chain at a head, where a blob is there.
fn chain_of<'a>(metas: &Metas, chains: &'a Chains, head: u32) -> Option<&'a PlaceList>
    ensures { option_copied result ≡ chains_of (map.get metas.now) (map.get chains.now) head }
{
    match metas.get(head) {
        Some(_) => chains.get(head),
        None => None,
    }
}

/// The metadata pages that the chains of these blobs have. Where the device gave a page of one chain as a page of
/// another too, the later chain has the fault `Loop`.
pub fn used_pages(
    alloc: Global,
    metas: &Metas,
    chains: &Chains,
    md_len: u32,
) -> Result<Bits, LoadFault>
    requires { AreChains md_len (map.get chains.now) }
    ensures used { IfOk result
        (λ bits. UsedPages md_len bits (chains_of (map.get metas.now) (map.get chains.now)) []) }
    ensures apart { OnOk result (ChainsAreApart (chains_of (map.get metas.now) (map.get chains.now))) }
    ensures fault { IfErr result
        (λ e. IsPageFault (IsInTwo (chains_of (map.get metas.now) (map.get chains.now))) e) }
{
    let mut bits = Bits::new(alloc, md_len)?;
    let mut from = 0;
    while let Some(head) = metas.next_below(from, md_len) {
        if let Some(pages) = chain_of(metas, chains, head) {
            mark_pages(&mut bits, head, pages)?;
        }
        from = head + 1;
    }
    Ok(bits)
}

/// The heads of the blobs.
pub fn used_heads(alloc: Global, metas: &Metas, md_len: u32) -> Result<Bits, Memory>
    ensures count { IfOk result (λ bits. length bits ≡ md_len) }
    ensures heads { IfOk result
        (λ bits. (head : ℕ) → head < md_len → (is_in bits head ≡ true) ↔ IsSome (map.get metas.now head)) }
{
    let mut bits = Bits::new(alloc, md_len)?;
    let mut from = 0;
    while let Some(head) = metas.next_below(from, md_len) {
        bits.set(head);
        from = head + 1;
    }
    Ok(bits)
}
