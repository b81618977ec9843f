//! The blob at a place of the metadata region.

ghost use Rattle.std.specs.Prelude.{◌≡◌, ◌==◌, ◌&&◌, ◌<◌, ◌≤◌, ◌+◌, ℕ, List, None, length, IsTrue, OnOk, OnErr};
ghost use Rattle.std.specs.Prelude.{IfOk, IfErr};
ghost use Rattle.std.specs.Option.{option_map_or};
ghost use Rattle.blob_meta.specs.Faults.{meta_fault};
ghost use Rattle.blob_meta.specs.Says.{meta_of};
ghost use Rattle.md_chain.specs.Chain.{blob_id};
ghost use Rattle.md_chain.specs.Reading.{GaveChain, OnlyRead, region_look};
ghost use Rattle.md_page.specs.Page.{id_of, sequence_of};
ghost use Rattle.store_model.specs.Regions.{region_of};
ghost use Rattle.store_model.specs.Scans.{is_head as is_head_said};
ghost use Rattle.super_block.specs.Faults.{IsFaultless};
ghost use Rattle.unclean_load.specs.Heads.{PlacesFit};
ghost use Rattle.unclean_load.specs.Reading.{GaveHead, IsChainFault, IsItemsFault, IsOnlyFault, IsPlaceFault};
ghost use Rattle.unclean_load.specs.Reading.{SaysAt, chain_in};
ghost use Rattle.unclean_load.specs.Reads.{reads_to_test};
ghost use Rattle.unclean_load.specs.declared.fault.LoadFault.TheVariants as fault;
ghost use Rattle.unclean_load.specs.declared.heads.Heads.TheVariants.{ByScan};

use crate::fault::LoadFault;
use bit_array::Bits;
use blob_meta::{Meta, MetaFault, from_items};
use descriptors::ItemList;
use md_chain::{Chain, ChainFault, read_chain};
use page_disk::{Page, PageDisk};
use page_fields::{Field, u32_of, u64_of};
use std::alloc::Global;
use super_block::Super;
use volume_model::PlaceList;

/// A blob as it was read: its metadata, and the places of its chain, the head first.
#[derive(Drop)]
pub struct Blob {
    pub meta: Meta,
    pub pages: PlaceList,
}

/// Which places of the metadata region are heads.
#[derive(Drop)]
pub enum Heads {
    /// Those at whose pages a chain begins.
    ByScan,
    /// Those of a set, whatever their pages are.
    Listed(Bits),
}

/// Whether a page, sound or not, has sequence 0 and the id of its place.
#[tactic(auto, unfolding(md_page::specs::Page::id_of, md_page::specs::Page::sequence_of))]
fn says_head(place: u32, page: &Page) -> bool
    ensures { result ≡ (sequence_of page.now == 0 && id_of page.now == blob_id place) }
{
    let id = u64_of(Field::<0, 8>::get(page));
    let sequence = u32_of(Field::<8, 4>::get(page));
    sequence == 0 && id == (1 << 32) + u64::from(place)
}

/// Whether a page is a head at its place: sound, of sequence 0, with the id of the place. Most pages of a region say
/// that they are none, and only the others are summed.
fn is_head(place: u32, page: &Page) -> bool
    ensures { result ≡ is_head_said place page.now }
{
    says_head(place, page) && md_page::read(page).is_ok()
}

/// Whether the page at a place of the metadata region is a head.
fn is_head_on<D: PageDisk>(disk: &mut D, sup: &Super, place: u32) -> Result<bool, LoadFault>
    requires low { place < sup.now.md_len }
    requires inside { sup.now.md_start + sup.now.md_len ≤ D.pages disk.old }
    ensures found { IfOk result (λ is. GaveHead D.PageDisk sup.now disk.old ByScan place is) }
    ensures fault { IfErr result (λ e. e ≡ fault.ReadFault) }
    ensures counted { IfErr result (λ e. IsOnlyFault (D.read_faults disk.old) (D.read_faults disk.new) e) }
    ensures quiet { OnOk result (D.read_faults disk.new ≡ D.read_faults disk.old) }
    ensures reads { D.reads disk.new ≤ D.reads disk.old + 1 }
    ensures same { OnlyRead D.PageDisk disk.old disk.new }
{
    let mut page = [0; 4096];
    let at = u64::from(sup.md_start) + u64::from(place);
    if disk.read(at, &mut page).is_err() {
        return Err(LoadFault::ReadFault);
    }
    Ok(is_head(place, &page))
}

/// Whether a place of the metadata region is one of these heads.
fn has_head<D: PageDisk>(
    disk: &mut D,
    sup: &Super,
    heads: &Heads,
    place: u32,
) -> Result<bool, LoadFault>
    requires fits { PlacesFit sup.now.md_len heads.now }
    requires low { place < sup.now.md_len }
    requires inside { sup.now.md_start + sup.now.md_len ≤ D.pages disk.old }
    ensures found { IfOk result (λ is. GaveHead D.PageDisk sup.now disk.old heads.now place is) }
    ensures fault { IfErr result (λ e. e ≡ fault.ReadFault) }
    ensures counted { IfErr result (λ e. IsOnlyFault (D.read_faults disk.old) (D.read_faults disk.new) e) }
    ensures quiet { OnOk result (D.read_faults disk.new ≡ D.read_faults disk.old) }
    ensures reads { D.reads disk.new ≤ D.reads disk.old + reads_to_test heads.now 1 }
    ensures same { OnlyRead D.PageDisk disk.old disk.new }
{
    match heads {
        Heads::ByScan => is_head_on(disk, sup, place),
        Heads::Listed(places) => Ok(places.get(place)),
    }
}

/// The chain at a head.
fn chain_at<D: PageDisk>(
    alloc: Global,
    disk: &mut D,
    sup: &Super,
    head: u32,
) -> Result<Chain, LoadFault>
    requires faultless { IsFaultless sup.now }
    requires device { sup.now.device_pages ≡ D.pages disk.old }
    ensures found { IfOk result (λ c. GaveChain D.PageDisk sup.now disk.old head c.pages c.items) }
    ensures fault { IsTrue D.tells
        → IfErr result (λ e. IsChainFault (region_look sup.now (D.now disk.old)) (region_of sup.now) head e) }
    ensures counted { IfErr result (λ e. IsOnlyFault (D.read_faults disk.old) (D.read_faults disk.new) e) }
    ensures quiet { OnOk result (D.read_faults disk.new ≡ D.read_faults disk.old) }
    ensures reads { IfOk result (λ c. D.reads disk.new ≤ D.reads disk.old + length c.pages) }
    ensures few { D.reads disk.new ≤ D.reads disk.old + sup.now.md_len }
    ensures same { OnlyRead D.PageDisk disk.old disk.new }
{
    match read_chain(alloc, disk, sup, head) {
        Ok(chain) => Ok(chain),
        Err(ChainFault::ReadFault) => Err(LoadFault::ReadFault),
        Err(ChainFault::Memory) => Err(LoadFault::Memory),
        Err(fault) => Err(LoadFault::Chain { head, fault }),
    }
}

/// The metadata that the items of the chain at a head say.
fn meta_at(alloc: Global, sup: &Super, head: u32, items: &ItemList) -> Result<Meta, LoadFault>
    requires { IsFaultless sup.now }
    ensures found { IfOk result (λ m. m ≡ meta_of head items.now) }
    ensures no_fault { OnOk result
        (meta_fault (region_of sup.now).fixed (region_of sup.now).clusters (meta_of head items.now) ≡ None) }
    ensures fault { IfErr result (λ e. IsItemsFault (region_of sup.now) head items.now e) }
{
    match from_items(alloc, head, items, sup) {
        Ok(meta) => Ok(meta),
        Err(MetaFault::Memory) => Err(LoadFault::Memory),
        Err(fault) => Err(LoadFault::Meta { head, fault }),
    }
}

/// The blob at a place of the metadata region; `None` exactly where the place is none of these heads.
pub fn blob_at<D: PageDisk>(
    alloc: Global,
    disk: &mut D,
    sup: &Super,
    heads: &Heads,
    place: u32,
) -> Result<Option<Blob>, LoadFault>
    requires faultless { IsFaultless sup.now }
    requires device { sup.now.device_pages ≡ D.pages disk.old }
    requires fits { PlacesFit sup.now.md_len heads.now }
    requires low { place < sup.now.md_len }
    requires inside { sup.now.md_start + sup.now.md_len ≤ D.pages disk.old }
    ensures found { IfOk result (λ b. SaysAt D.PageDisk sup.now disk.old heads.now place b) }
    ensures fault { IsTrue D.tells → IfErr result
        (λ e. IsPlaceFault (region_look sup.now (D.now disk.old)) (region_of sup.now) heads.now place e) }
    ensures counted { IfErr result (λ e. IsOnlyFault (D.read_faults disk.old) (D.read_faults disk.new) e) }
    ensures quiet { OnOk result (D.read_faults disk.new ≡ D.read_faults disk.old) }
    ensures reads { IfOk result (λ b. D.reads disk.new
        ≤ D.reads disk.old + reads_to_test heads.now 1 + option_map_or (λ (p : List ℕ). length p) (chain_in b) 0) }
    ensures few { OnErr result (D.reads disk.new ≤ D.reads disk.old + reads_to_test heads.now 1 + sup.now.md_len) }
    ensures same { OnlyRead D.PageDisk disk.old disk.new }
{
    if !has_head(disk, sup, heads, place)? {
        return Ok(None);
    }
    let chain = chain_at(alloc, disk, sup, place)?;
    let meta = meta_at(alloc, sup, place, &chain.items)?;
    Ok(Some(Blob {
        meta,
        pages: chain.pages,
    }))
}
