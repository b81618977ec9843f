//! A new store is written.

ghost use Rattle.std.specs.Prelude.{◌≡◌, ◌<◌, ◌+◌, IfOk, IfErr, IsTrue, OnOk};
ghost use Rattle.std.specs.Option.{option_copied};
ghost use Rattle.page_disk.specs.Disk.{HasCause, Only};
ghost use Rattle.super_block.specs.Faults.{IsFaultless};
ghost use Rattle.super_block.specs.Layout.{IsPlanned};
ghost use Rattle.super_block.specs.Page.{super_bytes};
ghost use Rattle.page_runs.specs.Writing.{IsBetween, SameBut, WritesOnly};
ghost use Rattle.store_format.specs.NewStore.{first_masks, first_super, md_end_of, HasMetadata, HasNewRegions};
ghost use Rattle.store_format.specs.NewStore.{IsCause, IsNewStore, IsReadAsPlanned, LoadsAsPlanned, Writes};
ghost use Rattle.store_format.specs.SuperBlob.{super_blob_page_of as page_said};

use crate::fault::FormatFault;
use crate::super_blob::{StoreName, page_of};
use out_of_memory::Memory;
use page_disk::{DiskFault, Page, PageDisk, WriteKind, replace_page};
use page_runs::{Content, write_pages};
use std::alloc::Global;
use store_model::scans;
use super_block::{Layout, Masks, Super, layouts_are_placed, write_super};
use unclean_load::clean_stores_are_quick;

/// The masks of a new store, which may have a super blob.
fn masks_of(alloc: Global, layout: &Layout, super_blob: Option<Page>) -> Result<Masks, Memory>
    requires planned { IsPlanned layout.now }
    requires some_page { 0 < layout.now.md_pages }
    ensures { IfOk result (λ masks. masks ≡ first_masks layout.now super_blob) }
{
    let mut masks = Masks::new(alloc, layout)?;
    if super_blob.is_some() {
        masks.pages.set(0);
        masks.blobs.set(0);
    }
    Ok(masks)
}

/// Writes zeros to all metadata pages, and then the page of the super blob, if there is one.
fn write_metadata<D: PageDisk>(
    disk: &mut D,
    layout: &Layout,
    super_blob: Option<Page>,
) -> Result<(), DiskFault>
    requires planned { IsPlanned layout.now }
    requires some_page { 0 < layout.now.md_pages }
    requires device { D.pages disk.old ≡ layout.now.device_pages }
    ensures md { IsTrue D.tells → OnOk result (HasMetadata layout.now super_blob (D.now disk.new)) }
    ensures only { let end = layout.now.md_start + layout.now.md_pages in
        WritesOnly D.PageDisk (IsBetween layout.now.md_start end) disk.old disk.new }
    ensures faults { HasCause (D.write_faults disk.old) (D.write_faults disk.new) result }
{
    layouts_are_placed();
    write_pages(disk, layout.md_start, layout.md_pages, &Content::Zeros)?;
    match super_blob {
        Some(page) => disk.write(u64::from(layout.md_start), &page, WriteKind::Whole),
        None => Ok(()),
    }
}

/// Writes the metadata pages, and then the masks.
fn write_regions<D: PageDisk>(
    disk: &mut D,
    layout: &Layout,
    masks: &Masks,
    super_blob: Option<Page>,
) -> Result<(), DiskFault>
    requires planned { IsPlanned layout.now }
    requires some_page { 0 < layout.now.md_pages }
    requires masks { masks.now ≡ first_masks layout.now super_blob }
    requires device { D.pages disk.old ≡ layout.now.device_pages }
    ensures regions { IsTrue D.tells → OnOk result (HasNewRegions layout.now super_blob (D.now disk.new)) }
    ensures only { WritesOnly D.PageDisk (IsBetween 1 (md_end_of layout.now)) disk.old disk.new }
    ensures faults { HasCause (D.write_faults disk.old) (D.write_faults disk.new) result }
{
    layouts_are_placed();
    let pages = Content::Mask {
        kind: 0,
        bits: &masks.pages,
    };
    let clusters = Content::Mask {
        kind: 1,
        bits: &masks.clusters,
    };
    let blobs = Content::Mask {
        kind: 2,
        bits: &masks.blobs,
    };
    write_metadata(disk, layout, super_blob)?;
    write_pages(disk, layout.page_mask_start, layout.page_mask_len, &pages)?;
    write_pages(
        disk,
        layout.cluster_mask_start,
        layout.cluster_mask_len,
        &clusters,
    )?;
    write_pages(disk, layout.blob_mask_start, layout.blob_mask_len, &blobs)?;
    Ok(())
}

/// The super block of a new store, which may have a super blob.
fn super_block_of(layout: &Layout, super_blob: Option<Page>) -> Super
    requires { IsPlanned layout.now }
    ensures value { result ≡ first_super layout.now super_blob }
    ensures faultless { IsFaultless result }
{
    match super_blob {
        Some(_) => layout.new_super(1 << 32, *b"LVOLSTORE\0\0\0\0\0\0\0"),
        None => layout.new_super(u64::MAX, [0; 16]),
    }
}

/// The page of a new store's super block.
fn super_page(layout: &Layout, super_blob: Option<Page>) -> Page
    requires { IsPlanned layout.now }
    ensures bytes { result ≡ super_bytes (first_super layout.now super_blob) }
    ensures read { IsReadAsPlanned layout.now super_blob }
{
    let mut page = [0; 4096];
    write_super(&super_block_of(layout, super_blob), &mut page);
    page
}

/// Writes the regions of a new store with these masks and this page of its super blob, and once these are on the disk
/// the super block.
fn write_new<D: PageDisk>(
    disk: &mut D,
    layout: &Layout,
    masks: &Masks,
    super_blob: Option<Page>,
) -> Result<(), DiskFault>
    requires planned { IsPlanned layout.now }
    requires some_page { 0 < layout.now.md_pages }
    requires masks { masks.now ≡ first_masks layout.now super_blob }
    requires device { D.pages disk.old ≡ layout.now.device_pages }
    ensures store { IsTrue D.tells → OnOk result (IsNewStore layout.now super_blob (D.now disk.new)) }
    ensures read { OnOk result (IsReadAsPlanned layout.now super_blob) }
    ensures behind { IsTrue D.tells
        → OnOk result (SameBut (IsBetween 0 (md_end_of layout.now)) (D.now disk.old) (D.now disk.new)) }
    ensures one_image { IsTrue D.tells → OnOk result (Only (D.now disk.new) (D.images disk.new)) }
    ensures writes { Writes D.PageDisk layout.now super_blob disk.old disk.new }
    ensures faults { HasCause (D.write_faults disk.old) (D.write_faults disk.new) result }
{
    layouts_are_placed();
    write_regions(disk, layout, masks, super_blob)?;
    replace_page(disk, 0, &super_page(layout, super_blob))?;
    Ok(())
}

/// Writes a new store with no volume, which is a logical volume store if it is given a name: zeros to all metadata
/// pages, the page of its super blob, then the masks, and once these are on the disk the super block.
pub fn write_store<D: PageDisk>(
    alloc: Global,
    disk: &mut D,
    layout: &Layout,
    named: Option<&StoreName>,
) -> Result<(), FormatFault>
    requires planned { IsPlanned layout.now }
    requires some_page { 0 < layout.now.md_pages }
    requires device { D.pages disk.old ≡ layout.now.device_pages }
    ensures store { let super_blob = page_said (option_copied named.entry) in
        IsTrue D.tells → OnOk result (IsNewStore layout.now super_blob (D.now disk.new)) }
    ensures loads { IsTrue D.tells
        → OnOk result (LoadsAsPlanned layout.now (option_copied named.entry) (D.now disk.new)) }
    ensures behind { IsTrue D.tells
        → OnOk result (SameBut (IsBetween 0 (md_end_of layout.now)) (D.now disk.old) (D.now disk.new)) }
    ensures one_image { IsTrue D.tells → OnOk result (Only (D.now disk.new) (D.images disk.new)) }
    ensures writes { Writes D.PageDisk layout.now (page_said (option_copied named.entry)) disk.old disk.new }
    ensures cause { IfErr result (IsCause D.PageDisk disk.old disk.new) }
{
    layouts_are_placed();
    scans();
    clean_stores_are_quick();
    let super_blob = page_of(alloc, named)?;
    let masks = masks_of(alloc, layout, super_blob)?;
    write_new(disk, layout, &masks, super_blob)?;
    Ok(())
}
