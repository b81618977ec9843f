//! The three masks of a store are written.

ghost use Rattle.std.specs.Prelude.{◌≡◌, ◌≤◌, ◌+◌, length, OnOk, IsTrue};
ghost use Rattle.bit_array.specs.Mask.{mask_pages};
ghost use Rattle.clean_stop.specs.Masks.{HasMask, HasMasks, IsMaskPage, MasksFit};
ghost use Rattle.page_disk.specs.Disk.{HasCause};
ghost use Rattle.page_runs.specs.Writing.{IsBetween, WritesOnly};
ghost use Rattle.super_block.specs.Faults.{IsFaultless};

use bit_array::{Bits, mask_pages};
use page_disk::{DiskFault, PageDisk};
use page_runs::{Content, write_pages};
use super_block::{Masks, Super, regions_are_placed};

/// The type of the mask of used metadata pages.
const USED_PAGES: u8 = 0;

/// The type of the mask of used clusters.
const USED_CLUSTERS: u8 = 1;

/// The type of the mask of heads.
const HEADS: u8 = 2;

/// Writes the mask of this type that holds the set, from a page on.
fn write_mask<D: PageDisk>(disk: &mut D, start: u32, kind: u8, bits: &Bits) -> Result<(), DiskFault>
    requires { start + mask_pages (length bits.now) ≤ D.pages disk.old }
    ensures mask { IsTrue D.tells → OnOk result (HasMask start kind bits.now (D.now disk.new)) }
    ensures only { WritesOnly D.PageDisk (IsBetween start (start + mask_pages (length bits.now))) disk.old disk.new }
    ensures faults { HasCause (D.write_faults disk.old) (D.write_faults disk.new) result }
    ensures no_fault { OnOk result (D.write_faults disk.new ≡ D.write_faults disk.old) }
{
    let pages = Content::Mask { kind, bits };
    write_pages(disk, start, mask_pages(bits.len()), &pages)
}

/// Writes the masks where the super block places them. Pages of their regions behind them stay.
pub fn write_masks<D: PageDisk>(disk: &mut D, sup: &Super, masks: &Masks) -> Result<(), DiskFault>
    requires faultless { IsFaultless sup.now }
    requires device { sup.now.device_pages ≤ D.pages disk.old }
    requires masks { MasksFit sup.now masks.now }
    ensures masks { IsTrue D.tells → OnOk result (HasMasks sup.now masks.now (D.now disk.new)) }
    ensures only { WritesOnly D.PageDisk (IsMaskPage sup.now) disk.old disk.new }
    ensures faults { HasCause (D.write_faults disk.old) (D.write_faults disk.new) result }
    ensures no_fault { OnOk result (D.write_faults disk.new ≡ D.write_faults disk.old) }
{
    regions_are_placed();
    write_mask(disk, sup.used_page_mask_start, USED_PAGES, &masks.pages)?;
    write_mask(
        disk,
        sup.used_cluster_mask_start,
        USED_CLUSTERS,
        &masks.clusters,
    )?;
    write_mask(disk, sup.used_blobid_mask_start, HEADS, &masks.blobs)?;
    Ok(())
}
