//! The page of the super block, as bytes and as its fields.

ghost use Rattle.std.specs.Prelude.{◌≡◌, ◌<◌, ◌^◌, ℕ, List, IsTrue, IfOk, IfErr, Some, None, count_by, take};
ghost use Rattle.page_fields.specs.Tiling.{covers};
ghost use Rattle.crc32c.specs.Crc.{crc32c_of, is_sound};
ghost use Rattle.super_block.specs.Page.{FitsSuper, super_bytes, super_front, super_of};
ghost use Rattle.super_block.specs.Faults.{IsFaultless, super_fault};
ghost use Rattle.super_block.specs.declared.page.TheConstants.{ROWS};

use crate::fault::SuperFault;
use crc32c::page_ok;
use page_fields::{Field, bytes_of_u32, fields};

type Page = [u8; 4096];

/// The super block, one field for each row of its page's table. Starts and lengths are in pages of 4096 bytes, from the
/// beginning of the device.
#[derive(Drop)]
pub struct Super {
    /// The device's pages, as `read_super` was given them. The page doesn't hold this number.
    pub device_pages: u64,
    /// `SPDKBLOB`.
    pub signature: [u8; 8],
    /// The version of the format, 3.
    pub version: u32,
    /// The bytes of the super block, 4096. It isn't tested, and is kept on rewriting.
    pub length: u32,
    /// 1 where the store was unloaded; any other number makes the loader read every metadata page.
    pub clean: u32,
    /// The id of the super blob.
    pub super_blob: u64,
    /// The bytes of a cluster.
    pub cluster_size: u32,
    /// The mask of used metadata pages.
    pub used_page_mask_start: u32,
    pub used_page_mask_len: u32,
    /// The mask of used clusters.
    pub used_cluster_mask_start: u32,
    pub used_cluster_mask_len: u32,
    /// The metadata region.
    pub md_start: u32,
    pub md_len: u32,
    /// What kind of store it is: zeros, or `LVOLSTORE` and seven NULs.
    pub bstype: [u8; 16],
    /// The mask of heads.
    pub used_blobid_mask_start: u32,
    pub used_blobid_mask_len: u32,
    /// The bytes of the store; 0 stands for those of the device.
    pub size: u64,
    /// 4096. It isn't tested, and is kept on rewriting.
    pub io_unit_size: u32,
    /// The bytes of a metadata page; 0 stands for 4096.
    pub md_page_size: u32,
    /// Ignored on reading, and kept on rewriting.
    pub rest: [u8; 3996],
    /// The checksum that was read. Writing puts the sum in its place, whatever this field holds.
    pub crc: u32,
}

macro_rules! table {
    ($($op:tt)*) => {
        fields!($($op)*;
            signature bytes 0 8,
            version u32 8 4,
            length u32 12 4,
            clean u32 16 4,
            super_blob u64 20 8,
            cluster_size u32 28 4,
            used_page_mask_start u32 32 4,
            used_page_mask_len u32 36 4,
            used_cluster_mask_start u32 40 4,
            used_cluster_mask_len u32 44 4,
            md_start u32 48 4,
            md_len u32 52 4,
            bstype bytes 56 16,
            used_blobid_mask_start u32 72 4,
            used_blobid_mask_len u32 76 4,
            size u64 80 8,
            io_unit_size u32 88 4,
            md_page_size u32 92 4,
            rest bytes 96 3996,
            crc sum 4092 4
        )
    };
}

/// The places and lengths of the table's rows.
pub const ROWS: [(usize, usize); 20] = table!(rows);

/// The law of the table: each byte of a page is in exactly one row.
pub fn rows_tile()
    ensures { (b : ℕ) → b < 4096 → count_by (covers b) ROWS ≡ 1 }
{}

/// Reads the super block of a device with this many pages from its first page. Where a test fails, the fault is that of
/// the first one that does.
pub fn read_super(page: &Page, device_pages: u64) -> Result<Super, SuperFault>
    ensures found { IfOk result (λ s. s ≡ super_of page.now device_pages) }
    ensures no_fault { IfOk result (λ _. super_fault page.now device_pages ≡ None) }
    ensures faultless { IfOk result IsFaultless }
    ensures fault { IfErr result (λ e. super_fault page.now device_pages ≡ Some e) }
{
    let sup = fields_of(page, device_pages);
    sup.check(page_ok(page))?;
    Ok(sup)
}

/// The value of each row, and the number of the device's pages.
#[tactic(auto, unfolding(crate::specs::Page::super_of))]
fn fields_of(page: &Page, device_pages: u64) -> Super
    ensures { result ≡ super_of page.now device_pages }
{
    table!(read Super page, device_pages)
}

/// Writes the fields into a page of 4096 bytes, with the checksum at its end.
pub fn write_super(sup: &Super, into: &mut Page)
    ensures bytes { into.new ≡ super_bytes sup.now }

    // What is written is read as the same value, but for the checksum.
    ensures sound { IsTrue (is_sound into.new) }
    ensures again { super_of into.new sup.now.device_pages ≡ record sup.now { crc = crc32c_of (super_front sup.now) } }
    ensures no_fault { IsFaultless sup.now → super_fault into.new sup.now.device_pages ≡ None }
{
    put_page(sup, into);
}

/// Writes the rows and their sum.
#[tactic(auto, unfolding(crate::specs::Page::super_bytes))]
fn put_page(sup: &Super, into: &mut Page)
    ensures bytes { into.new ≡ super_bytes sup.now }
    ensures fits { FitsSuper sup.now }
    ensures sum { crc32c_of (super_front sup.now) < 2 ^ 32 }
{
    put_front(sup, into);
    let sum = crc32c::sum(&into[..4092]);
    Field::<4092, 4>::set(into, &bytes_of_u32(sum));
}

/// Writes the rows without their sum.
#[tactic(auto, unfolding(crate::specs::Page::super_front))]
fn put_front(sup: &Super, into: &mut Page)
    ensures front { take 4092 into.new ≡ super_front sup.now }
    ensures fits { FitsSuper sup.now }
{
    first_numbers_fit(sup);
    last_numbers_fit(sup);
    table!(write sup into);
}

/// The first eight numbers fit their types. A function's proof knows that of eight numbers that it reads behind a
/// reference.
fn first_numbers_fit(sup: &Super)
    ensures version_row { sup.now.version < 2 ^ 32 }
    ensures length_row { sup.now.length < 2 ^ 32 }
    ensures clean_row { sup.now.clean < 2 ^ 32 }
    ensures super_blob_row { sup.now.super_blob < 2 ^ 64 }
    ensures cluster_size_row { sup.now.cluster_size < 2 ^ 32 }
    ensures used_page_mask_start_row { sup.now.used_page_mask_start < 2 ^ 32 }
    ensures used_page_mask_len_row { sup.now.used_page_mask_len < 2 ^ 32 }
    ensures used_cluster_mask_start_row { sup.now.used_cluster_mask_start < 2 ^ 32 }
{
    let _version = sup.version;
    let _length = sup.length;
    let _clean = sup.clean;
    let _super_blob = sup.super_blob;
    let _cluster_size = sup.cluster_size;
    let _used_page_mask_start = sup.used_page_mask_start;
    let _used_page_mask_len = sup.used_page_mask_len;
    let _used_cluster_mask_start = sup.used_cluster_mask_start;
}

/// The last eight numbers fit their types.
fn last_numbers_fit(sup: &Super)
    ensures used_cluster_mask_len_row { sup.now.used_cluster_mask_len < 2 ^ 32 }
    ensures md_start_row { sup.now.md_start < 2 ^ 32 }
    ensures md_len_row { sup.now.md_len < 2 ^ 32 }
    ensures used_blobid_mask_start_row { sup.now.used_blobid_mask_start < 2 ^ 32 }
    ensures used_blobid_mask_len_row { sup.now.used_blobid_mask_len < 2 ^ 32 }
    ensures size_row { sup.now.size < 2 ^ 64 }
    ensures io_unit_size_row { sup.now.io_unit_size < 2 ^ 32 }
    ensures md_page_size_row { sup.now.md_page_size < 2 ^ 32 }
{
    let _used_cluster_mask_len = sup.used_cluster_mask_len;
    let _md_start = sup.md_start;
    let _md_len = sup.md_len;
    let _used_blobid_mask_start = sup.used_blobid_mask_start;
    let _used_blobid_mask_len = sup.used_blobid_mask_len;
    let _size = sup.size;
    let _io_unit_size = sup.io_unit_size;
    let _md_page_size = sup.md_page_size;
}
