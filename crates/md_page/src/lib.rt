//! One page of a blob's metadata, as bytes and as its fields.
#![tactic(auto)]

ghost use Rattle.std.specs.Prelude.{◌≡◌, ◌<◌, ◌^◌, ℕ, List, IsTrue, count_by, IfOk, is_ok, take};
ghost use Rattle.page_fields.specs.Tiling.{covers};
ghost use Rattle.crc32c.specs.Crc.{crc32c_of, is_sound};
ghost use Rattle.md_page.specs.Page.{IsMdPage, FitsMdPage, page_bytes, page_front};
ghost use Rattle.md_page.specs.declared.TheConstants.{ROWS};

use crc32c::page_ok;
use page_fields::{Field, bytes_of_u32, fields};
use thiserror::Error;

type Page = [u8; 4096];

/// The fields of a metadata page. A blob's metadata is a chain of such pages.
#[derive(Drop)]
pub struct MdPage {
    /// The id of the blob: 2^32 plus the place of the chain's first page.
    pub id: u64,
    /// The page's place in the chain, from 0.
    pub sequence: u32,
    /// The descriptors.
    pub body: [u8; 4072],
    /// The place of the chain's next page in the metadata region; 0xFFFFFFFF ends the chain.
    pub next: u32,
}

/// The last four bytes of the page aren't the CRC-32C of the bytes before them.
#[derive(Clone, Copy, Debug, PartialEq, Eq, Error)]
#[error("the checksum of the metadata page is wrong")]
pub struct Unsound;

macro_rules! table {
    ($($op:tt)*) => {
        fields!($($op)*;
            id u64 0 8,
            sequence u32 8 4,
            reserved zero 12 4,
            body bytes 16 4072,
            next u32 4088 4,
            crc skip 4092 4
        )
    };
}

/// The places and lengths of the table's rows.
pub const ROWS: [(usize, usize); 6] = table!(rows);

/// The law of the table: each byte of a page is in exactly one row.
pub fn rows_tile()
    ensures { (b : ℕ) → b < 4096 → count_by (covers b) ROWS ≡ 1 }
{}

/// The fields of a page of 4096 bytes. The reserved word is ignored. `Unsound` comes exactly where the checksum fails.
pub fn read(page: &Page) -> Result<MdPage, Unsound>
    ensures found { IfOk result (λ m. IsMdPage page.now m) }
    ensures sound { is_ok result ≡ is_sound page.now }
{
    if !page_ok(page) {
        return Err(Unsound);
    }
    Ok(fields_of(page))
}

/// The fields of a page, whatever its sum.
#[tactic(auto, unfolding(crate::specs::Page::id_of, crate::specs::Page::sequence_of, crate::specs::Page::body_of, crate::specs::Page::next_of))]
fn fields_of(page: &Page) -> MdPage
    ensures { IsMdPage page.now result }
{
    table!(read MdPage page)
}

/// Writes the fields into a page of 4096 bytes, with zeros as the reserved word and with the checksum at its end.
pub fn write(md: &MdPage, into: &mut Page)
    ensures bytes { into.new ≡ page_bytes md.now }

    // What is written is read as the same value.
    ensures sound { IsTrue (is_sound into.new) }
    ensures again { IsMdPage into.new md.now }
{
    put_page(md, into);
}

/// Writes the fields and their sum.
#[tactic(auto, unfolding(crate::specs::Page::page_bytes))]
fn put_page(md: &MdPage, into: &mut Page)
    ensures bytes { into.new ≡ page_bytes md.now }
    ensures fits { FitsMdPage md.now }
    ensures sum { crc32c_of (page_front md.now) < 2 ^ 32 }
{
    put_front(md, into);
    let sum = crc32c::sum(&into[..4092]);
    Field::<4092, 4>::set(into, &bytes_of_u32(sum));
}

/// Writes the fields without their sum.
fn put_front(md: &MdPage, into: &mut Page)
    ensures front { take 4092 into.new ≡ page_front md.now }
    ensures fits { FitsMdPage md.now }
{
    table!(write md into);
}
