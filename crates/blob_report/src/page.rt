//! The text of a page that was read.

ghost use Rattle.std.specs.Prelude.{◌≡◌, ◌++◌, OnOk, OnErr};
ghost use Rattle.std.specs.Str.{bytes_eq};
ghost use Rattle.volume_model.specs.Volumes.{fill_page};
ghost use Rattle.blob_report.specs.PageText.{first_word as word_said, page_text};

use crate::pieces::Piece::{Hex, Words};
use crate::pieces::push_pieces;
use crc32c::sum;
use out_of_memory::Memory;

/// The little-endian word of a page's first eight bytes.
fn first_word(page: &[u8; 4096]) -> u64
    ensures { result ≡ word_said page.now }
{
    u64::from_le_bytes([
        page[0], page[1], page[2], page[3], page[4], page[5], page[6], page[7],
    ])
}

/// Whether a page is its first word again and again: each byte is the one eight places before it.
fn repeats_word(page: &[u8; 4096]) -> bool
    ensures { result ≡ bytes_eq page.now (fill_page (word_said page.now)) }
{
    let (_, behind) = page.split_at(8);
    let (before, _) = page.split_at(4088);
    behind == before
}

/// Appends the word that a page is filled with, if it is one word repeated, and else the checksum of its bytes. After
/// `Memory` nothing is appended.
pub fn push_page(page: &[u8; 4096], into: &mut Vec<u8>) -> Result<(), Memory>
    ensures ok { OnOk result (into.new.items ≡ into.old.items ++ page_text page.now) }
    ensures memory { OnErr result (into.new.items ≡ into.old.items) }
{
    if repeats_word(page) {
        let word = first_word(page);
        return push_pieces(&[Words(b"page fill "), Hex(&word.to_be_bytes())], into);
    }
    push_pieces(&[Words(b"page crc "), Hex(&sum(page).to_be_bytes())], into)
}
