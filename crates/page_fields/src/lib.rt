//! Fields of a page by place and length, both fixed at compile time.
//!
//! A page of the store is a table of rows, each with a place and a length. A crate writes its table once, by the macro
//! `fields!`, and makes from it the reader, the writer and the proof that the rows tile the page.
#![tactic(auto)]

mod numbers;
mod table;

ghost use Rattle.std.specs.Prelude.{◌≡◌, ◌+◌, ◌<◌, ◌≤◌, ◌++◌, ℕ, List, IsTrue, take, drop, length, count_by};
ghost use Rattle.page_fields.specs.Tiling.{covers, tiles};
ghost use Rattle.page_fields.specs.Fields.{field};

pub use numbers::{bytes_of_u32, bytes_of_u64, u32_of, u64_of};

type Page = [u8; 4096];

/// The `LEN` bytes from place `AT` of a page of 4096 bytes.
pub struct Field<const AT: usize, const LEN: usize>;

impl<const AT: usize, const LEN: usize> Field<AT, LEN> {
    /// The bytes of the field.
    #[tactic(auto, unfolding(crate::specs::Fields::field))]
    pub fn get(page: &Page) -> &[u8]
        requires { AT + LEN ≤ 4096 }
        ensures value { result.now ≡ field AT LEN page.now }
        ensures len { length result.now ≡ LEN }
    {
        let end = AT + LEN;
        &page[AT..end]
    }

    /// Writes the bytes of the field, and changes no other byte of the page.
    pub fn set(page: &mut Page, value: &[u8; LEN])
        requires { AT + LEN ≤ 4096 }
        ensures value { page.new ≡ take AT page.old ++ value.now ++ drop (AT + LEN) page.old }
        // The bytes up to the field's end, for a table whose rows are written in order.
        ensures front { take (AT + LEN) page.new ≡ take AT page.old ++ value.now }
    {
        let end = AT + LEN;
        page[AT..end].copy_from_slice(value);
    }
}

/// The law of tiling: where a table's rows follow one another from byte 0 to byte 4096, which a test decides that the
/// check computes, each byte of a page is in exactly one row.
pub fn tiling()
    ensures { (rows : List (ℕ × ℕ)) (b : ℕ) → IsTrue (tiles 0 rows 4096) → b < 4096 → count_by (covers b) rows ≡ 1 }
{}
