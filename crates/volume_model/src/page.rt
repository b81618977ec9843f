//! The bytes of a page.

ghost use Rattle.std.specs.Prelude.{◌≡◌};
ghost use Rattle.volume_model.specs.Volumes as v;

use crate::command::PageWord;

fn fill_page(word: u64) -> [u8; 4096]
    ensures { result ≡ v.fill_page word }
{
    let bytes = word.to_le_bytes();
    let mut page = [0; 4096];
    for (at, byte) in page.iter_mut().enumerate() {
        *byte = bytes[at % 8];
    }
    page
}

/// The bytes of a page that is written.
pub fn page_of(word: &PageWord) -> [u8; 4096]
    ensures { result ≡ v.page_of word.now }
{
    match word {
        PageWord::Fill(word) => fill_page(*word),
        PageWord::Full(page) => **page,
    }
}
