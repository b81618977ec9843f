//! A file in memory that reads as its record says.

ghost use Rattle.std.specs.Prelude.{◌≡◌, ◌+◌, ◌*◌, ◌<◌, ◌≤◌, ℕ, true, IfOk, [], length, get_or};
ghost use Rattle.file_disk.specs.FileCalls.{FileBytes, HasBytes, blank, file_after, with_bytes, with_run};
ghost use Rattle.file_disk.specs.Notes.{calls_noted};

use crate::call_notes::CallNotes;
use crate::page_calls::PageCalls;
use page_disk::{Memory, Page, WriteKind};
use std::alloc::Global;
use std::io::{self, ErrorKind};

/// A file of zeros in memory, which takes so many writes and syncs, and fails each later one.
#[derive(Drop)]
pub struct MemFile {
    bytes: Vec<u8>,
    pages: u32,
    calls_left: u64,
    notes: CallNotes,
    ghost has: { HasBytes bytes.items (file_after blank (calls_noted notes)) },
}

impl MemFile {
    /// The file of so many pages, of which no call is noted.
    pub fn new(alloc: Global, pages: u32, calls: u64) -> Result<MemFile, Memory>
        ensures begun { IfOk result (λ f. ⟦<MemFile as PageCalls>⟧.calls f ≡ []) }
        ensures pages { IfOk result (λ f. ⟦<MemFile as PageCalls>⟧.pages f ≡ pages) }
    {
        let bytes = vec![in alloc; 0; pages as usize * 4096]?;
        Ok(MemFile {
            bytes,
            pages,
            calls_left: calls,
            notes: CallNotes::new(),
        })
    }
}

impl PageCalls for MemFile {
    ghost is_honest = { true };

    ghost opened = { λ _. blank };

    ghost calls = { λ f. calls_noted f.notes };

    ghost pages = { λ f. f.pages };

    fn pages(&self) -> u64 {
        u64::from(self.pages)
    }

    fn read_at(&mut self, into: &mut Page, offset: u64) -> io::Result<usize> {
        let at = offset as usize;
        if self.bytes.len() < 4096 || at > self.bytes.len() - 4096 {
            return Ok(0);
        }
        page_at(&self.bytes, at, into);
        Ok(4096)
    }

    fn write_at(&mut self, from: &[Page], offset: u64, kind: WriteKind) -> io::Result<usize> {
        let at = offset as usize;
        let fits = at <= self.bytes.len() && from.len() <= (self.bytes.len() - at) / 4096;
        if !fits || !takes_call(&mut self.calls_left) {
            self.notes.note_write(from, offset, kind, false);
            return Err(io::Error::from(ErrorKind::Other));
        }
        put_run(&mut self.bytes, at, from);
        self.notes.note_write(from, offset, kind, true);
        Ok(from.len() * 4096)
    }

    fn sync(&mut self) -> io::Result<()> {
        let takes = takes_call(&mut self.calls_left);
        self.notes.note_sync(takes);
        if takes {
            Ok(())
        } else {
            Err(io::Error::from(ErrorKind::Other))
        }
    }
}

/// Whether a file that takes so many calls takes one more.
fn takes_call(left: &mut u64) -> bool {
    let takes = *left > 0;
    *left = left.saturating_sub(1);
    takes
}

/// The page of these bytes from this place on.
fn page_at(bytes: &[u8], at: usize, into: &mut Page)
    requires { at + 4096 ≤ length bytes.now }
    ensures { (i : ℕ) → i < 4096 → get_or into.new i 0 ≡ get_or bytes.now (at + i) 0 }
{
    into.copy_from_slice(&bytes[at..at + 4096]);
}

/// Puts a run of pages among these bytes from this place on.
fn put_run(bytes: &mut [u8], at: usize, pages: &[Page])
    requires { at + length pages.now * 4096 ≤ length bytes.old }
    ensures { (file : FileBytes) → HasBytes bytes.old file → HasBytes bytes.new (with_run file at pages.now) }
{
    let mut place = at;
    for page in pages {
        put_at(bytes, place, page);
        place += 4096;
    }
}

/// Puts a page among these bytes from this place on.
fn put_at(bytes: &mut [u8], at: usize, page: &Page)
    requires { at + 4096 ≤ length bytes.old }
    ensures { (file : FileBytes) → HasBytes bytes.old file → HasBytes bytes.new (with_bytes file at page.now) }
{
    bytes[at..at + 4096].copy_from_slice(page);
}
