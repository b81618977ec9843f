//! An open file, with a record of its calls.

ghost use Rattle.std.specs.Prelude.{◌≡◌, ◌<◌, ◌≤◌, ◌^◌, false, IfOk, [], length};
ghost use Rattle.file_disk.specs.Notes.{calls_noted};

use crate::call_notes::CallNotes;
use crate::failure::{FailedCall, FileFailure, told_behind, why_not_whole};
use crate::page_calls::PageCalls;
use page_disk::{Page, WriteKind};
use std::fs::File;
use std::io::{self, ErrorKind, Seek, SeekFrom};
use std::os::unix::fs::FileExt;

/// A file or a block device. No contract says what its bytes are, so of these its type tells nothing.
///
/// A page is read or written by one call, since the rest of a page that a second call writes could be lost where the
/// power fails between the two; of a run of pages those that weren't taken may go by another. A call that a signal cut
/// off has moved nothing, so it is made again.
#[derive(Drop)]
pub struct PageFile {
    file: File,
    pages: u64,
    notes: CallNotes,
    failure: Option<FileFailure>,
    ghost few: { pages < 2 ^ 52 },
}

impl PageFile {
    /// The file, of which no call is noted. `Err` says why its length isn't known.
    pub fn new(mut file: File) -> io::Result<PageFile>
        ensures { IfOk result (λ f. calls_noted f.notes ≡ []) }
    {
        // The end, since the metadata of a block device has no length.
        let pages = file.seek(SeekFrom::End(0))? / 4096;
        Ok(PageFile {
            file,
            pages,
            notes: CallNotes::new(),
            failure: None,
        })
    }

    /// The first write or sync that failed; else the last read that did, if one did.
    pub fn failure(&self) -> Option<FileFailure> {
        self.failure
    }
}

impl PageCalls for PageFile {
    ghost is_honest = { false };

    ghost opened = { λ _ _. 0 };

    ghost calls = { λ f. calls_noted f.notes };

    ghost pages = { λ f. f.pages };

    fn pages(&self) -> u64 {
        self.pages
    }

    fn read_at(&mut self, into: &mut Page, offset: u64) -> io::Result<usize> {
        let answer = read_some_at(&self.file, into, offset);
        let why = why_not_whole(&answer, size_of::<Page>(), ErrorKind::UnexpectedEof);
        self.failure = told_behind(self.failure, FailedCall::ReadPage(offset / 4096), why);
        answer
    }

    fn write_at(&mut self, from: &[Page], offset: u64, kind: WriteKind) -> io::Result<usize> {
        let bytes = from.as_flattened();
        let mut taken = 0;
        let answer = write_run_at(&self.file, bytes, offset, &mut taken);
        let why = why_not_whole(&answer, bytes.len(), ErrorKind::WriteZero);
        let page = offset.saturating_add(taken as u64) / 4096;
        self.failure = told_behind(self.failure, FailedCall::WritePage(page), why);
        self.notes.note_write(
            from,
            offset,
            kind,
            matches!(answer, Ok(count) if count == bytes.len()),
        );
        answer
    }

    fn sync(&mut self) -> io::Result<()> {
        let answer = self.file.sync_all();
        self.failure = told_behind(self.failure, FailedCall::Sync, answer.err());
        self.notes.note_sync(answer.is_ok());
        answer
    }
}

/// Reads again where a signal cut the read off.
fn read_some_at(file: &File, into: &mut Page, offset: u64) -> io::Result<usize>
    ensures { IfOk result (λ count. count ≤ 4096) }
{
    for _ in 0..u64::MAX {
        match file.read_at(into, offset) {
            Err(error) if error.kind() == ErrorKind::Interrupted => {}
            answer => return answer,
        }
    }
    Err(io::Error::from(ErrorKind::Interrupted))
}

/// Writes pages, as many as it can: where the file took whole ones alone, the others are written by a call of their own,
/// which may tell why. `taken` is how many bytes of whole pages it took.
fn write_run_at(file: &File, from: &[u8], offset: u64, taken: &mut usize) -> io::Result<usize> {
    *taken = 0;
    while *taken < from.len() {
        let at = offset.saturating_add(*taken as u64);
        let count = write_some_at(file, &from[*taken..], at)?;
        let part = count % 4096;
        *taken += count - part;
        if count == 0 || part != 0 {
            return Ok(*taken + part);
        }
    }
    Ok(*taken)
}

/// Writes again where a signal cut the write off.
fn write_some_at(file: &File, from: &[u8], offset: u64) -> io::Result<usize>
    ensures { IfOk result (λ count. count ≤ length from.now) }
{
    for _ in 0..u64::MAX {
        match file.write_at(from, offset) {
            Err(error) if error.kind() == ErrorKind::Interrupted => {}
            answer => return answer,
        }
    }
    Err(io::Error::from(ErrorKind::Interrupted))
}
