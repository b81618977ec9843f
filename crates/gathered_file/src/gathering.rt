//! The file that gathers.

ghost use Rattle.std.specs.Prelude.{◌≡◌, ◌+◌, ◌*◌, ◌<◌, ◌≤◌, ◌∷◌, [], ℕ, false, true, IfOk, OnOk, IsErr, IsOk};
ghost use Rattle.std.specs.Prelude.{IsTrue, get_or, is_err, is_ok, length};
ghost use Rattle.file_disk.specs.FileCalls.{DidSync, DidWrite, NoneFailed, file_after, may_leave, moved_pages};
ghost use Rattle.gathered_file.specs.Gathering.{Covers, EachMoment, Gathers, IsNewest, IsStep, is_synced, unasked};
ghost use Rattle.page_disk.specs.declared.disk.WriteKind.TheVariants.{Plain, Whole};

use crate::place::{Place, place_of};
use file_disk::{CallNotes, PageCalls};
use page_disk::{Memory, Page, WriteKind};
use std::alloc::Global;
use std::io::{self, ErrorKind};
use std::marker::Model;
use std::slice;

/// How many pages are kept at most: 1 MiB of them.
const KEPT_AT_MOST: usize = 256;

/// A file that keeps plain writes of single pages in memory as long as each page lies behind the one before, and writes
/// them to the file below in one call: before a sync or any other write, and when 256 pages are kept. What is kept is
/// read from memory. A sync with nothing to write and no call on the file below since its last sync, which answered Ok,
/// makes none there.
///
/// Where a write to the file below fails, the call that made it fails, and no later call writes, reads or syncs. Bytes
/// that are parts of two kept pages aren't read, since no disk of pages asks for them (`InvalidInput`).
#[derive(Drop)]
pub struct GatheringFile<C: PageCalls> {
    file: C,
    notes: CallNotes,
    start: u64,
    kept: Vec<Page>,
    synced: bool,
    stopped: bool,
}

impl<C: PageCalls> Model for GatheringFile<C> {
    ghost use Rattle.std.specs.Prelude.{◌≡◌, ◌≤◌, false, length, vec_capacity};
    ghost use Rattle.file_disk.specs.Notes.{calls_noted};
    ghost use Rattle.gathered_file.specs.Gathering.{ArePages, Covers, Gathering, Gathers, is_synced};

    ghost Value = { Gathering C };

    ghost view = { λ f. record {
      file = f.file;
      asked = calls_noted f.notes;
      start = f.start;
      kept = f.kept.items;
      stopped = f.stopped;
    } };

    ghost invariant = { λ f. record {
      room : 256 ≤ vec_capacity f.kept;
      bounded : length f.kept.items ≤ 256;
      paged : ArePages f.kept.items;
      synced : f.synced ≡ is_synced (C.calls f.file);
      covered : Covers (C.opened f.file) (calls_noted f.notes) (C.calls f.file);
      gathered : f.stopped ≡ false
          → Gathers (C.opened f.file) (calls_noted f.notes) (C.calls f.file) f.start f.kept.items;
    } };
}

impl<C: PageCalls + Drop> GatheringFile<C> {
    /// One over a file of which no call is recorded yet. The memory for what it keeps is taken here, and none later.
    pub fn new(alloc: Global, file: C) -> Result<GatheringFile<C>, Memory>
        requires { C.calls file ≡ [] }
        ensures { IfOk result (λ gathering. gathering ≡ unasked file) }
    {
        let kept = Vec::with_capacity(alloc, KEPT_AT_MOST)?;
        Ok(GatheringFile {
            file,
            notes: CallNotes::new(),
            start: 0,
            kept,
            synced: false,
            stopped: false,
        })
    }
}

impl<C: PageCalls> GatheringFile<C> {
    /// The file below. What a power failure may leave of it between two calls is what it may leave by the calls that
    /// were asked for.
    pub fn file(&self) -> &C
        ensures file { result.now ≡ self.now.file }
        ensures covered { Covers (C.opened self.now.file) self.now.asked (C.calls self.now.file) }
    {
        &self.file
    }

    /// Writes what is kept to the file below, and gives that back. With Ok it holds what was asked for.
    pub fn close(mut self) -> (C, io::Result<()>)
        ensures covered { Covers (C.opened self.file) self.asked (C.calls result.0) }
        ensures written { OnOk result.1 (Gathers (C.opened self.file) self.asked (C.calls result.0) 0 []) }
    {
        let written = if self.stopped {
            Err(io::Error::from(ErrorKind::Other))
        } else {
            self.send()
        };
        let GatheringFile {
            file,
            notes: _,
            start: _,
            kept: _,
            synced: _,
            stopped: _,
        } = self;
        (file, written)
    }

    /// Writes what is kept to the file below, in one call.
    fn send(&mut self) -> io::Result<()>
        requires { self.old.stopped ≡ false }
        ensures step { IsStep C.PageCalls self.old self.new }
        ensures sent { OnOk result (self.new.kept ≡ []) }
        ensures stopped { self.new.stopped ≡ is_err result }
    {
        let bytes = self.kept.as_slice().as_flattened().len();
        if bytes == 0 {
            return Ok(());
        }
        let answer = self.file.write_at(&self.kept, self.start, WriteKind::Plain);
        self.synced = false;
        if has_moved(&answer, bytes) {
            self.kept.clear();
            return Ok(());
        }
        self.stopped = true;
        Err(why_not(answer))
    }

    /// Writes what is kept to the file below, unless a page at this offset is to be kept behind it.
    fn make_room(&mut self, offset: u64) -> io::Result<()>
        requires { self.old.stopped ≡ false }
        ensures step { IsStep C.PageCalls self.old self.new }
        ensures room { OnOk result (length self.new.kept < 256) }
        ensures behind { OnOk result (offset ≡ self.new.start + length self.new.kept * 4096) }
        ensures stopped { self.new.stopped ≡ is_err result }
    {
        if is_behind(self.start, self.kept.len(), offset) {
            return Ok(());
        }
        self.send()?;
        self.start = offset;
        Ok(())
    }

    /// Keeps a page, behind those that are kept or as the first.
    fn keep(&mut self, page: &Page, offset: u64) -> io::Result<usize>
        requires { self.old.stopped ≡ false }
        ensures asked { self.new.asked
            ≡ DidWrite offset (page.now ∷ []) Plain (moved_pages 1 result) ∷ self.old.asked }
        ensures opened { C.opened self.new.file ≡ C.opened self.old.file }
        ensures pages { C.pages self.new.file ≡ C.pages self.old.file }
        ensures moments { EachMoment C.PageCalls self.old self.new }
        ensures stops { moved_pages 1 result ≡ false → self.new.stopped ≡ true }
    {
        if let Err(error) = self.make_room(offset) {
            self.notes
                .note_write(slice::from_ref(page), offset, WriteKind::Plain, false);
            return Err(error);
        }
        if self.kept.push(*page).is_err() {
            unreachable!()
        }
        self.notes
            .note_write(slice::from_ref(page), offset, WriteKind::Plain, true);
        Ok(4096)
    }

    /// Passes a write on, behind what is kept.
    fn pass(&mut self, from: &[Page], offset: u64, kind: WriteKind) -> io::Result<usize>
        requires { self.old.stopped ≡ false }
        ensures asked { self.new.asked
            ≡ DidWrite offset from.now kind (moved_pages (length from.now) result) ∷ self.old.asked }
        ensures opened { C.opened self.new.file ≡ C.opened self.old.file }
        ensures pages { C.pages self.new.file ≡ C.pages self.old.file }
        ensures moments { EachMoment C.PageCalls self.old self.new }
        ensures stops { moved_pages (length from.now) result ≡ false → self.new.stopped ≡ true }
        ensures alone { OnOk result
            (IsNewest (DidWrite offset from.now kind (moved_pages (length from.now) result)) (C.calls self.new.file)) }
    {
        if let Err(error) = self.send() {
            self.notes.note_write(from, offset, kind, false);
            return Err(error);
        }
        let answer = self.file.write_at(from, offset, kind);
        let took = has_moved(&answer, from.as_flattened().len());
        self.notes.note_write(from, offset, kind, took);
        self.synced = false;
        self.stopped = !took;
        answer
    }

    /// Whether the file below was synced since the last write to it, and nothing is kept.
    fn is_lasting(&self) -> bool
        ensures only { result ≡ true → (is_synced (C.calls self.now.file) ≡ true) × (self.now.kept ≡ []) }
        ensures always { is_synced (C.calls self.now.file) ≡ true → self.now.kept ≡ [] → result ≡ true }
    {
        self.synced && self.kept.is_empty()
    }

    /// Syncs the file below, behind what is kept.
    fn pass_sync(&mut self) -> io::Result<()>
        requires { self.old.stopped ≡ false }
        ensures asked { self.new.asked ≡ DidSync (is_ok result) ∷ self.old.asked }
        ensures opened { C.opened self.new.file ≡ C.opened self.old.file }
        ensures pages { C.pages self.new.file ≡ C.pages self.old.file }
        ensures moments { EachMoment C.PageCalls self.old self.new }
        ensures lasting { OnOk result (is_synced (C.calls self.new.file) ≡ true) }
        ensures empty { OnOk result (self.new.kept ≡ []) }
    {
        if let Err(error) = self.send() {
            self.notes.note_sync(false);
            return Err(error);
        }
        let answer = self.file.sync();
        self.synced = answer.is_ok();
        self.notes.note_sync(answer.is_ok());
        answer
    }
}

impl<C: PageCalls> PageCalls for GatheringFile<C> {
    ghost is_honest = { C.is_honest };

    ghost opened = { λ f. C.opened f.file };

    ghost calls = { λ f. f.asked };

    ghost pages = { λ f. C.pages f.file };

    fn pages(&self) -> u64 {
        self.file.pages()
    }

    fn read_at(&mut self, into: &mut Page, offset: u64) -> io::Result<usize>
        ensures content { IsTrue C.is_honest → NoneFailed self.old.asked
            → IfOk result (λ count. (i : ℕ) → i < count
            → get_or into.new i 0 ≡ file_after (C.opened self.old.file) self.old.asked (offset + i)) }
        ensures within { IfOk result (λ count. count ≤ 4096) }
        ensures calls { self.new.asked ≡ self.old.asked }
        ensures opened { C.opened self.new.file ≡ C.opened self.old.file }
        ensures pages { C.pages self.new.file ≡ C.pages self.old.file }

        // The file below is not written, and not synced.
        ensures below { C.calls self.new.file ≡ C.calls self.old.file }
    {
        if self.stopped {
            return Err(io::Error::from(ErrorKind::Other));
        }
        match place_of(self.start, self.kept.len(), offset) {
            Place::Kept(index) => {
                *into = self.kept[index];
                Ok(4096)
            }
            Place::Outside => self.file.read_at(into, offset),
            Place::Across => Err(io::Error::from(ErrorKind::InvalidInput)),
        }
    }

    fn write_at(&mut self, from: &[Page], offset: u64, kind: WriteKind) -> io::Result<usize>
        ensures calls { self.new.asked
            ≡ DidWrite offset from.now kind (moved_pages (length from.now) result) ∷ self.old.asked }
        ensures opened { C.opened self.new.file ≡ C.opened self.old.file }
        ensures pages { C.pages self.new.file ≡ C.pages self.old.file }

        // A power failure at any moment of the call leaves what it may leave by what was asked for before or with it.
        ensures moments { EachMoment C.PageCalls self.old self.new }

        // A whole write is a call of its own on the file below.
        ensures alone { kind ≡ Whole → OnOk result
            (IsNewest (DidWrite offset from.now Whole (moved_pages (length from.now) result)) (C.calls self.new.file)) }

        // After a write that failed, on the file below, each call fails and makes none there.
        ensures stops { moved_pages (length from.now) result ≡ false → self.new.stopped ≡ true }
        ensures stopped { self.old.stopped ≡ true → IsErr result × (self.new.file ≡ self.old.file) }
    {
        if self.stopped {
            self.notes.note_write(from, offset, kind, false);
            return Err(io::Error::from(ErrorKind::Other));
        }
        match (kind, from) {
            (WriteKind::Plain, [page]) => self.keep(page, offset),
            _ => self.pass(from, offset, kind),
        }
    }

    fn sync(&mut self) -> io::Result<()>
        ensures calls { self.new.asked ≡ DidSync (is_ok result) ∷ self.old.asked }
        ensures opened { C.opened self.new.file ≡ C.opened self.old.file }
        ensures pages { C.pages self.new.file ≡ C.pages self.old.file }

        // A power failure at any moment of the call leaves what it may leave by what was asked for before or with it.
        ensures moments { EachMoment C.PageCalls self.old self.new }

        // With Ok the file below was synced, with all that was kept.
        ensures lasting { OnOk result (is_synced (C.calls self.new.file) ≡ true) }
        ensures empty { OnOk result (self.new.kept ≡ []) }

        // Where it was already, and nothing is kept, it gets no call.
        ensures skipped { self.old.stopped ≡ false → is_synced (C.calls self.old.file) ≡ true → self.old.kept ≡ []
            → IsOk result × (self.new.file ≡ self.old.file) }

        ensures stopped { self.old.stopped ≡ true → IsErr result × (self.new.file ≡ self.old.file) }
    {
        if self.stopped {
            self.notes.note_sync(false);
            return Err(io::Error::from(ErrorKind::Other));
        }
        if self.is_lasting() {
            self.notes.note_sync(true);
            return Ok(());
        }
        self.pass_sync()
    }
}

/// Whether a page at this offset is one behind a run of so many pages from its start on, which has room for it.
fn is_behind(start: u64, count: usize, offset: u64) -> bool
    requires { count ≤ 256 }
    ensures { result ≡ true → (count < 256) × (offset ≡ start + count * 4096) }
{
    count < KEPT_AT_MOST && offset >= start && offset - start == count as u64 * 4096
}

/// Whether a call moved so many bytes.
fn has_moved(answer: &io::Result<usize>, bytes: usize) -> bool
    ensures { (pages : ℕ) → bytes ≡ pages * 4096 → result ≡ moved_pages pages answer.now }
{
    matches!(answer, Ok(count) if *count == bytes)
}

/// Why a write didn't take all of its bytes.
fn why_not(answer: io::Result<usize>) -> io::Error {
    match answer {
        Ok(_) => io::Error::from(ErrorKind::WriteZero),
        Err(error) => error,
    }
}
