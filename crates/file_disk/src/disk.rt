//! The disk over a file.

ghost use Rattle.std.specs.Prelude.{◌≡◌, [], IfOk};
ghost use Rattle.file_disk.specs.FileCalls.{file_after, may_leave, might_leave_since, moved_pages, pages_in, ticks};
ghost use Rattle.file_disk.specs.FileDisks.{unused};
ghost use Rattle.file_disk.specs.Recorded.{is_telling};

use crate::page_calls::PageCalls;
use crate::page_file::PageFile;
use page_disk::{DiskFault, Page, PageDisk, WriteKind};
use std::fs::File;
use std::marker::Model;
use std::{io, slice};

/// A disk whose page p is the 4096 bytes of a file from byte 4096 p on. It tells what they hold where its file is one
/// that reads as its record says. It has as many whole pages as the file had when it was opened; a page that the file
/// has no longer is a fault. Once a write or a flush has failed it isn't known what a page reads, so none is read then.
#[derive(Drop)]
pub struct FileDisk<C: PageCalls> {
    file: C,
    pages: u64,
    clock: u64,
    read_faults: u64,
    write_faults: u64,
    reads: u64,
}

impl<C: PageCalls> Model for FileDisk<C> {
    ghost use Rattle.std.specs.Prelude.{◌≡◌, ◌<◌, ◌^◌};
    ghost use Rattle.file_disk.specs.FileCalls.{NoneFailed, ticks};
    ghost use Rattle.file_disk.specs.FileDisks.{OverFile};

    ghost Value = { OverFile C };

    ghost view = { λ f. record {
      file = f.file;
      read_faults = f.read_faults;
      write_faults = f.write_faults;
      reads = f.reads;
    } };

    ghost invariant = { λ f. record {
      paged : f.pages ≡ C.pages f.file;
      few : f.pages < 2 ^ 52;
      ticked : f.clock ≡ ticks (C.calls f.file);
      unfailing : f.write_faults ≡ 0 → NoneFailed (C.calls f.file);
    } };
}

impl FileDisk<PageFile> {
    /// The disk over a file that was opened to be read, and maybe to be written: else each write is a fault. `Err` says
    /// why the length of the file isn't known.
    pub fn new(file: File) -> io::Result<FileDisk<PageFile>>
        ensures { IfOk result (λ disk. disk ≡ unused disk.file) }
    {
        Ok(FileDisk::over(PageFile::new(file)?))
    }
}

impl<C: PageCalls> FileDisk<C> {
    /// The disk over a file of which no call is recorded yet.
    pub fn over(file: C) -> FileDisk<C>
        requires { C.calls file ≡ [] }
        ensures { result ≡ unused file }
    {
        let pages = file.pages();
        FileDisk {
            file,
            pages,
            clock: 0,
            read_faults: 0,
            write_faults: 0,
            reads: 0,
        }
    }

    /// The file, which may tell why a call failed.
    pub fn file(&self) -> &C
        ensures { result.now ≡ self.now.file }
    {
        &self.file
    }

    /// Gives the file back.
    pub fn into_file(self) -> C
        ensures { result ≡ self.file }
    {
        let FileDisk {
            file,
            pages: _,
            clock: _,
            read_faults: _,
            write_faults: _,
            reads: _,
        } = self;
        file
    }
}

impl<C: PageCalls> PageDisk for FileDisk<C> {
    ghost tells = { C.is_honest };

    ghost now = { λ f. pages_in (file_after (C.opened f.file) (C.calls f.file)) };

    ghost images = { λ f. may_leave (C.opened f.file) (C.calls f.file) };

    ghost since = { λ f. might_leave_since (C.opened f.file) (C.calls f.file) };

    ghost clock = { λ f. ticks (C.calls f.file) };

    ghost pages = { λ f. C.pages f.file };

    ghost read_faults = { λ f. f.read_faults };

    ghost write_faults = { λ f. f.write_faults };

    ghost reads = { λ f. f.reads };

    fn pages(&self) -> u64 {
        self.pages
    }

    fn clock(&self) -> u64 {
        self.clock
    }

    fn read(&mut self, page: u64, into: &mut Page) -> Result<(), DiskFault> {
        self.reads = self.reads.saturating_add(1);
        if self.write_faults == 0 && is_whole(self.file.read_at(into, page * 4096)) {
            return Ok(());
        }
        self.read_faults = self.read_faults.saturating_add(1);
        Err(DiskFault)
    }

    fn write(&mut self, page: u64, from: &Page, kind: WriteKind) -> Result<(), DiskFault> {
        if self.clock == u64::MAX {
            self.write_faults = self.write_faults.saturating_add(1);
            return Err(DiskFault);
        }
        if is_whole(self.file.write_at(slice::from_ref(from), page * 4096, kind)) {
            self.clock += 1;
            return Ok(());
        }
        self.write_faults = self.write_faults.saturating_add(1);
        Err(DiskFault)
    }

    fn flush(&mut self) -> Result<(), DiskFault> {
        if self.clock == u64::MAX {
            self.write_faults = self.write_faults.saturating_add(1);
            return Err(DiskFault);
        }
        if self.file.sync().is_ok() {
            self.clock += 1;
            return Ok(());
        }
        self.write_faults = self.write_faults.saturating_add(1);
        Err(DiskFault)
    }

    ghost telling = { λ told. is_telling (λ f. C.opened f.file) (λ f. C.calls f.file) };
}

/// Whether the call moved a whole page.
fn is_whole(answer: io::Result<usize>) -> bool
    ensures { result ≡ moved_pages 1 answer }
{
    matches!(answer, Ok(4096))
}
