// A disk in memory: the pages with which it began, and a record of every write and flush since.
ghost use Rattle.std.specs.Prelude.{◌≡◌, ◌≤◌, ◌<◌, ◌+◌, ◌++◌, ◌∷◌, true, length, ℕ, IfOk, IsOk, OnOk, OnErr, ◌↔◌, []};
ghost use Rattle.std.specs.HashMap.{spare};
ghost use Rattle.page_disk.specs.Record.{base_image, record_begun, read_after, image_of, images_of, since_of, zeros};
ghost use Rattle.page_disk.specs.Record.{IsIndex, IsWrite, content_of};
ghost use Rattle.page_disk.specs.Disk.{Only, Wrote, HasCause, RoseByOne, last_count};
ghost use Rattle.page_disk.specs.declared.record.Call.TheVariants.{Write, Flush};
ghost use Rattle.page_disk.specs.RecordLaws.{reads_one, since_end, counts_end};

use crate::record::Call;
use crate::{DiskFault, Memory, Page, PageDisk, WriteKind};
use std::alloc::Global;
use std::collections::HashMap;
use std::marker::Model;

/// A disk in memory, which tells all: it keeps the image with which it began, and a record of every write and flush
/// since. A page that was in neither reads as zeros. It has room for a number of writes and flushes, which it reserves
/// when it is made; each one after these fails, and nothing else does.
#[derive(Drop)]
pub struct MemDisk {
    pub(crate) alloc: Global,
    pub(crate) pages: u64,
    pub(crate) room: u32,
    /// The pages of the image with which it began that were ever written.
    pub(crate) base: HashMap<u64, Page>,
    pub(crate) calls: Vec<Call>,
    /// For each page in the record the place of its last write there.
    newest: HashMap<u64, usize>,
    read_faults: u64,
    write_faults: u64,
    reads: u64,
}

impl Model for MemDisk {
    ghost use Rattle.std.specs.Prelude.{◌≤◌, ◌+◌, vec_len, vec_capacity};
    ghost use Rattle.std.specs.HashMap.{spare};
    ghost use Rattle.page_disk.specs.Record.{Recorded, IsIndex};

    ghost Value = { Recorded };

    ghost view = { λ m.
        record {
          pages = m.pages;
          room = m.room;
          base = m.base.entries;
          calls = m.calls.items;
          read_faults = m.read_faults;
          write_faults = m.write_faults;
          reads = m.reads;
        } };

    ghost invariant = { λ m. record {
      within : vec_len m.calls ≤ m.room;
      reserved : m.room ≤ vec_capacity m.calls;
      spare_places : m.room ≤ vec_len m.calls + spare m.newest;
      newest : IsIndex m.calls.items m.newest.entries;
    } };
}

impl MemDisk {
    /// A disk of so many pages, all zeros, with room for so many writes and flushes.
    pub fn new(alloc: Global, pages: u64, room: u32) -> Result<MemDisk, Memory>
        ensures begun { IfOk result (λ d. d ≡ record_begun pages room []) }
        ensures zeros { IfOk result (λ d. (p : ℕ) → image_of d p ≡ zeros) }
        ensures one { IfOk result (λ d. Only (image_of d) (images_of d)) }
    {
        let disk = MemDisk::over(alloc, pages, room, HashMap::new(alloc))?;
        Ok(disk)
    }

    /// A disk that begins with these pages.
    pub(crate) fn over(
        alloc: Global,
        pages: u64,
        room: u32,
        base: HashMap<u64, Page>,
    ) -> Result<MemDisk, Memory>
        ensures { IfOk result (λ d. d ≡ record_begun pages room base.entries) }
    {
        let calls = Vec::with_capacity(alloc, room as usize)?;
        let newest = HashMap::with_capacity(alloc, room as usize)?;
        Ok(MemDisk {
            alloc,
            pages,
            room,
            base,
            calls,
            newest,
            read_faults: 0,
            write_faults: 0,
            reads: 0,
        })
    }

    /// Records the call, where there is room.
    fn keep(&mut self, call: Call) -> Result<(), DiskFault>
        ensures room { IsOk result ↔ (length self.old.calls < self.old.room) }
        ensures kept { OnOk result (self.new ≡ record self.old { calls = self.old.calls ++ call ∷ [] }) }
        ensures refused { OnErr result (self.new ≡ record self.old { write_faults = self.new.write_faults }) }
        ensures counted { OnErr result (RoseByOne self.old.write_faults self.new.write_faults) }
        ensures few { length self.old.calls < last_count }
    {
        if self.calls.len() >= self.room as usize {
            self.write_faults = self.write_faults.saturating_add(1);
            return Err(DiskFault);
        }
        note(&self.calls, &mut self.newest, &call);
        if self.calls.push(call).is_err() {
            unreachable!()
        }
        Ok(())
    }
}

impl PageDisk for MemDisk {
    ghost tells = { true };

    ghost now = { image_of };

    ghost images = { images_of };

    ghost since = { since_of };

    ghost clock = { λ m. length m.calls };

    ghost pages = { λ m. m.pages };

    ghost read_faults = { λ m. m.read_faults };

    ghost write_faults = { λ m. m.write_faults };

    ghost reads = { λ m. m.reads };

    fn pages(&self) -> u64 {
        self.pages
    }

    fn clock(&self) -> u64 {
        self.calls.len() as u64
    }

    fn read(&mut self, page: u64, into: &mut Page) -> Result<(), DiskFault>
        requires { page < self.old.pages }
        ensures answers { IsOk result }
        ensures content { into.new ≡ image_of self.old page }
        ensures same { self.new ≡ record self.old { reads = self.new.reads } }
        ensures reads { RoseByOne self.old.reads self.new.reads }
    {
        self.reads = self.reads.saturating_add(1);
        read_page(&self.base, &self.calls, &self.newest, page, into);
        Ok(())
    }

    fn write(&mut self, page: u64, from: &Page, kind: WriteKind) -> Result<(), DiskFault>
        requires { page < self.old.pages }
        ensures room { IsOk result ↔ (length self.old.calls < self.old.room) }
        ensures kept { OnOk result
            (self.new ≡ record self.old { calls = self.old.calls ++ Write page from.now kind ∷ [] }) }
        ensures refused { OnErr result (self.new ≡ record self.old { write_faults = self.new.write_faults }) }
        ensures ok { OnOk result
            (Wrote (image_of self.old) (image_of self.new) (images_of self.old)
            (images_of self.new) page kind from.now) }
        ensures faults { HasCause self.old.write_faults self.new.write_faults result }
        ensures before_last { length self.old.calls < last_count }
    {
        self.keep(Call::Write {
            page,
            content: *from,
            kind,
        })?;
        Ok(())
    }

    fn flush(&mut self) -> Result<(), DiskFault>
        ensures room { IsOk result ↔ (length self.old.calls < self.old.room) }
        ensures kept { OnOk result (self.new ≡ record self.old { calls = self.old.calls ++ Flush ∷ [] }) }
        ensures refused { OnErr result (self.new ≡ record self.old { write_faults = self.new.write_faults }) }
        ensures ok { OnOk result (Only (image_of self.old) (images_of self.new)) }
        ensures now { image_of self.new ≡ image_of self.old }
        ensures faults { HasCause self.old.write_faults self.new.write_faults result }
        ensures before_last { length self.old.calls < last_count }
    {
        self.keep(Call::Flush)?;
        Ok(())
    }

    ghost telling = { λ told. record {
      reads_an_image = λ m. reads_one (base_image m.base) m.calls;
      since_now = λ m. since_end (base_image m.base) m.calls;
      counts_now = λ m. counts_end (base_image m.base) m.calls;
    } };
}

/// The page as it was written last.
fn read_page(
    base: &HashMap<u64, Page>,
    calls: &[Call],
    newest: &HashMap<u64, usize>,
    page: u64,
    into: &mut Page,
)
    requires { IsIndex calls.now newest.now.entries }
    ensures { into.new ≡ read_after (base_image base.now.entries) calls.now page }
{
    match newest.get(&page) {
        Some(place) => copy_content(&calls[*place], into),
        None => match base.get(&page) {
            Some(content) => *into = *content,
            None => *into = [0; 4096],
        },
    }
}

/// What a write wrote.
fn copy_content(call: &Call, into: &mut Page)
    requires { IsWrite call.now }
    ensures { into.new ≡ content_of call.now }
{
    match call {
        Call::Write { content, .. } => *into = *content,
        Call::Flush => unreachable!(),
    }
}

/// Keeps the index for a record that has this call more.
fn note(calls: &[Call], newest: &mut HashMap<u64, usize>, call: &Call)
    requires index { IsIndex calls.now newest.old.entries }
    requires room { 0 < spare newest.old }
    ensures index { IsIndex (calls.now ++ call.now ∷ []) newest.new.entries }
    ensures room { spare newest.old ≤ spare newest.new + 1 }
{
    match call {
        Call::Write { page, .. } => match newest.insert(*page, calls.len()) {
            Ok(_) => {}
            Err(_) => unreachable!(),
        },
        Call::Flush => {}
    }
}
