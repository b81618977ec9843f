// A disk in memory that tells nothing.
ghost use Rattle.std.specs.Prelude.{◌≡◌, false, [], vec_len, IfOk, IsOk};

use crate::{DiskFault, Memory, Page, PageDisk, WriteKind};
use std::alloc::Global;

/// A disk in memory that tells nothing of its pages, as a real one does. Only at its clock's last number does a call
/// fail.
#[derive(Drop)]
pub struct SilentDisk {
    pages: Vec<Page>,
    clock: u64,
    reads: u64,
    write_faults: u64,
}

impl SilentDisk {
    /// A disk of so many pages of zeros.
    pub fn new(alloc: Global, pages: u32) -> Result<SilentDisk, Memory>
        ensures { IfOk result (λ d. ⟦<SilentDisk as PageDisk>⟧.pages d ≡ pages) }
    {
        let pages = vec![in alloc; [0; 4096]; pages as usize]?;
        Ok(SilentDisk {
            pages,
            clock: 0,
            reads: 0,
            write_faults: 0,
        })
    }
}

impl PageDisk for SilentDisk {
    ghost tells = { false };

    ghost now = { λ _ _. [] };

    ghost images = { λ _ _. ⊥ };

    ghost since = { λ _ _ _. ⊥ };

    ghost clock = { λ d. d.clock };

    ghost pages = { λ d. vec_len d.pages };

    ghost read_faults = { λ _. 0 };

    ghost write_faults = { λ d. d.write_faults };

    ghost reads = { λ d. d.reads };

    fn pages(&self) -> u64 {
        self.pages.len() as u64
    }

    fn clock(&self) -> u64 {
        self.clock
    }

    fn read(&mut self, page: u64, into: &mut Page) -> Result<(), DiskFault> {
        self.reads = self.reads.saturating_add(1);
        *into = self.pages[page as usize];
        Ok(())
    }

    fn write(&mut self, page: u64, from: &Page, _kind: WriteKind) -> Result<(), DiskFault> {
        if self.clock == u64::MAX {
            self.write_faults = self.write_faults.saturating_add(1);
            return Err(DiskFault);
        }
        self.clock += 1;
        self.pages[page as usize] = *from;
        Ok(())
    }

    fn flush(&mut self) -> Result<(), DiskFault> {
        if self.clock == u64::MAX {
            self.write_faults = self.write_faults.saturating_add(1);
            return Err(DiskFault);
        }
        self.clock += 1;
        Ok(())
    }

    ghost use Rattle.std.proofs.Common.{rules};

    ghost telling = { λ told. Prim.search rules };
}
