//! The metadata of one blob.

use descriptors::SlotMap;
use out_of_memory::Memory;
use std::alloc::Global;
use volume_model::{TryCopy, XattrList};

/// The three words of a blob's flags. Bit 0 of `invalid` is thin provisioning, bit 1 stands on disk exactly where there
/// is an internal attribute and is 0 here; bit 0 of `data_ro` is read-only; bits 0 and 1 of `md_ro` are the clear
/// method, which is kept and has no effect.
#[derive(Clone, Copy, Debug, PartialEq, Eq)]
pub struct Flags {
    pub invalid: u64,
    pub data_ro: u64,
    pub md_ro: u64,
}

impl Flags {
    ghost use Rattle.std.specs.Prelude.{◌≡◌};
    ghost use Rattle.blob_meta.specs.Faults as f;
    ghost use Rattle.blob_meta.specs.Parents as p;

    /// Whether slots are filled only when they are written.
    pub fn is_thin(self) -> bool
        ensures { result ≡ f.is_thin self }
    {
        self.invalid % 2 == 1
    }

    /// Whether neither pages nor attributes may be written.
    pub fn is_read_only(self) -> bool
        ensures { result ≡ p.is_read_only self }
    {
        self.data_ro >= 1 || self.md_ro >= 4
    }

    /// The same, but read-only.
    pub fn read_only(self) -> Flags
        ensures { result ≡ p.read_only self }
    {
        Flags {
            invalid: self.invalid,
            data_ro: self.data_ro / 2 * 2 + 1,
            md_ro: self.md_ro,
        }
    }

    /// Whether the blob can't be deleted either.
    pub fn is_locked(self) -> bool
        ensures { result ≡ p.is_locked self }
    {
        self.data_ro >= 2 || self.md_ro >= 4
    }
}

/// What the chain of a blob says. `id` is 2^32 plus the head; `map` has a slot for each cluster of the blob.
#[derive(Debug, Drop)]
pub struct Meta {
    pub id: u64,
    pub flags: Flags,
    pub xattrs: XattrList,
    pub internal: XattrList,
    pub map: SlotMap,
}

impl TryCopy for Meta {
    fn try_copy(&self, alloc: Global) -> Result<Meta, Memory> {
        Ok(Meta {
            id: self.id,
            flags: self.flags,
            xattrs: self.xattrs.try_copy(alloc)?,
            internal: self.internal.try_copy(alloc)?,
            map: self.map.try_copy(alloc)?,
        })
    }
}
