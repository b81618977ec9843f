//! Copies that may want memory.

ghost use Rattle.std.specs.Prelude.{◌≡◌, IfOk};

use out_of_memory::Memory;
use std::alloc::Global;

/// A value that can be copied where there is memory for it.
pub trait TryCopy: Sized {
    /// A copy, equal to the original in every part, or `Memory`.
    fn try_copy(&self, alloc: Global) -> Result<Self, Memory>
        ensures { IfOk result (λ copy. copy ≡ self.now) };
}

impl TryCopy for u32 {
    fn try_copy(&self, _alloc: Global) -> Result<u32, Memory> {
        Ok(*self)
    }
}
