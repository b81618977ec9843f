//! Slots in a row.

ghost use Rattle.std.specs.Prelude.{◌≡◌, ◌+◌, ◌<◌, ◌^◌, IfOk};
ghost use Rattle.std.specs.List.{range_with_len};

use out_of_memory::Memory;
use std::alloc::Global;
use volume_model::SlotList;

/// So many slots, from one on.
pub fn slots_from(alloc: Global, first: u32, count: u32) -> Result<SlotList, Memory>
    requires { first + count < 2 ^ 32 }
    ensures { IfOk result (λ slots. slots ≡ range_with_len first count) }
{
    let mut slots = SlotList::new(alloc);
    for at in 0..count {
        slots.push(first + at)?;
    }
    Ok(slots)
}
