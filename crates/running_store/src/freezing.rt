//! The blob that a job freezes is released.

ghost use Rattle.std.specs.Prelude.{◌≡◌};
ghost use Rattle.running_store.specs.Places.{thawed};

use io_freeze::Guards;

/// The blob that a job freezes, if it freezes one, is released.
pub fn release(guards: &mut Guards, freeze: Option<u32>)
    ensures { guards.new ≡ thawed guards.old freeze }
{
    if let Some(head) = freeze {
        guards.release(head);
    }
}
