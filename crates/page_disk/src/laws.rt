// What follows from the clauses of a disk.
ghost use Rattle.std.specs.Prelude.{◌⊎◌, ◌↔◌, ◌≤◌, ℕ, IsTrue};
ghost use Rattle.page_disk.specs.Disk.{Image, Alike, Elapses};

use crate::PageDisk;

/// A law, with no code: which images a crash may have left, for a disk that tells.
///
/// Since this moment these are the images. Where time went on as in a write or a flush, those since the call's entry
/// are the images at its entry and at its exit; and those since an earlier moment are the ones before the call, and
/// those since its entry.
pub fn images_since<D: PageDisk>()
    ensures at_clock { IsTrue D.tells → (d : D) → Alike (D.since d (D.clock d)) (D.images d) }
    ensures at_entry { IsTrue D.tells → (old new : D)
        → Elapses (D.clock old) (D.clock new) (D.since old) (D.since new) (D.images new)
        → (c : Image) → D.since new (D.clock old) c ↔ (D.images old c ⊎ D.images new c) }
    ensures earlier { IsTrue D.tells → (old new : D)
        → Elapses (D.clock old) (D.clock new) (D.since old) (D.since new) (D.images new)
        → (t : ℕ) (c : Image) → t ≤ D.clock old → D.since new t c ↔ (D.since old t c ⊎ D.since new (D.clock old) c) }
{}
