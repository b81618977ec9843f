//! The law of plans, as a contract of a function that does nothing.

ghost use Rattle.store_core.specs.Planning.{PlanLaws};

use page_disk::PageDisk;

/// What a plan made of what a running store has in memory is in the volumes that the store shows: a cause that refuses
/// a command in all volumes that show its blob, or all metadata, so refuses it there, and the job that is planned of a
/// command is what it asks for.
pub fn plans<D: PageDisk>()
    ensures { PlanLaws D.PageDisk }
{}
