//! A run of pages is written.

ghost use Rattle.std.specs.Prelude.{◌≡◌, ◌≤◌, ◌+◌, OnOk, IsTrue};
ghost use Rattle.page_disk.specs.Disk.{HasCause};
ghost use Rattle.page_runs.specs.Content.{HasPages, HoldsContent};
ghost use Rattle.page_runs.specs.Writing.{IsBetween, WritesOnly};

use crate::content::Content;
use page_disk::{DiskFault, PageDisk, WriteKind};

/// Writes so many pages of the content from page `start` on, each by a plain write. The first write that fails is the
/// answer, and none is tried again.
pub fn write_pages<D: PageDisk>(
    disk: &mut D,
    start: u32,
    count: u32,
    content: &Content,
) -> Result<(), DiskFault>
    requires inside { start + count ≤ D.pages disk.old }
    requires enough { HasPages content.now count }
    ensures filled { IsTrue D.tells → OnOk result (HoldsContent content.now start count (D.now disk.new)) }
    ensures only { WritesOnly D.PageDisk (IsBetween start (start + count)) disk.old disk.new }
    ensures faults { HasCause (D.write_faults disk.old) (D.write_faults disk.new) result }
    ensures no_fault { OnOk result (D.write_faults disk.new ≡ D.write_faults disk.old) }
{
    let mut page = [0; 4096];
    for index in 0..count {
        content.put(index, &mut page);
        disk.write(u64::from(start) + u64::from(index), &page, WriteKind::Plain)?;
    }
    Ok(())
}
