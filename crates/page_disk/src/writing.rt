//! One page is written, and may be torn until it is flushed.
ghost use Rattle.std.specs.Prelude.{◌≡◌, ◌≤◌, ◌<◌, ◌+◌, OnOk, IsTrue};
ghost use Rattle.page_disk.specs.Disk.{HasCause, IsSameElsewhere, Only, Written, with_page};
ghost use Rattle.page_disk.specs.Moments.{CallsLeaveOnly};
ghost use Rattle.page_disk.specs.declared.disk.WriteKind.TheVariants.{Plain};

use crate::{DiskFault, Page, PageDisk, WriteKind};

/// Writes a page by a plain write.
pub fn write_page<D: PageDisk>(disk: &mut D, place: u64, page: &Page) -> Result<(), DiskFault>
    requires { place < D.pages disk.old }

    // A crash at any moment leaves one of the images from before, with or without what the write puts there.
    ensures any_moment { CallsLeaveOnly D.PageDisk disk.old disk.new
        (Written (D.images disk.old) place Plain page.now) }

    ensures written { IsTrue D.tells → OnOk result (D.now disk.new ≡ with_page (D.now disk.old) place page.now) }
    ensures elsewhere { IsTrue D.tells → IsSameElsewhere place (D.now disk.old) (D.now disk.new) }
    ensures later { D.clock disk.old ≤ D.clock disk.new }
    ensures rises { OnOk result (D.clock disk.old + 1 ≤ D.clock disk.new) }
    ensures pages { D.pages disk.new ≡ D.pages disk.old }
    ensures faults { HasCause (D.write_faults disk.old) (D.write_faults disk.new) result }
    ensures no_fault { OnOk result (D.write_faults disk.new ≡ D.write_faults disk.old) }
    ensures read_faults { D.read_faults disk.new ≡ D.read_faults disk.old }
    ensures reads { D.reads disk.new ≡ D.reads disk.old }
{
    disk.write(place, page, WriteKind::Plain)
}

/// Writes a page by a plain write, and makes it lasting by a flush. The first of the two calls that fails is the
/// answer, and none is tried again.
pub fn write_and_flush<D: PageDisk>(disk: &mut D, place: u64, page: &Page) -> Result<(), DiskFault>
    requires { place < D.pages disk.old }

    // A crash at any moment leaves one of the images from before, with or without what the write puts there.
    ensures any_moment { CallsLeaveOnly D.PageDisk disk.old disk.new
        (Written (D.images disk.old) place Plain page.now) }

    ensures written { IsTrue D.tells → OnOk result (D.now disk.new ≡ with_page (D.now disk.old) place page.now) }
    ensures elsewhere { IsTrue D.tells → IsSameElsewhere place (D.now disk.old) (D.now disk.new) }
    ensures durable { IsTrue D.tells → OnOk result (Only (D.now disk.new) (D.images disk.new)) }
    ensures later { D.clock disk.old ≤ D.clock disk.new }
    ensures rises { OnOk result (D.clock disk.old + 2 ≤ D.clock disk.new) }
    ensures pages { D.pages disk.new ≡ D.pages disk.old }
    ensures faults { HasCause (D.write_faults disk.old) (D.write_faults disk.new) result }
    ensures no_fault { OnOk result (D.write_faults disk.new ≡ D.write_faults disk.old) }
    ensures read_faults { D.read_faults disk.new ≡ D.read_faults disk.old }
    ensures reads { D.reads disk.new ≡ D.reads disk.old }
{
    write_page(disk, place, page)?;
    disk.flush()
}
