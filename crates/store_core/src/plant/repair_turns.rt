//! The begin of a repair: what is kept of a running store over it.

use crate::keeping::goes_on;
use crate::plant::Plant;
use crate::right::MdRight;
use job_begins::{RepairTurn, begin_repair};
use page_disk::PageDisk;

impl<D: PageDisk> Plant<D> {
    ghost use Rattle.std.specs.Prelude.{◌≡◌, None};
    ghost use Rattle.job_begins.specs.Repairs.{RepairsOrNot};

    /// Begins the first repair that is left, on a store that runs no job and hasn't stopped: a blob that is kept loses
    /// its marks, or, where no such is left, one that recovery removes is erased. `Clean` comes exactly where no repair
    /// is left, `NoPage` exactly where fewer pages are clear than the repair needs, with the blob's head and both
    /// numbers; but for `Began` the store is as it was.
    pub fn begin_repair(&mut self, right: &mut MdRight) -> RepairTurn
        requires right { right.old ≡ self.old.right }
        requires no_job { self.old.at.job ≡ None }
        requires runs { self.old.at.stopped ≡ None }
        ensures case { RepairsOrNot D.PageDisk self.old.at self.new.at result }
        ensures rows { self.new.at.rows ≡ self.old.at.rows }
        ensures opening { self.new.opening ≡ self.old.opening }
        ensures right { (right.new ≡ right.old) × (self.new.right ≡ self.old.right) }
    {
        goes_on::<D>();
        begin_repair(&mut self.running)
    }
}
