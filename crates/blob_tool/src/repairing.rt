//! What recovery found is made good before the first command.

ghost use Rattle.std.specs.Prelude.{◌≡◌, ℕ, None};
ghost use Rattle.blob_tool.specs.Repairing.{EndsOrMendsOne, EndsRepairs, Mends};
ghost use Rattle.repair_runs.specs.RepairRuns.{IsMending};
ghost use Rattle.running_store.specs.StoreView.{state_of};

use crate::status::Status;
use page_disk::PageDisk;
use repair_runs::repairs_come_to_an_end;
use store_core::{MdRight, Plant, RepairTurn};
use unclean_load::LoadFault;

/// How the repairs of a store ended.
#[derive(Clone, Copy)]
pub(crate) enum RepairsEnd {
    /// No repair is left.
    Repaired,
    /// A write or a flush failed.
    Stopped,
    /// Fewer pages are clear than the repair needs of the blob at this head.
    NoRoom { head: u32, has: u32, wants: u32 },
    /// Memory ran out.
    Memory,
}

impl RepairsEnd {
    ghost use Rattle.std.specs.Prelude.{◌≡◌};
    ghost use Rattle.blob_tool.specs.Repairing.{status_of_repairs};

    /// The status of a run that ends with its repairs; `None` where none is left.
    pub(crate) fn status(self) -> Option<Status>
        ensures { result ≡ status_of_repairs self }
    {
        match self {
            RepairsEnd::Repaired => None,
            RepairsEnd::Stopped => Some(Status::Device { at: 0 }),
            RepairsEnd::NoRoom { head, has, wants } => Some(Status::Image {
                fault: LoadFault::NoRoom { head, has, wants },
            }),
            RepairsEnd::Memory => Some(Status::Memory),
        }
    }
}

/// Makes the running job's turns until none is left, or one fails.
fn finish_job<D: PageDisk>(plant: &mut Plant<D>, right: &mut MdRight)
    requires right { right.old ≡ plant.old.right }
    requires runs { plant.old.at.stopped ≡ None }
    requires mending { (n : ℕ) × IsMending n (state_of D.PageDisk plant.old.at) }
    ensures mended { (n : ℕ) → IsMending n (state_of D.PageDisk plant.old.at)
        → Mends D.PageDisk plant.old.at plant.new.at n }
    ensures no_job { plant.new.at.job ≡ None }
    ensures opening { plant.new.opening ≡ plant.old.opening }
    ensures right { (right.new ≡ right.old) × (plant.new.right ≡ plant.old.right) }
{
    repairs_come_to_an_end();
    plant.keeps();
    while plant.job_runs() {
        plant.job_turn(right);
        plant.keeps();
    }
}

/// Begins the first repair that is left, and makes its job's turns. Gives how the repairs ended, if they did.
fn mend_one<D: PageDisk>(plant: &mut Plant<D>, right: &mut MdRight) -> Option<RepairsEnd>
    requires right { right.old ≡ plant.old.right }
    requires no_job { plant.old.at.job ≡ None }
    requires runs { plant.old.at.stopped ≡ None }
    ensures goes_on { EndsOrMendsOne D.PageDisk plant.old.at plant.new.at result }
    ensures opening { plant.new.opening ≡ plant.old.opening }
    ensures right { (right.new ≡ right.old) × (plant.new.right ≡ plant.old.right) }
{
    repairs_come_to_an_end();
    plant.keeps();
    match plant.begin_repair(right) {
        RepairTurn::Began => {}
        RepairTurn::Clean => return Some(RepairsEnd::Repaired),
        RepairTurn::NoPage { head, has, wants } => {
            return Some(RepairsEnd::NoRoom { head, has, wants });
        }
        RepairTurn::Memory => return Some(RepairsEnd::Memory),
    }
    finish_job(plant, right);
    match plant.stopped() {
        Some(_) => Some(RepairsEnd::Stopped),
        None => None,
    }
}

/// Makes the repairs that recovery found, one after another, until none is left, unless one can't be made.
pub(crate) fn repair<D: PageDisk>(plant: &mut Plant<D>, right: &mut MdRight) -> RepairsEnd
    requires right { right.old ≡ plant.old.right }
    requires no_job { plant.old.at.job ≡ None }
    requires runs { plant.old.at.stopped ≡ None }
    ensures ended { EndsRepairs D.PageDisk plant.old.at plant.new.at result }
    ensures opening { plant.new.opening ≡ plant.old.opening }
    ensures right { (right.new ≡ right.old) × (plant.new.right ≡ plant.old.right) }
{
    repairs_come_to_an_end();
    plant.keeps();
    loop {
        if let Some(end) = mend_one(plant, right) {
            return end;
        }
    }
}
