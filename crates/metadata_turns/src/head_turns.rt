//! The turns of a job in which a head's page is replaced.

ghost use Rattle.std.specs.Prelude.{◌≡◌, ◌∷◌, length, drop};
ghost use Rattle.running_store.specs.Blobs.{blobs_of, CanAllBeKept};
ghost use Rattle.running_store.specs.Jobs.{erases_laid, phases_in, removing_for, waits_for_job, writes_laid};
ghost use Rattle.running_store.specs.Jobs.{writing_for};
ghost use Rattle.running_store.specs.Jobs.{IsMatchedFor, IsRemovedFor, MayFollow};
ghost use Rattle.metadata_turns.specs.JobTurns.{answer_of, with_job, IsAtWork, TurnsJob};
ghost use Rattle.running_store.specs.Running.{view_of, InOrder};

use crate::adopting::{adopt, forget};
use crate::job_turn::{Beside, JobTurn, page_at, turn_of};
use crate::telling::{fail_job, go_on, stage_behind, tell};
use page_disk::PageDisk;
use running_store::{Erasure, Planned, Running, replace};

/// Replaces the head's page, all fresh pages being written: the blob has its new metadata. The command is done, where
/// this is the commit; or the cluster stands in its slot, or the blob has no mark any more.
pub(crate) fn replace_head<D: PageDisk>(
    running: &mut Running<D>,
    beside: Beside,
    planned: Planned,
) -> JobTurn
    requires order { InOrder D.PageDisk running.old }
    requires matched { IsMatchedFor beside.serves planned }
    requires follows { MayFollow beside.serves beside.later.items }
    requires waits { beside.waiting ≡ waits_for_job (writing_for beside.serves planned beside.old
        (length (drop 1 planned.chain)) (phases_in beside.later.items)) }
    requires kept { CanAllBeKept (blobs_of running.old) (writes_laid planned beside.old ∷ beside.later.items) }
    requires at_work { IsAtWork D.PageDisk (view_of running.old) (writing_for beside.serves planned beside.old
        (length (drop 1 planned.chain)) (phases_in beside.later.items)) }
    ensures case { TurnsJob D.PageDisk (with_job (view_of running.old) (writing_for beside.serves planned beside.old
        (length (drop 1 planned.chain)) (phases_in beside.later.items))) (view_of running.new) }
    ensures answer { result ≡ answer_of (view_of running.new) }
    ensures order { InOrder D.PageDisk running.new }
{
    let first = &planned.pages.as_slice()[0];
    let page = page_at(&running.sup, planned.head);
    if replace(&mut running.disk, page, &first.page).is_err() {
        return fail_job(running, beside.serves, beside.waiting);
    }
    let reply = planned.reply();
    let serves = beside.serves;
    let next = stage_behind(&beside.old);
    adopt(running, planned);
    go_on(running, serves, beside.behind());
    tell(running, serves, reply, next);
    turn_of(running)
}

/// Overwrites the head's page of a blob with zeros: the blob is gone. The command is done, where this is the commit.
pub(crate) fn remove_head<D: PageDisk>(
    running: &mut Running<D>,
    beside: Beside,
    erasure: Erasure,
) -> JobTurn
    requires order { InOrder D.PageDisk running.old }
    requires removed { IsRemovedFor beside.serves erasure }
    requires follows { MayFollow beside.serves beside.later.items }
    requires waits { beside.waiting
        ≡ waits_for_job (removing_for beside.serves erasure beside.old (phases_in beside.later.items)) }
    requires kept { CanAllBeKept (blobs_of running.old) (erases_laid erasure beside.old ∷ beside.later.items) }
    requires at_work { IsAtWork D.PageDisk (view_of running.old)
        (removing_for beside.serves erasure beside.old (phases_in beside.later.items)) }
    ensures case { TurnsJob D.PageDisk (with_job (view_of running.old)
        (removing_for beside.serves erasure beside.old (phases_in beside.later.items))) (view_of running.new) }
    ensures answer { result ≡ answer_of (view_of running.new) }
    ensures order { InOrder D.PageDisk running.new }
{
    let page = page_at(&running.sup, erasure.head);
    if replace(&mut running.disk, page, &[0; 4096]).is_err() {
        return fail_job(running, beside.serves, beside.waiting);
    }
    let reply = erasure.reply();
    let serves = beside.serves;
    let next = stage_behind(&beside.old);
    forget(running, erasure);
    go_on(running, serves, beside.behind());
    tell(running, serves, reply, next);
    turn_of(running)
}
