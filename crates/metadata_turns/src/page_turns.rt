//! The turns of a job in which another page is written: of a claimed cluster, a fresh or an old one.

ghost use Rattle.std.specs.Prelude.{◌≡◌, ◌<◌, ◌+◌, ◌∷◌, length};
ghost use Rattle.running_store.specs.Blobs.{blobs_of, CanAllBeKept};
ghost use Rattle.running_store.specs.Jobs.{erasing_for, phases_in, waits_for_job, writes_laid, writing_for};
ghost use Rattle.running_store.specs.Jobs.{zeroing_for};
ghost use Rattle.running_store.specs.Jobs.{IsMatchedFor, IsZeroedFor, MayFollow};
ghost use Rattle.metadata_turns.specs.JobTurns.{answer_of, with_job, IsAtWork, TurnsJob};
ghost use Rattle.running_store.specs.Running.{view_of, InOrder};

use crate::job_turn::{Beside, JobTurn, page_at, turn_of};
use crate::telling::{fail_job, go_on, win};
use page_disk::PageDisk;
use running_store::{
    Planned, Running, RunningJob, Work, Zeroed, clear_places, write_last, write_one,
};

/// Overwrites the next page of the claimed clusters with zeros.
pub(crate) fn zero<D: PageDisk>(
    running: &mut Running<D>,
    beside: Beside,
    planned: Planned,
    zeroed: Zeroed,
) -> JobTurn
    requires order { InOrder D.PageDisk running.old }
    requires zeroed { IsZeroedFor beside.serves planned zeroed }
    requires follows { MayFollow beside.serves beside.later.items }
    requires waits { beside.waiting
        ≡ waits_for_job (zeroing_for beside.serves planned beside.old zeroed (phases_in beside.later.items)) }
    requires kept { CanAllBeKept (blobs_of running.old) (writes_laid planned beside.old ∷ beside.later.items) }
    requires at_work { IsAtWork D.PageDisk (view_of running.old)
        (zeroing_for beside.serves planned beside.old zeroed (phases_in beside.later.items)) }
    ensures case { TurnsJob D.PageDisk (with_job (view_of running.old)
        (zeroing_for beside.serves planned beside.old zeroed (phases_in beside.later.items))) (view_of running.new) }
    ensures answer { result ≡ answer_of (view_of running.new) }
    ensures order { InOrder D.PageDisk running.new }
{
    let page = zeroed.next_page(&planned.effects.claimed);
    if write_one(&mut running.disk, page, &[0; 4096]).is_err() {
        return fail_job(running, beside.serves, beside.waiting);
    }
    running.job = Some(RunningJob::behind_zeros(
        beside.serves,
        planned,
        zeroed,
        beside.old,
        beside.later,
    ));
    JobTurn::More
}

/// Writes the next fresh page.
pub(crate) fn write_fresh<D: PageDisk>(
    running: &mut Running<D>,
    beside: Beside,
    planned: Planned,
    written: usize,
) -> JobTurn
    requires order { InOrder D.PageDisk running.old }
    requires matched { IsMatchedFor beside.serves planned }
    requires follows { MayFollow beside.serves beside.later.items }
    requires waits { beside.waiting
        ≡ waits_for_job (writing_for beside.serves planned beside.old written (phases_in beside.later.items)) }
    requires kept { CanAllBeKept (blobs_of running.old) (writes_laid planned beside.old ∷ beside.later.items) }
    requires at_work { IsAtWork D.PageDisk (view_of running.old)
        (writing_for beside.serves planned beside.old written (phases_in beside.later.items)) }
    requires left { written + 1 < length planned.pages }
    ensures case { TurnsJob D.PageDisk (with_job (view_of running.old)
        (writing_for beside.serves planned beside.old written (phases_in beside.later.items))) (view_of running.new) }
    ensures answer { result ≡ answer_of (view_of running.new) }
    ensures order { InOrder D.PageDisk running.new }
{
    let next = &planned.pages.as_slice()[written + 1];
    let page = page_at(&running.sup, next.place);
    if write_one(&mut running.disk, page, &next.page).is_err() {
        return fail_job(running, beside.serves, beside.waiting);
    }
    running.job = Some(beside.at(Work::Writing {
        planned,
        written: written + 1,
    }));
    JobTurn::More
}

/// Overwrites the next old page, which isn't the last.
pub(crate) fn erase<D: PageDisk>(running: &mut Running<D>, beside: Beside, erased: usize) -> JobTurn
    requires order { InOrder D.PageDisk running.old }
    requires follows { MayFollow beside.serves beside.later.items }
    requires waits { beside.waiting
        ≡ waits_for_job (erasing_for beside.serves beside.old erased (phases_in beside.later.items)) }
    requires kept { CanAllBeKept (blobs_of running.old) beside.later.items }
    requires at_work { IsAtWork D.PageDisk (view_of running.old)
        (erasing_for beside.serves beside.old erased (phases_in beside.later.items)) }
    requires left { erased + 1 < length beside.old }
    ensures case { TurnsJob D.PageDisk (with_job (view_of running.old)
        (erasing_for beside.serves beside.old erased (phases_in beside.later.items))) (view_of running.new) }
    ensures answer { result ≡ answer_of (view_of running.new) }
    ensures order { InOrder D.PageDisk running.new }
{
    let page = page_at(&running.sup, beside.old.as_slice()[erased]);
    if write_one(&mut running.disk, page, &[0; 4096]).is_err() {
        return fail_job(running, beside.serves, beside.waiting);
    }
    running.job = Some(beside.at(Work::Erasing { erased: erased + 1 }));
    JobTurn::More
}

/// Overwrites the last old page for good: only then are the old pages clear. The next replacement follows.
pub(crate) fn free<D: PageDisk>(running: &mut Running<D>, beside: Beside, erased: usize) -> JobTurn
    requires order { InOrder D.PageDisk running.old }
    requires follows { MayFollow beside.serves beside.later.items }
    requires waits { beside.waiting
        ≡ waits_for_job (erasing_for beside.serves beside.old erased (phases_in beside.later.items)) }
    requires kept { CanAllBeKept (blobs_of running.old) beside.later.items }
    requires at_work { IsAtWork D.PageDisk (view_of running.old)
        (erasing_for beside.serves beside.old erased (phases_in beside.later.items)) }
    requires last { erased + 1 ≡ length beside.old }
    ensures case { TurnsJob D.PageDisk (with_job (view_of running.old)
        (erasing_for beside.serves beside.old erased (phases_in beside.later.items))) (view_of running.new) }
    ensures answer { result ≡ answer_of (view_of running.new) }
    ensures order { InOrder D.PageDisk running.new }
{
    let page = page_at(&running.sup, beside.old.as_slice()[erased]);
    if write_last(&mut running.disk, page, &[0; 4096]).is_err() {
        return fail_job(running, beside.serves, beside.waiting);
    }
    clear_places(&mut running.pages, &beside.old);
    let serves = beside.serves;
    go_on(running, serves, RunningJob::next(serves, beside.later));
    win(running, serves);
    turn_of(running)
}
