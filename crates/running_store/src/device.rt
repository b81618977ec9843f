//! The device calls of a turn, with what they make of the state and what a crash may leave of them.

ghost use Rattle.std.specs.Prelude.{◌≡◌, ◌<◌, ◌≤◌, OnOk, OnErr, IfSome, IsTrue, None, Some};
ghost use Rattle.page_disk.specs.Disk.{Only, Written};
ghost use Rattle.page_disk.specs.Moments.{IsReplaced, CallsLeaveOnly};
ghost use Rattle.page_disk.specs.declared.disk.WriteKind.TheVariants.{Plain};
ghost use Rattle.store_model.specs.Cases.{FailsToReplace, WritesOnePage};
ghost use Rattle.store_model.specs.Cases.Flush.{IsFlushed};
ghost use Rattle.store_model.specs.Recovers.{SaysInUse};
ghost use Rattle.super_block.specs.Faults.{IsFaultless};
ghost use Rattle.running_store.specs.DeviceCalls.{mark_page, IsReadSo};
ghost use Rattle.running_store.specs.StoreView.{device_of};
ghost use Rattle.std.specs.Option.{option_map_or};
ghost use Rattle.volume_model.specs.Volumes.{zero_page};

use clean_stop::mark_dirty;
use page_disk::{DiskFault, Page, PageDisk, replace_page, write_and_flush, write_page};
use super_block::Super;

/// Writes a page, in one device call.
#[tactic(auto, using(crate::proofs::Moving::moves, crate::proofs::Moving::fails))]
pub fn write_one<D: PageDisk>(disk: &mut D, place: u64, page: &Page) -> Result<(), DiskFault>
    requires { place < D.pages disk.old }
    ensures moves { OnOk result
        (WritesOnePage D.tells (device_of D.PageDisk disk.old) place page.now 1 (device_of D.PageDisk disk.new)) }
    ensures fails { OnErr result
        (FailsToReplace (Some place) (device_of D.PageDisk disk.old) (device_of D.PageDisk disk.new)) }
    ensures any_moment { CallsLeaveOnly D.PageDisk disk.old disk.new
        (Written (D.images disk.old) place Plain page.now) }
    ensures pages { D.pages disk.new ≡ D.pages disk.old }
{
    write_page(disk, place, page)
}

/// Writes a page and flushes, in two device calls.
#[tactic(auto, using(crate::proofs::Moving::moves, crate::proofs::Moving::fails))]
pub fn write_last<D: PageDisk>(disk: &mut D, place: u64, page: &Page) -> Result<(), DiskFault>
    requires { place < D.pages disk.old }
    ensures moves { OnOk result
        (WritesOnePage D.tells (device_of D.PageDisk disk.old) place page.now 2 (device_of D.PageDisk disk.new)) }
    ensures fails { OnErr result
        (FailsToReplace (Some place) (device_of D.PageDisk disk.old) (device_of D.PageDisk disk.new)) }
    ensures any_moment { CallsLeaveOnly D.PageDisk disk.old disk.new
        (Written (D.images disk.old) place Plain page.now) }
    ensures durable { IsTrue D.tells → OnOk result (Only (D.now disk.new) (D.images disk.new)) }
    ensures pages { D.pages disk.new ≡ D.pages disk.old }
{
    write_and_flush(disk, place, page)
}

/// Replaces a page between two flushes, in three device calls.
#[tactic(auto, using(crate::proofs::Moving::moves, crate::proofs::Moving::fails))]
pub fn replace<D: PageDisk>(disk: &mut D, place: u64, page: &Page) -> Result<(), DiskFault>
    requires { place < D.pages disk.old }
    ensures moves { OnOk result
        (WritesOnePage D.tells (device_of D.PageDisk disk.old) place page.now 3 (device_of D.PageDisk disk.new)) }
    ensures fails { OnErr result
        (FailsToReplace (Some place) (device_of D.PageDisk disk.old) (device_of D.PageDisk disk.new)) }
    ensures any_moment { CallsLeaveOnly D.PageDisk disk.old disk.new
        (IsReplaced (D.images disk.old) (D.now disk.old) place page.now) }
    ensures durable { IsTrue D.tells → OnOk result (Only (D.now disk.new) (D.images disk.new)) }
    ensures pages { D.pages disk.new ≡ D.pages disk.old }
{
    replace_page(disk, place, page)
}

/// Marks the store as in use, in three device calls. The super block in memory stays as the store was opened.
#[tactic(auto, using(crate::proofs::Moving::moves, crate::proofs::Moving::fails))]
pub fn mark_in_use<D: PageDisk>(disk: &mut D, sup: &mut Super) -> Result<(), DiskFault>
    requires faultless { IsFaultless sup.old }
    requires device { sup.old.device_pages ≤ D.pages disk.old }
    ensures kept { sup.new ≡ sup.old }
    ensures says { SaysInUse sup.old (mark_page sup.old) }
    ensures moves { OnOk result (WritesOnePage D.tells (device_of D.PageDisk disk.old) 0
        (mark_page sup.old) 3 (device_of D.PageDisk disk.new)) }
    ensures fails { OnErr result
        (FailsToReplace (Some 0) (device_of D.PageDisk disk.old) (device_of D.PageDisk disk.new)) }
    ensures any_moment { CallsLeaveOnly D.PageDisk disk.old disk.new
        (IsReplaced (D.images disk.old) (D.now disk.old) 0 (mark_page sup.old)) }
    ensures durable { IsTrue D.tells → OnOk result (Only (D.now disk.new) (D.images disk.new)) }
    ensures pages { D.pages disk.new ≡ D.pages disk.old }
{
    let was = sup.clean;
    let outcome = mark_dirty(disk, sup);
    sup.clean = was;
    outcome
}

/// Flushes, in one device call.
#[tactic(auto, using(crate::proofs::Moving::flushes, crate::proofs::Moving::flush_fails))]
pub fn flush_once<D: PageDisk>(disk: &mut D) -> Result<(), DiskFault>
    ensures flushed { OnOk result (IsFlushed (device_of D.PageDisk disk.old) (device_of D.PageDisk disk.new)) }
    ensures fails { OnErr result
        (FailsToReplace None (device_of D.PageDisk disk.old) (device_of D.PageDisk disk.new)) }
    ensures any_moment { CallsLeaveOnly D.PageDisk disk.old disk.new (D.images disk.old) }
    ensures durable { IsTrue D.tells → OnOk result (Only (D.now disk.new) (D.images disk.new)) }
    ensures pages { D.pages disk.new ≡ D.pages disk.old }
{
    disk.flush()
}

/// Reads a page, in one device call, where a place is given; the page is one of zeros before.
#[tactic(auto, using(crate::proofs::Moving::reads))]
pub fn read_at<D: PageDisk>(
    disk: &mut D,
    place: Option<u64>,
    into: &mut Page,
) -> Result<(), DiskFault>
    requires inside { IfSome place (λ n. n < D.pages disk.old) }
    requires zeros { into.old ≡ zero_page }
    ensures content { IsTrue D.tells → OnOk result (into.new ≡ option_map_or (D.now disk.old) place zero_page) }
    ensures seen { IsReadSo (device_of D.PageDisk disk.old) (device_of D.PageDisk disk.new) result }
    ensures any_moment { CallsLeaveOnly D.PageDisk disk.old disk.new (D.images disk.old) }
    ensures pages { D.pages disk.new ≡ D.pages disk.old }
{
    match place {
        Some(place) => disk.read(place, into),
        None => Ok(()),
    }
}
