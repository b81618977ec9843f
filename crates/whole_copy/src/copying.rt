//! The pages of a volume are copied, one after the other.

ghost use Rattle.std.specs.Prelude.{◌≡◌, ◌<◌, ◌≤◌, IfErr, IfOk, IsTrue, OnOk};
ghost use Rattle.page_disk.specs.Disk.{HasCause, Only};
ghost use Rattle.md_chain.specs.Reading.{OnlyRead};
ghost use Rattle.super_block.specs.Faults.{IsFaultless};
ghost use Rattle.whole_copy.specs.Meant.{AreHeld, IsVolume, pages_shown};
ghost use Rattle.whole_copy.specs.Copied.{BeginsWith, HasFailed, HoldsSo, IsLeft, NoneFailed};

use crate::finding::MeantVolume;
use blob_meta::{Metas, place_read};
use page_disk::{DiskFault, Page, PageDisk, write_page};
use super_block::{Super, regions_are_placed};

/// Which device failed.
#[derive(Clone, Copy, Debug, PartialEq, Eq)]
pub enum CopyFault {
    /// A read of the image.
    Image,
    /// A write or the flush of the target.
    Target,
}

/// A page of the volume as the volume shows it: through its parents, and zeros where none of them has it.
fn read_shown<D: PageDisk>(
    disk: &mut D,
    sup: &Super,
    metas: &Metas,
    volume: &MeantVolume,
    page: u64,
) -> Result<Page, DiskFault>
    requires faultless { IsFaultless sup.now }
    requires held { AreHeld sup.now metas.now }
    requires device { sup.now.device_pages ≤ D.pages disk.old }
    requires volume { IsVolume sup.now metas.now volume.now }
    requires within { page < volume.now.pages }
    ensures content { IsTrue D.tells → IfOk result
        (HoldsSo (pages_shown sup.now metas.now (D.now disk.old) volume.now.head) page) }
    ensures same { OnlyRead D.PageDisk disk.old disk.new }
    ensures cause { HasCause (D.read_faults disk.old) (D.read_faults disk.new) result }
    ensures no_fault { OnOk result (D.read_faults disk.new ≡ D.read_faults disk.old) }
{
    regions_are_placed();
    let place = place_read(
        metas,
        sup.cluster_pages(),
        sup.md_len + 1,
        volume.head,
        page,
    );
    let Some(place) = place else {
        return Ok([0; 4096]);
    };
    let mut content = [0; 4096];
    disk.read(place, &mut content)?;
    Ok(content)
}

/// Writes every page that the volume shows to the same page of the target, and flushes the target. The image is read
/// and nothing else.
///
/// The first call that fails is the answer, and none is tried again: then the pages before it are copied, and all others
/// are as they were, but the one whose write failed.
pub fn copy_volume<D: PageDisk, E: PageDisk>(
    disk: &mut D,
    sup: &Super,
    metas: &Metas,
    volume: &MeantVolume,
    target: &mut E,
) -> Result<(), CopyFault>
    requires faultless { IsFaultless sup.now }
    requires held { AreHeld sup.now metas.now }
    requires device { sup.now.device_pages ≤ D.pages disk.old }
    requires volume { IsVolume sup.now metas.now volume.now }
    requires room { volume.now.pages ≤ E.pages target.old }
    ensures copied { IsTrue D.tells → IsTrue E.tells
        → OnOk result (BeginsWith (pages_shown sup.now metas.now (D.now disk.old) volume.now.head)
        (E.now target.old) (E.now target.new)) }
    ensures lasting { IsTrue E.tells → OnOk result (Only (E.now target.new) (E.images target.new)) }
    ensures left { IsTrue D.tells → IsTrue E.tells
        → IsLeft (pages_shown sup.now metas.now (D.now disk.old) volume.now.head)
        (E.now target.old) (E.now target.new) }
    ensures cause { IfErr result (HasFailed D.PageDisk disk.old disk.new E.PageDisk target.old target.new) }
    ensures no_fault { OnOk result (NoneFailed D.PageDisk disk.old disk.new E.PageDisk target.old target.new) }
    ensures same { OnlyRead D.PageDisk disk.old disk.new }
    ensures pages { E.pages target.new ≡ E.pages target.old }
    ensures read_faults { E.read_faults target.new ≡ E.read_faults target.old }
{
    for page in 0..volume.pages {
        let Ok(content) = read_shown(disk, sup, metas, volume, page) else {
            return Err(CopyFault::Image);
        };
        if write_page(target, page, &content).is_err() {
            return Err(CopyFault::Target);
        }
    }
    if target.flush().is_err() {
        return Err(CopyFault::Target);
    }
    Ok(())
}
