//! Why a command on a page of a blob is refused.

ghost use Rattle.std.specs.Prelude.{◌≡◌, ◌*◌, nat_le, length, IfSome, IsSome};
ghost use Rattle.std.specs.FinMap as map;
ghost use Rattle.super_block.specs.Faults.{IsFaultless};
ghost use Rattle.super_block.specs.Numbers.{cluster_pages_of};
ghost use Rattle.volume_model.specs.declared.command.VolumeRef.{VolumeRef};
ghost use Rattle.volume_model.specs.declared.command.PageWord.{PageWord as AWord};
ghost use Rattle.volume_model.specs.declared.command.Command.TheVariants as c;
ghost use Rattle.blob_meta.specs.Pages.{IsFirstOnPages, IsPageCause};
ghost use Rattle.blob_meta.specs.ShownBy.{IsHeadMeant};

use crate::head_map::Metas;
use crate::meta::Meta;
use crate::page_places::pages_of;
use crate::refusal::is_super;
use super_block::Super;
use volume_model::Reply;

/// Whether a blob has no such page.
fn is_out_of_range(meta: &Meta, sup: &Super, page: u64) -> bool
    requires { IsFaultless sup.now }
    ensures { result ≡ nat_le (cluster_pages_of sup.now * length meta.now.map) page }
{
    pages_of(meta, sup.cluster_pages()) <= page
}

/// The first cause for which a write of a page is refused, of the blob at a head, or of none; `None` exactly where
/// nothing refuses it. `NoVolume` comes where there is no head, `Reserved` for the super blob, `OutOfRange` for a page
/// that the blob doesn't have, and `ReadOnly` for a blob that is read-only.
pub fn refusal_of_write(metas: &Metas, sup: &Super, head: Option<u32>, page: u64) -> Option<Reply>
    requires faultless { IsFaultless sup.now }
    requires there { IfSome head (λ h. IsSome (map.get metas.now h)) }
    ensures caused { IfSome result IsPageCause }
    ensures first { (volume : VolumeRef) (word : AWord) → IsHeadMeant metas.now sup.now volume head
        → IsFirstOnPages metas.now sup.now (c.Write volume page word) result }
{
    let Some(head) = head else {
        return Some(Reply::NoVolume);
    };
    let Some(meta) = metas.get(head) else {
        unreachable!()
    };
    if is_super(sup, head) {
        Some(Reply::Reserved)
    } else if is_out_of_range(meta, sup, page) {
        Some(Reply::OutOfRange)
    } else if meta.flags.is_read_only() {
        Some(Reply::ReadOnly)
    } else {
        None
    }
}

/// The first cause for which a read of a page is refused, of the blob at a head, or of none; `None` exactly where
/// nothing refuses it. `NoVolume` comes where there is no head, and `OutOfRange` for a page that the blob doesn't have.
pub fn refusal_of_read(metas: &Metas, sup: &Super, head: Option<u32>, page: u64) -> Option<Reply>
    requires faultless { IsFaultless sup.now }
    requires there { IfSome head (λ h. IsSome (map.get metas.now h)) }
    ensures caused { IfSome result IsPageCause }
    ensures first { (volume : VolumeRef) → IsHeadMeant metas.now sup.now volume head
        → IsFirstOnPages metas.now sup.now (c.Read volume page) result }
{
    let Some(head) = head else {
        return Some(Reply::NoVolume);
    };
    let Some(meta) = metas.get(head) else {
        unreachable!()
    };
    if is_out_of_range(meta, sup, page) {
        Some(Reply::OutOfRange)
    } else {
        None
    }
}
