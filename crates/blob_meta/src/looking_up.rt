//! Which blob a command means.

ghost use Rattle.std.specs.Prelude.{◌≡◌, ◌<◌, ◌^◌, ℕ, false, IfSome, IfNone};
ghost use Rattle.volume_model.specs.declared.command.VolumeRef.TheVariants.{Named};
ghost use Rattle.blob_meta.specs.Find.{is_meant, IsLeast};
ghost use Rattle.blob_meta.specs.ShownBy.{IsHeadMeant, IsTakenIn};

use crate::head_map::Metas;
use super_block::Super;
use volume_model::{Name, VolumeRef};

/// The least head of a blob of this name, other than the super blob.
fn find_named(metas: &Metas, sup: &Super, name: &Name) -> Option<u32>
    ensures some { IfSome result (λ head. IsLeast (is_meant sup.now.super_blob metas.now (Named name.now)) head) }
    ensures none { IfNone result ((head : ℕ) → head < 2 ^ 32
        → is_meant sup.now.super_blob metas.now (Named name.now) head ≡ false) }
{
    let mut from = 0;
    while let Some(head) = metas.next_named(name.bytes(), from) {
        if sup.super_blob != (1 << 32) + u64::from(head) {
            return Some(head);
        }
        if head == u32::MAX {
            return None;
        }
        from = head + 1;
    }
    None
}

/// Whether a blob other than the super blob has the name.
pub fn is_taken(metas: &Metas, sup: &Super, name: &Name) -> bool
    ensures { IsTakenIn metas.now sup.now name.now result }
{
    find_named(metas, sup, name).is_some()
}

/// The head of the blob that a command means: a head names its own blob, and a name that of the least head of a blob,
/// other than the super blob, whose `name` up to its first NUL it is. `None` comes exactly where no blob is meant.
pub fn find(metas: &Metas, sup: &Super, volume: &VolumeRef) -> Option<u32>
    ensures some { IfSome result (λ head. IsLeast (is_meant sup.now.super_blob metas.now volume.now) head) }
    ensures none { IfNone result ((head : ℕ) → head < 2 ^ 32
        → is_meant sup.now.super_blob metas.now volume.now head ≡ false) }
    ensures meant { IsHeadMeant metas.now sup.now volume.now result }
{
    match volume {
        VolumeRef::Head(head) => {
            if metas.get(*head).is_some() {
                Some(*head)
            } else {
                None
            }
        }
        VolumeRef::Named(name) => find_named(metas, sup, name),
    }
}
