//! What volumes that show metadata have in common, and that there are such: contracts of functions that do nothing.

ghost use Rattle.std.specs.Prelude.{ℕ, ◌<◌, ◌≤◌, ◌^◌, Some, IsSome};
ghost use Rattle.std.specs.FinMap as map;
ghost use Rattle.std.specs.Ordering.{nat_cmp};
ghost use Rattle.super_block.specs.declared.page.Super.{Super};
ghost use Rattle.volume_model.specs.Volumes.{Fixed, Volumes};
ghost use Rattle.volume_model.specs.declared.command.VolumeRef.{VolumeRef};
ghost use Rattle.blob_meta.specs.declared.meta.Meta.{Meta};
ghost use Rattle.blob_meta.specs.Find.{is_meant, IsLeast};
ghost use Rattle.blob_meta.specs.ShownBy.{IsHeadMeant, ShowsMetas};

/// The least head that passes is the one that is meant.
pub fn least_heads_are_meant()
    ensures { (metas : map.FinMap nat_cmp Meta) (sup : Super) (volume : VolumeRef) (head : ℕ)
        → IsLeast (is_meant sup.super_blob metas volume) head → IsHeadMeant metas sup volume (Some head) }
{}

/// Metadata whose heads are below a number of 32 bits is shown by some volumes: what is said of all that show it isn't
/// said of none.
pub fn metadata_is_shown()
    ensures { (metas : map.FinMap nat_cmp Meta) (sup : Super) (md_len : ℕ) → md_len ≤ 2 ^ 32
        → ((h : ℕ) → IsSome (map.get metas h) → h < md_len) → (f : Fixed) × (v : Volumes) × ShowsMetas f sup metas v }
{}
