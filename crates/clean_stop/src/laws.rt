//! Laws of masks on a device.

ghost use Rattle.std.specs.Prelude.{◌≡◌, ℕ};
ghost use Rattle.clean_stop.specs.Masks.{HasMasks, IsMaskPage, MasksFit, SaysMasks, StandsApart};
ghost use Rattle.clean_stop.specs.Stopping.{with_clean};
ghost use Rattle.page_disk.specs.Disk.{Image};
ghost use Rattle.super_block.specs.Faults.{IsFaultless};
ghost use Rattle.super_block.specs.declared.masks.Masks.{Masks};
ghost use Rattle.super_block.specs.declared.page.Super.{Super};

use bit_array::masks_read_back;
use super_block::regions_are_placed;

/// A law, with no code: the masks that an unloaded store has say their sets, and an image says no others.
pub fn unloaded_masks_are_read()
    ensures read { (s : Super) (masks : Masks) (image : Image) → IsFaultless s → MasksFit s masks
        → HasMasks s masks image → SaysMasks s masks image }
    ensures one { (s : Super) (a b : Masks) (image : Image) → SaysMasks s a image → SaysMasks s b image → a ≡ b }
    // They stand apart from all else that a store has, whose super block is without fault whether it is clean or not.
    ensures apart { (s : Super) → IsFaultless s → (page : ℕ) → IsMaskPage s page → StandsApart s page }
    ensures faultless { (s : Super) (clean : ℕ) → IsFaultless s → IsFaultless (with_clean clean s) }
{
    regions_are_placed();
    masks_read_back();
}
