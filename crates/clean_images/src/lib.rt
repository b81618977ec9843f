//! Which images a crash may leave of a store that was found clean: as long as its super block says so, no page of the
//! fixed clusters changes. Definitions, and their laws as contracts of functions that do nothing.
#![tactic(auto)]

ghost use Rattle.std.specs.Prelude.{◌≡◌, ℕ, List, IsTrue, false};
ghost use Rattle.page_disk.specs.Disk.{Image, Only};
ghost use Rattle.super_block.specs.Placed.{IsPlaced};
ghost use Rattle.super_block.specs.declared.page.Super.{Super};
ghost use Rattle.volume_model.specs.Volumes.{Volumes};
ghost use Rattle.volume_model.specs.declared.command.Command.{Command};
ghost use Rattle.store_model.specs.Cases.{Kind, the, Turn};
ghost use Rattle.store_model.specs.RunInvariant.{RunInvariant};
ghost use Rattle.store_model.specs.StoreState.{Opens, StoreState};
ghost use Rattle.store_model.specs.Touches.{device_of, DoesTouch};
ghost use Rattle.clean_images.specs.CleanImages.{CleanImages, IsInUse};

use page_disk::PageDisk;

/// A store begins so on a device that tells and has one image, by which it is clean where the store in memory is.
pub fn clean_images_begin<D: PageDisk>()
    ensures { (s : Super) (p : StoreState) (disk : D) → IsTrue D.tells → Only (D.now disk) (D.images disk)
        → p.device ≡ device_of D.PageDisk disk → Opens p → (p.clean ≡ false → IsInUse s (D.now disk))
        → CleanImages D.PageDisk s (D.now disk) p disk }
{}

/// Each turn keeps it, on a device that tells.
pub fn clean_images_stay<D: PageDisk>()
    ensures { (s : Super) (first : Volumes) (script : ℕ → List Command) (opened : Image) (p q : StoreState)
        (kind : Kind) (from to : D) → IsTrue D.tells → IsPlaced s → RunInvariant s first script p
        → p.device ≡ device_of D.PageDisk from → q.device ≡ device_of D.PageDisk to
        → (turn : Turn D.tells p kind q) → DoesTouch D.PageDisk from to ((the kind).touch D.tells p q turn)
        → CleanImages D.PageDisk s opened p from → CleanImages D.PageDisk s opened q to }
{}
