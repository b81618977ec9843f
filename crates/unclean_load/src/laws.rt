//! The laws of accepted images, and of those that are loaded by their masks.

ghost use Rattle.unclean_load.specs.Accepted.{AcceptedAreKept, InUseAreAccepted, StoresAreAccepted};
ghost use Rattle.unclean_load.specs.Accepted.{UnloadedAreAccepted};
ghost use Rattle.unclean_load.specs.Quick.{ListedAreScanned, NoHeadIsKept, QuickIsKept, UnloadedAreQuick};

use clean_stop::unloaded_masks_are_read;
use super_block::regions_are_placed;

/// A law, with no code: an image is accepted whose super block has no fault, and which says metadata by a scan that is
/// lawful once it is resolved, in which each SNAP names a head. Its masks aren't trusted, or name all heads and none
/// with a fault.
pub fn stores_are_accepted()
    ensures stores { StoresAreAccepted }
    ensures in_use { InUseAreAccepted }
{
    regions_are_placed();
}

/// A law, with no code: a clean store with the masks that its metadata claims is loaded by them, and says by a scan
/// what they say. A set of heads beside which there is no other says all blobs.
pub fn clean_stores_are_quick()
    ensures quick { UnloadedAreQuick }
    ensures accepted { UnloadedAreAccepted }
    ensures listed { ListedAreScanned }
{
    regions_are_placed();
    unloaded_masks_are_read();
}

/// A law, with no code: the pages of the fixed clusters decide whether an image is accepted, whether its masks are
/// trusted, and whether a head stands beside them.
pub fn fixed_clusters_decide()
    ensures accepted { AcceptedAreKept }
    ensures quick { QuickIsKept }
    ensures no_head { NoHeadIsKept }
{
    regions_are_placed();
    unloaded_masks_are_read();
}
