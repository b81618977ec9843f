//! What a replacement does besides, where it is one of several or stands alone.

ghost use Rattle.std.specs.Prelude.{◌≡◌, Some};
ghost use Rattle.job_begins.specs.Begins.{no_effects};
ghost use Rattle.job_begins.specs.ListJobs.{effects_in};

use running_store::{Commit, Effects, Rooms};
use std::alloc::Global;
use volume_model::PlaceList;

/// Nothing but that these rooms are taken.
pub(crate) fn in_rooms(alloc: Global, rooms: Rooms) -> Effects
    ensures { result ≡ effects_in rooms.chain rooms.meta }
{
    Effects {
        commit: None,
        freed: PlaceList::new(alloc),
        claimed: PlaceList::new(alloc),
        rooms,
    }
}

/// Nothing.
pub(crate) fn nothing_besides(alloc: Global) -> Effects
    ensures { result ≡ no_effects }
{
    let rooms = Rooms {
        chain: None,
        meta: None,
    };
    in_rooms(alloc, rooms)
}

/// Nothing but the commit of its job.
pub(crate) fn committing(alloc: Global, commit: Commit) -> Effects
    ensures { result ≡ record no_effects { commit = Some commit } }
{
    Effects {
        commit: Some(commit),
        freed: PlaceList::new(alloc),
        claimed: PlaceList::new(alloc),
        rooms: Rooms {
            chain: None,
            meta: None,
        },
    }
}
