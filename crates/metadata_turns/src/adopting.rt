//! The blob of a job once its head is written, or erased, and what a commit makes besides.

ghost use Rattle.std.specs.Prelude.{◌≡◌, ◌<◌, ◌∷◌, [], true, if◌then◌else◌, All, IfSome, length, slice_set};
ghost use Rattle.bit_array.specs.Bits.{is_in};
ghost use Rattle.blob_meta.specs.Resolving.{mark_of as mark_said};
ghost use Rattle.std.specs.Prelude.{is_some};
ghost use Rattle.io_freeze.specs.Guards.{renewed};
ghost use Rattle.metadata_turns.specs.Adopting.{concluded};
ghost use Rattle.store_model.specs.Places.{AreDistinct};
ghost use Rattle.running_store.specs.Blobs.{blobs_of, marked_given, metas_given, numbered_in, HasCommitPlaces};
ghost use Rattle.running_store.specs.Blobs.{HasPlaces, HasPlacesFor};
ghost use Rattle.running_store.specs.Places.{with_changes, with_numbers, CanNumber, HasPlace, HasPlaceFor};
ghost use Rattle.running_store.specs.Running.{blob_adopted, forgotten};
ghost use Rattle.running_store.specs.declared.replacements.Change.TheVariants.{Erases};

use bit_array::Bits;
use blob_meta::{HasName, HeadMap, Meta, Metas, Room, mark_of};
use io_freeze::Guards;
use running_store::{
    Commit, Effects, EntryChange, Erasure, Planned, Rooms, Running, clear_places, put,
};
use volume_model::PlaceList;

/// The blob has what was planned from now on: one that is there, or a new one. Clusters that no map has any more are
/// clear, and what a commit makes besides is made.
pub(crate) fn adopt<D>(running: &mut Running<D>, planned: Planned)
    requires places { HasPlaces (blobs_of running.old) planned.head planned.new planned.effects }
    requires head { planned.head < length running.old.heads }
    requires unclaimed { running.old.clusters.claims ≡ [] }
    requires once { AreDistinct planned.effects.freed }
    requires in_use { All (λ cluster. is_in running.old.clusters.bits cluster ≡ true) planned.effects.freed }
    ensures { running.new ≡ blob_adopted running.old planned }
{
    let (head, new, effects, chain) = planned.apart();
    let Effects {
        commit,
        freed,
        claimed: _,
        rooms,
    } = effects;
    let Rooms {
        chain: chain_room,
        meta: meta_room,
    } = rooms;
    let makes = chain_room.is_some();
    clear_places(&mut running.clusters, &freed);
    add_head(&mut running.heads, head, makes);
    put(&mut running.chains, chain_room, head, chain);
    give(
        &mut running.metas,
        &mut running.marked,
        meta_room,
        head,
        new,
    );
    conclude(running, commit, makes, head);
}

/// The head of a new blob is one.
fn add_head(heads: &mut Bits, head: u32, makes: bool)
    requires { head < length heads.old }
    ensures { heads.new ≡ (if makes then slice_set heads.old head true else heads.old) }
{
    if makes {
        heads.set(head);
    }
}

/// New metadata that has a mark is kept aside; other new metadata is what its blob resolves to.
fn give(metas: &mut Metas, marked: &mut Metas, room: Option<Room<Meta>>, head: u32, new: Meta)
    requires { HasPlace (if is_some (mark_said new) then marked.old else metas.old) head room }
    ensures metas { metas.new ≡ metas_given metas.old head new }
    ensures marked { marked.new ≡ marked_given marked.old head new }
{
    if mark_of(&new).is_some() {
        put(marked, room, head, new);
    } else {
        marked.remove(head);
        put(metas, room, head, new);
    }
}

/// The blob at a head is gone from now on, and so is its generation: its head's page is clear, and so are the clusters
/// that no other blob has. What a commit makes besides is made.
pub(crate) fn forget<D>(running: &mut Running<D>, erasure: Erasure)
    requires places { HasPlacesFor (blobs_of running.old) (Erases erasure) }
    requires page { is_in running.old.pages.bits erasure.head ≡ true }
    requires head { erasure.head < length running.old.heads }
    requires no_page { running.old.pages.claims ≡ [] }
    requires unclaimed { running.old.clusters.claims ≡ [] }
    requires once { AreDistinct erasure.freed }
    requires in_use { All (λ cluster. is_in running.old.clusters.bits cluster ≡ true) erasure.freed }
    ensures { running.new ≡ forgotten running.old erasure }
{
    let (head, commit, freed) = erasure.apart();
    clear_places(&mut running.clusters, &freed);
    running.metas.remove(head);
    running.marked.remove(head);
    running.chains.remove(head);
    running.guards.remove(head);
    running.heads.clear(head);
    running.pages.free(head);
    conclude(running, commit, false, head);
}

/// What a commit makes besides: the attributes that are read otherwise, the other blob that is shown otherwise, and new
/// generations; without a commit a new blob gets its first.
fn conclude<D>(running: &mut Running<D>, commit: Option<Commit>, makes: bool, head: u32)
    requires { HasCommitPlaces running.old.metas running.old.live running.old.guards commit
        (numbered_in commit makes head) }
    ensures { running.new ≡ concluded running.old commit makes head }
{
    match commit {
        Some(
            Commit {
                made: _,
                live,
                renews,
                shows,
            },
        ) => {
            change(&mut running.live, live);
            change(&mut running.metas, shows);
            number_all(&mut running.guards, &renews);
        }
        None => {
            if makes {
                number(&mut running.guards, head);
            }
        }
    }
}

/// Makes a change of a map, if there is one.
fn change<V: HasName + Drop>(entries: &mut HeadMap<V>, change: Option<EntryChange<V>>)
    requires { IfSome change (HasPlaceFor entries.old) }
    ensures { entries.new ≡ with_changes entries.old change }
{
    if let Some(change) = change {
        change.make(entries);
    }
}

/// These blobs get the next numbers as their generations, one after another.
fn number_all(guards: &mut Guards, heads: &PlaceList)
    requires { CanNumber guards.old heads.now }
    ensures { guards.new ≡ with_numbers guards.old heads.now }
{
    for head in heads.as_slice() {
        number(guards, *head);
    }
}

/// A blob gets the next number as its generation.
fn number(guards: &mut Guards, head: u32)
    requires { CanNumber guards.old (head ∷ []) }
    ensures { guards.new ≡ renewed guards.old head }
{
    match guards.generation(head) {
        Some(_) => guards.renew(head),
        None => guards.add(head),
    }
}
