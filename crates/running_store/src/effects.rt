//! What a replacement does besides giving a blob its new metadata: what follows from that.

ghost use Rattle.std.specs.Prelude.{◌≡◌, ◌||◌, [], not, is_some, true, IfOk, IsTrue, option_copied};
ghost use Rattle.std.specs.FinMap as map;
ghost use Rattle.blob_meta.specs.Faults.{clusters_held};
ghost use Rattle.std.specs.Option.{option_map};
ghost use Rattle.volume_model.specs.Xattrs.{name_key, with_nul as with_nul_said, with_value};
ghost use Rattle.running_store.specs.Blobs.{blobs_of, HasPlaces, HaveRooms};
ghost use Rattle.running_store.specs.Effects as ends;
ghost use Rattle.running_store.specs.Effects.{cut_clusters, is_cut, live_behind, numbered_by, AreEffects, IsGiven};
ghost use Rattle.running_store.specs.Places.{CanNumber};

use crate::entries::{EntryChange, place};
use crate::replacements::{Commit, Rooms};
use crate::running::Running;
use blob_meta::{Meta, mark_of};
use io_freeze::Guards;
use out_of_memory::Memory;
use std::alloc::Global;
use volume_model::{Command, Name, PlaceList, TryCopy, XattrList, with_nul};

/// What a replacement does besides giving a blob its new metadata and its chain.
#[derive(Drop)]
pub struct Effects {
    /// What it makes as the job's commit, where it is that.
    pub commit: Option<Commit>,
    /// The clusters of slots that are cut, each once, which no map has any more.
    pub freed: PlaceList,
    /// The clusters that the job has claimed for slots that are to read as zeros.
    pub claimed: PlaceList,
    /// Room for what the blob doesn't have before.
    pub rooms: Rooms,
}

/// What the one replacement of a command does, which gives the blob at a head new metadata, as its commit; no cluster
/// is claimed so far. (Want of memory too if no generation is left for the blob.)
pub fn effects_of<D>(
    running: &Running<D>,
    command: &Command,
    head: u32,
    new: &Meta,
) -> Result<Effects, Memory>
    ensures are { IfOk result (AreEffects (is_some (map.get running.now.chains head)) head
        (map.get running.now.metas head) command.now (map.get running.now.live head) new.now []) }
    ensures places { IfOk result (HasPlaces (blobs_of running.now) head new.now) }
{
    let alloc = running.alloc;
    let makes = running.chains.get(head).is_none();
    let (cut, freed) = cut_from(alloc, running.metas.get(head), new)?;
    let renewed = takes_parent(command) || cut;
    let renews = renews_if(alloc, &running.guards, head, makes || renewed)?;
    let live = change_of(running, head, live_from(running, command, head, new)?)?;
    let rooms = rooms_for(running, head, new)?;
    Ok(Effects {
        commit: Some(Commit {
            made: if makes { Some(head) } else { None },
            live,
            renews,
            shows: None,
        }),
        freed,
        claimed: PlaceList::new(alloc),
        rooms,
    })
}

/// Whether a command ends with another parent of its blob.
fn takes_parent(command: &Command) -> bool
    ensures { result ≡ ends.takes_parent command.now }
{
    matches!(command, Command::Inflate { .. } | Command::Decouple { .. })
}

/// The head, if it gets a generation. (Want of memory too if none is left for it.)
fn renews_if(alloc: Global, guards: &Guards, head: u32, gets: bool) -> Result<PlaceList, Memory>
    ensures are { IfOk result (λ heads. heads ≡ numbered_by gets head) }
    ensures can { IfOk result (CanNumber guards.now) }
{
    if !gets {
        return Ok(PlaceList::new(alloc));
    }
    if !can_number(guards, head) {
        return Err(Memory);
    }
    let mut heads = Vec::new(alloc);
    heads.push(head)?;
    Ok(PlaceList::from_vec(heads))
}

/// Whether a head can get another generation, or its first.
fn can_number(guards: &Guards, head: u32) -> bool
    ensures { IsTrue result → CanNumber guards.now (numbered_by true head) }
{
    match guards.generation(head) {
        Some(_) => guards.can_renew(),
        None => guards.can_add(),
    }
}

/// These attributes of the blob at a head, if they are given, with room for them.
fn change_of<D>(
    running: &Running<D>,
    head: u32,
    live: Option<XattrList>,
) -> Result<Option<EntryChange<XattrList>>, Memory>
    ensures { IfOk result (IsGiven running.now.live head live) }
{
    match live {
        Some(xattrs) => Ok(Some(EntryChange {
            head,
            value: Some(xattrs),
            room: place(running.alloc, &running.live, head)?,
        })),
        None => Ok(None),
    }
}

/// The attributes of the blob at a head as they are read from the commit of a command on, if they are others.
fn live_from<D>(
    running: &Running<D>,
    command: &Command,
    head: u32,
    new: &Meta,
) -> Result<Option<XattrList>, Memory>
    ensures { IfOk result
        (λ live. live ≡ live_behind command.now (map.get running.now.live head) new.now) }
{
    match command {
        Command::Resize { .. } | Command::Inflate { .. } | Command::Decouple { .. } => Ok(None),
        Command::Rename { name, .. } => renamed(running.alloc, running.live.get(head), name),
        _ => Ok(Some(new.xattrs.try_copy(running.alloc)?)),
    }
}

/// These attributes with the name.
fn renamed(
    alloc: Global,
    live: Option<&XattrList>,
    name: &Name,
) -> Result<Option<XattrList>, Memory>
    ensures { IfOk result (λ new. new
        ≡ option_map (λ xattrs. with_value xattrs name_key (with_nul_said name.now)) (option_copied live.entry)) }
{
    let Some(live) = live else {
        return Ok(None);
    };
    let value = with_nul(alloc, name.bytes())?;
    Ok(Some(live.with_value(alloc, b"name", value.as_slice())?))
}

/// Whether slots are cut where a blob gets new metadata, and the clusters of these slots.
fn cut_from(alloc: Global, before: Option<&Meta>, new: &Meta) -> Result<(bool, PlaceList), Memory>
    ensures cut { IfOk result (λ made. made.0 ≡ is_cut (option_copied before.entry) new.now) }
    ensures clusters { IfOk result (λ made. made.1 ≡ cut_clusters (option_copied before.entry) new.now) }
{
    let slots = new.map.len();
    match before {
        Some(before) if slots < before.map.len() => {
            let behind = &before.map.as_slice()[slots as usize..];
            Ok((true, clusters_in(alloc, behind)?))
        }
        _ => Ok((false, PlaceList::new(alloc))),
    }
}

/// The clusters that slots hold.
fn clusters_in(alloc: Global, slots: &[Option<u32>]) -> Result<PlaceList, Memory>
    ensures { IfOk result (λ clusters. clusters ≡ clusters_held slots.now) }
{
    let clusters: Vec<u32> = slots.iter().filter_map(|slot| *slot).collect(alloc)?;
    Ok(PlaceList::from_vec(clusters))
}

/// Room for the blob at a head, where it is new, and for its metadata, among the marked or the others, where it isn't
/// there yet.
fn rooms_for<D>(running: &Running<D>, head: u32, new: &Meta) -> Result<Rooms, Memory>
    ensures rooms { IfOk result (HaveRooms (blobs_of running.now) head new.now) }
    ensures makes { IfOk result
        (λ rooms. is_some rooms.chain ≡ not (is_some (map.get running.now.chains head))) }
{
    let alloc = running.alloc;
    let aside = if mark_of(new).is_some() {
        &running.marked
    } else {
        &running.metas
    };
    Ok(Rooms {
        chain: place(alloc, &running.chains, head)?,
        meta: place(alloc, aside, head)?,
    })
}
