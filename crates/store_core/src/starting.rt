//! What a running store is made of at its start.

ghost use Rattle.std.specs.Prelude.{◌≡◌, ◌+◌, ◌<◌, ◌≤◌, ◌^◌, ℕ, List, [], is_some, None, IfOk, IfSome};
ghost use Rattle.std.specs.FinMap as map;
ghost use Rattle.volume_model.specs.declared.command.Command.{Command as ACommand};
ghost use Rattle.store_core.specs.Opening.{AreGuardsAtStart, AreRows, IsAtStart, IsLiveAtStart, opened_with};
ghost use Rattle.running_store.specs.Recovered.{IsLoadedFrom};
ghost use Rattle.running_store.specs.Running.{view_of, InOrder, left_in};
ghost use Rattle.running_store.specs.StoreView.{base_of};
ghost use Rattle.store_model.specs.Places.{Unclaimed, UsedClusters, UsedPages};

use crate::removed::with_blobs;
use blob_meta::{HeadMap, Metas};
use io_freeze::Guards;
use out_of_memory::Memory;
use page_disk::PageDisk;
use pools::{ClusterPool, PagePool};
use running_store::{Loaded, Row, Running};
use std::alloc::Global;
use super_block::Masks;
use volume_model::{Entry, Script, TryCopy, XattrList};

/// What a running store has beside what was loaded.
pub(crate) struct AtStart {
    pub(crate) live: HeadMap<XattrList>,
    pub(crate) guards: Guards,
    pub(crate) rows: Vec<Row>,
    pub(crate) entries: Vec<Entry>,
    pub(crate) marks: Vec<u64>,
}

/// All that a start takes memory for; the log has room for every command. 2^31 commands and more are answered as want
/// of memory.
pub(crate) fn parts_at_start(
    alloc: Global,
    metas: &Metas,
    marked: &Metas,
    md_len: u32,
    script: Script,
    clock: u64,
) -> Result<AtStart, Memory>
    requires stay { (head : ℕ) → md_len ≤ head → map.get metas.now head ≡ None }
    requires read { (head : ℕ) → md_len ≤ head → base_of metas.now marked.now head ≡ None }
    ensures { IfOk result (IsAtStart metas.now (base_of metas.now marked.now) script clock) }
{
    let live = live_at_start(alloc, metas, md_len)?;
    let guards = guards_at_start(alloc, metas, marked, md_len)?;
    let rows = rows_at_start(alloc, script)?;
    let Some(count) = count_left(rows.as_slice()) else {
        return Err(Memory);
    };
    let entries = Vec::with_capacity(alloc, count)?;
    let mut marks = Vec::with_capacity(alloc, count + 1)?;
    marks.push_reserved(clock);
    Ok(AtStart {
        live,
        guards,
        rows,
        entries,
        marks,
    })
}

/// A store as it was loaded, with these parts, of which nothing is posted. What the blobs have that recovery removes is
/// in use too.
pub(crate) fn running_at_start<D: PageDisk>(
    alloc: Global,
    loaded: Loaded<D>,
    parts: AtStart,
) -> Running<D>
    requires parts { (script : List (List ACommand))
        × IsAtStart loaded.metas (base_of loaded.metas loaded.marked) script (D.clock loaded.disk) parts }
    requires inside { loaded.sup.md_start + loaded.sup.md_len ≤ D.pages loaded.disk }
    requires device { loaded.sup.device_pages ≤ D.pages loaded.disk }
    requires recovered { IsLoadedFrom (base_of loaded.metas loaded.marked) loaded }
    ensures at { view_of result ≡ opened_with D.PageDisk loaded parts.live parts.guards parts.rows.items
        result.pages.bits result.clusters.bits }
    ensures pages { UsedPages loaded.sup.md_len result.pages.bits (map.get loaded.chains) [] }
    ensures clusters { UsedClusters loaded.sup result.clusters.bits (base_of loaded.metas loaded.marked) Unclaimed }
    ensures order { InOrder D.PageDisk result }
{
    let Loaded {
        disk,
        sup,
        metas,
        removed,
        marked,
        chains,
        repairs: _,
        masks,
        quick: _,
    } = loaded;
    let Masks {
        pages,
        clusters,
        blobs: heads,
    } = with_blobs(masks, &removed, &chains, sup.md_len);
    let AtStart {
        live,
        guards,
        rows,
        entries,
        marks,
    } = parts;
    let is_clean = sup.clean == 1;
    Running {
        alloc,
        disk,
        sup,
        is_clean,
        metas,
        marked,
        chains,
        live,
        pages: PagePool::new(pages),
        clusters: ClusterPool::new(clusters),
        heads,
        guards,
        rows,
        filling: None,
        job: None,
        serial: 0,
        entries,
        logged: [0; 16],
        marks,
        stopped: None,
    }
}

/// The live attributes of each blob of a store with so many metadata pages: those of its metadata.
pub(crate) fn live_at_start(
    alloc: Global,
    metas: &Metas,
    md_len: u32,
) -> Result<HeadMap<XattrList>, Memory>
    requires { (head : ℕ) → md_len ≤ head → map.get metas.now head ≡ None }
    ensures { IfOk result (IsLiveAtStart metas.now) }
{
    let mut live = HeadMap::new(alloc);
    let mut from = 0;
    while let Some(head) = metas.next_below(from, md_len) {
        if let Some(meta) = metas.get(head) {
            live.insert(head, meta.xattrs.try_copy(alloc)?)?;
        }
        from = head + 1;
    }
    Ok(live)
}

/// Whether a blob was read at a head: one with a mark, or one of these.
fn was_read(metas: &Metas, marked: &Metas, head: u32) -> bool
    ensures { result ≡ is_some (base_of metas.now marked.now head) }
{
    marked.get(head).is_some() || metas.get(head).is_some()
}

/// The guards of all blobs that were read of a store with so many metadata pages, of which none is frozen.
pub(crate) fn guards_at_start(
    alloc: Global,
    metas: &Metas,
    marked: &Metas,
    md_len: u32,
) -> Result<Guards, Memory>
    requires { (head : ℕ) → md_len ≤ head → base_of metas.now marked.now head ≡ None }
    ensures { IfOk result (AreGuardsAtStart (base_of metas.now marked.now)) }
{
    // Room for one more than can ever be: where every page is a head, a new blob lacks a page, and not memory.
    let room = md_len.saturating_add(1);
    let mut guards = Guards::new(alloc, room)?;
    for head in 0..md_len {
        if was_read(metas, marked, head) {
            guards.add(head);
        }
    }
    Ok(guards)
}

/// The rows of sixteen channels, with the commands of the script, and the fill's.
pub(crate) fn rows_at_start(alloc: Global, script: Script) -> Result<Vec<Row>, Memory>
    ensures { IfOk result (λ rows. AreRows script rows.items) }
{
    let mut script = script;
    let channels = script.channels();
    let mut rows = Vec::with_capacity(alloc, 17)?;
    for channel in 0..16 {
        let commands = script.take(alloc, channel);
        let row = if channel < channels {
            Row::new(alloc, commands)?
        } else {
            Row::ended(alloc)
        };
        rows.push(row)?;
    }
    rows.push(Row::new(alloc, Vec::new(alloc))?)?;
    Ok(rows)
}

/// How many commands the rows have together, if that is below 2^31.
pub(crate) fn count_left(rows: &[Row]) -> Option<usize>
    ensures few { IfSome result (λ n. n < 2 ^ 31) }
    ensures count { IfSome result (λ n. n ≡ left_in rows.now) }
{
    let mut count = 0_usize;
    for row in rows {
        count = count.checked_add(row.len())?;
    }
    if count < 1 << 31 { Some(count) } else { None }
}
