//! A listing as one line of JSON.

ghost use Rattle.std.specs.Prelude.{◌≡◌, ◌++◌, map as each, string_bytes, IfOk, OnOk, OnErr};
ghost use Rattle.super_block.specs.Faults.{IsFaultless};
ghost use Rattle.serde_json.specs.View.{view};
ghost use Rattle.blob_report.specs.Pieces.{shown_bytes};
ghost use Rattle.listing_text.specs.Listing as facts;
ghost use Rattle.listing_text.specs.Json as said;

use blob_meta::{Meta, Metas, is_super, parent_of};
use blob_report::{Piece, filled, push_pieces, space_of, store_kind, super_head};
use out_of_memory::Memory;
use running_store::Loaded;
use serde_json::{Map, Value, json, put};
use std::alloc::Global;
use super_block::{Masks, Super};

/// Bytes as they are shown, which is in ASCII.
fn shown(alloc: Global, bytes: &[u8]) -> Result<String, Memory>
    ensures { IfOk result (λ text. string_bytes text ≡ shown_bytes bytes.now) }
{
    let mut text = Vec::new(alloc);
    push_pieces(&[Piece::Shown(bytes)], &mut text)?;
    match String::from_utf8(text) {
        Ok(text) => Ok(text),
        Err(_) => unreachable!(),
    }
}

/// How many there are, and how many are free.
fn space_value(alloc: Global, total: u32, free: u32) -> Result<Value, Memory>
    ensures { IfOk result (λ value. view value ≡ said.space_data total free) }
{
    Ok(json!(in alloc; {"free": free, "total": total})?)
}

/// The store itself.
fn store_value(alloc: Global, sup: &Super, masks: &Masks) -> Result<Value, Memory>
    requires { IsFaultless sup.now }
    ensures { IfOk result (λ value. view value ≡ said.store_data (facts.store_facts sup.now masks.now)) }
{
    let kind = shown(alloc, store_kind(sup))?;
    let space = space_of(sup, masks);
    let clusters = space_value(alloc, space.clusters, space.free_clusters)?;
    let pages = space_value(alloc, space.pages, space.free_pages)?;
    let mut members = Map::new(alloc);
    put(&mut members, alloc, "clean", Value::from(sup.clean == 1))?;
    put(
        &mut members,
        alloc,
        "cluster_size",
        Value::from(sup.cluster_size),
    )?;
    put(&mut members, alloc, "clusters", clusters)?;
    put(&mut members, alloc, "pages", pages)?;
    put(&mut members, alloc, "type", Value::from(kind))?;
    Ok(Value::from(members))
}

/// The super blob at a head.
fn blob_value(alloc: Global, head: u32, meta: &Meta) -> Result<Value, Memory>
    ensures { IfOk result (λ value. view value ≡ said.blob_data (facts.blob_facts head meta.now)) }
{
    let name = shown(alloc, meta.xattrs.told(b"name"))?;
    let uuid = shown(alloc, meta.xattrs.told(b"uuid"))?;
    Ok(json!(in alloc; {"head": head, "name": name, "uuid": uuid})?)
}

/// The super blob, or null where there is none.
fn super_value(alloc: Global, sup: &Super, metas: &Metas) -> Result<Value, Memory>
    ensures { IfOk result (λ value. view value ≡ said.super_data (facts.super_facts sup.now metas.now)) }
{
    let Some(head) = super_head(sup) else {
        return Ok(Value::Null);
    };
    match metas.get(head) {
        Some(meta) => blob_value(alloc, head, meta),
        None => Ok(Value::Null),
    }
}

/// A parent's head, or null where there is none.
fn parent_value(parent: Option<u64>) -> Value
    ensures { view result ≡ said.parent_data parent }
{
    match parent {
        Some(head) => Value::from(head),
        None => Value::Null,
    }
}

/// The volume at a head.
fn volume_value(alloc: Global, head: u32, meta: &Meta) -> Result<Value, Memory>
    ensures { IfOk result (λ value. view value ≡ said.volume_data (facts.volume_facts head meta.now)) }
{
    let name = shown(alloc, meta.xattrs.told(b"name"))?;
    let uuid = shown(alloc, meta.xattrs.told(b"uuid"))?;
    let own = filled(meta.map.as_slice());
    let mut members = Map::new(alloc);
    put(&mut members, alloc, "head", Value::from(head))?;
    put(&mut members, alloc, "name", Value::from(name))?;
    put(&mut members, alloc, "own", Value::from(own))?;
    put(&mut members, alloc, "parent", parent_value(parent_of(meta)))?;
    put(
        &mut members,
        alloc,
        "read_only",
        Value::from(meta.flags.is_read_only()),
    )?;
    put(&mut members, alloc, "slots", Value::from(meta.map.len()))?;
    put(
        &mut members,
        alloc,
        "thin",
        Value::from(meta.flags.is_thin()),
    )?;
    put(&mut members, alloc, "uuid", Value::from(uuid))?;
    Ok(Value::from(members))
}

/// Adds the volume at a head, if one is there.
fn push_volume(
    alloc: Global,
    sup: &Super,
    metas: &Metas,
    head: u32,
    into: &mut Vec<Value>,
) -> Result<(), Memory>
    ensures { OnOk result (each view into.new.items ≡ each view into.old.items
        ++ each said.volume_data (facts.volume_at sup.now metas.now head)) }
{
    if is_super(sup, head) {
        return Ok(());
    }
    if let Some(meta) = metas.get(head) {
        into.push(volume_value(alloc, head, meta)?)?;
    }
    Ok(())
}

/// The volumes, by ascending head.
fn volumes_value(alloc: Global, sup: &Super, metas: &Metas) -> Result<Value, Memory>
    ensures { IfOk result (λ value. view value
        ≡ said.volumes_data (facts.volumes_below sup.now metas.now sup.now.md_len)) }
{
    let mut volumes = Vec::new(alloc);
    let end = sup.md_len;
    let mut from = 0;
    while let Some(head) = metas.next_below(from, end) {
        push_volume(alloc, sup, metas, head, &mut volumes)?;
        from = head + 1;
    }
    Ok(Value::from(volumes))
}

/// The whole listing.
fn listing_value(alloc: Global, sup: &Super, metas: &Metas, masks: &Masks) -> Result<Value, Memory>
    requires { IsFaultless sup.now }
    ensures { IfOk result (λ value. view value ≡ said.data_of (facts.listing_in sup.now metas.now masks.now)) }
{
    let store = store_value(alloc, sup, masks)?;
    let super_blob = super_value(alloc, sup, metas)?;
    let volumes = volumes_value(alloc, sup, metas)?;
    let mut members = Map::new(alloc);
    put(&mut members, alloc, "store", store)?;
    put(&mut members, alloc, "super", super_blob)?;
    put(&mut members, alloc, "volumes", volumes)?;
    Ok(Value::from(members))
}

/// The listing of a loaded store as one object of JSON, on a line.
pub fn render_json<D>(alloc: Global, loaded: &Loaded<D>) -> Result<Vec<u8>, Memory>
    requires { IsFaultless loaded.now.sup }
    ensures { IfOk result (λ text. text.items ≡ said.json_of (facts.listing_of loaded.now)) }
{
    let value = listing_value(alloc, &loaded.sup, &loaded.metas, &loaded.masks)?;
    let mut text = value.to_string(alloc)?.into_bytes();
    text.push(b'\n')?;
    Ok(text)
}
