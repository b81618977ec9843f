//! The metadata that the items of a chain say.

ghost use Rattle.std.specs.Prelude.{◌≡◌, ◌++◌, None, OnOk, IfOk, IfErr};
ghost use Rattle.std.specs.List.{flat_map, filter_map, list_any};
ghost use Rattle.std.specs.Str.{bytes_eq};
ghost use Rattle.blob_meta.specs.Says.{flags_in as flags_said, runs_in as runs_said, firsts, xattr_in};
ghost use Rattle.blob_meta.specs.Says.{internal_in as internal_said, found_xattr, with_first, with_found};
ghost use Rattle.blob_meta.specs.Says.{map_in as map_said, meta_of};
ghost use Rattle.super_block.specs.Faults.{IsFaultless};
ghost use Rattle.super_block.specs.Numbers.{clusters_of, fixed_clusters_of};
ghost use Rattle.blob_meta.specs.Faults.{map_fault, meta_fault, IsMetaFaultOf};

use crate::checks::{bad_mark, cluster_outside, hole_in_thick, too_large, unknown_flag};
use crate::fault::MetaFault;
use crate::meta::{Flags, Meta};
use descriptors::{Item, ItemList, SlotMap, slots_of};
use out_of_memory::Memory;
use std::alloc::Global;
use super_block::Super;
use volume_model::{Blobtext, RunList, TryCopy, Xattr, XattrList};

/// The flags of the last flags item, or zeros, with bit 1 of `invalid` as 0.
fn flags_in(items: &[Item]) -> Flags
    ensures { result ≡ flags_said items.now }
{
    let mut flags = Flags {
        invalid: 0,
        data_ro: 0,
        md_ro: 0,
    };
    for item in items {
        if let Item::Flags {
            invalid,
            data_ro,
            md_ro,
        } = item
        {
            flags = Flags {
                invalid: *invalid,
                data_ro: *data_ro,
                md_ro: *md_ro,
            };
        }
    }
    Flags {
        invalid: flags.invalid - 2 * (flags.invalid / 2 % 2),
        data_ro: flags.data_ro,
        md_ro: flags.md_ro,
    }
}

/// The runs of all descriptors, one after another.
fn runs_in(alloc: Global, items: &[Item]) -> Result<RunList, Memory>
    ensures { IfOk result (λ runs. runs ≡ flat_map runs_said items.now) }
{
    let mut all = RunList::new(alloc);
    for item in items {
        if let Item::Rle(runs) = item {
            append_runs(&mut all, runs)?;
        }
    }
    Ok(all)
}

fn append_runs(all: &mut RunList, runs: &RunList) -> Result<(), Memory>
    ensures { OnOk result (all.new ≡ all.old ++ runs.now) }
{
    for run in runs.as_slice() {
        all.push(*run)?;
    }
    Ok(())
}

fn has_key(xattrs: &[Xattr], key: &[u8]) -> bool
    ensures { result ≡ list_any (λ x. bytes_eq x.key key.now) xattrs.now }
{
    xattrs.iter().any(|x| x.key.bytes() == key)
}

/// A key and its value.
type Found<'a> = Option<(&'a Blobtext, &'a Blobtext)>;

fn xattr_of(item: &Item) -> Found<'_>
    ensures { found_xattr result ≡ xattr_in item.now }
{
    match item {
        Item::Xattr { key, value } => Some((key, value)),
        _ => None,
    }
}

fn internal_of(item: &Item) -> Found<'_>
    ensures { found_xattr result ≡ internal_said item.now }
{
    match item {
        Item::InternalXattr { key, value } => Some((key, value)),
        _ => None,
    }
}

/// Appends an attribute, unless one of its name is there.
fn add_new(
    alloc: Global,
    xattrs: &mut XattrList,
    key: &Blobtext,
    value: &Blobtext,
) -> Result<(), Memory>
    ensures { OnOk result (xattrs.new ≡ with_first xattrs.old (record { key = key.now; value = value.now })) }
{
    if has_key(xattrs.as_slice(), key.bytes()) {
        return Ok(());
    }
    xattrs.push(Xattr {
        key: key.try_copy(alloc)?,
        value: value.try_copy(alloc)?,
    })
}

fn add_first(alloc: Global, xattrs: &mut XattrList, found: Found<'_>) -> Result<(), Memory>
    ensures { OnOk result (xattrs.new ≡ with_found xattrs.old (found_xattr found.entry)) }
{
    match found {
        Some((key, value)) => add_new(alloc, xattrs, key, value),
        None => Ok(()),
    }
}

fn xattrs_in(alloc: Global, items: &[Item]) -> Result<XattrList, Memory>
    ensures { IfOk result (λ xattrs. xattrs ≡ firsts (filter_map xattr_in items.now)) }
{
    let mut xattrs = XattrList::new(alloc);
    for item in items {
        add_first(alloc, &mut xattrs, xattr_of(item))?;
    }
    Ok(xattrs)
}

fn internal_in(alloc: Global, items: &[Item]) -> Result<XattrList, Memory>
    ensures { IfOk result (λ xattrs. xattrs ≡ firsts (filter_map internal_said items.now)) }
{
    let mut xattrs = XattrList::new(alloc);
    for item in items {
        add_first(alloc, &mut xattrs, internal_of(item))?;
    }
    Ok(xattrs)
}

/// The map of the runs, where it has at most 2^20 slots and no cluster outside.
fn map_in(alloc: Global, items: &[Item], fixed: u32, clusters: u32) -> Result<SlotMap, MetaFault>
    ensures found { IfOk result (λ map. map ≡ map_said items.now) }
    ensures sound { OnOk result (map_fault fixed clusters (map_said items.now) ≡ None) }
    ensures fault { IfErr result (λ e. IsMetaFaultOf e (map_fault fixed clusters (map_said items.now))) }
{
    let runs = runs_in(alloc, items)?;
    if let Some(fault) = too_large(&runs) {
        return Err(fault);
    }
    if let Some(fault) = cluster_outside(&runs, fixed, clusters) {
        return Err(fault);
    }
    match slots_of(alloc, &runs) {
        Ok(map) => Ok(map),
        Err(_) => Err(MetaFault::Memory),
    }
}

/// What the items say of the blob at a head, in a store with so many fixed clusters and clusters in all.
fn meta_in(
    alloc: Global,
    head: u32,
    items: &[Item],
    fixed: u32,
    clusters: u32,
) -> Result<Meta, MetaFault>
    ensures found { IfOk result (λ meta. meta ≡ meta_of head items.now) }
    ensures sound { OnOk result (meta_fault fixed clusters (meta_of head items.now) ≡ None) }
    ensures fault { IfErr result (λ e. IsMetaFaultOf e (meta_fault fixed clusters (meta_of head items.now))) }
{
    let flags = flags_in(items);
    if let Some(fault) = unknown_flag(flags) {
        return Err(fault);
    }
    let map = map_in(alloc, items, fixed, clusters)?;
    if let Some(fault) = hole_in_thick(flags, &map) {
        return Err(fault);
    }
    let internal = internal_in(alloc, items)?;
    bad_mark(alloc, &internal)?;
    Ok(Meta {
        id: (1 << 32) + u64::from(head),
        flags,
        xattrs: xattrs_in(alloc, items)?,
        internal,
        map,
    })
}

/// The metadata that the items of the chain at a head say, or the first fault that it has in this store.
pub fn from_items(
    alloc: Global,
    head: u32,
    items: &ItemList,
    sup: &Super,
) -> Result<Meta, MetaFault>
    requires { IsFaultless sup.now }
    ensures found { IfOk result (λ meta. meta ≡ meta_of head items.now) }
    ensures no_fault { OnOk result (meta_fault (fixed_clusters_of sup.now) (clusters_of sup.now)
        (meta_of head items.now) ≡ None) }
    ensures fault { IfErr result (λ e. IsMetaFaultOf e (meta_fault (fixed_clusters_of sup.now) (clusters_of sup.now)
        (meta_of head items.now))) }
{
    let fixed = sup.fixed_clusters();
    let clusters = sup.clusters();
    meta_in(alloc, head, items.as_slice(), fixed, clusters)
}
