//! Stores that are loaded whole, and what recovery makes of blobs with marks.

use bit_array::Bits;
use blob_meta::{Chains, Metas};
use page_disk::MemDisk;
use running_store::Loaded;
use std::alloc::Global;
use std::test::Fail;
use super_block::Masks;
use test_stores::{LAST, PageRow, THIN, image};
use unclean_load::{clean_stores_are_quick, fixed_clusters_decide, load, stores_are_accepted};

/// An attribute `name` of value `a`.
const NAME: &[u8] = b"\x02\x0a\0\0\0\x04\0\x02\0namea\0";

/// An attribute of the same name, of value `b`.
const OTHER_NAME: &[u8] = b"\x02\x0a\0\0\0\x04\0\x02\0nameb\0";

/// What is loaded of a device, which has to be a store, and whether it was loaded by its masks.
pub(crate) fn parts_on(alloc: Global, disk: MemDisk) -> Result<(Metas, Chains, Masks, bool), Fail> {
    match load(alloc, disk) {
        Ok(loaded) => {
            let Loaded {
                disk: _disk,
                sup: _sup,
                metas,
                removed: _removed,
                marked: _marked,
                chains,
                repairs: _repairs,
                masks,
                quick,
            } = loaded;
            Ok((metas, chains, masks, quick))
        }
        Err((_, fault)) => Err(Fail::new(fault)),
    }
}

/// The pages of a blob at place 2 whose chain goes on at 9 and ends at 3.
const CHAIN: [PageRow; 3] = [
    (2, 2, 0, 9, &[THIN, NAME]),
    (9, 2, 1, 3, &[b"\x01\x08\0\0\0\x07\0\0\0\x02\0\0\0"]),
    (
        3,
        2,
        2,
        LAST,
        &[b"\x01\x10\0\0\0\0\0\0\0\x01\0\0\0\x09\0\0\0\x01\0\0\0"],
    ),
];

/// What is loaded of that chain.
fn whole(alloc: Global) -> Result<(Metas, Chains, Masks, bool), Fail> {
    parts_on(alloc, image(alloc, (256, 16), &CHAIN)?)
}

/// The id, the map and the attributes of the blob at place 2, and the places of its chain.
fn blob_line(alloc: Global, metas: &Metas, chains: &Chains) -> Result<String, Fail> {
    match (metas.get(2), chains.get(2)) {
        (Some(meta), Some(places)) => Ok(format!(in alloc;
            "{} {:?} {:?} {:?}",
            meta.id,
            meta.map.as_slice(),
            meta.xattrs.as_slice(),
            places.as_slice()
        )?),
        _ => Ok(format!(in alloc; "no blob")?),
    }
}

/// The numbers in a set, as text.
fn members(alloc: Global, bits: &Bits) -> Result<String, Fail> {
    let mut all = Vec::new(alloc);
    for at in 0..bits.len() {
        if bits.get(at) {
            all.push(at)?;
        }
    }
    Ok(format!(in alloc; "{all:?}")?)
}

#[test]
fn a_blob_with_a_chain_of_three_pages_is_loaded_whole(rt: HostRuntime) -> Result<(), Fail> {
    stores_are_accepted();
    fixed_clusters_decide();
    let (metas, chains, _, _) = whole(rt.alloc())?;
    assert_eq!(rt;
        blob_line(rt.alloc(), &metas, &chains)?.as_str(),
        "4294967298 [Some(7), Some(8), None, Some(9)] \
            [Xattr { key: Blobtext { bytes: [110, 97, 109, 101] }, value: Blobtext { bytes: [97, 0] } }] [2, 9, 3]"
    );
    Ok(())
}

#[test]
fn of_two_attributes_with_one_name_the_first_counts(rt: HostRuntime) -> Result<(), Fail> {
    let rows: [PageRow; 1] = [(2, 2, 0, LAST, &[THIN, NAME, OTHER_NAME])];
    let (metas, chains, _, _) = parts_on(rt.alloc(), image(rt.alloc(), (256, 16), &rows)?)?;
    assert_eq!(rt;
        blob_line(rt.alloc(), &metas, &chains)?.as_str(),
        "4294967298 [] [Xattr { key: Blobtext { bytes: [110, 97, 109, 101] }, value: Blobtext { bytes: [97, 0] } }] [2]"
    );
    Ok(())
}

#[test]
fn the_masks_have_what_a_chain_of_three_pages_uses(rt: HostRuntime) -> Result<(), Fail> {
    clean_stores_are_quick();
    let (_, _, masks, quick) = whole(rt.alloc())?;
    let table = [
        (&masks.pages, "[2, 3, 9]"),
        (&masks.clusters, "[0, 1, 2, 3, 4, 7, 8, 9]"),
        (&masks.blobs, "[2]"),
    ];
    for (bits, numbers) in table {
        assert_eq!(rt; members(rt.alloc(), bits)?.as_str(), numbers);
    }
    assert!(rt; !quick);
    Ok(())
}

/// The heads below 4 that a map has, as text.
fn heads(alloc: Global, metas: &Metas) -> Result<String, Fail> {
    let mut all = Vec::new(alloc);
    for head in 0..4 {
        if metas.get(head).is_some() {
            all.push(head)?;
        }
    }
    Ok(format!(in alloc; "{all:?}")?)
}

/// Of what is loaded, the heads of the blobs that stay, of those that recovery removes, and of those with a mark; how
/// many repairs there are; and the clusters and pages in use.
fn recovered_line<D: Drop>(alloc: Global, loaded: Loaded<D>) -> Result<String, Fail> {
    let Loaded {
        disk: _disk,
        sup: _sup,
        metas,
        removed,
        marked,
        chains: _chains,
        repairs,
        masks,
        quick: _quick,
    } = loaded;
    Ok(format!(in alloc;
        "{} {} {} {} {} {}",
        heads(alloc, &metas)?,
        heads(alloc, &removed)?,
        heads(alloc, &marked)?,
        repairs.as_slice().len(),
        members(alloc, &masks.clusters)?,
        members(alloc, &masks.pages)?
    )?)
}

/// Attributes that name heads: SNAP head 0, SNAPTMP and SNAPRM head 1.
const SNAP_0: &[u8] = b"\x04\x10\0\0\0\x04\0\x08\0SNAP\0\0\0\0\x01\0\0\0";

const SNAPTMP_1: &[u8] = b"\x04\x13\0\0\0\x07\0\x08\0SNAPTMP\x01\0\0\0\x01\0\0\0";

const SNAPRM_1: &[u8] = b"\x04\x12\0\0\0\x06\0\x08\0SNAPRM\x01\0\0\0\x01\0\0\0";

/// Blobs at places 0 and 2 that are marked, of which that at 0 has the clone 1; each has a cluster.
const MARKED: [PageRow; 3] = [
    (
        0,
        0,
        0,
        LAST,
        &[THIN, SNAPRM_1, b"\x01\x08\0\0\0\x06\0\0\0\x01\0\0\0"],
    ),
    (
        1,
        1,
        0,
        LAST,
        &[THIN, SNAP_0, b"\x01\x08\0\0\0\x07\0\0\0\x01\0\0\0"],
    ),
    (
        2,
        2,
        0,
        LAST,
        &[THIN, SNAPTMP_1, b"\x01\x08\0\0\0\x08\0\0\0\x01\0\0\0"],
    ),
];

#[test]
fn marked_blobs_are_kept_with_their_clones_or_removed(rt: HostRuntime) -> Result<(), Fail> {
    match load(rt.alloc(), image(rt.alloc(), (256, 16), &MARKED)?) {
        Ok(loaded) => {
            assert_eq!(rt;
                recovered_line(rt.alloc(), loaded)?.as_str(),
                "[0, 1] [2] [0, 2] 2 [0, 1, 2, 3, 4, 6, 7] [0, 1]"
            );
            Ok(())
        }
        Err((_, fault)) => Err(Fail::new(fault)),
    }
}
