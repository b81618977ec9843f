//! Stores that are loaded by their masks, and clean ones that aren't.

use crate::device_pages::patch;
use page_disk::{CallKind, FaultDisk, MemDisk};
use running_store::Loaded;
use std::alloc::Global;
use std::test::Fail;
use test_runs::play;
use test_stores::image;
use unclean_load::{LoadFault, load};

/// What a load of a device comes to: whether it went by the masks, and how many pages it read; or its fault.
fn loaded(alloc: Global, disk: MemDisk) -> Result<(bool, u64), LoadFault> {
    match load(alloc, FaultDisk::new(disk, Vec::new(alloc))) {
        Ok(loaded) => {
            let Loaded {
                disk,
                sup: _,
                metas: _,
                removed: _,
                marked: _,
                chains: _,
                repairs: _,
                masks: _,
                quick,
            } = loaded;
            Ok((quick, disk.calls(CallKind::Read)))
        }
        Err((_disk, fault)) => Err(fault),
    }
}

/// Expects what a load of a device comes to, as it is shown, or fails.
fn expect_load(alloc: Global, disk: MemDisk, wanted: &str) -> Result<(), Fail> {
    let found = format!(in alloc; "{:?}", loaded(alloc, disk))?;
    if found.as_str() != wanted {
        return Err(Fail::new(found));
    }
    Ok(())
}

/// A volume of one page of metadata at place 0, of which the cluster 5 is in slot 1.
fn written(alloc: Global) -> Result<MemDisk, Fail> {
    let script = b"0 create v 4 thin\n0 write v 5 1 7\n";
    play(
        alloc,
        script,
        b"0 0 ok @0\n0 1 ok\n",
        image(alloc, (64, 16), &[])?,
    )
}

/// Its device, of which a byte of a page is another one.
fn patched(alloc: Global, page: u64, at: usize, byte: u8) -> Result<MemDisk, Fail> {
    let mut disk = written(alloc)?;
    patch(&mut disk, page, at, &[byte])?;
    Ok(disk)
}

/// The super block, three masks, and the one metadata page that is used.
#[test]
fn a_clean_store_is_loaded_by_its_masks(rt: HostRuntime) -> Result<(), Fail> {
    expect_load(rt.alloc(), written(rt.alloc())?, "Ok((true, 5))")
}

/// Behind the masks each of 16 metadata pages is read, and the one head of them once more, as at first for its mask.
#[test]
fn a_store_with_a_cluster_too_many_in_its_mask_is_scanned(rt: HostRuntime) -> Result<(), Fail> {
    let disk = patched(rt.alloc(), 2, 5, 0b0111_1111)?;
    expect_load(rt.alloc(), disk, "Ok((false, 22))")
}

/// A run marks the store, and writes its masks anew.
#[test]
fn a_mask_with_a_cluster_too_many_is_written_anew(rt: HostRuntime) -> Result<(), Fail> {
    let disk = patched(rt.alloc(), 2, 5, 0b0111_1111)?;
    let printed = b"0 0 df clusters 10 of 16 pages 15 of 16\n";
    let disk = play(rt.alloc(), b"0 df\n", printed, disk)?;
    expect_load(rt.alloc(), disk, "Ok((true, 5))")
}

/// A byte of the one head's page is another: where the store is clean its mask says that a blob is there.
#[test]
fn a_head_that_its_mask_names_is_missed(rt: HostRuntime) -> Result<(), Fail> {
    let wanted = "Err(Chain { head: 0, fault: Unsound { page: 0 } })";
    expect_load(rt.alloc(), patched(rt.alloc(), 4, 100, 1)?, wanted)
}
