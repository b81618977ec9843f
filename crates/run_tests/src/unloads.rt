//! What a run leaves of the super block and the masks.

use crate::device_pages::{page_at, patch_super};
use page_disk::{CallKind, FaultDisk, MemDisk, Page};
use std::alloc::Global;
use std::test::Fail;
use test_runs::play;
use test_stores::{are_same, fill, volume};

/// The two bytes of a set of 16, the lowest place in the lowest bit.
type Bits = (u8, u8);

/// A script, what it prints, and which metadata pages, clusters and heads are used then.
type Case = (&'static [u8], &'static [u8], Bits, Bits, Bits);

/// Before, the one volume has the pages 0 to 2 and the clusters 7 to 9; the clusters 0 to 4 are fixed. A chain that is
/// written anew takes the least clear pages behind its head.
static CASES: [Case; 6] = [
    (
        b"0 put v a t:b\n",
        b"0 0 ok\n",
        (0b0001_1001, 0),
        (0b1001_1111, 0b11),
        (0b1, 0),
    ),
    (
        b"0 create w 2 thick\n",
        b"0 0 ok @3\n",
        (0b1111, 0),
        (0b1111_1111, 0b11),
        (0b1001, 0),
    ),
    (
        b"0 write v 0 1 7\n",
        b"0 0 ok\n",
        (0b0001_1001, 0),
        (0b1011_1111, 0b11),
        (0b1, 0),
    ),
    (
        b"0 resize v 5\n",
        b"0 0 ok\n",
        (0b0001_1001, 0),
        (0b1001_1111, 0),
        (0b1, 0),
    ),
    (
        b"0 snapshot v c\n",
        b"0 0 ok @3\n",
        (0b0011_1001, 0),
        (0b1001_1111, 0b11),
        (0b1001, 0),
    ),
    (
        b"0 delete v\n",
        b"0 0 ok\n",
        (0, 0),
        (0b0001_1111, 0),
        (0, 0),
    ),
];

/// The page of the mask of this type, with these of its 16 bits.
fn mask(kind: u8, bits: Bits) -> Page {
    let mut page: Page = [0; 4096];
    page[0] = kind;
    page[1] = 16;
    page[5] = bits.0;
    page[6] = bits.1;
    page
}

/// Expects that a device has these pages, by their places, or fails.
fn expect_pages(disk: &mut MemDisk, pages: &[(u64, Page)]) -> Result<(), Fail> {
    for (at, wanted) in pages {
        if page_at(disk, *at)? != *wanted {
            return Err(Fail::new(format_args!("page {at} is another one")));
        }
    }
    Ok(())
}

/// Expects that a device has the super block of a clean store with the one volume, or fails.
fn expect_super(alloc: Global, disk: &mut MemDisk) -> Result<(), Fail> {
    if !are_same(disk, &mut volume(alloc, 16)?, 1)? {
        return Err(Fail::new("the super block is another one"));
    }
    Ok(())
}

/// Expects that the run of a case leaves the super block of a clean store, as it was, and the masks of what is used.
fn expect_left(alloc: Global, case: &Case) -> Result<(), Fail> {
    let (script, printed, pages, clusters, heads) = *case;
    let mut disk = play(alloc, script, printed, volume(alloc, 16)?)?;
    expect_super(alloc, &mut disk)?;
    let masks = [
        (1, mask(0, pages)),
        (2, mask(1, clusters)),
        (3, mask(2, heads)),
    ];
    expect_pages(&mut disk, &masks)
}

#[test]
fn a_run_leaves_the_masks_of_what_is_used(rt: HostRuntime) -> Result<(), Fail> {
    for case in &CASES {
        expect_left(rt.alloc(), case)?;
    }
    Ok(())
}

/// Scripts without a job, and what they print.
static WITHOUT_JOB: [(&[u8], &[u8]); 3] = [
    (b"", b""),
    (
        b"0 df\n0 read v 0 1\n0 getx v name\n",
        b"0 0 df clusters 8 of 16 pages 13 of 16\n0 1 page fill 0000000000000000\n0 2 value 7600\n",
    ),
    (
        b"0 setx v a t:b\n0 create v 1 thin\n0 delete w\n",
        b"0 0 ok\n0 1 name taken\n0 2 no volume\n",
    ),
];

/// The device after a script whose one call that changes something is the flush at the end, where the masks are those
/// that a run left; fails where it makes others.
fn flushed(alloc: Global, script: &[u8], printed: &[u8], disk: MemDisk) -> Result<MemDisk, Fail> {
    let disk = play(
        alloc,
        script,
        printed,
        FaultDisk::new(disk, Vec::new(alloc)),
    )?;
    if disk.calls(CallKind::Write) != 0 || disk.calls(CallKind::Flush) != 1 {
        return Err(Fail::new("it wrote"));
    }
    Ok(disk.into_inner())
}

/// Expects that a script leaves a device as it was.
fn expect_kept(
    alloc: Global,
    left: &mut MemDisk,
    script: &[u8],
    printed: &[u8],
) -> Result<(), Fail> {
    let mut disk = flushed(alloc, script, printed, left.crash(0)?)?;
    if !are_same(&mut disk, left, 64)? {
        return Err(Fail::new("a page is another one"));
    }
    Ok(())
}

#[test]
fn a_script_without_a_job_leaves_the_device_as_it_was(rt: HostRuntime) -> Result<(), Fail> {
    let mut left = play(rt.alloc(), b"", b"", volume(rt.alloc(), 16)?)?;
    for (script, printed) in &WITHOUT_JOB {
        expect_kept(rt.alloc(), &mut left, script, printed)?;
    }
    Ok(())
}

/// The store of the volume, whose page mask stands behind the metadata, in the pages 20 and 21: so six clusters are
/// fixed. Both have other bytes than zeros.
fn with_mask_behind(alloc: Global) -> Result<MemDisk, Fail> {
    let mut disk = volume(alloc, 16)?;
    patch_super(&mut disk, 32, &[20, 0, 0, 0, 2, 0, 0, 0])?;
    fill(&mut disk, 20, 22)?;
    Ok(disk)
}

/// The mask takes the first of its pages.
#[test]
fn a_page_behind_a_mask_stays_as_it_was(rt: HostRuntime) -> Result<(), Fail> {
    let disk = with_mask_behind(rt.alloc())?;
    let mut disk = play(rt.alloc(), b"0 put v a t:b\n", b"0 0 ok\n", disk)?;
    let pages = [
        (20, mask(0, (0b0001_1001, 0))),
        (2, mask(1, (0b1011_1111, 0b11))),
        (21, [0xAB; 4096]),
        (1, [0; 4096]),
    ];
    expect_pages(&mut disk, &pages)
}
