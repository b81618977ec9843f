//! Super blocks and the layouts of new stores.

use crate::masks::expect_set;
use std::process::Abort;
use std::test::Fail;
use super_block::{
    Layout, Masks, Region, Span, Super, SuperFault, layouts_are_placed, read_super,
    regions_are_placed, rows_tile, shared_pages, write_super,
};

/// A store of 64 pages with clusters of 4 pages and 16 metadata pages, as it is when it is new.
pub fn small() -> Super {
    Super {
        device_pages: 64,
        signature: *b"SPDKBLOB",
        version: 3,
        length: 4096,
        clean: 1,
        super_blob: u64::MAX,
        cluster_size: 16384,
        used_page_mask_start: 1,
        used_page_mask_len: 1,
        used_cluster_mask_start: 2,
        used_cluster_mask_len: 1,
        md_start: 4,
        md_len: 16,
        bstype: [0; 16],
        used_blobid_mask_start: 3,
        used_blobid_mask_len: 1,
        size: 262144,
        io_unit_size: 4096,
        md_page_size: 0,
        rest: [0; 3996],
        crc: 0,
    }
}

/// Expects the numbers of the small store in its super block.
fn expect_small(rt: &impl Abort, page: &[u8; 4096]) -> Result<(), Fail> {
    let sup = read_super(page, 64)?;
    let clusters = (sup.cluster_pages(), sup.clusters(), sup.fixed_clusters());
    assert!(rt; clusters == (4, 16, 5));
    assert!(rt; sup.device_pages == 64 && sup.super_blob == u64::MAX);
    assert!(rt; sup.md_len == 16 && sup.crc == 0x3BE5_9C66);
    Ok(())
}

/// The fault of a super block on a device of 64 pages.
fn fault(page: &[u8; 4096]) -> Option<SuperFault> {
    read_super(page, 64).err()
}

/// Expects the fault of a sound page behind each change.
fn expect_faults(rt: &impl Abort, page: &mut [u8; 4096]) {
    page[4095] ^= 1;
    assert!(rt; fault(page) == Some(SuperFault::BadChecksum));
    page[8] = 2;
    assert!(rt; fault(page) == Some(SuperFault::BadVersion { found: 2 }));
    page[7] = 0;
    assert!(rt; fault(page) == Some(SuperFault::BadSignature));
}

#[test]
fn a_new_store_is_written_and_read(rt: HostRuntime) -> Result<(), Fail> {
    rows_tile();
    regions_are_placed();
    let mut page = [0xAA; 4096];
    write_super(&small(), &mut page);
    let head = *b"SPDKBLOB\x03\0\0\0";
    assert!(rt; page[..12] == head[..]);
    assert!(rt; page[4092..] == [0x66, 0x9C, 0xE5, 0x3B]);
    expect_small(&rt, &page)?;
    expect_faults(&rt, &mut page);
    Ok(())
}

#[test]
fn neighbours_share_no_page(rt: HostRuntime) {
    shared_pages();
    let mask = Span {
        region: Region::PageMask,
        start: 1,
        len: 2,
    };
    let md = Span {
        region: Region::Md,
        start: 3,
        len: 16,
    };
    assert!(rt; mask.end() == 3 && !mask.shares(&md) && md.shares(&md));
}

/// Pages of a device, pages of a cluster and metadata pages.
type Wish = (u64, u32, Option<u32>);

/// Wishes, and what is planned: the first metadata page, the clusters and those that are fixed.
static PLANS: [(Wish, Result<(u32, u32, u32), SuperFault>); 9] = [
    (
        (19, 4, Some(16)),
        Err(SuperFault::DeviceTooSmall { has: 19, wants: 20 }),
    ),
    ((20, 4, Some(16)), Ok((4, 5, 5))),
    ((64, 4, Some(16)), Ok((4, 16, 5))),
    ((26_214_400, 1024, None), Ok((4, 25_600, 26))),
    ((64, 0, None), Err(SuperFault::BadClusterSize { found: 0 })),
    (
        (64, 1 << 20, None),
        Err(SuperFault::BadClusterSize {
            found: 4_294_967_295,
        }),
    ),
    (
        (1 << 40, 1, Some(1_048_577)),
        Err(SuperFault::TooManyPages { found: 1_048_577 }),
    ),
    (
        (1 << 40, 1, None),
        Err(SuperFault::TooManyPages {
            found: 4_294_967_295,
        }),
    ),
    (
        (16_777_217, 1, Some(16)),
        Err(SuperFault::TooManyClusters { found: 16_777_217 }),
    ),
];

fn planned(wish: Wish) -> Result<(u32, u32, u32), SuperFault> {
    let (device_pages, cluster_pages, md_pages) = wish;
    let layout = Layout::plan(device_pages, cluster_pages, md_pages)?;
    Ok((layout.md_start, layout.clusters, layout.fixed_clusters))
}

fn expect_planned_page(rt: &impl Abort) -> Result<(), Fail> {
    let layout = Layout::plan(64, 4, Some(16))?;
    let mut planned = [0; 4096];
    write_super(&layout.new_super(u64::MAX, [0; 16]), &mut planned);
    let mut wanted = [0; 4096];
    write_super(&small(), &mut wanted);
    assert!(rt; planned == wanted);
    Ok(())
}

#[test]
fn stores_are_planned(rt: HostRuntime) -> Result<(), Fail> {
    layouts_are_placed();
    for (wish, wanted) in &PLANS {
        assert_eq!(rt; planned(*wish), *wanted, "at {wish:?}");
    }
    expect_planned_page(&rt)
}

#[test]
fn the_fixed_clusters_of_a_new_store_are_used(rt: HostRuntime) -> Result<(), Fail> {
    let layout = Layout::plan(64, 4, Some(16))?;
    assert!(rt; layout.free_clusters() == 11);
    let masks = Masks::new(rt.alloc(), &layout)?;
    expect_set(&rt, &masks.clusters, 16, 5, Some(5));
    expect_set(&rt, &masks.pages, 16, 0, Some(0));
    expect_set(&rt, &masks.blobs, 16, 0, Some(0));
    Ok(())
}
