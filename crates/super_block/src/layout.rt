//! The layout of a new store.

ghost use Rattle.std.specs.Prelude.{◌≡◌, ◌≤◌, ◌<◌, ◌-◌, ◌/◌, ◌*◌, ◌^◌, IfOk, IfErr, OnOk, Some, None};
ghost use Rattle.std.specs.Result.{result_err};
ghost use Rattle.super_block.specs.Faults.{IsFaultless};
ghost use Rattle.super_block.specs.Layout.{IsPlanned, cluster_pages_fault, layout_of, md_pages_of, new_super};
ghost use Rattle.super_block.specs.Layout.{plan_fault, room_fault};

use crate::checks::{SIGNATURE, VERSION, check_clusters, check_pages, in_u32};
use crate::fault::SuperFault;
use crate::laws::layouts_are_placed;
use crate::numbers::clusters_before;
use crate::page::Super;
use bit_array::mask_pages;

/// Where the masks and the metadata region of a new store stand. Starts and lengths are in pages of 4096 bytes, from
/// the beginning of the device.
#[derive(Clone, Copy, Debug, PartialEq, Eq)]
pub struct Layout {
    /// The pages of the device.
    pub device_pages: u64,
    /// The pages of a cluster.
    pub cluster_pages: u32,
    /// The pages of the metadata region, which begins at `md_start`.
    pub md_pages: u32,
    pub page_mask_start: u32,
    pub page_mask_len: u32,
    pub cluster_mask_start: u32,
    pub cluster_mask_len: u32,
    pub blob_mask_start: u32,
    pub blob_mask_len: u32,
    pub md_start: u32,
    /// The whole clusters of the device.
    pub clusters: u32,
    /// The clusters that hold a page of the super block, of a mask or of the metadata region. They are always used.
    pub fixed_clusters: u32,
}

impl Layout {
    /// The layout of a store on a device of `device_pages` pages, with clusters of `cluster_pages` pages and with
    /// `md_pages` metadata pages, or as many as clusters. Where it has no place the answer is, in this order:
    /// `BadClusterSize` where `cluster_pages` is 0 or at least 2^20, `TooManyPages`, `TooManyClusters`, and
    /// `DeviceTooSmall` where not even the fixed clusters fit.
    #[tactic(auto, using(crate::proofs::Planned::planned), unfolding(crate::specs::Layout::plan_fault))]
    pub fn plan(
        device_pages: u64,
        cluster_pages: u32,
        md_pages: Option<u32>,
    ) -> Result<Layout, SuperFault>
        ensures planned { let pages = md_pages_of device_pages cluster_pages md_pages in
            IfOk result (λ l. l ≡ layout_of device_pages cluster_pages pages) }
        ensures no_fault { let pages = md_pages_of device_pages cluster_pages md_pages in
            IfOk result (λ _. plan_fault device_pages cluster_pages pages ≡ None) }
        ensures fault { let pages = md_pages_of device_pages cluster_pages md_pages in
            IfErr result (λ e. plan_fault device_pages cluster_pages pages ≡ Some e) }
        ensures is_planned { IfOk result IsPlanned }
    {
        check_cluster_pages(cluster_pages)?;
        let clusters = device_pages / u64::from(cluster_pages);
        let md_pages = match md_pages {
            Some(md_pages) => u64::from(md_pages),
            None => clusters,
        };
        check_pages(md_pages)?;
        check_clusters(clusters)?;
        let layout = Layout::of(device_pages, cluster_pages, md_pages as u32);
        layout.check_room()?;
        Ok(layout)
    }

    /// The clusters of a new store that are free: all but the fixed ones.
    pub fn free_clusters(&self) -> u32
        requires { IsPlanned self.now }
        ensures { result ≡ self.now.clusters - self.now.fixed_clusters }
    {
        layouts_are_placed();
        self.clusters - self.fixed_clusters
    }

    /// The super block that a new store with this layout begins with. `super_blob` is the id of the super blob, or 2^64
    /// - 1 where there is none, and `bstype` says what kind of store it is.
    #[tactic(auto, unfolding(crate::specs::Layout::new_super))]
    pub fn new_super(&self, super_blob: u64, bstype: [u8; 16]) -> Super
        requires { IsPlanned self.now }
        ensures value { result ≡ new_super self.now super_blob bstype }
        ensures faultless { IsFaultless result }
    {
        Super {
            device_pages: self.device_pages,
            signature: SIGNATURE,
            version: VERSION,
            length: 4096,
            clean: 1,
            super_blob,
            cluster_size: self.cluster_pages * 4096,
            used_page_mask_start: self.page_mask_start,
            used_page_mask_len: self.page_mask_len,
            used_cluster_mask_start: self.cluster_mask_start,
            used_cluster_mask_len: self.cluster_mask_len,
            md_start: self.md_start,
            md_len: self.md_pages,
            bstype,
            used_blobid_mask_start: self.blob_mask_start,
            used_blobid_mask_len: self.blob_mask_len,
            size: self.device_pages * 4096,
            io_unit_size: 4096,
            md_page_size: 0,
            rest: [0; 3996],
            crc: 0,
        }
    }

    /// The layout for so many metadata pages.
    #[tactic(auto, unfolding(crate::specs::Layout::layout_of))]
    fn of(device_pages: u64, cluster_pages: u32, md_pages: u32) -> Layout
        requires some { 0 < cluster_pages }
        requires pages { md_pages ≤ 2 ^ 20 }
        requires clusters { device_pages / cluster_pages ≤ 2 ^ 24 }
        ensures { result ≡ layout_of device_pages cluster_pages md_pages }
    {
        let clusters = (device_pages / u64::from(cluster_pages)) as u32;
        let page_mask_len = mask_pages(md_pages);
        let cluster_mask_len = mask_pages(clusters);
        let blob_mask_start = 1 + page_mask_len + cluster_mask_len;
        let md_start = blob_mask_start + page_mask_len;
        Layout {
            device_pages,
            cluster_pages,
            md_pages,
            page_mask_start: 1,
            page_mask_len,
            cluster_mask_start: 1 + page_mask_len,
            cluster_mask_len,
            blob_mask_start,
            blob_mask_len: page_mask_len,
            md_start,
            clusters,
            fixed_clusters: clusters_before(u64::from(md_start + md_pages), cluster_pages) as u32,
        }
    }

    /// The fixed clusters are on the device.
    #[tactic(auto, unfolding(crate::specs::Layout::room_fault))]
    fn check_room(&self) -> Result<(), SuperFault>
        ensures { result_err result ≡ room_fault self.now }
    {
        if self.fixed_clusters <= self.clusters {
            Ok(())
        } else {
            let wants = u64::from(self.fixed_clusters) * u64::from(self.cluster_pages);
            Err(SuperFault::DeviceTooSmall {
                has: self.device_pages,
                wants,
            })
        }
    }
}

/// A cluster has at least one page, and fewer than 2^20.
#[tactic(auto, unfolding(crate::specs::Layout::cluster_pages_fault))]
fn check_cluster_pages(pages: u32) -> Result<(), SuperFault>
    ensures fault { result_err result ≡ cluster_pages_fault pages }
    ensures some { OnOk result (0 < pages) }
{
    if pages > 0 && pages < 1 << 20 {
        Ok(())
    } else {
        Err(SuperFault::BadClusterSize {
            found: in_u32(u64::from(pages) * 4096),
        })
    }
}
