//! What is loaded of a device, compared with a state.

use crate::attributes::{Attribute, key_text, value_of};
use crate::marks::{expect_marks, filled_count};
use crate::states::{CLUSTER_PAGES, PageState, State, Volume};
use blob_meta::{Chains, Meta, Metas, parent_of};
use page_disk::{MemDisk, PageDisk};
use running_store::Loaded;
use std::alloc::Global;
use std::test::Fail;
use super_block::Masks;
use unclean_load::{LoadFault, load};
use volume_model::{Df, PageWord, Xattr, page_of};

/// What is loaded of a device, and whether a blob is marked, so that a repair is left.
#[derive(Drop)]
pub struct Shown {
    disk: MemDisk,
    metas: Metas,
    chains: Chains,
    masks: Masks,
    pub is_marked: bool,
}

/// What is shown of a loaded store.
pub fn shown_in(loaded: Loaded<MemDisk>) -> Shown {
    let Loaded {
        disk,
        sup: _,
        metas,
        removed: _,
        marked,
        chains,
        repairs: _,
        masks,
        quick: _,
    } = loaded;
    Shown {
        disk,
        metas,
        chains,
        masks,
        is_marked: marked.next_from(0).is_some(),
    }
}

/// Loads a store, or fails.
pub fn shown_of(alloc: Global, disk: MemDisk) -> Result<Shown, Fail> {
    match load(alloc, disk) {
        Ok(loaded) => Ok(shown_in(loaded)),
        Err(refused) => Err(fault_of(refused)),
    }
}

/// The fault that a device which isn't loaded has.
fn fault_of(refused: (MemDisk, LoadFault)) -> Fail {
    Fail::new(refused.1)
}

/// Loads a store, and expects that it has these volumes, with each page, and that nothing is in use but what they claim
/// and so many clusters that the store takes itself.
pub fn expect_volumes(
    alloc: Global,
    state: &State,
    fixed: u32,
    disk: MemDisk,
) -> Result<Shown, Fail> {
    let mut shown = shown_of(alloc, disk)?;
    shown.expect(alloc, state, fixed)?;
    Ok(shown)
}

/// Whether an attribute of a blob is this one.
fn is_attribute(alloc: Global, found: &Xattr, wanted: Attribute) -> Result<bool, Fail> {
    let value = value_of(alloc, wanted)?;
    Ok(
        found.key.bytes() == key_text(wanted.key).as_bytes()
            && found.value.bytes() == value.as_slice(),
    )
}

/// Whether attributes of a blob are these.
fn are_attributes(alloc: Global, found: &[Xattr], wanted: &[Attribute]) -> Result<bool, Fail> {
    if found.len() != wanted.len() {
        return Ok(false);
    }
    for (xattr, attribute) in found.iter().zip(wanted.iter()) {
        if !is_attribute(alloc, xattr, *attribute)? {
            return Ok(false);
        }
    }
    Ok(true)
}

/// Whether a blob is thin, and read-only, as a volume is, has its parent, and has no mark.
fn is_of_form(meta: &Meta, volume: &Volume) -> bool {
    meta.flags.is_thin() != volume.thick
        && meta.flags.is_read_only() == volume.read_only
        && parent_of(meta) == volume.parent.map(u64::from)
        && meta.internal.len() == if volume.parent.is_some() { 1 } else { 0 }
}

/// Whether a blob has, behind `name` and `uuid`, the attributes that the volume has synced.
fn has_synced(alloc: Global, meta: &Meta, volume: &Volume) -> Result<bool, Fail> {
    match meta.xattrs.as_slice().split_at_checked(2) {
        Some((_, found)) => are_attributes(alloc, found, &volume.synced),
        None => Ok(false),
    }
}

/// The blob's parent, if it has one that has the page with this number.
fn parent_with<'a>(metas: &'a Metas, meta: &Meta, at: usize) -> Option<&'a Meta> {
    let head = u32::try_from(parent_of(meta)?).ok()?;
    let parent = metas.get(head)?;
    if at / CLUSTER_PAGES < parent.map.as_slice().len() {
        Some(parent)
    } else {
        None
    }
}

/// The page of the device where a blob's page with this number stands: in its own cluster, or else where its parent's
/// page stands. `None` where it reads as zeros.
fn place_of(metas: &Metas, meta: &Meta, at: usize) -> Option<u64> {
    let mut of = meta;
    for _ in 0..1024 {
        if let Some(Some(cluster)) = of.map.as_slice().get(at / CLUSTER_PAGES) {
            let first = u64::from(*cluster).saturating_mul(CLUSTER_PAGES as u64);
            return Some(first.saturating_add((at % CLUSTER_PAGES) as u64));
        }
        of = parent_with(metas, of, at)?;
    }
    None
}

/// Whether the page with this number of a blob is filled by a word.
fn is_filled(
    disk: &mut MemDisk,
    metas: &Metas,
    meta: &Meta,
    at: usize,
    word: u64,
) -> Result<bool, Fail> {
    let Some(page) = place_of(metas, meta, at) else {
        return Ok(word == 0);
    };
    if page >= disk.pages() {
        return Ok(false);
    }
    let mut found = [0; 4096];
    disk.read(page, &mut found)?;
    Ok(found == page_of(&PageWord::Fill(word)))
}

/// Whether a blob has the volume's pages, those that are settled, or all.
fn has_pages(
    disk: &mut MemDisk,
    metas: &Metas,
    meta: &Meta,
    pages: &[PageState],
    all: bool,
) -> Result<bool, Fail> {
    if meta.map.as_slice().len().saturating_mul(CLUSTER_PAGES) != pages.len() {
        return Ok(false);
    }
    for (at, page) in pages.iter().enumerate() {
        if (all || page.is_settled) && !is_filled(disk, metas, meta, at, page.word)? {
            return Ok(false);
        }
    }
    Ok(true)
}

impl Shown {
    /// Whether a volume is there: at its head, of its form, with its synced attributes, and with its pages, those that
    /// are settled, or all.
    fn has(&mut self, alloc: Global, volume: &Volume, all: bool) -> Result<bool, Fail> {
        let Some(meta) = volume.head().and_then(|head| self.metas.get(head)) else {
            return Ok(false);
        };
        Ok(
            is_of_form(meta, volume)
                && has_synced(alloc, meta, volume)?
                && has_pages(&mut self.disk, &self.metas, meta, &volume.pages, all)?,
        )
    }

    /// How many blobs there are, without those that recovery removes.
    fn blob_count(&self) -> usize {
        let mut count = 0usize;
        for head in 0..self.masks.pages.len() {
            if self.metas.get(head).is_some() {
                count = count.wrapping_add(1);
            }
        }
        count
    }

    /// Whether these volumes are there and no others.
    pub fn is(&mut self, alloc: Global, state: &State, all: bool) -> Result<bool, Fail> {
        if self.blob_count() != state.volumes.len() {
            return Ok(false);
        }
        for volume in &state.volumes {
            if !self.has(alloc, volume, all)? {
                return Ok(false);
            }
        }
        Ok(true)
    }

    /// Expects these volumes, with each page, no repair, and these claims.
    fn expect(&mut self, alloc: Global, state: &State, fixed: u32) -> Result<(), Fail> {
        if self.is_marked || !self.is(alloc, state, true)? {
            return Err(Fail::new("other volumes are loaded"));
        }
        self.expect_claimed(state, fixed)
    }

    /// How many pages the chain of the blob at a head claims, and how many clusters its map.
    fn claims_at(&self, head: u32) -> (usize, usize) {
        match (self.metas.get(head), self.chains.get(head)) {
            (Some(meta), Some(chain)) => (chain.len(), filled_count(meta.map.as_slice())),
            _ => (0, 0),
        }
    }

    /// How many pages and clusters the chains and maps claim, without those of blobs that recovery removes.
    fn claims(&self) -> (usize, usize) {
        let (mut pages, mut clusters) = (0usize, 0usize);
        for head in 0..self.masks.pages.len() {
            let (chain, map) = self.claims_at(head);
            pages = pages.wrapping_add(chain);
            clusters = clusters.wrapping_add(map);
        }
        (pages, clusters)
    }

    /// Expects that the masks are what the chains and maps claim, without those of blobs that recovery removes, beside
    /// so many clusters that the store takes itself.
    pub fn expect_claimed(&self, state: &State, fixed: u32) -> Result<(), Fail> {
        let (pages, clusters) = self.claims();
        let wanted = (pages, clusters.wrapping_add(fixed as usize));
        let found = (
            self.masks.pages.count() as usize,
            self.masks.clusters.count() as usize,
        );
        if found != wanted || state.used_pages.len() != self.masks.pages.len() as usize {
            return Err(Fail::new(format_args!("the masks have {found:?}, the chains {wanted:?}")));
        }
        Ok(())
    }

    /// Expects that so much is free.
    pub fn expect_free(&self, space: &Df) -> Result<(), Fail> {
        let Masks {
            pages,
            clusters,
            ..
        } = &self.masks;
        let found = Df {
            free_clusters: clusters.len().saturating_sub(clusters.count()),
            clusters: clusters.len(),
            free_pages: pages.len().saturating_sub(pages.count()),
            pages: pages.len(),
        };
        if found != *space {
            return Err(Fail::new(format_args!("{found:?} is found, and {space:?} was told")));
        }
        Ok(())
    }

    /// Expects that each metadata page and each cluster is in use exactly where it is so in a state.
    pub fn expect_in_use(&self, state: &State) -> Result<(), Fail> {
        expect_marks(&self.masks.pages, &state.used_pages)?;
        expect_marks(&self.masks.clusters, &state.used_clusters)
    }

    /// Whether a volume's chain stands at these places.
    fn has_chain(&self, places: &[u32]) -> bool {
        let Some(head) = places.first() else {
            return false;
        };
        match self.chains.get(*head) {
            Some(found) => found.as_slice() == places,
            None => false,
        }
    }

    /// Expects that each volume's chain stands at the places of the state.
    pub fn expect_chains(&self, state: &State) -> Result<(), Fail> {
        for volume in &state.volumes {
            if !self.has_chain(&volume.chain) {
                return Err(Fail::new(format_args!("another chain than {:?}", volume.chain)));
            }
        }
        Ok(())
    }
}
