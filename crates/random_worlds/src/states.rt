//! What plain volumes hold, and which metadata pages and clusters they take.

use crate::attributes::Attribute;
use crate::marks::{clear_count, first_set, give_back_all};
use std::alloc::Global;
use std::test::Fail;
use volume_model::Df;

/// A page: the word that fills it, and whether it outlasts a crash.
#[derive(Clone, Copy)]
pub struct PageState {
    pub word: u64,
    pub is_settled: bool,
}

/// A volume: its name, told by a letter, its parent's head, if it has one, its attributes as they are read and as they
/// were last synced, beside `name` and `uuid`, the clusters in its slots, the places of its chain, and its pages.
#[derive(Drop)]
pub struct Volume {
    pub name: u8,
    pub thick: bool,
    pub read_only: bool,
    pub parent: Option<u32>,
    pub live: Vec<Attribute>,
    pub synced: Vec<Attribute>,
    pub map: Vec<Option<u32>>,
    pub chain: Vec<u32>,
    pub pages: Vec<PageState>,
}

/// All volumes, by ascending time of making, and which metadata pages and clusters are in use.
#[derive(Drop)]
pub struct State {
    pub volumes: Vec<Volume>,
    pub used_pages: Vec<bool>,
    pub used_clusters: Vec<bool>,
}

/// How many pages a cluster has.
pub const CLUSTER_PAGES: usize = 4;

/// How many clusters the stores have.
const CLUSTERS: u32 = 16;

impl Volume {
    pub fn copy(&self, alloc: Global) -> Result<Volume, Fail> {
        Ok(Volume {
            name: self.name,
            thick: self.thick,
            read_only: self.read_only,
            parent: self.parent,
            live: Vec::from_slice(alloc, &self.live)?,
            synced: Vec::from_slice(alloc, &self.synced)?,
            map: Vec::from_slice(alloc, &self.map)?,
            chain: Vec::from_slice(alloc, &self.chain)?,
            pages: Vec::from_slice(alloc, &self.pages)?,
        })
    }

    /// The head, the first place of its chain.
    pub fn head(&self) -> Option<u32> {
        self.chain.first().copied()
    }

    /// How many slots it has.
    pub fn slots(&self) -> usize {
        self.pages.len() / CLUSTER_PAGES
    }

    /// Whether it has another one for its parent.
    fn is_clone_of(&self, other: &Volume) -> bool {
        self.parent.is_some() && self.parent == other.head()
    }
}

/// The volume of a name, or a failure.
pub fn named(volumes: &[Volume], name: u8) -> Result<&Volume, Fail> {
    for volume in volumes {
        if volume.name == name {
            return Ok(volume);
        }
    }
    Err(Fail::new("no volume"))
}

impl State {
    /// No volume yet, in a store of so many metadata pages that takes so many clusters itself.
    pub fn new(alloc: Global, md_pages: u32, fixed: u32) -> Result<State, Fail> {
        Ok(State {
            volumes: Vec::new(alloc),
            used_pages: first_set(alloc, md_pages, 0)?,
            used_clusters: first_set(alloc, CLUSTERS, fixed)?,
        })
    }

    pub fn copy(&self, alloc: Global) -> Result<State, Fail> {
        let mut volumes = Vec::new(alloc);
        for volume in &self.volumes {
            volumes.push(volume.copy(alloc)?)?;
        }
        Ok(State {
            volumes,
            used_pages: Vec::from_slice(alloc, &self.used_pages)?,
            used_clusters: Vec::from_slice(alloc, &self.used_clusters)?,
        })
    }

    /// The volume of a name.
    pub fn find(&self, name: u8) -> Option<&Volume> {
        for volume in &self.volumes {
            if volume.name == name {
                return Some(volume);
            }
        }
        None
    }

    /// The volume of a name, to be changed, or a failure.
    pub fn find_mut(&mut self, name: u8) -> Result<&mut Volume, Fail> {
        let found = self.volumes.iter_mut().find(|volume| volume.name == name);
        Ok(found.ok_or("no volume")?)
    }

    /// The volume at a head.
    fn at(&self, head: u32) -> Option<&Volume> {
        for volume in &self.volumes {
            if volume.head() == Some(head) {
                return Some(volume);
            }
        }
        None
    }

    /// The parent of a volume, if it has one.
    pub fn parent_of(&self, volume: &Volume) -> Option<&Volume> {
        self.at(volume.parent?)
    }

    /// How many volumes have this one for their parent.
    pub fn clone_count(&self, volume: &Volume) -> usize {
        let mut count = 0usize;
        for other in &self.volumes {
            if other.is_clone_of(volume) {
                count = count.wrapping_add(1);
            }
        }
        count
    }

    /// The first volume that has this one for its parent.
    pub fn first_clone(&self, volume: &Volume) -> Option<&Volume> {
        for other in &self.volumes {
            if other.is_clone_of(volume) {
                return Some(other);
            }
        }
        None
    }

    /// The letter of the volume at a head; another letter where there is none.
    pub fn name_at(&self, head: u32) -> u8 {
        match self.at(head) {
            Some(volume) => volume.name,
            None => b'z',
        }
    }

    /// Whether a new volume may have this head: there is such a metadata page, and no volume is at it.
    pub fn is_free_head(&self, head: u32) -> bool {
        (head as usize) < self.used_pages.len() && self.at(head).is_none()
    }

    /// Whether the parent of a volume, if it has one, holds a cluster in this slot.
    pub fn is_held_above(&self, volume: &Volume, slot: usize) -> bool {
        match self.parent_of(volume) {
            Some(parent) => matches!(parent.map.get(slot), Some(Some(_))),
            None => false,
        }
    }

    /// Clears the pages of a volume's chain behind its head.
    pub fn clear_tail(&mut self, name: u8) -> Result<(), Fail> {
        let volume = named(&self.volumes, name)?;
        if let Some((_, tail)) = volume.chain.split_first() {
            give_back_all(&mut self.used_pages, tail);
        }
        Ok(())
    }

    /// Gives a volume's chain these places behind its head.
    pub fn set_tail(&mut self, name: u8, tail: &[u32]) -> Result<(), Fail> {
        let volume = self.find_mut(name)?;
        volume.chain.truncate(1);
        volume.chain.extend_from_slice(tail)?;
        Ok(())
    }

    /// Gives a volume's chain these places behind its head, and clears its old ones.
    pub fn replace_tail(&mut self, name: u8, tail: &[u32]) -> Result<(), Fail> {
        self.clear_tail(name)?;
        self.set_tail(name, tail)
    }

    /// Puts a cluster into a slot of a volume, or empties it.
    pub fn set_slot(&mut self, name: u8, slot: usize, cluster: Option<u32>) -> Result<(), Fail> {
        let volume = self.find_mut(name)?;
        *volume.map.get_mut(slot).ok_or("no slot")? = cluster;
        Ok(())
    }

    /// Each page outlasts a crash from now on.
    pub fn settle(&mut self) {
        for volume in self.volumes.iter_mut() {
            settle_pages(&mut volume.pages);
        }
    }

    /// What is clear, and what there is.
    pub fn df(&self) -> Df {
        Df {
            free_clusters: number(clear_count(&self.used_clusters)),
            clusters: number(self.used_clusters.len()),
            free_pages: number(clear_count(&self.used_pages)),
            pages: number(self.used_pages.len()),
        }
    }
}

/// A count of places; a store of the tests has few.
fn number(count: usize) -> u32 {
    u32::try_from(count).unwrap_or(u32::MAX)
}

fn settle_pages(pages: &mut [PageState]) {
    for page in pages.iter_mut() {
        page.is_settled = true;
    }
}
