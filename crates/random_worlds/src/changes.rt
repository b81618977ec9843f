//! What commands change of plain volumes, where nothing refuses them.

use crate::asks::Ask;
use crate::attributes::{set, without};
use crate::states::{CLUSTER_PAGES, PageState, State, Volume, named};
use std::alloc::Global;
use std::test::Fail;

/// Appends pages of zeros, or cuts, so that these are the pages of so many slots.
fn with_slots(pages: &mut Vec<PageState>, slots: u64) -> Result<(), Fail> {
    let wanted = (slots as usize).saturating_mul(CLUSTER_PAGES);
    pages.truncate(wanted);
    let zeros = PageState {
        word: 0,
        is_settled: true,
    };
    for _ in pages.len()..wanted {
        pages.push(zeros)?;
    }
    Ok(())
}

/// A volume whose slots are empty and whose pages are zeros, with a chain of one page.
fn new_volume(alloc: Global, name: u8, slots: u64, thick: bool, head: u32) -> Result<Volume, Fail> {
    let mut pages = Vec::new(alloc);
    with_slots(&mut pages, slots)?;
    Ok(Volume {
        name,
        thick,
        read_only: false,
        parent: None,
        live: Vec::new(alloc),
        synced: Vec::new(alloc),
        map: Vec::new(alloc),
        chain: vec![in alloc; head]?,
        pages,
    })
}

/// Empties each slot of a map.
fn empty(map: &mut [Option<u32>]) {
    for slot in map.iter_mut() {
        *slot = None;
    }
}

/// Gives each volume whose parent is at this head another one, or none.
fn replace_parent(volumes: &mut [Volume], head: Option<u32>, parent: Option<u32>) {
    for volume in volumes.iter_mut() {
        if volume.parent.is_some() && volume.parent == head {
            volume.parent = parent;
        }
    }
}

/// Whether all pages outlast a crash from then on.
fn settles(ask: &Ask) -> bool {
    !matches!(
        ask,
        Ask::Write { .. }
            | Ask::Read { .. }
            | Ask::Set { .. }
            | Ask::Remove { .. }
            | Ask::Get { .. }
            | Ask::Info { .. }
            | Ask::List
            | Ask::Df
    )
}

impl Volume {
    /// A volume of another name that shows what this one does, without attributes, with a chain of one page.
    fn bare_copy(&self, alloc: Global, name: u8, head: u32) -> Result<Volume, Fail> {
        Ok(Volume {
            name,
            thick: self.thick,
            read_only: self.read_only,
            parent: self.parent,
            live: Vec::new(alloc),
            synced: Vec::new(alloc),
            map: Vec::from_slice(alloc, &self.map)?,
            chain: vec![in alloc; head]?,
            pages: Vec::from_slice(alloc, &self.pages)?,
        })
    }

    /// A snapshot, which has its clusters from then on, and by which it reads.
    fn snapshot(&mut self, alloc: Global, name: u8, head: u32) -> Result<Volume, Fail> {
        let mut made = self.bare_copy(alloc, name, head)?;
        made.read_only = true;
        self.thick = false;
        self.parent = Some(head);
        empty(&mut self.map);
        Ok(made)
    }

    /// A clone, whose slots are empty.
    fn clone(&self, alloc: Global, name: u8, head: u32) -> Result<Volume, Fail> {
        let mut made = self.bare_copy(alloc, name, head)?;
        made.thick = false;
        made.read_only = false;
        made.parent = self.head();
        empty(&mut made.map);
        Ok(made)
    }

    /// Fills a page by a word.
    fn write(&mut self, page: u64, word: u64) -> Result<(), Fail> {
        let place = self.pages.get_mut(page as usize).ok_or("no page")?;
        *place = PageState {
            word,
            is_settled: false,
        };
        Ok(())
    }

    /// Removes the attribute of a key.
    fn remove(&mut self, alloc: Global, key: u8) -> Result<(), Fail> {
        self.live = without(alloc, &self.live, key)?;
        Ok(())
    }

    /// Changes its pages, or its attributes as they are read.
    fn change_content(&mut self, alloc: Global, ask: &Ask) -> Result<(), Fail> {
        match *ask {
            Ask::Resize { slots, .. } => with_slots(&mut self.pages, slots),
            Ask::Write { page, word, .. } => self.write(page, word),
            Ask::Set { attribute, .. } | Ask::Put { attribute, .. } => {
                set(&mut self.live, attribute)
            }
            Ask::Remove { key, .. } => self.remove(alloc, key),
            _ => Ok(()),
        }
    }

    /// Changes its name, or of what form it is.
    fn change_form(&mut self, ask: &Ask) {
        match *ask {
            Ask::Rename { new, .. } => self.name = new,
            Ask::ReadOnly { .. } => self.read_only = true,
            Ask::Inflate { .. } => {
                self.thick = true;
                self.parent = None;
            }
            _ => {}
        }
    }

    /// Does what is asked for of it: its attributes and its pages change.
    fn change(&mut self, alloc: Global, ask: &Ask) -> Result<(), Fail> {
        self.change_content(alloc, ask)?;
        self.change_form(ask);
        if matches!(
            ask,
            Ask::Put { .. } | Ask::Sync { .. } | Ask::ReadOnly { .. }
        ) {
            self.synced = Vec::from_slice(alloc, &self.live)?;
        }
        Ok(())
    }
}

impl State {
    /// The head of the parent's parent of a volume, if it has one.
    fn above(&self, name: u8) -> Option<u32> {
        self.parent_of(self.find(name)?)?.parent
    }

    /// Gives a volume its parent's parent, if that has one.
    fn decouple(&mut self, name: u8) -> Result<(), Fail> {
        let above = self.above(name);
        self.find_mut(name)?.parent = above;
        Ok(())
    }

    /// Deletes a volume, whose clone has its parent from then on.
    fn delete(&mut self, name: u8) -> Result<(), Fail> {
        let gone = named(&self.volumes, name)?;
        let (head, parent) = (gone.head(), gone.parent);
        self.volumes.retain(|volume| volume.name != name);
        replace_parent(&mut self.volumes, head, parent);
        Ok(())
    }

    /// The volume that a create, a snapshot or a clone makes at this head.
    fn made(&mut self, alloc: Global, ask: &Ask, head: u32) -> Result<Volume, Fail> {
        match *ask {
            Ask::Create { name, slots, thick } => new_volume(alloc, name, slots, thick, head),
            Ask::Snapshot { name, new } => self.find_mut(name)?.snapshot(alloc, new, head),
            Ask::Clone { name, new } => named(&self.volumes, name)?.clone(alloc, new, head),
            _ => Err(Fail::new("no volume is made")),
        }
    }

    /// Changes the volume that is meant, if one is.
    fn change_meant(&mut self, alloc: Global, ask: &Ask) -> Result<(), Fail> {
        match ask.name() {
            Some(name) => self.find_mut(name)?.change(alloc, ask),
            None => Ok(()),
        }
    }

    /// Changes the volumes that are there.
    fn change_volumes(&mut self, alloc: Global, ask: &Ask) -> Result<(), Fail> {
        match *ask {
            Ask::Delete { name } => self.delete(name),
            Ask::Decouple { name } => self.decouple(name),
            _ => self.change_meant(alloc, ask),
        }
    }

    /// Does what is asked for. A new volume gets this head, which is its chain; a snapshot gets the map of its volume,
    /// and any other one an empty map. Other maps and chains stay.
    pub fn change(&mut self, alloc: Global, ask: &Ask, head: u32) -> Result<(), Fail> {
        if ask.makes() {
            let made = self.made(alloc, ask, head)?;
            self.volumes.push(made)?;
        } else {
            self.change_volumes(alloc, ask)?;
        }
        if settles(ask) {
            self.settle();
        }
        Ok(())
    }
}
