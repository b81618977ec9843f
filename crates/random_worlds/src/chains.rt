//! How many metadata pages the chains of volumes take.

use crate::attributes::Attribute;
use crate::marks::{clear_count, take};
use crate::states::{State, Volume, named};
use std::alloc::Global;
use std::test::Fail;
use volume_model::Reply;

/// What is too little.
#[derive(Drop)]
pub enum Lack {
    /// No cluster is clear, or too few are.
    Clusters,
    /// Too few metadata pages are clear.
    Pages,
}

impl Lack {
    /// The reply that tells it.
    pub fn reply(self) -> Reply {
        match self {
            Lack::Clusters => Reply::Full,
            Lack::Pages => Reply::NoPage,
        }
    }
}

/// The bytes of descriptors in a metadata page, those of the flags, and the uuid's.
const BODY: usize = 4072;

const FLAGS: usize = 29;

const UUID: usize = 50;

/// What the attribute `name` takes of a page, where the name is one letter.
const NAME: usize = 15;

/// What internal attributes take: SNAP, SNAPRM and SNAPTMP.
pub const SNAP: usize = 21;

pub const SNAPRM: usize = 23;

pub const SNAPTMP: usize = 24;

/// How many runs a map is.
pub fn runs_in(map: &[Option<u32>]) -> usize {
    let mut runs = 0usize;
    let mut next = None;
    for slot in map {
        if next != Some(*slot) {
            runs = runs.wrapping_add(1);
        }
        next = Some(match slot {
            Some(cluster) => Some(cluster.wrapping_add(1)),
            None => None,
        });
    }
    runs
}

/// The pages that are begun behind the head of a chain, and how much is left of the last one.
struct Filled {
    pages: usize,
    left: usize,
}

impl Filled {
    /// Puts something of this size there, on a new page where it doesn't fit.
    fn put(&mut self, size: usize) {
        if size > self.left {
            self.pages = self.pages.wrapping_add(1);
            self.left = BODY;
        }
        self.left = self.left.saturating_sub(size);
    }

    /// Puts attributes there.
    fn put_attributes(&mut self, attributes: &[Attribute]) {
        for attribute in attributes {
            self.put(attribute.length.saturating_add(10));
        }
    }

    /// Puts internal attributes of these sizes there.
    fn put_internal(&mut self, sizes: &[usize]) {
        for size in sizes {
            self.put(*size);
        }
    }
}

/// How many pages a chain has behind its head: the head begins with the flags, each attribute goes to a new page where
/// it doesn't fit, as each internal one does behind them, of these sizes, and so many runs go on in new pages as long
/// as some are left.
pub fn tail_length(attributes: &[Attribute], internal: &[usize], runs: usize) -> usize {
    let mut filled = Filled {
        pages: 0,
        left: BODY - FLAGS - NAME - UUID,
    };
    filled.put_attributes(attributes);
    filled.put_internal(internal);
    let Filled { pages, left } = filled;
    let has_room = left >= 13 && runs <= left.saturating_sub(5) / 8;
    if runs == 0 || has_room {
        pages
    } else {
        pages.wrapping_add(1)
    }
}

/// The sizes of a volume's internal attributes: it has one where it has a parent.
pub fn internal_of(volume: &Volume) -> &'static [usize] {
    if volume.parent.is_some() {
        &[SNAP]
    } else {
        &[]
    }
}

/// Gives a volume the chain that its attributes and its map take: the pages behind the head are fresh, and the old ones
/// are clear then. Nothing changes where too few are clear.
pub fn replace_chain(alloc: Global, next: &mut State, name: u8) -> Result<Option<Lack>, Fail> {
    let volume = named(&next.volumes, name)?;
    let fresh = tail_length(&volume.synced, internal_of(volume), runs_in(&volume.map));
    if clear_count(&next.used_pages) < fresh {
        return Ok(Some(Lack::Pages));
    }
    let tail = take(alloc, &mut next.used_pages, fresh)?;
    next.replace_tail(name, &tail)?;
    Ok(None)
}
