//! The plain machine, and beside it what is clear.

use crate::asks::Ask;
use crate::causes::is_done;
use crate::chains::Lack;
use crate::commands::command_of;
use crate::space::apply;
use crate::states::{State, Volume, named};
use script_lang::number_below;
use std::alloc::Global;
use std::test::Fail;
use volume_model::{Df, Info, InfoList, PageWord, Reply, Volumes, page_of};

/// The plain machine, which refuses for every cause but want of room, and a state that counts what is clear.
#[derive(Drop)]
pub struct World {
    machine: Volumes,
    pub state: State,
}

impl World {
    /// A new store of 16 clusters of 4 pages, which takes so many of them itself, with so many metadata pages.
    pub fn new(alloc: Global, md_pages: u32, fixed: u32) -> Result<World, Fail> {
        Ok(World {
            machine: Volumes::new(alloc, 4, md_pages, None),
            state: State::new(alloc, md_pages, fixed)?,
        })
    }

    /// The plain machine's reply to what is asked for.
    fn apply(&mut self, alloc: Global, ask: &Ask) -> Result<Reply, Fail> {
        let command = command_of(alloc, ask)?;
        Ok(self.machine.apply(alloc, &command))
    }

    /// Does what is asked for, and gives the reply. A new volume has the least clear metadata page as its head.
    pub fn step(&mut self, alloc: Global, ask: &Ask) -> Result<Reply, Fail> {
        if !is_done(&self.state, ask) {
            return self.refused(alloc, ask);
        }
        let mut next = self.state.copy(alloc)?;
        let lack = apply(alloc, &mut next, ask)?;
        if lack.is_none() || matches!(ask, Ask::Inflate { .. } | Ask::Decouple { .. }) {
            self.state = next;
        }
        match lack {
            Some(lack) => Ok(lack.reply()),
            None => self.done(alloc, ask),
        }
    }

    /// The reply to what plain volumes do, after which the state is as it is now.
    fn done(&mut self, alloc: Global, ask: &Ask) -> Result<Reply, Fail> {
        match self.apply(alloc, ask)? {
            Reply::Made(_) => Ok(Reply::Made(self.last_head()?)),
            Reply::Ok => Ok(Reply::Ok),
            _ => Err(does_otherwise(ask)),
        }
    }

    /// The reply to what plain volumes refuse, or only tell.
    fn refused(&mut self, alloc: Global, ask: &Ask) -> Result<Reply, Fail> {
        match self.apply(alloc, ask)? {
            Reply::Df(_) => Ok(Reply::Df(self.state.df())),
            Reply::Ok | Reply::Made(_) => Err(does_otherwise(ask)),
            reply => self.told(alloc, ask, reply),
        }
    }

    /// The reply of the machine, whose heads are others than those of the store: what is told of volumes has these.
    fn told(&mut self, alloc: Global, ask: &Ask, reply: Reply) -> Result<Reply, Fail> {
        match reply {
            Reply::Info(_) => {
                let name = ask.name().ok_or("no volume")?;
                Ok(Reply::Info(self.info_told(alloc, name)?))
            }
            Reply::List(list) => Ok(Reply::List(self.list_told(alloc, list.len())?)),
            other => Ok(other),
        }
    }

    /// What the machine tells of a volume, with the heads of it and of its parent.
    fn info_told(&mut self, alloc: Global, name: u8) -> Result<Info, Fail> {
        let volume = named(&self.state.volumes, name)?;
        let (head, parent) = (volume.head().ok_or("no head")?, volume.parent);
        let Reply::Info(mut info) = self.apply(alloc, &Ask::Info { name })? else {
            return Err(Fail::new("the machine tells nothing of a volume"));
        };
        if info.parent.is_some() != parent.is_some() {
            return Err(Fail::new("the machine has other parents"));
        }
        info.head = head;
        info.parent = parent;
        Ok(info)
    }

    /// What the machine tells of its volumes, so many, by the heads that they have in the store.
    fn list_told(&mut self, alloc: Global, count: usize) -> Result<InfoList, Fail> {
        if count != self.state.volumes.len() {
            return Err(Fail::new(format_args!("the machine has {count} volumes")));
        }
        let mut list = InfoList::new(alloc);
        for head in 0..self.state.df().pages {
            if !self.state.is_free_head(head) {
                let name = self.state.name_at(head);
                list.push(self.info_told(alloc, name)?)?;
            }
        }
        Ok(list)
    }

    /// The head of the volume that was made last.
    fn last_head(&self) -> Result<u32, Fail> {
        let volume = self.state.volumes.last().ok_or("no volume")?;
        Ok(volume.head().ok_or("no head")?)
    }

    /// Does what is asked for, and gives the reply that a line may tell: where plain volumes don't refuse it too little
    /// may be clear, and then nothing is done; a new volume may have any head that isn't in use; and any numbers may be
    /// free.
    pub fn follow(&mut self, alloc: Global, ask: &Ask, told: &[u8]) -> Result<Reply, Fail> {
        match lack_told(ask, told) {
            Some(lack) if is_done(&self.state, ask) => return Ok(lack.reply()),
            _ => {}
        }
        match self.apply(alloc, ask)? {
            Reply::Ok => {
                self.state.change(alloc, ask, 0)?;
                Ok(Reply::Ok)
            }
            Reply::Made(_) => {
                let head = self.head_told(told)?;
                self.state.change(alloc, ask, head)?;
                Ok(Reply::Made(head))
            }
            Reply::Df(_) => Ok(Reply::Df(self.df_told(told)?)),
            reply => self.told(alloc, ask, reply),
        }
    }

    /// Expects that the volumes of the machine have the pages of the state.
    pub fn expect_pages(&mut self, alloc: Global) -> Result<(), Fail> {
        for volume in &self.state.volumes {
            expect_pages_of(alloc, &mut self.machine, volume)?;
        }
        Ok(())
    }

    /// Appends the states in which what is asked for is done, where plain volumes don't refuse it: a new volume may
    /// have any head that isn't in use.
    pub fn push_done(&self, alloc: Global, ask: &Ask, states: &mut Vec<State>) -> Result<(), Fail> {
        if !is_done(&self.state, ask) {
            return Ok(());
        }
        let makes = ask.makes();
        let heads = if makes { self.state.df().pages } else { 1 };
        for head in 0..heads {
            if !makes || self.state.is_free_head(head) {
                let mut state = self.state.copy(alloc)?;
                state.change(alloc, ask, head)?;
                states.push(state)?;
            }
        }
        Ok(())
    }

    /// The head that a line tells of a new volume: a metadata page at which no volume is.
    fn head_told(&self, told: &[u8]) -> Result<u32, Fail> {
        let digits = told.strip_prefix(b"ok @").ok_or("no new volume")?;
        let head = number_told(digits)?;
        if !self.state.is_free_head(head) {
            return Err(Fail::new(format_args!("{head} is no head of a new volume")));
        }
        Ok(head)
    }

    /// The space that a line tells: as much as is there, of which any numbers may be free.
    fn df_told(&self, told: &[u8]) -> Result<Df, Fail> {
        let mut words = told.split(|byte| *byte == b' ');
        let free_clusters = number_told(words.nth(2).ok_or("no number")?)?;
        let free_pages = number_told(words.nth(3).ok_or("no number")?)?;
        Ok(Df {
            free_clusters,
            free_pages,
            ..self.state.df()
        })
    }
}

fn does_otherwise(ask: &Ask) -> Fail {
    Fail::new(format_args!("the machine does otherwise with {}", ask.verb()))
}

/// Whether a reply is a page that is filled with a word.
fn is_filled_with(reply: &Reply, word: u64) -> bool {
    match reply {
        Reply::Content(found) => **found == page_of(&PageWord::Fill(word)),
        _ => false,
    }
}

/// Expects that a volume of the machine has these pages.
fn expect_pages_of(alloc: Global, machine: &mut Volumes, volume: &Volume) -> Result<(), Fail> {
    for (at, page) in volume.pages.iter().enumerate() {
        let command = command_of(
            alloc,
            &Ask::Read {
                name: volume.name,
                page: at as u64,
            },
        )?;
        let reply = machine.apply(alloc, &command);
        if !is_filled_with(&reply, page.word) {
            return Err(Fail::new(format_args!("the machine has another page {at}")));
        }
    }
    Ok(())
}

/// A number of clusters or metadata pages.
fn number_told(digits: &[u8]) -> Result<u32, Fail> {
    let number = number_below(1 << 20, digits).ok_or("no number")?;
    Ok(u32::try_from(number).unwrap_or(u32::MAX))
}

/// Whether what is asked for may take clusters.
fn takes_clusters(ask: &Ask) -> bool {
    matches!(
        ask,
        Ask::Create { .. }
            | Ask::Resize { .. }
            | Ask::Write { .. }
            | Ask::Inflate { .. }
            | Ask::Decouple { .. }
    )
}

/// Whether what is asked for may take metadata pages.
fn takes_pages(ask: &Ask) -> bool {
    takes_clusters(ask)
        || ask.makes()
        || matches!(
            ask,
            Ask::Put { .. }
                | Ask::Sync { .. }
                | Ask::Rename { .. }
                | Ask::Delete { .. }
                | Ask::ReadOnly { .. }
        )
}

/// The lack that a line tells, if what is asked for may meet it.
fn lack_told(ask: &Ask, told: &[u8]) -> Option<Lack> {
    match told {
        b"full" if takes_clusters(ask) => Some(Lack::Clusters),
        b"no page" if takes_pages(ask) => Some(Lack::Pages),
        _ => None,
    }
}
