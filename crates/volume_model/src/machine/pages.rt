//! Pages of volumes: written, read, and more or fewer of them.

ghost use Rattle.std.specs.Prelude.{◌≡◌, ◌+◌, ◌-◌, ◌++◌, IfOk, IfErr, OnOk, length, take, replicate};
ghost use Rattle.volume_model.specs.Machine.{MachineAnswers, IsCauseOfRefusal};
ghost use Rattle.volume_model.specs.Volumes as v;
ghost use Rattle.volume_model.specs.declared.command.Command.TheVariants as c;

use crate::command::{PageWord, VolumeRef};
use crate::machine::Volumes;
use crate::machine::rows::Page;
use crate::page::page_of;
use crate::reply::Reply;
use out_of_memory::Memory;
use std::alloc::Global;
use std::boxed::Box;

#[tactic(auto, unfolding(crate::specs::Volumes::zero_page))]
fn push_zeros(pages: &mut Vec<Page>, count: u64) -> Result<(), Memory>
    ensures { OnOk result (pages.new.items ≡ pages.old.items ++ replicate count v.zero_page) }
{
    for done in 0..count {
        pages.push([0; 4096])?;
    }
    Ok(())
}

/// So many pages of zeros.
pub(super) fn zeros(alloc: Global, count: u64) -> Result<Vec<Page>, Memory>
    ensures { IfOk result (λ pages. pages.items ≡ replicate count v.zero_page) }
{
    let mut pages = Vec::new(alloc);
    push_zeros(&mut pages, count)?;
    Ok(pages)
}

/// A copy, cut to so many pages or with pages of zeros added.
fn resized(alloc: Global, pages: &[Page], count: u64) -> Result<Vec<Page>, Memory>
    ensures { IfOk result (λ new. new.items ≡ take count pages.now
        ++ replicate (count - length pages.now) v.zero_page) }
{
    let kept = pages.len() as u64;
    if count <= kept {
        return Ok(Vec::from_slice(alloc, &pages[..count as usize])?);
    }
    let mut new = Vec::from_slice(alloc, pages)?;
    push_zeros(&mut new, count - kept)?;
    Ok(new)
}

impl Volumes {
    pub(super) fn write(
        &mut self,
        volume: &VolumeRef,
        page: u64,
        word: &PageWord,
    ) -> Result<Reply, Reply>
        ensures answer { MachineAnswers self.old (c.Write volume.now page word.now) result self.new }
        ensures refused { IfErr result IsCauseOfRefusal }
    {
        let head = self.may_write(volume, page)?;
        let mut x = self.take(head);
        x.pages[page as usize] = page_of(word);
        self.put(head, x);
        Ok(Reply::Ok)
    }

    pub(super) fn read(&self, alloc: Global, volume: &VolumeRef, page: u64) -> Result<Reply, Reply>
        ensures { MachineAnswers self.now (c.Read volume.now page) result self.now }
    {
        let head = self.may_read(volume, page)?;
        let content = self.at(head).pages[page as usize];
        Ok(Reply::Content(Box::new(alloc, content).map_err(Memory::from)?))
    }

    pub(super) fn resize(
        &mut self,
        alloc: Global,
        volume: &VolumeRef,
        slots: u64,
    ) -> Result<Reply, Reply>
        ensures { MachineAnswers self.old (c.Resize volume.now slots) result self.new }
    {
        let head = self.may_resize(volume, slots)?;
        let count = self.pages_in(slots);
        let pages = resized(alloc, self.at(head).pages.as_slice(), count)?;
        let mut x = self.take(head);
        x.pages = pages;
        self.put(head, x);
        Ok(Reply::Ok)
    }
}
