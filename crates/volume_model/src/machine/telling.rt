//! What is known of volumes.

ghost use Rattle.std.specs.Prelude.{◌≡◌, None, IfOk, if◌then◌else◌};
ghost use Rattle.std.specs.List.{filter_map};
ghost use Rattle.volume_model.specs.Machine.{volumes_in, MachineAnswers};
ghost use Rattle.volume_model.specs.Plain.{volume_in_row};
ghost use Rattle.volume_model.specs.Steps as s;
ghost use Rattle.volume_model.specs.Steps.{info_of};
ghost use Rattle.volume_model.specs.Volumes as v;
ghost use Rattle.volume_model.specs.declared.command.Command.TheVariants as c;

use crate::command::VolumeRef;
use crate::machine::Volumes;
use crate::machine::rows::Volume;
use crate::reply::{Df, Info, InfoList, Reply};
use crate::text::Blobtext;
use out_of_memory::Memory;
use std::alloc::Global;

impl Volumes {
    fn info_of(&self, alloc: Global, head: u32, volume: &Volume) -> Result<Info, Memory>
        ensures { IfOk result (λ info. info ≡ info_of self.now.fixed head (volume_in_row volume.now)) }
    {
        // As many attributes as don't fit the number find no memory either.
        let Ok(xattrs) = u32::try_from(volume.live.len()) else {
            return Err(Memory);
        };
        Ok(Info {
            head,
            name: Blobtext::new(alloc, volume.live.told(b"name"))?,
            uuid: Blobtext::new(alloc, volume.live.told(b"uuid"))?,
            slots: self.slots_of(volume),
            parent: volume.parent,
            thin: volume.thin,
            read_only: volume.read_only,
            xattrs,
        })
    }

    pub(super) fn info(&self, alloc: Global, volume: &VolumeRef) -> Result<Reply, Reply>
        ensures { MachineAnswers self.now (c.Info volume.now) result self.now }
    {
        let (head, x) = self.find(volume)?;
        Ok(Reply::Info(self.info_of(alloc, head, x)?))
    }

    /// What a list tells of a head.
    fn listed(&self, alloc: Global, head: u32) -> Result<Option<Info>, Memory>
        ensures { IfOk result (λ info. info ≡ (if v.is_super self.now.fixed head then None else s.info_at self.now.fixed
            (volumes_in self.now) head)) }
    {
        if self.is_super(head) {
            return Ok(None);
        }
        match self.get(head) {
            Some(volume) => Ok(Some(self.info_of(alloc, head, volume)?)),
            None => Ok(None),
        }
    }

    fn infos(&self, alloc: Global) -> Result<InfoList, Memory>
        ensures { IfOk result (λ infos. infos ≡ filter_map
            (λ h. if v.is_super self.now.fixed h then None else s.info_at self.now.fixed (volumes_in self.now) h)
            (v.heads self.now.fixed)) }
    {
        let mut infos = InfoList::new(alloc);
        for head in 0..self.md_len {
            if let Some(info) = self.listed(alloc, head)? {
                infos.push(info)?;
            }
        }
        Ok(infos)
    }

    pub(super) fn list(&self, alloc: Global) -> Result<Reply, Reply>
        ensures { MachineAnswers self.now c.List result self.now }
    {
        Ok(Reply::List(self.infos(alloc)?))
    }

    /// The machine has no clusters, and tells none: a step may tell any numbers.
    pub(super) fn df(&self) -> Reply
        ensures { MachineAnswers self.now c.Df (Ok result) self.now }
    {
        Reply::Df(Df {
            free_clusters: 0,
            clusters: 0,
            free_pages: 0,
            pages: self.md_len,
        })
    }
}
