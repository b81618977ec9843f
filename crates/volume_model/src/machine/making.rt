//! Volumes that come: new ones, snapshots and clones.

ghost use Rattle.std.specs.Prelude.{◌≡◌, IfOk};
ghost use Rattle.volume_model.specs.Machine.{volumes_in, MachineAnswers};
ghost use Rattle.volume_model.specs.Volumes as v;
ghost use Rattle.volume_model.specs.declared.command.Command.TheVariants as c;

use crate::command::VolumeRef;
use crate::machine::Volumes;
use crate::machine::pages::zeros;
use crate::machine::rows::Volume;
use crate::name::Name;
use crate::reply::Reply;
use crate::text::XattrList;
use crate::uuids::{named_xattrs, uuid_of_new, uuid_said};
use out_of_memory::Memory;
use std::alloc::Global;

impl Volumes {
    /// The super blob's uuid.
    fn store_uuid(&self) -> [u8; 16]
        ensures { result ≡ v.store_uuid self.now.fixed (volumes_in self.now) }
    {
        match self.super_blob {
            Some(head) => match self.get(head) {
                Some(super_blob) => uuid_said(super_blob.live.told(b"uuid")),
                None => uuid_said(&[]),
            },
            None => uuid_said(&[]),
        }
    }

    /// The attributes of a new volume.
    fn two_xattrs(
        &self,
        alloc: Global,
        name: &Name,
        uuid: Option<[u8; 16]>,
    ) -> Result<XattrList, Memory>
        ensures { IfOk result (λ xattrs. xattrs ≡ v.two_xattrs self.now.fixed (volumes_in self.now) name.now uuid) }
    {
        named_xattrs(alloc, name, uuid_of_new(self.store_uuid(), name, uuid))
    }

    pub(super) fn create(
        &mut self,
        alloc: Global,
        name: &Name,
        slots: u64,
        thick: bool,
        uuid: Option<[u8; 16]>,
    ) -> Result<Reply, Reply>
        ensures { MachineAnswers self.old (c.Create name.now slots thick uuid) result self.new }
    {
        self.may_create(name, slots)?;
        let made = self.free_head()?;
        let volume = Volume {
            pages: zeros(alloc, self.pages_in(slots))?,
            live: self.two_xattrs(alloc, name, uuid)?,
            synced: self.two_xattrs(alloc, name, uuid)?,
            thin: !thick,
            read_only: false,
            locked: false,
            parent: None,
        };
        self.add(made, volume)?;
        Ok(Reply::Made(made))
    }

    pub(super) fn snapshot(
        &mut self,
        alloc: Global,
        volume: &VolumeRef,
        name: &Name,
    ) -> Result<Reply, Reply>
        ensures { MachineAnswers self.old (c.Snapshot volume.now name.now) result self.new }
    {
        let head = self.may_snapshot(volume, name)?;
        let made = self.free_head()?;
        let x = self.at(head);
        let copy = Volume {
            pages: Vec::from_slice(alloc, x.pages.as_slice()).map_err(Memory::from)?,
            live: self.two_xattrs(alloc, name, None)?,
            synced: self.two_xattrs(alloc, name, None)?,
            thin: x.thin,
            read_only: true,
            locked: false,
            parent: x.parent,
        };
        self.add(made, copy)?;
        let mut x = self.take(head);
        x.thin = true;
        x.parent = Some(made);
        self.put(head, x);
        Ok(Reply::Made(made))
    }

    pub(super) fn clone(
        &mut self,
        alloc: Global,
        volume: &VolumeRef,
        name: &Name,
    ) -> Result<Reply, Reply>
        ensures { MachineAnswers self.old (c.Clone volume.now name.now) result self.new }
    {
        let head = self.may_clone(volume, name)?;
        let made = self.free_head()?;
        let copy = Volume {
            pages: Vec::from_slice(alloc, self.at(head).pages.as_slice()).map_err(Memory::from)?,
            live: self.two_xattrs(alloc, name, None)?,
            synced: self.two_xattrs(alloc, name, None)?,
            thin: true,
            read_only: false,
            locked: false,
            parent: Some(head),
        };
        self.add(made, copy)?;
        Ok(Reply::Made(made))
    }
}
