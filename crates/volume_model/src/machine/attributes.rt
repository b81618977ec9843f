//! Extended attributes of volumes, as they are read and as they survive a crash.

ghost use Rattle.std.specs.Prelude.{◌≡◌, IfOk, IsSome, Some};
ghost use Rattle.std.specs.Option.{option_map};
ghost use Rattle.volume_model.specs.Machine.{volumes_in, MachineAnswers};
ghost use Rattle.volume_model.specs.Volumes.{Volume};
ghost use Rattle.volume_model.specs.Xattrs as x;
ghost use Rattle.volume_model.specs.declared.command.Command.TheVariants as c;

use crate::command::VolumeRef;
use crate::copy::TryCopy;
use crate::machine::Volumes;
use crate::name::Name;
use crate::reply::Reply;
use crate::text::{Blobtext, XattrList};
use crate::xattrs::with_nul;
use out_of_memory::Memory;
use std::alloc::Global;

impl Volumes {
    /// The live attributes of the volume at a head, with one set.
    fn live_with(
        &self,
        alloc: Global,
        head: u32,
        key: &Blobtext,
        value: &Blobtext,
    ) -> Result<XattrList, Memory>
        requires { IsSome (volumes_in self.now head) }
        ensures { IfOk result (λ live. option_map (λ (y : Volume). x.with_value y.live key.now value.now)
            (volumes_in self.now head) ≡ Some live) }
    {
        self.at(head)
            .live
            .with_value(alloc, key.bytes(), value.bytes())
    }

    pub(super) fn set_x(
        &mut self,
        alloc: Global,
        volume: &VolumeRef,
        key: &Blobtext,
        value: &Blobtext,
    ) -> Result<Reply, Reply>
        ensures { MachineAnswers self.old (c.SetX volume.now key.now value.now) result self.new }
    {
        let head = self.may_set(volume, key, value)?;
        let live = self.live_with(alloc, head, key, value)?;
        let mut x = self.take(head);
        x.live = live;
        self.put(head, x);
        Ok(Reply::Ok)
    }

    pub(super) fn del_x(
        &mut self,
        alloc: Global,
        volume: &VolumeRef,
        key: &Blobtext,
    ) -> Result<Reply, Reply>
        ensures { MachineAnswers self.old (c.DelX volume.now key.now) result self.new }
    {
        let head = self.may_remove(volume, key)?;
        let live = self.at(head).live.without(alloc, key.bytes())?;
        let mut x = self.take(head);
        x.live = live;
        self.put(head, x);
        Ok(Reply::Ok)
    }

    pub(super) fn get_x(
        &self,
        alloc: Global,
        volume: &VolumeRef,
        key: &Blobtext,
    ) -> Result<Reply, Reply>
        ensures { MachineAnswers self.now (c.GetX volume.now key.now) result self.now }
    {
        let (_, x) = self.find(volume)?;
        match x.live.value_of(key.bytes()) {
            Some(value) => Ok(Reply::Value(value.try_copy(alloc)?)),
            None => Err(Reply::NoValue),
        }
    }

    pub(super) fn put_x(
        &mut self,
        alloc: Global,
        volume: &VolumeRef,
        key: &Blobtext,
        value: &Blobtext,
    ) -> Result<Reply, Reply>
        ensures { MachineAnswers self.old (c.Put volume.now key.now value.now) result self.new }
    {
        let head = self.may_set(volume, key, value)?;
        let live = self.live_with(alloc, head, key, value)?;
        let synced = live.try_copy(alloc)?;
        let mut x = self.take(head);
        x.live = live;
        x.synced = synced;
        self.put(head, x);
        Ok(Reply::Ok)
    }

    pub(super) fn sync(&mut self, alloc: Global, volume: &VolumeRef) -> Result<Reply, Reply>
        ensures { MachineAnswers self.old (c.Sync volume.now) result self.new }
    {
        let head = self.may_change(volume)?;
        let synced = self.at(head).live.try_copy(alloc)?;
        let mut x = self.take(head);
        x.synced = synced;
        self.put(head, x);
        Ok(Reply::Ok)
    }

    pub(super) fn rename(
        &mut self,
        alloc: Global,
        volume: &VolumeRef,
        name: &Name,
    ) -> Result<Reply, Reply>
        ensures { MachineAnswers self.old (c.Rename volume.now name.now) result self.new }
    {
        let head = self.may_rename(volume, name)?;
        let value = with_nul(alloc, name.bytes())?;
        let live = self
            .at(head)
            .live
            .with_value(alloc, b"name", value.as_slice())?;
        let synced = self
            .at(head)
            .synced
            .with_value(alloc, b"name", value.as_slice())?;
        let mut x = self.take(head);
        x.live = live;
        x.synced = synced;
        self.put(head, x);
        Ok(Reply::Ok)
    }

    pub(super) fn read_only(&mut self, alloc: Global, volume: &VolumeRef) -> Result<Reply, Reply>
        ensures { MachineAnswers self.old (c.ReadOnly volume.now) result self.new }
    {
        let head = self.may_change(volume)?;
        let synced = self.at(head).live.try_copy(alloc)?;
        let mut x = self.take(head);
        x.synced = synced;
        x.read_only = true;
        self.put(head, x);
        Ok(Reply::Ok)
    }
}
