//! Why a verb on a family of volumes is refused: a snapshot, a clone, a decouple, a delete.

ghost use Rattle.std.specs.Prelude.{◌≡◌, false, IfErr};
ghost use Rattle.std.specs.Option.{option_map_or};
ghost use Rattle.volume_model.specs.Machine.{volumes_in, MayBeDone, IsCauseOfRefusal};
ghost use Rattle.volume_model.specs.Plain.{volume_in_row};
ghost use Rattle.volume_model.specs.Refusals as f;
ghost use Rattle.volume_model.specs.declared.command.Command.TheVariants as c;

use crate::command::VolumeRef;
use crate::machine::Volumes;
use crate::machine::refusals::refuse_change;
use crate::machine::rows::Volume;
use crate::name::Name;
use crate::reply::Reply;
use out_of_memory::Memory;
use std::alloc::Global;

impl Volumes {
    fn is_short_between(&self, volume: &Volume, clone: &Volume) -> bool
        ensures { result ≡ f.is_short_between self.now.fixed (volumes_in self.now) (volume_in_row volume.now)
            (volume_in_row clone.now) }
    {
        let slots = self.slots_of(volume);
        self.has_longer_parent(volume, slots) && slots < self.slots_of(clone)
    }

    pub(super) fn may_snapshot(&self, volume: &VolumeRef, name: &Name) -> Result<u32, Reply>
        ensures { MayBeDone self.now volume.now (c.Snapshot volume.now name.now) result }
    {
        let (head, x) = self.find(volume)?;
        refuse_change(self.is_super(head), x.read_only)?;
        if self.is_taken(name) {
            Err(Reply::NameTaken)
        } else if self.is_too_large(self.slots_of(x), self.all_slots()) {
            Err(Reply::TooLarge)
        } else {
            Ok(head)
        }
    }

    pub(super) fn may_clone(&self, volume: &VolumeRef, name: &Name) -> Result<u32, Reply>
        ensures { MayBeDone self.now volume.now (c.Clone volume.now name.now) result }
    {
        let (head, x) = self.find(volume)?;
        if !x.read_only {
            Err(Reply::NotReadOnly)
        } else if self.is_taken(name) {
            Err(Reply::NameTaken)
        } else if self.is_too_large(self.slots_of(x), self.all_slots()) {
            Err(Reply::TooLarge)
        } else {
            Ok(head)
        }
    }

    fn is_short_under(&self, parent: Option<u32>, clone: &Volume) -> bool
        ensures { result ≡ option_map_or (λ p. option_map_or
            (λ s. f.is_short_between self.now.fixed (volumes_in self.now) s (volume_in_row clone.now))
            (volumes_in self.now p) false) parent false }
    {
        match parent {
            Some(parent) => match self.get(parent) {
                Some(between) => self.is_short_between(between, clone),
                None => false,
            },
            None => false,
        }
    }

    pub(super) fn may_decouple(&self, volume: &VolumeRef) -> Result<u32, Reply>
        ensures cause { MayBeDone self.now volume.now (c.Decouple volume.now) result }
        ensures refused { IfErr result IsCauseOfRefusal }
    {
        let (head, x) = self.find(volume)?;
        refuse_change(self.is_super(head), x.read_only)?;
        if x.parent.is_none() {
            Err(Reply::NoParent)
        } else if self.is_short_under(x.parent, x) {
            Err(Reply::Short)
        } else {
            Ok(head)
        }
    }

    /// Whether there is one clone alone, and it is locked.
    fn has_locked_clone(&self, clones: &[u32]) -> bool
        ensures { result ≡ f.only_clone self.now.fixed (volumes_in self.now) (λ y. y.locked) clones.now }
    {
        match clones {
            [clone] => match self.get(*clone) {
                Some(clone) => clone.locked,
                None => false,
            },
            _ => false,
        }
    }

    /// Whether there is one clone alone, and it would read the parent where the volume reads zeros.
    fn has_short_clone(&self, volume: &Volume, clones: &[u32]) -> bool
        ensures { result ≡ f.only_clone self.now.fixed (volumes_in self.now)
            (f.is_short_between self.now.fixed (volumes_in self.now) (volume_in_row volume.now)) clones.now }
    {
        match clones {
            [clone] => match self.get(*clone) {
                Some(clone) => self.is_short_between(volume, clone),
                None => false,
            },
            _ => false,
        }
    }

    pub(super) fn may_delete(&self, alloc: Global, volume: &VolumeRef) -> Result<u32, Reply>
        ensures { MayBeDone self.now volume.now (c.Delete volume.now) result }
    {
        let (head, x) = self.find(volume)?;
        let clones = self.clones(alloc, head)?;
        if self.is_super(head) {
            Err(Reply::Reserved)
        } else if x.locked || self.has_locked_clone(clones.as_slice()) {
            Err(Reply::ReadOnly)
        } else if clones.len() >= 2 {
            Err(Reply::Busy(clones.len() as u32))
        } else if self.has_short_clone(x, clones.as_slice()) {
            Err(Reply::Short)
        } else {
            Ok(head)
        }
    }
}
