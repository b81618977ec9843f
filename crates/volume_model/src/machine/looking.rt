//! Which volume is meant, and what the volumes say together.

ghost use Rattle.std.specs.Prelude.{◌≡◌, ◌<◌, ◌≤◌, ◌^◌, ◌*◌, Some, None, false, IsSome, IfSome, IfOk, IfErr, length};
ghost use Rattle.std.specs.Option.{option_map_or};
ghost use Rattle.volume_model.specs.Machine.{volumes_in};
ghost use Rattle.volume_model.specs.Plain.{volume_in_row};
ghost use Rattle.volume_model.specs.Volumes as v;
ghost use Rattle.volume_model.specs.declared.reply.Reply.TheVariants as r;

use crate::command::VolumeRef;
use crate::machine::Volumes;
use crate::machine::rows::Volume;
use crate::reply::Reply;
use out_of_memory::Memory;
use std::alloc::Global;

impl Volumes {
    /// Whether a head is the super blob's.
    pub(super) fn is_super(&self, head: u32) -> bool
        ensures { result ≡ v.is_super self.now.fixed head }
    {
        match self.super_blob {
            Some(super_blob) => super_blob == head,
            None => false,
        }
    }

    fn has_name(&self, name: &[u8], head: u32) -> bool
        ensures { result ≡ v.has_name self.now.fixed (volumes_in self.now) name.now head }
    {
        match self.get(head) {
            Some(volume) => !self.is_super(head) && volume.live.told(b"name") == name,
            None => false,
        }
    }

    /// The lowest head of a live volume of this name.
    pub(super) fn head_named(&self, name: &[u8]) -> Option<u32>
        ensures { result ≡ v.head_named self.now.fixed (volumes_in self.now) name.now }
    {
        (0..self.md_len).find(|head| self.has_name(name, *head))
    }

    /// The head that a reference means.
    pub(super) fn head_of(&self, volume: &VolumeRef) -> Option<u32>
        ensures head { result ≡ v.head_of self.now.fixed (volumes_in self.now) volume.now }
        ensures there { IfSome result (λ h. IsSome (volumes_in self.now h)) }
    {
        match volume {
            VolumeRef::Head(head) => {
                if self.get(*head).is_some() {
                    Some(*head)
                } else {
                    None
                }
            }
            VolumeRef::Named(name) => self.head_named(name.bytes()),
        }
    }

    /// The volume that a reference means, and its head.
    pub(super) fn find(&self, volume: &VolumeRef) -> Result<(u32, &Volume), Reply>
        ensures head { IfOk result (λ p. v.head_of self.now.fixed (volumes_in self.now) volume.now ≡ Some p.0) }
        ensures volume { IfOk result (λ p. volumes_in self.now p.0 ≡ Some (volume_in_row p.1.now)) }
        ensures none { IfErr result (λ reply. v.head_of self.now.fixed (volumes_in self.now) volume.now ≡ None) }
        ensures reply { IfErr result (λ reply. reply ≡ r.NoVolume) }
    {
        let Some(head) = self.head_of(volume) else {
            return Err(Reply::NoVolume);
        };
        match self.get(head) {
            Some(volume) => Ok((head, volume)),
            None => Err(Reply::NoVolume),
        }
    }

    /// How many slots a volume has.
    pub(super) fn slots_of(&self, volume: &Volume) -> u64
        ensures { result ≡ v.slots_of self.now.fixed (volume_in_row volume.now) }
    {
        volume.pages.len() as u64 / u64::from(self.cluster_pages)
    }

    /// How many pages so many slots have.
    pub(super) fn pages_in(&self, slots: u64) -> u64
        requires { slots ≤ 2 ^ 20 }
        ensures { result ≡ slots * self.now.fixed.cluster_pages }
    {
        slots * u64::from(self.cluster_pages)
    }

    /// How many slots the volume at a head has; 0 where there is none.
    pub(super) fn slots_at(&self, head: u32) -> u64
        ensures { result ≡ v.slots_at self.now.fixed (volumes_in self.now) head }
    {
        match self.get(head) {
            Some(volume) => self.slots_of(volume),
            None => 0,
        }
    }

    /// How many slots all volumes have together.
    pub(super) fn all_slots(&self) -> u128
        ensures { result ≡ v.all_slots self.now.fixed (volumes_in self.now) }
    {
        let mut all = 0;
        for head in 0..self.md_len {
            all += u128::from(self.slots_at(head));
        }
        all
    }

    fn is_clone_of(&self, clone: u32, head: u32) -> bool
        ensures { result ≡ option_map_or (λ x. v.is_given_head head x.parent) (volumes_in self.now clone) false }
    {
        match self.get(clone) {
            Some(volume) => volume.parent == Some(head),
            None => false,
        }
    }

    /// The heads of the volumes whose parent this is.
    pub(super) fn clones(&self, alloc: Global, head: u32) -> Result<Vec<u32>, Memory>
        ensures heads { IfOk result (λ clones. clones.items ≡ v.clones self.now.fixed (volumes_in self.now) head) }
        ensures few { IfOk result (λ clones. length clones.items < 2 ^ 32) }
    {
        Ok(
            (0..self.md_len)
                .filter(|clone| self.is_clone_of(*clone, head))
                .collect(alloc)?,
        )
    }
}
