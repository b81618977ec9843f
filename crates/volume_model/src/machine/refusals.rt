//! Why a command is refused: one test a verb, its causes in their order.

ghost use Rattle.std.specs.Prelude.{◌≡◌, ◌≤◌, ℕ, if◌then◌else◌, Some, None, false, true, Option, List, Bool, IfOk};
ghost use Rattle.std.specs.Prelude.{IfErr, OnOk, nat_lt, ◌+◌, ◌^◌, length};
ghost use Rattle.std.specs.Option.{option_map_or};
ghost use Rattle.volume_model.specs.Machine.{volumes_in, MayBeDone, IsCommandRefused, IsCauseOfRefusal};
ghost use Rattle.volume_model.specs.Plain.{volume_in_row};
ghost use Rattle.volume_model.specs.Refusals as f;
ghost use Rattle.volume_model.specs.declared.command.Command.TheVariants as c;
ghost use Rattle.volume_model.specs.declared.command.PageWord.{PageWord};
ghost use Rattle.volume_model.specs.declared.reply.Reply.TheVariants as r;

use crate::command::VolumeRef;
use crate::machine::Volumes;
use crate::machine::rows::Volume;
use crate::name::Name;
use crate::reply::Reply;
use crate::text::Blobtext;

/// The greatest number of slots of one volume.
const MOST_SLOTS: u64 = 1 << 20;

/// The greatest number of slots of all volumes together.
const MOST_SLOTS_IN_ALL: u128 = 1 << 24;

fn is_reserved(key: &Blobtext) -> bool
    ensures { result ≡ f.is_reserved key.now }
{
    key.bytes() == b"name".as_slice() || key.bytes() == b"uuid".as_slice()
}

fn is_too_long(key: &Blobtext, value: &Blobtext) -> bool
    ensures { result ≡ nat_lt 4063 (length key.now + length value.now) }
{
    key.bytes().len() > 4063 || value.bytes().len() > 4063 - key.bytes().len()
}

/// Refuses a change of metadata of the super blob or under a key that is reserved, and then one of a read-only volume.
pub(super) fn refuse_change(reserved: bool, read_only: bool) -> Result<(), Reply>
    ensures ok { OnOk result ((reserved ≡ false) × (read_only ≡ false)) }
    ensures err { IfErr result (λ reply. Some reply
        ≡ (if reserved then Some r.Reserved else if read_only then Some r.ReadOnly else None)) }
{
    if reserved {
        Err(Reply::Reserved)
    } else if read_only {
        Err(Reply::ReadOnly)
    } else {
        Ok(())
    }
}

impl Volumes {
    /// Whether a volume has too many slots, by itself or with the others.
    pub(super) fn is_too_large(&self, slots: u64, others: u128) -> bool
        ensures { result ≡ f.is_too_large self.now.fixed (volumes_in self.now) slots others }
    {
        slots > MOST_SLOTS || others > MOST_SLOTS_IN_ALL - u128::from(slots)
    }

    pub(super) fn is_taken(&self, name: &Name) -> bool
        ensures { result ≡ f.is_taken self.now.fixed (volumes_in self.now) name.now }
    {
        self.head_named(name.bytes()).is_some()
    }

    pub(super) fn has_longer_parent(&self, volume: &Volume, slots: u64) -> bool
        ensures { result ≡ f.has_longer_parent self.now.fixed (volumes_in self.now) (volume_in_row volume.now) slots }
    {
        match volume.parent {
            Some(parent) => slots < self.slots_at(parent),
            None => false,
        }
    }

    pub(super) fn may_create(&self, name: &Name, slots: u64) -> Result<(), Reply>
        ensures ok { OnOk result ((thick : Bool) (uuid : Option (List ℕ))
            → f.refusal self.now.fixed (volumes_in self.now) (c.Create name.now slots thick uuid) ≡ None) }
        ensures size { OnOk result (slots ≤ 2 ^ 20) }
        ensures err { IfErr result (λ reply. (thick : Bool) (uuid : Option (List ℕ))
            → IsCommandRefused self.now (c.Create name.now slots thick uuid) reply) }
    {
        if self.is_taken(name) {
            Err(Reply::NameTaken)
        } else if self.is_too_large(slots, self.all_slots()) {
            Err(Reply::TooLarge)
        } else {
            Ok(())
        }
    }

    pub(super) fn may_write(&self, volume: &VolumeRef, page: u64) -> Result<u32, Reply>
        ensures cause { (word : PageWord) → MayBeDone self.now volume.now (c.Write volume.now page word) result }
        ensures within { IfOk result (λ h. option_map_or (λ x. nat_lt page (length x.pages)) (volumes_in self.now h)
            false ≡ true) }
        ensures refused { IfErr result IsCauseOfRefusal }
    {
        let (head, x) = self.find(volume)?;
        if self.is_super(head) {
            Err(Reply::Reserved)
        } else if page >= x.pages.len() as u64 {
            Err(Reply::OutOfRange)
        } else if x.read_only {
            Err(Reply::ReadOnly)
        } else {
            Ok(head)
        }
    }

    pub(super) fn may_read(&self, volume: &VolumeRef, page: u64) -> Result<u32, Reply>
        ensures cause { MayBeDone self.now volume.now (c.Read volume.now page) result }
        ensures within { IfOk result (λ h. option_map_or (λ x. nat_lt page (length x.pages)) (volumes_in self.now h)
            false ≡ true) }
    {
        let (head, x) = self.find(volume)?;
        if page >= x.pages.len() as u64 {
            Err(Reply::OutOfRange)
        } else {
            Ok(head)
        }
    }

    pub(super) fn may_set(
        &self,
        volume: &VolumeRef,
        key: &Blobtext,
        value: &Blobtext,
    ) -> Result<u32, Reply>
        ensures setx { MayBeDone self.now volume.now (c.SetX volume.now key.now value.now) result }
        ensures put { MayBeDone self.now volume.now (c.Put volume.now key.now value.now) result }
    {
        let (head, x) = self.find(volume)?;
        refuse_change(self.is_super(head) || is_reserved(key), x.read_only)?;
        if is_too_long(key, value) {
            Err(Reply::TooLong)
        } else {
            Ok(head)
        }
    }

    pub(super) fn may_remove(&self, volume: &VolumeRef, key: &Blobtext) -> Result<u32, Reply>
        ensures { MayBeDone self.now volume.now (c.DelX volume.now key.now) result }
    {
        let (head, x) = self.find(volume)?;
        refuse_change(self.is_super(head) || is_reserved(key), x.read_only)?;
        if x.live.value_of(key.bytes()).is_none() {
            Err(Reply::NoValue)
        } else {
            Ok(head)
        }
    }

    /// For a verb on metadata that has no cause of its own.
    pub(super) fn may_change(&self, volume: &VolumeRef) -> Result<u32, Reply>
        ensures sync { MayBeDone self.now volume.now (c.Sync volume.now) result }
        ensures inflate { MayBeDone self.now volume.now (c.Inflate volume.now) result }
        ensures readonly { MayBeDone self.now volume.now (c.ReadOnly volume.now) result }
        ensures refused { IfErr result IsCauseOfRefusal }
    {
        let (head, x) = self.find(volume)?;
        refuse_change(self.is_super(head), x.read_only)?;
        Ok(head)
    }

    pub(super) fn may_resize(&self, volume: &VolumeRef, slots: u64) -> Result<u32, Reply>
        ensures cause { MayBeDone self.now volume.now (c.Resize volume.now slots) result }
        ensures size { OnOk result (slots ≤ 2 ^ 20) }
    {
        let (head, x) = self.find(volume)?;
        let old = self.slots_of(x);
        refuse_change(self.is_super(head), x.read_only)?;
        if slots > old && self.has_longer_parent(x, old) {
            Err(Reply::Short)
        } else if self.is_too_large(slots, self.all_slots().saturating_sub(u128::from(old))) {
            Err(Reply::TooLarge)
        } else {
            Ok(head)
        }
    }

    pub(super) fn may_rename(&self, volume: &VolumeRef, name: &Name) -> Result<u32, Reply>
        ensures { MayBeDone self.now volume.now (c.Rename volume.now name.now) result }
    {
        let (head, x) = self.find(volume)?;
        refuse_change(self.is_super(head), x.read_only)?;
        // The volume itself counts.
        if self.is_taken(name) {
            Err(Reply::NameTaken)
        } else {
            Ok(head)
        }
    }
}
