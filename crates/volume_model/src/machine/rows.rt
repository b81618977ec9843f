//! What stands at each head.

ghost use Rattle.std.specs.Prelude.{◌≡◌, ◌≤◌, ◌<◌, Some, None, IsSome, IfOk, OnOk, OnErr, length, option_copied};
ghost use Rattle.std.specs.Option.{option_map};
ghost use Rattle.volume_model.specs.Machine.{volumes_in, IsLeastFree, PutsVolume};
ghost use Rattle.volume_model.specs.Plain.{volume_in_row};

use crate::machine::Volumes;
use crate::text::XattrList;
use out_of_memory::Memory;

/// A page's bytes.
pub(super) type Page = [u8; 4096];

/// A volume with all that it holds, its pages copied whole.
#[derive(Drop)]
pub(super) struct Volume {
    pub(super) pages: Vec<Page>,
    pub(super) live: XattrList,
    pub(super) synced: XattrList,
    pub(super) thin: bool,
    pub(super) read_only: bool,
    pub(super) locked: bool,
    pub(super) parent: Option<u32>,
}

impl Volumes {
    /// The volume at a head.
    pub(super) fn get(&self, head: u32) -> Option<&Volume>
        ensures { option_map volume_in_row (option_copied result) ≡ volumes_in self.now head }
    {
        match self.rows.get(head as usize) {
            Some(Some(volume)) => Some(volume),
            _ => None,
        }
    }

    /// The volume at a head that is in use.
    pub(super) fn at(&self, head: u32) -> &Volume
        requires { IsSome (volumes_in self.now head) }
        ensures { volumes_in self.now head ≡ Some (volume_in_row result.now) }
    {
        match self.get(head) {
            Some(volume) => volume,
            None => unreachable!(),
        }
    }

    /// The lowest head that isn't in use.
    pub(super) fn free_head(&self) -> Result<u32, Memory>
        ensures least { IfOk result (λ h. IsLeastFree (volumes_in self.now) h) }
        ensures below { IfOk result (λ h. h < self.now.fixed.md_len) }
        ensures near { IfOk result (λ h. h ≤ length self.now.rows) }
    {
        for head in 0..self.md_len {
            if self.get(head).is_none() {
                return Ok(head);
            }
        }
        Err(Memory)
    }

    /// Takes the volume at a head out.
    pub(super) fn take(&mut self, head: u32) -> Volume
        requires { IsSome (volumes_in self.old head) }
        ensures value { volumes_in self.old head ≡ Some (volume_in_row result) }
        ensures rest { PutsVolume self.old head None self.new }
        ensures room { head < length self.new.rows }
    {
        match self.rows[head as usize].take() {
            Some(volume) => volume,
            None => unreachable!(),
        }
    }

    /// Puts a volume where one was taken out.
    pub(super) fn put(&mut self, head: u32, volume: Volume)
        requires { head < length self.old.rows }
        ensures { PutsVolume self.old head (Some (volume_in_row volume)) self.new }
    {
        self.rows[head as usize] = Some(volume);
    }

    /// Adds a volume at a free head; nothing has changed after `Memory`.
    pub(super) fn add(&mut self, head: u32, volume: Volume) -> Result<(), Memory>
        requires { head ≤ length self.old.rows }
        ensures ok { OnOk result (PutsVolume self.old head (Some (volume_in_row volume)) self.new) }
        ensures memory { OnErr result (self.new ≡ self.old) }
    {
        if (head as usize) < self.rows.len() {
            self.put(head, volume);
        } else {
            self.rows.push(Some(volume))?;
        }
        Ok(())
    }
}
