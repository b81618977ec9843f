//! The plain slow machine: volumes as whole lists of pages, by which tests judge what a store answers.

mod attributes;
mod family;
mod family_refusals;
mod looking;
mod making;
mod pages;
mod refusals;
mod rows;
mod telling;

use crate::command::Command;
use crate::reply::Reply;
use rows::Volume;
use std::alloc::Global;
use std::marker::Model;

/// Volumes by their heads. Contracts see what is fixed for a run, and the list of what stands at each head.
#[derive(Drop)]
pub struct Volumes {
    cluster_pages: u32,
    md_len: u32,
    super_blob: Option<u32>,
    rows: Vec<Option<Volume>>,
}

impl Model for Volumes {
    ghost use Rattle.std.specs.Prelude.{ℕ, ◌<◌, map};
    ghost use Rattle.std.specs.Option.{option_map};
    ghost use Rattle.volume_model.specs.Machine.{Machine};
    ghost use Rattle.volume_model.specs.Plain.{volume_in_row};

    ghost Value = { Machine };

    ghost view = { λ a. record {
      fixed = record { cluster_pages = a.cluster_pages; md_len = a.md_len; super_blob = a.super_blob };
      rows = map (option_map volume_in_row) a.rows.items;
    } };

    ghost invariant = { λ a. 0 < a.cluster_pages };
}

impl Volumes {
    ghost use Rattle.std.specs.Prelude.{◌⊎◌, ◌≡◌, ◌≢◌, ◌<◌, ℕ, [], IfErr};
    ghost use Rattle.volume_model.specs.Machine.{volumes_in, MachineAnswers, IsCauseOfRefusal, IsLeastFree, IsPlain};
    ghost use Rattle.volume_model.specs.Machine.{TakesNoMemory};
    ghost use Rattle.volume_model.specs.Steps.{Step};
    ghost use Rattle.volume_model.specs.declared.reply.Reply.TheVariants as r;

    /// No volume yet. A slot has `cluster_pages` pages, which is above 0; heads are below `md_len`; and the volume at
    /// `super_blob`, if there is one, is the super blob.
    pub fn new(alloc: Global, cluster_pages: u32, md_len: u32, super_blob: Option<u32>) -> Volumes
        requires { 0 < cluster_pages }
        ensures fixed { result.fixed ≡ record {
          cluster_pages = cluster_pages;
          md_len = md_len;
          super_blob =
              super_blob;
        } }
        ensures empty { result.rows ≡ [] }
    {
        Volumes {
            cluster_pages,
            md_len,
            super_blob,
            rows: Vec::new(alloc),
        }
    }

    /// Does one command. The reply and what the volumes are then is a step, or the reply is `Memory` and nothing has
    /// changed: where memory is wanting, or a new volume where every head is in use. A new volume gets the lowest head
    /// that isn't in use. `Full`, `NoPage` and the faults never come, and `Memory` never to a write, a flush, an
    /// inflate, a decouple or a df.
    pub fn apply(&mut self, alloc: Global, command: &Command) -> Reply
        ensures step { Step self.old.fixed (volumes_in self.old) command.now result (volumes_in self.new)
            ⊎ ((result ≡ r.Memory) × (self.new ≡ self.old)) }
        ensures fixed { self.new.fixed ≡ self.old.fixed }
        ensures least { (h : ℕ) → result ≡ r.Made h → IsLeastFree (volumes_in self.old) h }
        ensures plain { IsPlain result }
        ensures memory { TakesNoMemory command.now → result ≢ r.Memory }
    {
        match self.answer(alloc, command) {
            Ok(reply) | Err(reply) => reply,
        }
    }

    /// The reply of a verb that is done, or the one for which nothing is.
    fn answer(&mut self, alloc: Global, command: &Command) -> Result<Reply, Reply>
        ensures answer { MachineAnswers self.old command.now result self.new }
        ensures refused { TakesNoMemory command.now → IfErr result IsCauseOfRefusal }
    {
        match command {
            Command::Create {
                name,
                slots,
                thick,
                uuid,
            } => self.create(alloc, name, *slots, *thick, *uuid),
            Command::Write { volume, page, word } => self.write(volume, *page, word),
            Command::Read { volume, page } => self.read(alloc, volume, *page),
            Command::Flush => Ok(Reply::Ok),
            Command::SetX { volume, key, value } => self.set_x(alloc, volume, key, value),
            Command::DelX { volume, key } => self.del_x(alloc, volume, key),
            Command::GetX { volume, key } => self.get_x(alloc, volume, key),
            Command::Put { volume, key, value } => self.put_x(alloc, volume, key, value),
            Command::Sync { volume } => self.sync(alloc, volume),
            Command::Resize { volume, slots } => self.resize(alloc, volume, *slots),
            Command::Snapshot { volume, name } => self.snapshot(alloc, volume, name),
            Command::Clone { volume, name } => self.clone(alloc, volume, name),
            Command::Inflate { volume } => self.inflate(volume),
            Command::Decouple { volume } => self.decouple(volume),
            Command::Delete { volume } => self.delete(alloc, volume),
            Command::Rename { volume, name } => self.rename(alloc, volume, name),
            Command::ReadOnly { volume } => self.read_only(alloc, volume),
            Command::Info { volume } => self.info(alloc, volume),
            Command::List => self.list(alloc),
            Command::Df => Ok(self.df()),
        }
    }
}
