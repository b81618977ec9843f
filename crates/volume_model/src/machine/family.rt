//! Parents and clones of volumes: filled up, cut loose and deleted.

ghost use Rattle.std.specs.Prelude.{◌≡◌, IfErr, map};
ghost use Rattle.std.specs.Option.{option_map, option_and_then};
ghost use Rattle.volume_model.specs.Machine.{volumes_in, MachineAnswers, IsCauseOfRefusal};
ghost use Rattle.volume_model.specs.Plain.{adopted, adopted_row};
ghost use Rattle.volume_model.specs.declared.command.Command.TheVariants as c;

use crate::command::VolumeRef;
use crate::machine::Volumes;
use crate::machine::rows::Volume;
use crate::reply::Reply;
use std::alloc::Global;

/// Gives a clone of a volume another parent.
fn adopt_row(row: &mut Option<Volume>, head: u32, parent: Option<u32>)
    ensures { row.new ≡ option_map (adopted_row head parent) row.old }
{
    if let Some(volume) = row {
        if volume.parent == Some(head) {
            volume.parent = parent;
        }
    }
}

/// Gives the clones of a volume another parent.
fn adopt_rows(rows: &mut Vec<Option<Volume>>, head: u32, parent: Option<u32>)
    ensures { rows.new.items ≡ map (option_map (adopted_row head parent)) rows.old.items }
{
    for row in rows.iter_mut() {
        adopt_row(row, head, parent);
    }
}

impl Volumes {
    fn parent_at(&self, head: Option<u32>) -> Option<u32>
        ensures { result ≡ option_and_then (λ x. x.parent) (option_and_then (volumes_in self.now) head) }
    {
        match head {
            Some(head) => match self.get(head) {
                Some(volume) => volume.parent,
                None => None,
            },
            None => None,
        }
    }

    pub(super) fn inflate(&mut self, volume: &VolumeRef) -> Result<Reply, Reply>
        ensures answer { MachineAnswers self.old (c.Inflate volume.now) result self.new }
        ensures refused { IfErr result IsCauseOfRefusal }
    {
        let head = self.may_change(volume)?;
        let mut x = self.take(head);
        x.thin = false;
        x.parent = None;
        self.put(head, x);
        Ok(Reply::Ok)
    }

    pub(super) fn decouple(&mut self, volume: &VolumeRef) -> Result<Reply, Reply>
        ensures answer { MachineAnswers self.old (c.Decouple volume.now) result self.new }
        ensures refused { IfErr result IsCauseOfRefusal }
    {
        let head = self.may_decouple(volume)?;
        let parent = self.parent_at(self.at(head).parent);
        let mut x = self.take(head);
        x.parent = parent;
        self.put(head, x);
        Ok(Reply::Ok)
    }

    /// Gives the clones of a volume another parent.
    fn adopt(&mut self, head: u32, parent: Option<u32>)
        ensures fixed { self.new.fixed ≡ self.old.fixed }
        ensures rows { self.new.rows ≡ map (option_map (adopted head parent)) self.old.rows }
    {
        adopt_rows(&mut self.rows, head, parent);
    }

    pub(super) fn delete(&mut self, alloc: Global, volume: &VolumeRef) -> Result<Reply, Reply>
        ensures { MachineAnswers self.old (c.Delete volume.now) result self.new }
    {
        let head = self.may_delete(alloc, volume)?;
        let parent = self.take(head).parent;
        self.adopt(head, parent);
        Ok(Reply::Ok)
    }
}
