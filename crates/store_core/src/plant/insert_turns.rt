//! The begin of an insert: what is kept of a running store over it.

use crate::keeping::goes_on;
use crate::plant::Plant;
use crate::right::MdRight;
use job_begins::{InsertTurn, begin_insert_or_halt};
use page_disk::PageDisk;
use volume_model::Msg;

impl<D: PageDisk> Plant<D> {
    ghost use Rattle.std.specs.Prelude.{◌≡◌, None, IsSome};
    ghost use Rattle.store_model.specs.Repairing.{IsRepaired};
    ghost use Rattle.job_begins.specs.declared.inserting.InsertTurn.TheVariants.{Logged};
    ghost use Rattle.job_begins.specs.Inserts.{InsertsOrNot, RowsInserting};
    ghost use Rattle.running_store.specs.Requests.{IsInsertPosted};
    ghost use Rattle.running_store.specs.GivingBack.{halting};
    ghost use Rattle.running_store.specs.StoreView.{state_of};
    ghost use Rattle.running_store.specs.TurnMade.{TurnMade};

    /// Begins the insert that a message posts, where nothing is left to repair: the job that writes its blob's
    /// metadata, as it was last synced, with the cluster in the claim's slot. `Decided` comes exactly where the blob is
    /// gone or has another generation than at the claim, or the slot isn't there or is filled: the claim is given back,
    /// and whoever works on the row begins again. `Logged` comes where fewer pages are clear than the metadata needs
    /// behind its head, where memory ran out, and on a stopped store: the command that the row works for, a write or,
    /// on the fill's row, that which slots are filled for, is logged as that, and the claim given back.
    pub fn begin_insert(&mut self, right: &mut MdRight, msg: Msg) -> InsertTurn
        requires right { right.old ≡ self.old.right }
        requires posted { IsInsertPosted self.old.at.rows msg }
        requires no_job { self.old.at.job ≡ None }
        requires repaired { IsRepaired (state_of D.PageDisk self.old.at) }
        ensures begins { self.old.at.stopped ≡ None → InsertsOrNot D.PageDisk self.old.at self.new.at result }
        ensures halted { IsSome self.old.at.stopped
            → (result ≡ Logged) × TurnMade D.PageDisk self.old.at self.new.at (halting msg.channel) }
        ensures rows { RowsInserting result self.old.at.filling self.old.at.rows self.new.at.rows msg.channel }
        ensures opening { self.new.opening ≡ self.old.opening }
        ensures right { (right.new ≡ right.old) × (self.new.right ≡ self.old.right) }
    {
        goes_on::<D>();
        begin_insert_or_halt(&mut self.running, msg.channel)
    }
}
