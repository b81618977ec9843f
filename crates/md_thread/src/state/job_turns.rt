//! The running job's turn, behind which the command that slots are filled for may be logged.

use crate::state::MdState;
use page_disk::PageDisk;
use store_core::{MdRight, Plant};
use store_model::state_turns;
use volume_model::Msg;

impl MdState {
    ghost use Rattle.std.specs.Prelude.{◌≡◌, None, Some, IsSome};
    ghost use Rattle.md_thread.specs.Holding.{IsHeldOn, IsKept};
    ghost use Rattle.md_thread.specs.Leading.{TurnsOnceOrStays};
    ghost use Rattle.md_thread.specs.Turns.{JobMade};
    ghost use Rattle.metadata_turns.specs.JobTurns.{TurnsJob};
    ghost use Rattle.run_moves.specs.FillTurns.{held_beside, worked_for};
    ghost use Rattle.running_store.specs.StoreView.{rows_of, state_of};
    ghost use Rattle.store_model.specs.Filling.{IsFilledFor};
    ghost use Rattle.store_model.specs.Repairing.{IsRepaired};
    ghost use Rattle.volume_model.specs.declared.reply.Msg.{Msg as AMsg};

    /// The running job makes its next turn. Where that was of the insert of the fill's row, and it failed, the command
    /// that the row works for is logged.
    pub(super) fn job_turn<D: PageDisk>(&mut self, right: &mut MdRight, plant: &mut Plant<D>)
        requires right { right.old ≡ plant.old.right }
        requires runs { IsSome plant.old.at.job }
        requires repaired { IsRepaired (state_of D.PageDisk plant.old.at) }
        ensures turn { TurnsJob D.PageDisk plant.old.at plant.new.at × IsHeldOn plant.new.at.rows self.old self.new.held
            × (self.new.waiting ≡ self.old.waiting) }
        ensures made { IsKept D.PageDisk plant.old.at self.old
            → JobMade D.tells (state_of D.PageDisk plant.old.at) (state_of D.PageDisk plant.new.at) self.old self.new }
        ensures asked { IsKept D.PageDisk plant.old.at self.old → (msg : AMsg) → self.new.fill ≡ Some msg
            → IsFilledFor (rows_of plant.new.at.rows msg.channel) }
        ensures leads { TurnsOnceOrStays D.tells (state_of D.PageDisk plant.old.at) (state_of D.PageDisk plant.new.at) }
        ensures repaired { IsRepaired (state_of D.PageDisk plant.new.at) }
        ensures opening { plant.new.opening ≡ plant.old.opening }
        ensures right { (right.new ≡ right.old) × (plant.new.right ≡ plant.old.right) }
    {
        state_turns();
        plant.keeps();
        plant.job_turn(right);
        if let Some(msg) = self.worked_for() {
            if plant.request(right, msg).is_err() {
                self.let_go();
            }
        }
    }

    /// The message of the command that the fill's row works for, if it works for one: that of the fill, or, behind a
    /// takeover, the one held.
    fn worked_for(&self) -> Option<Msg>
        ensures { result ≡ worked_for self.now.fill self.now.held }
    {
        match self.fill {
            Some(msg) => Some(msg),
            None => self.held,
        }
    }

    /// That command is logged.
    fn let_go(&mut self)
        ensures { self.new ≡ record self.old { held = held_beside self.old.fill self.old.held; fill = None } }
    {
        if self.fill.take().is_none() {
            self.held = None;
        }
    }
}
