//! The turns that the fill's row alone has: what is kept of a running store over them.

use crate::keeping::goes_on;
use crate::plant::Plant;
use crate::right::MdRight;
use channel_turns::{ClaimTurn, claim_fill_or_halt, end_fill};
use page_disk::PageDisk;
use volume_model::Msg;

impl<D: PageDisk> Plant<D> {
    ghost use Rattle.std.specs.Prelude.{◌≡◌, None, Some, IsSome};
    ghost use Rattle.super_block.specs.Numbers.{cluster_pages_of};
    ghost use Rattle.channel_turns.specs.declared.claiming.ClaimTurn.TheVariants.{Claimed, Logged};
    ghost use Rattle.channel_turns.specs.FillTurns.{ClaimsFillOrNot, IsNextToFill, RowsFilling};
    ghost use Rattle.running_store.specs.Requests.{IsPostedBy};
    ghost use Rattle.running_store.specs.Stages.{is_stage};
    ghost use Rattle.running_store.specs.Steps.{Asks, OnlyRow};
    ghost use Rattle.running_store.specs.StoreView.{rows_of, state_of};
    ghost use Rattle.running_store.specs.TurnMade.{TurnMade};
    ghost use Rattle.running_store.specs.declared.rows.RowStage.TheVariants.{Over};
    ghost use Rattle.store_model.specs.Cases as kind;
    ghost use Rattle.store_model.specs.Filling.{AsksForFill};
    ghost use Rattle.store_model.specs.Rows.{fill_row, Idle};

    /// Claims the least clear cluster on the fill's row, for the slot that is to be filled next for the inflate or
    /// decouple that a message posts; the row works for that command from now on. `Logged` comes exactly where no
    /// cluster is clear, as `Full`, and on a stopped store, as that.
    pub fn claim_fill(&mut self, right: &mut MdRight, msg: Msg, slot: u32) -> ClaimTurn
        requires right { right.old ≡ self.old.right }
        requires posted { IsPostedBy self.old.at.rows msg }
        requires over { is_stage (rows_of self.old.at.rows fill_row) fill_row ≡ Over }
        requires no_job { self.old.at.job ≡ None }
        requires fills { Asks self.old.at msg.channel AsksForFill }
        requires next { self.old.at.stopped ≡ None → Asks self.old.at msg.channel
            (λ command. IsNextToFill (state_of D.PageDisk self.old.at) command slot) }
        ensures claims { self.old.at.stopped ≡ None
            → ClaimsFillOrNot D.PageDisk self.old.at self.new.at result }
        ensures halted { IsSome self.old.at.stopped
            → (result ≡ Logged) × TurnMade D.PageDisk self.old.at self.new.at kind.halts_fill }
        ensures works { result ≡ Claimed → self.new.at.filling ≡ Some msg.channel }
        ensures rows { RowsFilling result (cluster_pages_of self.old.at.super) self.old.at.rows self.new.at.rows
            msg.channel }
        ensures job { self.new.at.job ≡ self.old.at.job }
        ensures opening { self.new.opening ≡ self.old.opening }
        ensures right { (right.new ≡ right.old) × (self.new.right ≡ self.old.right) }
    {
        goes_on::<D>();
        claim_fill_or_halt(&mut self.running, msg.channel, slot)
    }

    /// The fill's row gives its claim back, if it has one, and works for no command any more.
    pub fn end_fill(&mut self, right: &mut MdRight)
        requires right { right.old ≡ self.old.right }
        requires no_job { self.old.at.job ≡ None }
        ensures case { TurnMade D.PageDisk self.old.at self.new.at kind.ends_fill }
        ensures row { OnlyRow self.old.at.rows self.new.at.rows fill_row
            (record (rows_of self.old.at.rows fill_row) { stage = Idle; claim = None }) }
        ensures job { self.new.at.job ≡ self.old.at.job }
        ensures opening { self.new.opening ≡ self.old.opening }
        ensures right { (right.new ≡ right.old) × (self.new.right ≡ self.old.right) }
    {
        goes_on::<D>();
        end_fill(&mut self.running);
    }
}
