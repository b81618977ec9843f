//! The turns of the store that the metadata thread makes: which of them is due, and what becomes of its messages.

use crate::ending::fill_row_is_over;
use crate::filling::fill_turn;
use crate::serving::{Filling, Served, serve};
use crate::state::{MdState, Turn};
use crate::tasks::is_insert;
use page_disk::PageDisk;
use std::alloc::Global;
use store_core::{MdRight, Plant};
use store_model::state_turns;
use volume_model::Msg;

impl MdState {
    ghost use Rattle.std.specs.Prelude.{◌≡◌, ◌≢◌, ◌⊎◌, ◌<◌, List, [], ◌∷◌, None, Some, false, true, length, nat_lt};
    ghost use Rattle.std.specs.Prelude.{◌↔◌, IsFalse, IsSome, IsTrue};
    ghost use Rattle.md_thread.specs.Leading.{TurnsOnceOrStays};
    ghost use Rattle.md_thread.specs.Holding.{ComesNext, IsHeldOn, IsKept, LooksForMessage, looks_first, MakesStep};
    ghost use Rattle.md_thread.specs.Holding.{without_next};
    ghost use Rattle.md_thread.specs.Turns.{ActsNow, HasJoined, ServiceMade};
    ghost use Rattle.md_thread.specs.declared.state.Turn.TheVariants.{Idle, Moved};
    ghost use Rattle.metadata_turns.specs.JobTurns.{TurnsJob};
    ghost use Rattle.running_store.specs.Requests.{IsPostedBy};
    ghost use Rattle.running_store.specs.Stages.{is_stage};
    ghost use Rattle.running_store.specs.StoreView.{rows_of, state_of};
    ghost use Rattle.running_store.specs.TurnMade.{TurnMade};
    ghost use Rattle.running_store.specs.declared.rows.RowStage.TheVariants.{Over};
    ghost use Rattle.store_model.specs.Cases as kind;
    ghost use Rattle.store_model.specs.Filling.{IsFilledFor};
    ghost use Rattle.store_model.specs.Repairing.{IsRepaired};
    ghost use Rattle.store_model.specs.Rows.{fill_row, Posted};
    ghost use Rattle.volume_model.specs.declared.reply.Msg.{Msg as AMsg};

    /// Makes the turn of the store that is due.
    pub(super) fn turn_due<D: PageDisk>(
        &mut self,
        alloc: Global,
        right: &mut MdRight,
        plant: &mut Plant<D>,
    ) -> Turn
        requires right { right.old ≡ plant.old.right }
        requires repaired { IsRepaired (state_of D.PageDisk plant.old.at) }
        ensures step { result ≡ Moved → IsKept D.PageDisk plant.old.at self.old
            → MakesStep D.tells (state_of D.PageDisk plant.old.at) self.old
            (state_of D.PageDisk plant.new.at) self.new }
        ensures asked { IsKept D.PageDisk plant.old.at self.old → (msg : AMsg) → self.new.fill ≡ Some msg
            → IsFilledFor (rows_of plant.new.at.rows msg.channel) }
        ensures looks { result ≡ Idle → IsKept D.PageDisk plant.old.at self.old
            → LooksForMessage (state_of D.PageDisk plant.old.at) self.old self.new }
        ensures idle { result ≡ Idle → (plant.new ≡ plant.old) × (self.new.held ≡ None)
            × (length self.new.waiting < 16) }
        ensures first { looks_first plant.old.at.job self.old ≡ true → self.old.found_none ≡ false
            → result ≡ Idle }
        ensures job { IsSome plant.old.at.job → (result ≡ Moved) × TurnsJob D.PageDisk plant.old.at plant.new.at
            × IsHeldOn plant.new.at.rows self.old self.new.held × (self.new.waiting ≡ self.old.waiting) }
        ensures closes { plant.old.at.job ≡ None → self.old.fill ≡ None
            → is_stage (rows_of plant.old.at.rows fill_row) fill_row ≢ Over
            → (result ≡ Moved) × TurnMade D.PageDisk plant.old.at plant.new.at kind.ends_fill
            × (self.new ≡ self.old) }
        ensures message { plant.old.at.job ≡ None → is_stage (rows_of plant.old.at.rows fill_row) fill_row ≡ Over
            → self.old.fill ≡ None → (msg : AMsg) → ComesNext self.old msg → msg.channel < 16
            → (rows_of plant.old.at.rows msg.channel).stage ≡ Posted msg.serial
            → (result ≡ Moved) × ServiceMade D.tells (state_of D.PageDisk plant.old.at)
            (state_of D.PageDisk plant.new.at) msg (without_next self.old) self.new }
        ensures nothing { plant.old.at.job ≡ None → is_stage (rows_of plant.old.at.rows fill_row) fill_row ≡ Over
            → self.old.held ≡ None → self.old.fill ≡ None → self.old.waiting ≡ []
            → (result ≡ Idle) × (plant.new ≡ plant.old) × (self.new ≡ self.old) }
        ensures stale { plant.old.at.job ≡ None → is_stage (rows_of plant.old.at.rows fill_row) fill_row ≡ Over
            → self.old.fill ≡ None → (msg : AMsg) → ComesNext self.old msg
            → (rows_of plant.old.at.rows msg.channel).stage ≢ Posted msg.serial
            → (result ≡ Moved) × (plant.new ≡ plant.old) × (self.new ≡ without_next self.old) }
        ensures leads { TurnsOnceOrStays D.tells (state_of D.PageDisk plant.old.at) (state_of D.PageDisk plant.new.at) }
        ensures repaired { IsRepaired (state_of D.PageDisk plant.new.at) }
        ensures opening { plant.new.opening ≡ plant.old.opening }
        ensures right { (right.new ≡ right.old) × (plant.new.right ≡ plant.old.right) }
    {
        state_turns();
        plant.keeps();
        if plant.job_runs() {
            self.job_turn(right, plant);
            return Turn::Moved;
        }
        if self.fill.is_none() && !fill_row_is_over(plant) {
            plant.end_fill(right);
            return Turn::Moved;
        }
        self.serve_or_fill(alloc, right, plant)
    }

    /// Where no job runs, and the fill's row is used by a fill alone: what is held is served, or waits; else the fill
    /// makes its turn; else the first that waits is served.
    fn serve_or_fill<D: PageDisk>(
        &mut self,
        alloc: Global,
        right: &mut MdRight,
        plant: &mut Plant<D>,
    ) -> Turn
        requires right { right.old ≡ plant.old.right }
        requires over { self.old.fill ≡ None → is_stage (rows_of plant.old.at.rows fill_row) fill_row ≡ Over }
        requires no_job { plant.old.at.job ≡ None }
        requires repaired { IsRepaired (state_of D.PageDisk plant.old.at) }
        ensures step { result ≡ Moved → IsKept D.PageDisk plant.old.at self.old
            → MakesStep D.tells (state_of D.PageDisk plant.old.at) self.old
            (state_of D.PageDisk plant.new.at) self.new }
        ensures asked { IsKept D.PageDisk plant.old.at self.old → (msg : AMsg) → self.new.fill ≡ Some msg
            → IsFilledFor (rows_of plant.new.at.rows msg.channel) }
        ensures looks { result ≡ Idle → IsKept D.PageDisk plant.old.at self.old
            → LooksForMessage (state_of D.PageDisk plant.old.at) self.old self.new }
        ensures idle { result ≡ Idle → (plant.new ≡ plant.old) × (self.new.held ≡ None)
            × (length self.new.waiting < 16) }
        ensures first { looks_first plant.old.at.job self.old ≡ true → self.old.found_none ≡ false
            → result ≡ Idle }
        ensures message { self.old.fill ≡ None → (msg : AMsg) → ComesNext self.old msg → msg.channel < 16
            → (rows_of plant.old.at.rows msg.channel).stage ≡ Posted msg.serial
            → (result ≡ Moved) × ServiceMade D.tells (state_of D.PageDisk plant.old.at)
            (state_of D.PageDisk plant.new.at) msg (without_next self.old) self.new }
        ensures nothing { self.old.held ≡ None → self.old.fill ≡ None → self.old.waiting ≡ []
            → (result ≡ Idle) × (plant.new ≡ plant.old) × (self.new ≡ self.old) }
        ensures stale { self.old.fill ≡ None → (msg : AMsg) → ComesNext self.old msg
            → (rows_of plant.old.at.rows msg.channel).stage ≢ Posted msg.serial
            → (result ≡ Moved) × (plant.new ≡ plant.old) × (self.new ≡ without_next self.old) }
        ensures leads { TurnsOnceOrStays D.tells (state_of D.PageDisk plant.old.at) (state_of D.PageDisk plant.new.at) }
        ensures repaired { IsRepaired (state_of D.PageDisk plant.new.at) }
        ensures opening { plant.new.opening ≡ plant.old.opening }
        ensures right { (right.new ≡ right.old) × (plant.new.right ≡ plant.old.right) }
    {
        state_turns();
        plant.keeps();
        self.let_wait(right, plant);
        match self.held.take() {
            Some(msg) => {
                self.serve(alloc, right, plant, msg);
                Turn::Moved
            }
            None => self.turn_without_held(alloc, right, plant),
        }
    }

    /// A command that is held waits, behind the others, where a fill goes on or others wait.
    fn let_wait<D: PageDisk>(&mut self, right: &MdRight, plant: &Plant<D>)
        requires right { right.now ≡ plant.now.right }
        requires no_job { plant.now.at.job ≡ None }
        requires over { self.old.fill ≡ None → is_stage (rows_of plant.now.at.rows fill_row) fill_row ≡ Over }
        ensures joined { IsKept D.PageDisk plant.now.at self.old
            → HasJoined (state_of D.PageDisk plant.now.at) self.old self.new }
        ensures kept { IsKept D.PageDisk plant.now.at self.old → IsKept D.PageDisk plant.now.at self.new }
        ensures held { (msg : AMsg) → self.new.held ≡ Some msg → IsPostedBy plant.now.at.rows msg
            → (self.new.fill ≡ None) × (self.new.waiting ≡ []) }
        ensures none { self.new.waiting ≡ [] → self.new ≡ self.old }
        ensures first { self.old.held ≡ None → self.new ≡ self.old }
        ensures alone { self.old.fill ≡ None → self.old.waiting ≡ [] → self.new ≡ self.old }
        ensures fill { (self.new.fill ≡ self.old.fill) × (self.new.found_none ≡ self.old.found_none) }
    {
        state_turns();
        plant.keeps();
        let Some(msg) = self.held else {
            return;
        };
        if self.is_unoccupied() {
            return;
        }
        if is_insert(plant, right, msg) {
            return;
        }
        self.waiting.push(msg);
        self.held = None;
    }

    /// Whether no fill goes on, and no command waits.
    fn is_unoccupied(&self) -> bool
        ensures { IsTrue result ↔ ((self.now.fill ≡ None) × (self.now.waiting ≡ [])) }
    {
        self.fill.is_none() && self.waiting.as_slice().is_empty()
    }

    /// Whether no message comes before the fill's turn: none was found, or no more commands can wait.
    fn is_fill_due(&self) -> bool
        ensures due { IsTrue result
            → (self.now.found_none ≡ true) ⊎ (nat_lt (length self.now.waiting) 16 ≡ false) }
        ensures not_due { IsFalse result → (self.now.found_none ≡ false) × (length self.now.waiting < 16) }
    {
        self.found_none || !self.waiting.has_room()
    }

    /// Serves a message that was taken out.
    fn serve<D: PageDisk>(
        &mut self,
        alloc: Global,
        right: &mut MdRight,
        plant: &mut Plant<D>,
        msg: Msg,
    )
        requires right { right.old ≡ plant.old.right }
        requires unfilled { IsPostedBy plant.old.at.rows msg → self.old.fill ≡ None }
        requires over { self.old.fill ≡ None → is_stage (rows_of plant.old.at.rows fill_row) fill_row ≡ Over }
        requires no_job { plant.old.at.job ≡ None }
        requires repaired { IsRepaired (state_of D.PageDisk plant.old.at) }
        ensures made { msg.channel < 16 → (rows_of plant.old.at.rows msg.channel).stage ≡ Posted msg.serial
            → ServiceMade D.tells (state_of D.PageDisk plant.old.at) (state_of D.PageDisk plant.new.at) msg self.old
            self.new }
        ensures asked { msg.channel < 16 → (rows_of plant.old.at.rows msg.channel).stage ≡ Posted msg.serial
            → IsKept D.PageDisk plant.old.at self.old → (other : AMsg) → self.new.fill ≡ Some other
            → IsFilledFor (rows_of plant.new.at.rows other.channel) }
        ensures stale { (rows_of plant.old.at.rows msg.channel).stage ≢ Posted msg.serial
            → (plant.new ≡ plant.old) × (self.new ≡ self.old) }
        ensures leads { TurnsOnceOrStays D.tells (state_of D.PageDisk plant.old.at) (state_of D.PageDisk plant.new.at) }
        ensures repaired { IsRepaired (state_of D.PageDisk plant.new.at) }
        ensures opening { plant.new.opening ≡ plant.old.opening }
        ensures right { (right.new ≡ right.old) × (plant.new.right ≡ plant.old.right) }
    {
        match serve(alloc, plant, right, msg) {
            Served::Done => {}
            Served::Fills(Filling::Ended) => {}
            Served::Fills(Filling::GoesOn) => self.fill = Some(msg),
        }
    }

    /// Where nothing is held: the fill makes its turn, or else the first message that waits is served.
    fn turn_without_held<D: PageDisk>(
        &mut self,
        alloc: Global,
        right: &mut MdRight,
        plant: &mut Plant<D>,
    ) -> Turn
        requires right { right.old ≡ plant.old.right }
        requires held { self.old.held ≡ None }
        requires over { self.old.fill ≡ None → is_stage (rows_of plant.old.at.rows fill_row) fill_row ≡ Over }
        requires no_job { plant.old.at.job ≡ None }
        requires repaired { IsRepaired (state_of D.PageDisk plant.old.at) }
        ensures acts { result ≡ Moved → IsKept D.PageDisk plant.old.at self.old
            → ActsNow D.tells (state_of D.PageDisk plant.old.at) (state_of D.PageDisk plant.new.at) self.old self.new }
        ensures asked { IsKept D.PageDisk plant.old.at self.old → (msg : AMsg) → self.new.fill ≡ Some msg
            → IsFilledFor (rows_of plant.new.at.rows msg.channel) }
        ensures idle { result ≡ Idle → (plant.new ≡ plant.old) × (self.new ≡ self.old) }
        ensures looks { result ≡ Idle → (self.old.fill ≡ None) × (self.old.waiting ≡ [])
            ⊎ (self.old.found_none ≡ false) × (self.old.fill ≢ None) × (length self.old.waiting < 16) }
        ensures first { looks_first plant.old.at.job self.old ≡ true → self.old.found_none ≡ false
            → result ≡ Idle }
        ensures message { self.old.fill ≡ None → (msg : AMsg) → (rest : List AMsg) → self.old.waiting ≡ msg ∷ rest
            → msg.channel < 16 → (rows_of plant.old.at.rows msg.channel).stage ≡ Posted msg.serial
            → (result ≡ Moved) × ServiceMade D.tells (state_of D.PageDisk plant.old.at)
            (state_of D.PageDisk plant.new.at) msg (record self.old { waiting = rest }) self.new }
        ensures nothing { self.old.fill ≡ None → self.old.waiting ≡ [] → result ≡ Idle }
        ensures stale { self.old.fill ≡ None → (msg : AMsg) → (rest : List AMsg) → self.old.waiting ≡ msg ∷ rest
            → (rows_of plant.old.at.rows msg.channel).stage ≢ Posted msg.serial
            → (result ≡ Moved) × (plant.new ≡ plant.old) × (self.new ≡ record self.old { waiting = rest }) }
        ensures leads { TurnsOnceOrStays D.tells (state_of D.PageDisk plant.old.at) (state_of D.PageDisk plant.new.at) }
        ensures repaired { IsRepaired (state_of D.PageDisk plant.new.at) }
        ensures opening { plant.new.opening ≡ plant.old.opening }
        ensures right { (right.new ≡ right.old) × (plant.new.right ≡ plant.old.right) }
    {
        if let Some(msg) = self.fill {
            if !self.is_fill_due() {
                return Turn::Idle;
            }
            match fill_turn(alloc, plant, right, msg) {
                Filling::GoesOn => {}
                Filling::Ended => self.fill = None,
            }
            return Turn::Moved;
        }
        match self.waiting.take_oldest() {
            Some(msg) => {
                self.serve(alloc, right, plant, msg);
                Turn::Moved
            }
            None => Turn::Idle,
        }
    }
}
