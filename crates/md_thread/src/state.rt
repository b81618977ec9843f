//! The steps of the metadata thread, and what it keeps between them.

mod job_turns;
mod turns;

ghost use Rattle.std.specs.Prelude.{◌≡◌, ◌↔◌, None, false, IsFalse, IsSome, IsTrue};
ghost use Rattle.md_thread.specs.declared.state.Turn.TheVariants.{Idle};
ghost use Rattle.md_thread.specs.Holding.{IsNextAfter};
ghost use Rattle.running_store.specs.StoreView.{rows_of};
ghost use Rattle.store_model.specs.Rows.{Posted};

use crate::ending::{have_ended, message_filled_for};
use md_queue::{Inbox, MessageList};
use page_disk::PageDisk;
use std::alloc::Global;
use std::marker::Model;
use store_core::{MdRight, Plant};
use volume_model::Msg;

/// What the next step of an actor is made on.
#[derive(Clone, Copy)]
pub enum Next {
    /// The queue.
    Queue,
    /// The store.
    Plant,
    /// Nothing: the actor has ended.
    Ended,
}

/// Whether a step did anything.
#[derive(Clone, Copy)]
pub enum Turn {
    /// It did.
    Moved,
    /// There was nothing to do.
    Idle,
}

/// How many commands wait at most.
const WAITING: usize = 16;

/// The state of the metadata thread: the message that it took and hasn't served yet, if there is one; those of commands
/// that wait while a fill goes on; that of the command which slots are filled for; whether it found no message when it
/// last looked, and made no turn since; and what its next step is made on. It takes no memory.
#[derive(Drop)]
pub struct MdState {
    held: Option<Msg>,
    waiting: MessageList<WAITING>,
    fill: Option<Msg>,
    found_none: bool,
    next: Next,
}

impl Model for MdState {
    ghost use Rattle.std.specs.Prelude.{◌≡◌, ◌<◌, length, IsSome};
    ghost use Rattle.md_thread.specs.Holding.{MetadataState};

    ghost Value = { MetadataState };

    ghost view = { λ s. record {
      held = s.held;
      waiting = s.waiting;
      fill = s.fill;
      found_none = s.found_none;
      next = s.next;
    } };

    ghost invariant = { λ s. IsSome s.held → length s.waiting < 16 };
}

impl MdState {
    ghost use Rattle.std.specs.Prelude.{◌≡◌, ◌≢◌, ◌⊎◌, ◌<◌, [], None, Some, IfSome, IsSome, true, is_none, length};
    ghost use Rattle.running_store.specs.Stages.{is_stage};
    ghost use Rattle.running_store.specs.declared.rows.RowStage.TheVariants.{Over};
    ghost use Rattle.store_model.specs.Rows.{fill_row};
    ghost use Rattle.md_thread.specs.declared.state.Next.TheVariants as on;
    ghost use Rattle.md_thread.specs.declared.state.Turn.TheVariants.{Moved};
    ghost use Rattle.md_thread.specs.Leading.{TurnsOnceOrStays};
    ghost use Rattle.md_thread.specs.Holding.{at_first, ComesNext, IsHeldOn, IsKept, LooksForMessage, looks_first};
    ghost use Rattle.md_thread.specs.Holding.{MakesStep, MetadataState, without_next};
    ghost use Rattle.run_moves.specs.DrivenStore.{message_filled_for};
    ghost use Rattle.md_thread.specs.Turns.{ServiceMade};
    ghost use Rattle.metadata_turns.specs.JobTurns.{TurnsJob};
    ghost use Rattle.running_store.specs.StoreView.{rows_of, state_of};
    ghost use Rattle.running_store.specs.TurnMade.{TurnMade};
    ghost use Rattle.store_model.specs.Cases as kind;
    ghost use Rattle.store_model.specs.Filling.{IsFilledFor};
    ghost use Rattle.store_model.specs.Repairing.{IsRepaired};
    ghost use Rattle.volume_model.specs.declared.reply.Msg.{Msg as AMsg};

    /// Nothing is held, and the first step is made on the store, where a job may run.
    pub fn new() -> MdState
        ensures { result ≡ at_first None }
    {
        MdState {
            held: None,
            waiting: MessageList::new(),
            fill: None,
            found_none: false,
            next: Next::Plant,
        }
    }

    /// That of a metadata thread that takes a store over from another one: it holds the message of the command that the
    /// fill's row works for, if that works for one. Channels send the messages of all other rows that are posted.
    pub fn taking_over<D: PageDisk>(plant: &Plant<D>) -> MdState
        ensures { result ≡ at_first (message_filled_for (state_of D.PageDisk plant.now.at)) }
    {
        MdState {
            held: message_filled_for(plant),
            waiting: MessageList::new(),
            fill: None,
            found_none: false,
            next: Next::Plant,
        }
    }

    /// What the next step is made on: `Plant` asks for `md_turn`, `Queue` for `md_take`.
    pub fn md_next(&self) -> Next
        ensures { result ≡ self.now.next }
    {
        self.next
    }

    /// Whether it holds a message.
    pub fn holds(&self) -> bool
        ensures { IsTrue result ↔ IsSome self.now.held }
    {
        self.held.is_some()
    }

    /// Takes the oldest message of a queue and holds it. The next step is made on the store, also where the queue was
    /// empty at some moment of the call.
    pub fn md_take<I: Inbox>(&mut self, inbox: &mut I)
        requires free { self.old.held ≡ None }
        requires room { length self.old.waiting < 16 }
        ensures taken { IfSome self.new.held (λ msg. I.gives inbox.old msg inbox.new) }
        ensures empty { self.new.held ≡ None → I.was_empty inbox.old }
        ensures unchanged { self.new.held ≡ None → inbox.new ≡ inbox.old }
        ensures state { self.new ≡ record self.old {
          held = self.new.held;
          found_none = is_none self.new.held;
          next = on.Plant;
        } }
    {
        self.held = inbox.take();
        self.found_none = self.held.is_none();
        self.next = Next::Plant;
    }

    /// Makes the one turn of the store that is due, of which nothing is left to repair: the running job's next; else
    /// the end of the fill's row, where it is used without a fill; else what is held is served, or waits where it has
    /// to; else the fill makes its turn; else the first that waits is served. `Idle` comes where none is due before the
    /// queue is looked at: the store is as it was.
    pub fn md_turn<D: PageDisk>(
        &mut self,
        alloc: Global,
        right: &mut MdRight,
        plant: &mut Plant<D>,
    ) -> Turn
        requires right { right.old ≡ plant.old.right }
        requires repaired { IsRepaired (state_of D.PageDisk plant.old.at) }
        // It is the step that is due,
        ensures step { result ≡ Moved → IsKept D.PageDisk plant.old.at self.old
            → MakesStep D.tells (state_of D.PageDisk plant.old.at) self.old
            (state_of D.PageDisk plant.new.at) self.new }
        // and the fill goes on of an inflate or a decouple.
        ensures asked { IsKept D.PageDisk plant.old.at self.old → (msg : AMsg) → self.new.fill ≡ Some msg
            → IsFilledFor (rows_of plant.new.at.rows msg.channel) }
        ensures looks { result ≡ Idle → IsKept D.PageDisk plant.old.at self.old
            → LooksForMessage (state_of D.PageDisk plant.old.at) self.old self.new }
        ensures idle { result ≡ Idle → (plant.new ≡ plant.old) × (self.new.held ≡ None)
            × (length self.new.waiting < 16) }
        // The fill makes no turn before the queue is looked at.
        ensures first { looks_first plant.old.at.job self.old ≡ true → self.old.found_none ≡ false → result ≡ Idle }
        ensures looked { self.new.found_none ≡ false }
        ensures next { IsNextAfter result plant.new.at.rows (looks_first plant.new.at.job self.new) self.new.next }
        // A running job makes its next turn, and no message is served.
        ensures job { IsSome plant.old.at.job → (result ≡ Moved) × TurnsJob D.PageDisk plant.old.at plant.new.at
            × IsHeldOn plant.new.at.rows self.old self.new.held × (self.new.waiting ≡ self.old.waiting) }
        // Where it holds no fill and the fill's row is used, as behind a takeover amid a fill, that row's use ends.
        ensures closes { plant.old.at.job ≡ None → self.old.fill ≡ None
            → is_stage (rows_of plant.old.at.rows fill_row) fill_row ≢ Over
            → (result ≡ Moved) × TurnMade D.PageDisk plant.old.at plant.new.at kind.ends_fill
            × (self.new ≡ record self.old { found_none = false; next = self.new.next }) }
        // Where no job runs and no fill goes on, the message that comes next is served,
        ensures message { plant.old.at.job ≡ None → is_stage (rows_of plant.old.at.rows fill_row) fill_row ≡ Over
            → self.old.fill ≡ None → (msg : AMsg) → ComesNext self.old msg → msg.channel < 16
            → (rows_of plant.old.at.rows msg.channel).stage ≡ Posted msg.serial
            → (result ≡ Moved) × ((t : MetadataState) × ServiceMade D.tells (state_of D.PageDisk plant.old.at)
            (state_of D.PageDisk plant.new.at) msg (without_next self.old) t
            × (self.new ≡ record t { found_none = false; next = self.new.next })) }
        // and where there is none, nothing is done.
        ensures nothing { plant.old.at.job ≡ None → is_stage (rows_of plant.old.at.rows fill_row) fill_row ≡ Over
            → self.old.held ≡ None → self.old.fill ≡ None → self.old.waiting ≡ []
            → (result ≡ Idle) × (plant.new ≡ plant.old)
            × (self.new ≡ record self.old { found_none = false; next = self.new.next }) }
        // A message that is served when its row isn't posted under its number any more is dropped.
        ensures stale { plant.old.at.job ≡ None → is_stage (rows_of plant.old.at.rows fill_row) fill_row ≡ Over
            → self.old.fill ≡ None → (msg : AMsg) → ComesNext self.old msg
            → (rows_of plant.old.at.rows msg.channel).stage ≢ Posted msg.serial
            → (result ≡ Moved) × (plant.new ≡ plant.old)
            × (self.new ≡ record (without_next self.old) { found_none = false; next = self.new.next }) }
        ensures leads { TurnsOnceOrStays D.tells (state_of D.PageDisk plant.old.at) (state_of D.PageDisk plant.new.at) }
        ensures repaired { IsRepaired (state_of D.PageDisk plant.new.at) }
        ensures opening { plant.new.opening ≡ plant.old.opening }
        ensures right { (right.new ≡ right.old) × (plant.new.right ≡ plant.old.right) }
    {
        let turn = self.turn_due(alloc, right, plant);
        self.found_none = false;
        self.next = self.next_after(plant, turn);
        turn
    }

    /// What the next step is made on behind a turn.
    fn next_after<D: PageDisk>(&self, plant: &Plant<D>, turn: Turn) -> Next
        ensures { IsNextAfter turn plant.now.at.rows (looks_first plant.now.at.job self.now) result }
    {
        if self.looks_first(plant) {
            return Next::Queue;
        }
        match turn {
            Turn::Moved => Next::Plant,
            Turn::Idle => next_when_idle(plant),
        }
    }

    /// Whether a message is looked for before the fill makes its turn.
    fn looks_first<D: PageDisk>(&self, plant: &Plant<D>) -> bool
        ensures { result ≡ looks_first plant.now.at.job self.now }
    {
        !plant.job_runs() && self.held.is_none() && self.fill.is_some() && self.waiting.has_room()
    }
}

/// What the next step is made on where there was nothing to do.
fn next_when_idle<D: PageDisk>(plant: &Plant<D>) -> Next
    ensures { IsNextAfter Idle plant.now.at.rows false result }
{
    if have_ended(plant) {
        return Next::Ended;
    }
    Next::Queue
}
