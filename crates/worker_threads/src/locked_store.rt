//! The store behind its lock.

ghost use Rattle.std.specs.Prelude.{◌≡◌, ◌<◌, Some, None, length};
ghost use Rattle.channels.specs.ChannelState.{next_step_of};
ghost use Rattle.channels.specs.ChannelSteps.{IsHeldUp, TurnsOrPosts};
ghost use Rattle.md_thread.specs.declared.state.Next.TheVariants as next;
ghost use Rattle.md_thread.specs.declared.state.Turn.TheVariants.{Idle, Moved};
ghost use Rattle.md_thread.specs.Leading.{TurnsOnceOrStays};
ghost use Rattle.running_store.specs.StoreView.{state_of};
ghost use Rattle.store_model.specs.Repairing.{IsRepaired};
ghost use Rattle.worker_threads.specs.LockedStores.{IsLedFrom, right_of};

use channels::Channel;
use md_thread::{MdState, Turn};
use page_disk::PageDisk;
use std::alloc::Global;
use std::marker::{Brand, Model, PhantomData};
use store_core::{MdRight, Plant, RowStage};
use store_model::state_turns;

/// Names the store that a run by threads was given. Each call of the run picks it: it stands in proofs alone.
pub(crate) trait GivenStore<D> {
    ghost use Rattle.std.specs.Prelude.{Option};
    ghost use Rattle.running_store.specs.StoreView.{WithOpening};

    /// The store, with how it began and the name of its right.
    ghost given: { Option (WithOpening D) };
}

impl<D> GivenStore<D> for Brand {
    ghost use Rattle.std.specs.Prelude.{None};

    ghost given = { None };
}

/// A store to which turns have led from the one that was given, of which nothing is left to repair. Contracts see the
/// store; what its own type keeps is known too, whenever the lock is free.
pub(crate) struct LockedStore<D: PageDisk, O: GivenStore<D>> {
    plant: Plant<D>,
    of: PhantomData<O>,
}

impl<D: PageDisk, O: GivenStore<D>> Model for LockedStore<D, O> {
    ghost use Rattle.running_store.specs.StoreView.{WithOpening, with_opening_code};

    ghost Value = { WithOpening D };

    ghost coded = { with_opening_code D.code };

    ghost use Rattle.worker_threads.specs.LockedStores.{IsLedFrom};

    ghost view = { λ s. s.plant };

    ghost invariant = { λ s. IsLedFrom D.PageDisk O.given s.plant };
}

impl<D: PageDisk, O: GivenStore<D>> LockedStore<D, O> {
    /// The store that was given.
    pub(crate) fn new(plant: Plant<D>) -> LockedStore<D, O>
        requires given { O.given ≡ Some plant }
        requires repaired { IsRepaired (state_of D.PageDisk plant.at) }
        ensures { result ≡ plant }
    {
        LockedStore {
            plant,
            of: PhantomData,
        }
    }

    /// One turn of a channel.
    pub(crate) fn turn(&mut self, own: &mut Channel) -> Turn
        requires next { next_step_of own.old ≡ next.Plant }
        requires low { own.old.channel < 16 }
        ensures moved { result ≡ Moved → TurnsOrPosts D.tells (state_of D.PageDisk self.old.at)
            (state_of D.PageDisk self.new.at) own.old.channel own.new.unsent }
        ensures idle { result ≡ Idle → IsHeldUp (state_of D.PageDisk self.old.at) own.old.channel }
        ensures unchanged { result ≡ Idle → self.new ≡ self.old }
        ensures channel { own.new.channel ≡ own.old.channel }
    {
        state_turns();
        self.plant.keeps();
        own.turn(&mut self.plant)
    }

    /// Whether the row of a channel holds a claim behind its turn, before which it did or didn't: one that is copied to
    /// or is to be posted does, and a row that is posted or served keeps what it had.
    pub(crate) fn holds_claim(&self, channel: u8, before: bool) -> bool {
        match self.plant.stage(channel) {
            RowStage::Copy { .. } | RowStage::Ready => true,
            RowStage::Posted(_) | RowStage::InJob => before,
            _ => false,
        }
    }

    /// One turn of the metadata thread.
    pub(crate) fn serve(&mut self, alloc: Global, state: &mut MdState, right: &mut MdRight) -> Turn
        requires right { right.old ≡ right_of O.given }
        ensures leads { TurnsOnceOrStays D.tells (state_of D.PageDisk self.old.at) (state_of D.PageDisk self.new.at) }
        ensures idle { result ≡ Idle → (self.new ≡ self.old) × (state.new.held ≡ None)
            × (length state.new.waiting < 16) }
        ensures right { right.new ≡ right.old }
    {
        state.md_turn(alloc, right, &mut self.plant)
    }

    /// The store.
    pub(crate) fn into_plant(self) -> Plant<D>
        ensures same { result ≡ self }
        ensures led { IsLedFrom D.PageDisk O.given result }
    {
        let LockedStore { plant, of: _ } = self;
        plant
    }
}
