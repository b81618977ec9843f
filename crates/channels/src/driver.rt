//! The driver of a stepwise run: the store, its channels and the metadata thread, and the queue between them.

ghost use Rattle.std.specs.Prelude.{◌≡◌, ◌<◌, length};
ghost use Rattle.running_store.specs.StoreView.{state_of};
ghost use Rattle.store_model.specs.Repairing.{IsRepaired};
ghost use Rattle.run_work.specs.Following.{ChannelActs, MetadataActs, Round, Scheduled};
ghost use Rattle.run_moves.specs.DrivenStore.{driven_at_start};
ghost use Rattle.run_moves.specs.DriverSteps.{has_all_ended, DriverStep, StoreFollows};
ghost use Rattle.channels.specs.Actors.{actor_in_run, actors_in_run};
ghost use Rattle.channels.specs.Driving.{driven, AreChannelsOf, IsDriven, IsOfSameStore, KeepsFill};
ghost use Rattle.channels.specs.Driving.{StillKeepsFill, Steps};
ghost use Rattle.channels.specs.QueueLooks.{LooksIntoQueue};
ghost use Rattle.md_thread.specs.declared.state.Turn.TheVariants.{Idle, Moved};
ghost use Rattle.script_lang.specs.Schedules.{repeated};

use crate::channel::Channel;
use crate::channel_step::channel_step;
use crate::first_channels::channels_of;
use md_queue::ListQueue;
use md_thread::{MdState, Turn, fill_row_is_over, have_ended};
use page_disk::PageDisk;
use run_moves::{rows_stay_plain, steps_are_moves};
use run_work::{moves_keep_facts, rounds_end, what_is_due};
use script_lang::{Actor, Part, Schedule};
use std::alloc::Global;
use store_core::{MdRight, Plant};
use store_model::state_turns;

/// A running store and what drives it.
pub(crate) struct Driver<D: PageDisk> {
    plant: Plant<D>,
    right: MdRight,
    channels: [Channel; 16],
    metadata: MdState,
    queue: ListQueue,
}

impl<D: PageDisk> Driver<D> {
    /// A driver that begins on a store, at whatever stages its rows are: the metadata thread takes it over.
    pub(crate) fn new(plant: Plant<D>, right: MdRight) -> Driver<D>
        requires right { right ≡ plant.right }
        requires seventeen { length plant.opening.rows ≡ 17 }
        requires repaired { IsRepaired (state_of D.PageDisk plant.at) }
        ensures starts { driven D.PageDisk result ≡ driven_at_start (state_of D.PageDisk plant.at) }
        ensures driven { IsDriven D.PageDisk result }
        ensures opening { result.plant.opening ≡ plant.opening }
        ensures right { (result.right ≡ right) × (result.plant.right ≡ plant.right) }
    {
        steps_are_moves();
        state_turns();
        plant.keeps();
        let channels = channels_of(&plant);
        let metadata = MdState::taking_over(&plant);
        Driver {
            plant,
            right,
            channels,
            metadata,
            queue: ListQueue::new(),
        }
    }

    /// A channel sends the message that it has, or makes its turn.
    fn channel_acts(&mut self, channel: u8)
        requires driven { IsDriven D.PageDisk self.old }
        requires low { channel < 16 }
        ensures step { DriverStep D.tells (ChannelActs channel) (driven D.PageDisk self.old)
            (driven D.PageDisk self.new) }
        ensures channels { AreChannelsOf self.new.plant.at.rows self.new.channels }
        ensures metadata { self.new.metadata ≡ self.old.metadata }
        ensures store { IsOfSameStore self.old self.new }
    {
        steps_are_moves();
        state_turns();
        self.plant.keeps();
        let at = usize::from(channel);
        let mut own = self.channels[at];
        channel_step(&mut own, &mut self.plant, &mut self.queue);
        self.channels[at] = own;
    }

    /// The metadata thread makes the turn of the store that is due; where none is (`Idle`), it looks into the queue.
    fn turns_or_looks(&mut self, alloc: Global) -> Turn
        requires driven { IsDriven D.PageDisk self.old }
        ensures step { result ≡ Moved → DriverStep D.tells MetadataActs (driven D.PageDisk self.old)
            (driven D.PageDisk self.new) }
        ensures keeps { result ≡ Moved → KeepsFill self.new }
        ensures looks { result ≡ Idle → LooksIntoQueue D.PageDisk self.old self.new }
        ensures channels { self.new.channels ≡ self.old.channels }
        ensures store { IsOfSameStore self.old self.new }
    {
        moves_keep_facts();
        what_is_due();
        let turn = self
            .metadata
            .md_turn(alloc, &mut self.right, &mut self.plant);
        if let Turn::Idle = turn {
            self.metadata.md_take(&mut self.queue);
        }
        turn
    }

    /// The metadata thread makes a turn of the store; where none is to be made it takes a message, or, where none is
    /// queued, makes a turn of the fill, if one goes on.
    fn metadata_acts(&mut self, alloc: Global)
        requires driven { IsDriven D.PageDisk self.old }
        ensures step { DriverStep D.tells MetadataActs (driven D.PageDisk self.old) (driven D.PageDisk self.new) }
        ensures channels { self.new.channels ≡ self.old.channels }
        ensures keeps { KeepsFill self.new }
        ensures store { IsOfSameStore self.old self.new }
    {
        moves_keep_facts();
        what_is_due();
        steps_are_moves();
        state_turns();
        self.plant.keeps();
        if let Turn::Moved = self.turns_or_looks(alloc) {
            return;
        }
        if self.metadata.holds() {
            return;
        }
        self.metadata
            .md_turn(alloc, &mut self.right, &mut self.plant);
    }

    /// An actor acts, if it is one.
    fn acts(&mut self, alloc: Global, actor: Actor)
        requires driven { IsDriven D.PageDisk self.old }
        ensures step { DriverStep D.tells (actor_in_run actor) (driven D.PageDisk self.old)
            (driven D.PageDisk self.new) }
        ensures channels { AreChannelsOf self.new.plant.at.rows self.new.channels }
        ensures fill { StillKeepsFill self.old self.new }
        ensures store { IsOfSameStore self.old self.new }
    {
        state_turns();
        self.plant.keeps();
        match actor {
            Actor::Channel(channel) => {
                if channel < 16 {
                    self.channel_acts(channel);
                }
            }
            Actor::Metadata => self.metadata_acts(alloc),
        }
    }

    /// The step of an actor. A number that is no channel makes none.
    fn step(&mut self, alloc: Global, actor: Actor)
        requires driven { IsDriven D.PageDisk self.old }
        ensures step { Steps D.tells self.old.plant.opening.super (actor_in_run actor) (driven D.PageDisk self.old)
            (driven D.PageDisk self.new) }
        ensures driven { IsDriven D.PageDisk self.new }
        ensures store { IsOfSameStore self.old self.new }
    {
        steps_are_moves();
        rows_stay_plain();
        moves_keep_facts();
        state_turns();
        self.plant.keeps();
        self.acts(alloc, actor);
        self.plant.keeps();
    }

    /// Channels 0 to 15, and then the metadata thread.
    fn round(&mut self, alloc: Global)
        requires driven { IsDriven D.PageDisk self.old }
        ensures round { Round (Steps D.tells self.old.plant.opening.super) has_all_ended (driven D.PageDisk self.old)
            (driven D.PageDisk self.new) }
        ensures driven { IsDriven D.PageDisk self.new }
        ensures store { IsOfSameStore self.old self.new }
    {
        for channel in 0..16 {
            self.step(alloc, Actor::Channel(channel));
        }
        self.step(alloc, Actor::Metadata);
    }

    /// The steps of actors, in order.
    fn follow_actors(&mut self, alloc: Global, actors: &[Actor])
        requires driven { IsDriven D.PageDisk self.old }
        ensures scheduled { Scheduled (Steps D.tells self.old.plant.opening.super) has_all_ended
            (actors_in_run actors.now) (driven D.PageDisk self.old) (driven D.PageDisk self.new) }
        ensures driven { IsDriven D.PageDisk self.new }
        ensures store { IsOfSameStore self.old self.new }
    {
        for actor in actors {
            self.step(alloc, *actor);
        }
    }

    /// The steps of a part of a schedule.
    fn follow_part(&mut self, alloc: Global, part: &Part)
        requires driven { IsDriven D.PageDisk self.old }
        ensures scheduled { Scheduled (Steps D.tells self.old.plant.opening.super) has_all_ended
            (actors_in_run (repeated part.now.count part.now.actors)) (driven D.PageDisk self.old)
            (driven D.PageDisk self.new) }
        ensures driven { IsDriven D.PageDisk self.new }
        ensures store { IsOfSameStore self.old self.new }
    {
        for _ in 0..part.count {
            self.follow_actors(alloc, part.actors.as_slice());
        }
    }

    /// The steps of a schedule.
    fn follow(&mut self, alloc: Global, schedule: &Schedule)
        requires driven { IsDriven D.PageDisk self.old }
        ensures scheduled { Scheduled (Steps D.tells self.old.plant.opening.super) has_all_ended
            (actors_in_run schedule.now) (driven D.PageDisk self.old) (driven D.PageDisk self.new) }
        ensures driven { IsDriven D.PageDisk self.new }
        ensures store { IsOfSameStore self.old self.new }
    {
        for part in schedule.parts() {
            self.follow_part(alloc, part);
        }
    }

    /// Whether all have ended: every channel, no job runs, and the fill's row isn't in use.
    fn have_ended(&self) -> bool
        requires driven { IsDriven D.PageDisk self.now }
        ensures { result ≡ has_all_ended (driven D.PageDisk self.now) }
    {
        moves_keep_facts();
        state_turns();
        self.plant.keeps();
        have_ended(&self.plant) && !self.plant.job_runs() && fill_row_is_over(&self.plant)
    }

    /// The steps of a schedule, and then rounds until all have ended.
    pub(crate) fn run(&mut self, alloc: Global, schedule: &Schedule)
        requires driven { IsDriven D.PageDisk self.old }
        ensures follows { StoreFollows D.tells (actors_in_run schedule.now) (driven D.PageDisk self.old)
            (driven D.PageDisk self.new) }
        ensures driven { IsDriven D.PageDisk self.new }
        ensures store { IsOfSameStore self.old self.new }
    {
        rounds_end();
        self.follow(alloc, schedule);
        while !self.have_ended() {
            self.round(alloc);
        }
    }

    /// The store and the right to change it.
    pub(crate) fn into_parts(self) -> (Plant<D>, MdRight)
        ensures { (result.0 ≡ self.plant) × (result.1 ≡ self.right) }
    {
        let Driver {
            plant,
            right,
            channels: _,
            metadata: _,
            queue: _,
        } = self;
        (plant, right)
    }
}
