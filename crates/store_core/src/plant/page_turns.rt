//! The turns of a channel that touch the device: what is kept of a running store over them.

use crate::keeping::goes_on;
use crate::plant::Plant;
use channel_turns::{ReadTurn, WriteTurn, flush_or_halt, read_or_halt, write_or_halt};
use page_disk::PageDisk;

impl<D: PageDisk> Plant<D> {
    ghost use Rattle.std.specs.Prelude.{◌≡◌};
    ghost use Rattle.store_model.specs.Cases as kind;
    ghost use Rattle.channel_turns.specs.declared.page_reading.ReadTurn.TheVariants as read;
    ghost use Rattle.channel_turns.specs.declared.page_writing.WriteTurn.TheVariants as write;
    ghost use Rattle.running_store.specs.declared.rows.RowStage.TheVariants.{Flush, Read, Write};
    ghost use Rattle.channel_turns.specs.ChannelTurns.{row_written, IsFrozenFor, IsOfFlush, IsOfRead, IsOfWrite};
    ghost use Rattle.running_store.specs.TurnMade.{TurnsAs};
    ghost use Rattle.running_store.specs.Stages.{is_stage};
    ghost use Rattle.running_store.specs.Steps.{gone_on, Asks, OnlyRow};
    ghost use Rattle.running_store.specs.StoreView.{rows_of, state_of};
    ghost use Rattle.running_store.specs.TurnMade.{TurnMade};

    /// Reads a page, for the first command of a channel. `Frozen` comes exactly where its blob is frozen: the store is
    /// as it was. Else it is logged: with `Content`, its slot's page or its parent's or zeros; with the first of
    /// `NoVolume` and `OutOfRange` that holds; with `ReadFault` where the read failed; on a stopped store with
    /// `Stopped`. It makes one read at most, and wants no memory.
    pub fn read_page(&mut self, channel: u8) -> ReadTurn
        requires stage { is_stage (rows_of self.old.at.rows channel) channel ≡ Read }
        ensures frozen { result ≡ read.Frozen
            → Asks self.old.at channel (IsFrozenFor (state_of D.PageDisk self.old.at)) }
        ensures waiting { result ≡ read.Frozen → self.new ≡ self.old }
        ensures logged { result ≡ read.Logged → TurnsAs D.PageDisk IsOfRead self.old.at self.new.at }
        ensures row { result ≡ read.Logged → OnlyRow self.old.at.rows self.new.at.rows channel
            (gone_on (rows_of self.old.at.rows channel)) }
        ensures job { self.new.at.job ≡ self.old.at.job }
        ensures opening { self.new.opening ≡ self.old.opening }
        ensures right { self.new.right ≡ self.old.right }
    {
        goes_on::<D>();
        read_or_halt(&mut self.running, channel)
    }

    /// Flushes, for the first command of a channel. It is logged with `Ok`, and all that was written is safe from a
    /// crash; with `Fault` where the flush failed, and the store has stopped then; on a stopped store with `Stopped`.
    pub fn flush(&mut self, channel: u8)
        requires stage { is_stage (rows_of self.old.at.rows channel) channel ≡ Flush }
        ensures case { TurnsAs D.PageDisk IsOfFlush self.old.at self.new.at }
        ensures row { OnlyRow self.old.at.rows self.new.at.rows channel (gone_on (rows_of self.old.at.rows channel)) }
        ensures job { self.new.at.job ≡ self.old.at.job }
        ensures opening { self.new.opening ≡ self.old.opening }
        ensures right { self.new.right ≡ self.old.right }
    {
        goes_on::<D>();
        flush_or_halt(&mut self.running, channel);
    }

    /// Writes a page, for the first command of a channel. `Frozen` comes exactly where its blob is frozen: the store is
    /// as it was. `Empty` comes exactly where nothing refuses it and the slot is empty, for which a cluster is to be
    /// claimed then. Else it is logged: with
    /// `Ok`, and a flush makes the page safe from a crash; with the first of `NoVolume`, `Reserved`, `OutOfRange` and
    /// `ReadOnly` that holds; with `Fault` where the write failed, and the store has stopped then; on a stopped store
    /// with `Stopped`.
    pub fn write_page(&mut self, channel: u8) -> WriteTurn
        requires stage { is_stage (rows_of self.old.at.rows channel) channel ≡ Write }
        ensures frozen { result ≡ write.Frozen
            → Asks self.old.at channel (IsFrozenFor (state_of D.PageDisk self.old.at)) }
        ensures waiting { result ≡ write.Frozen → self.new ≡ self.old }
        ensures empty { result ≡ write.Empty → TurnMade D.PageDisk self.old.at self.new.at kind.finds_empty }
        ensures logged { result ≡ write.Logged → TurnsAs D.PageDisk IsOfWrite self.old.at self.new.at }
        ensures row { OnlyRow self.old.at.rows self.new.at.rows channel
            (row_written result (rows_of self.old.at.rows channel)) }
        ensures job { self.new.at.job ≡ self.old.at.job }
        ensures opening { self.new.opening ≡ self.old.opening }
        ensures right { self.new.right ≡ self.old.right }
    {
        goes_on::<D>();
        write_or_halt(&mut self.running, channel)
    }
}
