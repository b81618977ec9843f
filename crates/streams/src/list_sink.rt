//! A sink in memory.

ghost use Rattle.std.specs.Prelude.{◌≡◌, ◌≤◌, ◌<◌, ◌+◌, ◌||◌, true, [], length, nat_lt, is_err, IfOk, OnErr, IsTrue};
ghost use Rattle.page_disk.specs.Disk.{RoseByOne};
ghost use Rattle.streams.specs.Lists.{is_failing};
ghost use Rattle.streams.specs.Streams.{Caused, AppendsBytes};

use crate::sink::{Sink, SinkFault};
use out_of_memory::Memory;
use std::alloc::Global;
use std::marker::Model;

/// A sink in memory with room for some bytes, of which some writes fail. Contracts see what was written, the room, the
/// numbers of the writes that fail, and how many writes and faults there have been.
#[derive(Debug, Drop)]
pub struct ListSink {
    bytes: Vec<u8>,
    room: u32,
    fails: Vec<u64>,
    calls: u64,
    faults: u64,
}

impl Model for ListSink {
    ghost use Rattle.std.specs.Prelude.{◌≤◌, vec_capacity};
    ghost use Rattle.streams.specs.Lists.{SinkState};

    ghost Value = { SinkState };

    ghost view = { λ s.
        record { written = s.bytes.items; room = s.room; fails = s.fails.items; calls = s.calls; faults = s.faults } };

    ghost invariant = { λ s. s.room ≤ vec_capacity s.bytes };
}

impl ListSink {
    /// An empty sink with room for so many bytes, which it reserves. The writes whose numbers, counted from 1, stand in
    /// `fails` are faults, and so is a piece that goes past the room. It counts them, and takes every other piece
    /// whole.
    pub fn new(alloc: Global, room: u32, fails: Vec<u64>) -> Result<ListSink, Memory>
        ensures { IfOk result
            (λ s. s ≡ record { written = []; room = room; fails = fails.items; calls = 0; faults = 0 }) }
    {
        Ok(ListSink {
            bytes: Vec::with_capacity(alloc, room as usize)?,
            room,
            fails,
            calls: 0,
            faults: 0,
        })
    }

    /// All that was written.
    pub fn bytes(&self) -> &[u8]
        ensures { result.now ≡ self.now.written }
    {
        self.bytes.as_slice()
    }
}

impl Sink for ListSink {
    ghost tells = { true };

    ghost written = { λ s. s.written };

    ghost faults = { λ s. s.faults };

    fn write(&mut self, from: &[u8]) -> Result<usize, SinkFault>
        ensures within { IfOk result (λ n. n ≤ length from.now) }
        ensures moves { IfOk result (λ n. 0 < length from.now → 0 < n) }
        ensures written { IfOk result (λ n. AppendsBytes self.old.written self.new.written from.now n) }
        ensures kept { OnErr result (self.new.written ≡ self.old.written) }
        ensures faults { Caused self.old.faults self.new.faults result }
        ensures counted { RoseByOne self.old.calls self.new.calls }
        ensures fails { is_err result ≡
            (is_failing self.old.fails self.new.calls || nat_lt self.old.room
            (length self.old.written + length from.now)) }
        ensures whole { IfOk result (λ n. n ≡ length from.now) }
        ensures plan { (self.new.fails ≡ self.old.fails) × (self.new.room ≡ self.old.room) }
    {
        self.calls = self.calls.saturating_add(1);
        if self.fails.contains(&self.calls) {
            self.faults = self.faults.saturating_add(1);
            return Err(SinkFault);
        }
        let fits = self.bytes.len() + from.len() <= self.room as usize;
        if !fits || self.bytes.extend_from_slice(from).is_err() {
            self.faults = self.faults.saturating_add(1);
            return Err(SinkFault);
        }
        Ok(from.len())
    }
}
