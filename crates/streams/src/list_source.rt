//! A source in memory.

ghost use Rattle.std.specs.Prelude.{◌≡◌, ◌≤◌, true, length, min, is_err, IfOk, OnErr, IsTrue};
ghost use Rattle.page_disk.specs.Disk.{RoseByOne};
ghost use Rattle.streams.specs.Lists.{is_failing};
ghost use Rattle.streams.specs.Streams.{Caused, MovesBytes};

use crate::source::{Source, SourceFault};
use std::marker::Model;

/// A source of bytes in memory, of which some reads fail. Contracts see what is left, the numbers of the reads that
/// fail, and how many reads and faults there have been.
#[derive(Debug, Drop)]
pub struct ListSource {
    bytes: Vec<u8>,
    at: usize,
    fails: Vec<u64>,
    calls: u64,
    faults: u64,
}

impl Model for ListSource {
    ghost use Rattle.std.specs.Prelude.{◌≤◌, length, drop};
    ghost use Rattle.streams.specs.Lists.{SourceState};

    ghost Value = { SourceState };

    ghost view = { λ s.
        record { left = drop s.at s.bytes.items; fails = s.fails.items; calls = s.calls; faults = s.faults } };

    ghost invariant = { λ s. s.at ≤ length s.bytes.items };
}

impl ListSource {
    /// A source of these bytes. The reads whose numbers, counted from 1, stand in `fails` are faults, which it counts;
    /// every other read gives all that the buffer takes.
    pub fn new(bytes: Vec<u8>, fails: Vec<u64>) -> ListSource
        ensures { result ≡ record { left = bytes.items; fails = fails.items; calls = 0; faults = 0 } }
    {
        ListSource {
            bytes,
            at: 0,
            fails,
            calls: 0,
            faults: 0,
        }
    }
}

impl Source for ListSource {
    ghost tells = { true };

    ghost left = { λ s. s.left };

    ghost faults = { λ s. s.faults };

    fn read(&mut self, into: &mut [u8]) -> Result<usize, SourceFault>
        ensures within { IfOk result (λ n. n ≤ length into.new) }
        ensures moved { IfOk result (λ n. MovesBytes self.old.left self.new.left into.new n) }
        ensures kept { OnErr result (self.new.left ≡ self.old.left) }
        ensures faults { Caused self.old.faults self.new.faults result }
        ensures counted { RoseByOne self.old.calls self.new.calls }
        ensures fails { is_err result ≡ is_failing self.old.fails self.new.calls }
        ensures whole { IfOk result (λ n. n ≡ min (length self.old.left) (length into.new)) }
        ensures plan { self.new.fails ≡ self.old.fails }
    {
        self.calls = self.calls.saturating_add(1);
        if self.fails.contains(&self.calls) {
            self.faults = self.faults.saturating_add(1);
            return Err(SourceFault);
        }
        let left = &self.bytes[self.at..];
        let count = left.len().min(into.len());
        into[..count].copy_from_slice(&left[..count]);
        self.at += count;
        Ok(count)
    }
}
