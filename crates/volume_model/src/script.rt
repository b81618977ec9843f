//! Scripts: what each channel asks for, in order.

ghost use Rattle.std.specs.Prelude.{◌≡◌, ◌≢◌, ◌⊎◌, ℕ, ◌+◌, ◌-◌, ◌<◌, ◌≤◌, ◌++◌, ◌∷◌, [], length, slice_set};
ghost use Rattle.std.specs.Prelude.{slice_index_or, replicate, OnOk, OnErr};
ghost use Rattle.volume_model.specs.Scripts.{commands_in};

use crate::command::Command;
use crate::lists::ListOf;
use out_of_memory::Memory;
use std::alloc::Global;
use std::marker::Model;

/// The commands of sixteen channels, fewer than 2^17 in all. Contracts see sixteen lists of commands.
#[derive(Debug, Drop)]
pub struct Script {
    lists: [ListOf<Command>; 16],
}

impl Model for Script {
    ghost use Rattle.std.specs.Prelude.{◌≡◌, ◌≤◌, List, length};
    ghost use Rattle.volume_model.specs.declared.command.Command.{Command};
    ghost use Rattle.volume_model.specs.Scripts.{commands_in};

    ghost Value = { List (List Command) };

    ghost view = { λ s. s.lists };

    ghost invariant = { λ s. (length s.lists ≡ 16) × (commands_in s.lists ≤ 131071) };
}

impl Script {
    /// The script without commands.
    pub fn new(alloc: Global) -> Script
        ensures { result ≡ replicate 16 [] }
    {
        Script {
            lists: [
                ListOf::new(alloc),
                ListOf::new(alloc),
                ListOf::new(alloc),
                ListOf::new(alloc),
                ListOf::new(alloc),
                ListOf::new(alloc),
                ListOf::new(alloc),
                ListOf::new(alloc),
                ListOf::new(alloc),
                ListOf::new(alloc),
                ListOf::new(alloc),
                ListOf::new(alloc),
                ListOf::new(alloc),
                ListOf::new(alloc),
                ListOf::new(alloc),
                ListOf::new(alloc),
            ],
        }
    }

    /// Appends a command to those of a channel. After `Memory` the script is as before.
    pub fn push(&mut self, channel: u8, command: Command) -> Result<(), Memory>
        requires channel { channel < 16 }
        requires room { commands_in self.old < 131071 }
        ensures ok { OnOk result (self.new ≡ slice_set self.old channel
            (slice_index_or self.old channel [] ++ command ∷ [])) }
        ensures one_more { OnOk result (commands_in self.new ≡ commands_in self.old + 1) }
        ensures memory { OnErr result (self.new ≡ self.old) }
    {
        self.lists[channel as usize].push(command)?;
        Ok(())
    }

    /// The greatest channel that has a command, plus 1; 0 where none has.
    pub fn channels(&self) -> u8
        ensures few { result ≤ 16 }
        ensures last { (result ≡ 0) ⊎ (slice_index_or self.now (result - 1) [] ≢ []) }
        ensures above { (channel : ℕ) → result ≤ channel → slice_index_or self.now channel [] ≡ [] }
    {
        let mut channels = 16;
        while channels > 0 && self.lists[channels as usize - 1].len() == 0 {
            channels -= 1;
        }
        channels
    }

    /// The commands of a channel, in order; none where there is no such channel.
    pub fn commands(&self, channel: u8) -> &[Command]
        ensures commands { result.now ≡ slice_index_or self.now channel [] }
        ensures sixteen { length self.now ≡ 16 }
        ensures few { commands_in self.now ≤ 131071 }
    {
        match self.lists.get(channel as usize) {
            Some(commands) => commands.as_slice(),
            None => &[],
        }
    }

    /// Takes the commands of a channel out, in order.
    pub fn take(&mut self, alloc: Global, channel: u8) -> Vec<Command>
        requires { channel < 16 }
        ensures taken { result.items ≡ slice_index_or self.old channel [] }
        ensures left { self.new ≡ slice_set self.old channel [] }
    {
        self.lists[channel as usize].take_all(alloc)
    }
}
