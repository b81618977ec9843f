//! Pages that are reserved for what is read, so that no read wants memory.

ghost use Rattle.std.specs.Prelude.{◌≡◌, ◌≤◌, length, IfOk};
ghost use Rattle.running_store.specs.Reserved as reserved;
ghost use Rattle.running_store.specs.Reserved.{reads_in};

use out_of_memory::Memory;
use page_disk::Page;
use std::alloc::Global;
use std::boxed::Box;
use volume_model::Command;

/// A command that was taken out of its row, with a page for its answer where it reads one.
#[derive(Drop)]
pub(crate) struct Taken {
    pub(crate) command: Command,
    pub(crate) page: Option<Box<Page>>,
}

/// Whether a command reads a page.
pub(crate) fn is_read(command: &Command) -> bool
    ensures { result ≡ reserved.is_read command.now }
{
    matches!(command, Command::Read { .. })
}

/// A page for each of the commands that reads one.
pub(crate) fn pages_for(alloc: Global, commands: &[Command]) -> Result<Vec<Box<Page>>, Memory>
    ensures { IfOk result (λ pages. reads_in commands.now ≤ length pages.items) }
{
    let mut pages = Vec::new(alloc);
    for command in commands {
        if is_read(command) {
            pages.push(Box::new(alloc, [0; 4096])?)?;
        }
    }
    Ok(pages)
}
