//! A new store is written.

ghost use Rattle.std.specs.Prelude.{◌≡◌, ◌<◌, IfOk, IfSome};
ghost use Rattle.std.specs.Option.{option_copied};
ghost use Rattle.super_block.specs.Layout.{IsPlanned};
ghost use Rattle.blob_tool.specs.FormatOutcome.{new_store_text, used_pages, FormatEnded};

use crate::format_words::Format;
use crate::status::Status;
use blob_report::space_line;
use out_of_memory::Memory as NoMemory;
use page_disk::PageDisk;
use std::alloc::Global;
use store_format::{FormatFault, StoreName, write_store};
use streams::{Sink, SinkFault, offer};
use super_block::{Layout, layouts_are_placed};
use unclean_load::LoadFault;
use volume_model::Df;

/// The metadata pages that a new store uses at first.
fn used_pages(named: Option<&StoreName>) -> u32
    ensures { result ≡ used_pages (option_copied named.entry) }
{
    match named {
        Some(_) => 1,
        None => 0,
    }
}

/// The line of a new store with this layout, which may have a name.
fn line_of(alloc: Global, layout: &Layout, named: Option<&StoreName>) -> Result<Vec<u8>, NoMemory>
    requires planned { IsPlanned layout.now }
    requires some_page { 0 < layout.now.md_pages }
    ensures { IfOk result (λ line. line.items ≡ new_store_text layout.now (option_copied named.entry)) }
{
    let space = Df {
        free_clusters: layout.free_clusters(),
        clusters: layout.clusters,
        free_pages: layout.md_pages - used_pages(named),
        pages: layout.md_pages,
    };
    let mut line = Vec::new(alloc);
    space_line(space, &mut line)?;
    Ok(line)
}

/// Writes a new store with the layout that is asked for, with a super blob where it has a name, and prints its line.
pub(crate) fn format_image<K: Sink, D: PageDisk>(
    alloc: Global,
    format: &Format,
    out: &mut K,
    disk: D,
) -> (Status, D)
    requires some_page { IfSome format.now.md_pages (λ pages. 0 < pages) }
    ensures { FormatEnded D.PageDisk disk result.1 format.now K.Sink out.old out.new result.0 }
{
    layouts_are_placed();
    let mut disk = disk;
    let layout = match Layout::plan(disk.pages(), format.cluster_pages, format.md_pages) {
        Ok(layout) => layout,
        Err(fault) => {
            let fault = LoadFault::Super(fault);
            return (Status::Image { fault }, disk);
        }
    };
    let line = match line_of(alloc, &layout, format.lvol.as_ref()) {
        Ok(line) => line,
        Err(NoMemory) => return (Status::Memory, disk),
    };
    match write_store(alloc, &mut disk, &layout, format.lvol.as_ref()) {
        Ok(()) => {}
        Err(FormatFault::Device) => return (Status::Device { at: 0 }, disk),
        Err(FormatFault::Memory) => return (Status::Memory, disk),
    }
    match offer(&line, out) {
        Ok(()) => (Status::Good, disk),
        Err(SinkFault) => (Status::OutWrite, disk),
    }
}
