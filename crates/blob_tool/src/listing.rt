//! A store and its volumes are listed.

ghost use Rattle.blob_tool.specs.ListOutcome.{ListEnded};

use crate::loading::load_store;
use crate::opening::disk_of;
use crate::status::Status;
use listing_text::{ListFormat, render_listing};
use page_disk::PageDisk;
use std::alloc::Global;
use streams::{Sink, SinkFault, offer};

/// Loads the store of the device, and prints it and its volumes in this format. The device is read and nothing else.
pub(crate) fn list_image<K: Sink, D: PageDisk>(
    alloc: Global,
    format: ListFormat,
    out: &mut K,
    disk: D,
) -> (Status, D)
    ensures { ListEnded D.PageDisk disk result.1 K.Sink out.old out.new format result.0 }
{
    let loaded = match load_store(alloc, disk) {
        Ok(loaded) => loaded,
        Err(unloaded) => return unloaded,
    };
    let text = render_listing(alloc, format, &loaded);
    let disk = disk_of(loaded);
    let Ok(text) = text else {
        return (Status::Memory, disk);
    };
    match offer(&text, out) {
        Ok(()) => (Status::Good, disk),
        Err(SinkFault) => (Status::OutWrite, disk),
    }
}
