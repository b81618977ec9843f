//! The formats of a listing.

ghost use Rattle.std.specs.Prelude.{◌≡◌, IfOk};
ghost use Rattle.super_block.specs.Faults.{IsFaultless};
ghost use Rattle.listing_text.specs.Formats.{listing_text};
ghost use Rattle.listing_text.specs.declared.format.ListFormat.TheVariants.{Lines};

use crate::objects::render_json;
use crate::tree::render_tree;
use blob_report::render_store;
use out_of_memory::Memory;
use running_store::Loaded;
use std::alloc::Global;

/// How a listing is printed.
#[derive(Clone, Copy, Debug, PartialEq, Eq)]
pub enum ListFormat {
    /// A line for the store, one for its super blob, and one for each volume.
    Lines,
    /// One object of JSON, on a line.
    Json,
    /// A line for each volume, below its parent's, as a tree in ASCII.
    Tree,
}

/// A listing in lines.
fn render_lines<D>(alloc: Global, loaded: &Loaded<D>) -> Result<Vec<u8>, Memory>
    requires { IsFaultless loaded.now.sup }
    ensures { IfOk result (λ text. text.items ≡ listing_text Lines loaded.now) }
{
    let mut text = Vec::new(alloc);
    render_store(loaded, &mut text)?;
    Ok(text)
}

/// The listing of a loaded store in a format.
pub fn render_listing<D>(
    alloc: Global,
    format: ListFormat,
    loaded: &Loaded<D>,
) -> Result<Vec<u8>, Memory>
    requires { IsFaultless loaded.now.sup }
    ensures { IfOk result (λ text. text.items ≡ listing_text format loaded.now) }
{
    match format {
        ListFormat::Lines => render_lines(alloc, loaded),
        ListFormat::Json => render_json(alloc, loaded),
        ListFormat::Tree => render_tree(alloc, loaded),
    }
}
