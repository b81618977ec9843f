//! The printed text of what a store answers.
#![tactic(auto)]

mod blob;
mod entry;
mod export;
mod page;
mod pieces;
mod space;
mod store;
mod summary;
mod volume;

pub use blob::filled;
pub use entry::render_entry;
pub use export::ExportLine;
pub use pieces::{Piece, push_pieces};
pub use space::space_line;
pub use store::{render_store, space_of, store_kind, super_head};
pub use summary::render_summary;
