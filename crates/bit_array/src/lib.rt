//! Sets of numbers below a length, and the masks on disk that hold them.
#![tactic(auto)]

mod bits;
mod mask;
mod reader;

pub use bits::Bits;
pub use mask::{mask_pages, masks_read_back};
pub use out_of_memory::Memory;
pub use reader::{MaskFault, MaskReader};
