//! A disk of pages, as the store sees it, and disks in memory.
#![tactic(auto)]

mod crash;
mod disk;
mod fault;
mod fault_plan;
mod laws;
mod memory_disk;
mod record;
mod replace;
mod silent;
mod writing;

pub use disk::{DiskFault, Page, PageDisk, WriteKind};
pub use fault::FaultDisk;
pub use fault_plan::{CallKind, Fail};
pub use laws::images_since;
pub use memory_disk::MemDisk;
pub use out_of_memory::Memory;
pub use replace::replace_page;
pub use silent::SilentDisk;
pub use writing::{write_and_flush, write_page};
