//! Tests of the crates that a store's device stands on (`crc32c`, `page_disk`, `file_disk`, `gathered_file`), of its
//! pages, its super block and its masks (`page_fields`, `md_page`, `super_block`, `clean_stop`, `bit_array`), and of
//! what is clear or frozen (`pools`, `io_freeze`).
#![tactic(auto)]

#[cfg(test)]
mod checksum;
#[cfg(test)]
mod disk;
#[cfg(test)]
mod guards;
#[cfg(test)]
mod masks;
#[cfg(test)]
mod over_files;
#[cfg(test)]
mod over_gathered;
#[cfg(test)]
mod page;
#[cfg(test)]
mod pool;
#[cfg(test)]
mod stops;
#[cfg(test)]
mod super_faults;
#[cfg(test)]
mod super_page;
