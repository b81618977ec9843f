//! Pages of volumes that are read, and flushes.

use crate::device_pages::put_page;
use page_disk::{MemDisk, Page};
use std::alloc::Global;
use std::test::Fail;
use test_runs::play;
use test_stores::volume;

/// 512 copies of the eight little-endian bytes of a word below 256.
pub(crate) fn filled(byte: u8) -> Page {
    let mut page = [0; 4096];
    for (at, place) in page.iter_mut().enumerate() {
        if at % 8 == 0 {
            *place = byte;
        }
    }
    page
}

/// The bytes 0 to 255, sixteen times: their CRC-32C is 9c71fe32.
fn counted() -> Page {
    let mut page = [0; 4096];
    for (at, place) in page.iter_mut().enumerate() {
        *place = (at % 256) as u8;
    }
    page
}

/// A store whose volume `v` has four empty slots and the clusters 7 to 9, of which the first begins with a page of
/// sevens and one of counted bytes.
fn disk(alloc: Global) -> Result<MemDisk, Fail> {
    let mut disk = volume(alloc, 16)?;
    put_page(&mut disk, 28, &filled(7))?;
    put_page(&mut disk, 29, &counted())?;
    Ok(disk)
}

const READS: &[u8] =
    b"0 read v 0 1\n0 read v 16 3\n0 flush\n0 read @0 27 1\n0 read v 28 1\n0 read w 0 1\n\
    0 read @1 0 1\n";

const ANSWERS: &[u8] =
    b"0 0 page fill 0000000000000000\n0 1 page fill 0000000000000007\n0 2 page crc 9c71fe32\n\
    0 3 page fill 0000000000000000\n0 4 ok\n0 5 page fill 0000000000000000\n0 6 out of range\n0 7 no volume\n\
    0 8 no volume\n";

#[test]
fn pages_are_read_through_maps(rt: HostRuntime) -> Result<(), Fail> {
    let disk = play(rt.alloc(), READS, ANSWERS, disk(rt.alloc())?)?;
    play(rt.alloc(), READS, ANSWERS, disk)?;
    Ok(())
}

const CREATE: &[u8] = b"0 create t 2 thin\n0 read t 7 1\n0 read t 6 2\n0 read t 8 1\n";

const CREATED: &[u8] =
    b"0 0 ok @3\n0 1 page fill 0000000000000000\n0 2 page fill 0000000000000000\n\
    0 3 page fill 0000000000000000\n0 4 out of range\n";

#[test]
fn an_empty_slot_reads_as_zeros(rt: HostRuntime) -> Result<(), Fail> {
    play(rt.alloc(), CREATE, CREATED, disk(rt.alloc())?)?;
    Ok(())
}
