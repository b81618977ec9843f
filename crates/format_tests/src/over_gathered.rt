//! Disks over files that gather.

use crate::over_files::is_sent;
use file_disk::{FileDisk, MemFile};
use gathered_file::GatheringFile;
use page_disk::{DiskFault, Memory, PageDisk, WriteKind};
use std::process::Abort;
use std::test::Fail as TestFail;

/// What is written behind one another, and by how many calls it goes to the file below, a flush at the end not counted.
static WRITES: [(&[(u64, WriteKind)], u64); 7] = [
    (&[], 0),
    (&[(2, WriteKind::Plain)], 1),
    (
        &[
            (2, WriteKind::Plain),
            (3, WriteKind::Plain),
            (4, WriteKind::Plain),
        ],
        1,
    ),
    (&[(2, WriteKind::Plain), (4, WriteKind::Plain)], 2),
    (&[(3, WriteKind::Plain), (2, WriteKind::Plain)], 2),
    (&[(2, WriteKind::Plain), (2, WriteKind::Plain)], 2),
    (
        &[
            (2, WriteKind::Plain),
            (3, WriteKind::Whole),
            (4, WriteKind::Plain),
        ],
        3,
    ),
];

/// A disk over a file of eight pages that gathers, and takes so many calls below.
fn disk_of(rt: &HostRuntime, calls: u64) -> Result<FileDisk<GatheringFile<MemFile>>, Memory> {
    let file = MemFile::new(rt.alloc(), 8, calls)?;
    Ok(FileDisk::over(GatheringFile::new(rt.alloc(), file)?))
}

/// Writes sevens into these pages and expects to read them, before they are flushed.
fn write_all<D: PageDisk>(
    rt: &impl Abort,
    disk: &mut D,
    writes: &[(u64, WriteKind)],
) -> Result<(), DiskFault> {
    for (page, kind) in writes {
        assert!(rt; *page < disk.pages());
        disk.write(*page, &[7; 4096], *kind)?;
        expect_sevens(rt, disk, *page)?;
    }
    Ok(())
}

/// Expects sevens all over a page.
fn expect_sevens<D: PageDisk>(rt: &impl Abort, disk: &mut D, at: u64) -> Result<(), DiskFault> {
    assert!(rt; at < disk.pages());
    let mut page = [1; 4096];
    disk.read(at, &mut page)?;
    assert!(rt; page == [7; 4096]);
    Ok(())
}

#[test]
fn neighbours_go_out_in_one_call(rt: HostRuntime) -> Result<(), TestFail> {
    for (writes, calls) in &WRITES {
        let mut disk = disk_of(&rt, *calls + 1)?;
        write_all(&rt, &mut disk, writes)?;
        disk.flush()?;

        // The file takes no call more, and this flush makes none.
        disk.flush()?;
        for (page, _) in *writes {
            expect_sevens(&rt, &mut disk, *page)?;
        }
        assert!(rt; disk.clock() == writes.len() as u64 + 2);
    }
    Ok(())
}

#[test]
fn a_write_that_fails_late_is_the_fault_of_the_flush(rt: HostRuntime) -> Result<(), TestFail> {
    let mut disk = disk_of(&rt, 0)?;
    is_sent(&disk);
    write_all(&rt, &mut disk, &[(2, WriteKind::Plain)])?;
    assert!(rt; disk.flush() == Err(DiskFault));
    assert!(rt; disk.pages() == 8);
    assert!(rt; disk.read(2, &mut [1; 4096]) == Err(DiskFault));
    assert!(rt; disk.write(3, &[7; 4096], WriteKind::Plain) == Err(DiskFault));
    let (_, written) = disk.into_file().close();
    assert!(rt; written.is_err());
    Ok(())
}

#[test]
fn a_megabyte_is_kept_at_most(rt: HostRuntime) -> Result<(), TestFail> {
    let file = MemFile::new(rt.alloc(), 257, 1)?;
    let mut disk = FileDisk::over(GatheringFile::new(rt.alloc(), file)?);
    for page in 0..257 {
        assert!(rt; page < disk.pages());
        disk.write(page, &[7; 4096], WriteKind::Plain)?;
    }
    let (_, written) = disk.into_file().close();
    assert!(rt; written.is_err());
    Ok(())
}
