//! Disks over files, in memory and of the system.

use file_disk::{FileDisk, MemFile};
use page_disk::{DiskFault, PageDisk, WriteKind};
use std::fs::File;
use std::path::Path;
use std::process::Abort;
use std::test::Fail as TestFail;
use std::{env, fs, process};

/// Expects that a value may go to another thread.
pub(crate) fn is_sent<T: Send>(_value: &T) {}

/// Expects this byte all over a page.
fn expect_filled<D: PageDisk>(
    rt: &impl Abort,
    disk: &mut D,
    at: u64,
    byte: u8,
) -> Result<(), TestFail> {
    assert!(rt; at < disk.pages());
    let mut page = [1; 4096];
    disk.read(at, &mut page)?;
    assert!(rt; page == [byte; 4096]);
    Ok(())
}

/// Expects that a page is read no more.
fn expect_unread<D: PageDisk>(rt: &impl Abort, disk: &mut D, at: u64) {
    assert!(rt; at < disk.pages());
    assert!(rt; disk.read(at, &mut [1; 4096]) == Err(DiskFault));
}

/// Writes sevens into page 2 of four and expects them there, lasting, and zeros beside them.
fn expect_written<D: PageDisk>(rt: &impl Abort, disk: &mut D) -> Result<(), TestFail> {
    assert!(rt; disk.pages() == 4);
    disk.write(2, &[7; 4096], WriteKind::Plain)?;
    disk.flush()?;
    assert!(rt; disk.clock() == 2);
    expect_filled(rt, disk, 1, 0)?;
    expect_filled(rt, disk, 2, 7)?;
    expect_filled(rt, disk, 3, 0)
}

/// Expects that the next write or flush fails, and that no page is read behind it.
fn expect_fault<D: PageDisk>(rt: &impl Abort, disk: &mut D) {
    assert!(rt; disk.pages() == 4);
    assert!(rt; disk.write(1, &[8; 4096], WriteKind::Whole) == Err(DiskFault));
    expect_unread(rt, disk, 2);
}

#[test]
fn a_file_in_memory_reads_what_was_written(rt: HostRuntime) -> Result<(), TestFail> {
    let mut disk = FileDisk::over(MemFile::new(rt.alloc(), 4, 2)?);
    is_sent(&disk);
    expect_written(&rt, &mut disk)?;
    expect_fault(&rt, &mut disk);
    assert!(rt; disk.clock() == 2);
    Ok(())
}

/// The file of this path with four pages of zeros and a part of a fifth.
fn new_file(rt: &HostRuntime, path: Path) -> Result<File, TestFail> {
    let file = File::options()
        .read(true)
        .write(true)
        .create(true)
        .truncate(true)
        .open(rt, path)?;
    file.set_len(4 * 4096 + 4095)?;
    Ok(file)
}

/// Expects sevens in page 2 of the file, and as many bytes as it had.
fn expect_bytes(rt: &impl Abort, bytes: &[u8]) {
    assert!(rt; bytes.len() == 4 * 4096 + 4095);
    assert!(rt; bytes[2 * 4096 - 1] == 0 && bytes[2 * 4096] == 7);
    assert!(rt; bytes[3 * 4096 - 1] == 7 && bytes[3 * 4096] == 0);
}

#[test]
fn a_page_is_its_bytes_in_a_file(rt: HostRuntime) -> Result<(), TestFail> {
    let folder = env::temp_dir(&rt)?;
    let name = format!(in rt.alloc(); "blobtool_{}", process::id(rt.process()))?;
    let path = folder.join(rt.alloc(), name.as_str())?;
    let mut disk = FileDisk::new(new_file(&rt, path.as_path())?)?;
    is_sent(&disk);
    expect_written(&rt, &mut disk)?;
    expect_bytes(&rt, &fs::read(&rt, path.as_path())?);

    let mut unwritten = FileDisk::new(File::open(&rt, path.as_path())?)?;
    expect_fault(&rt, &mut unwritten);

    // Half of the page is there no longer.
    let cut = File::options().write(true).open(&rt, path.as_path())?;
    cut.set_len(2 * 4096 + 2048)?;
    expect_unread(&rt, &mut disk, 2);
    expect_filled(&rt, &mut disk, 1, 0)?;
    fs::remove_file(&rt, path.as_path())?;
    Ok(())
}
