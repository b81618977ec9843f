//! A long chain of snapshots of one volume, clones of each, and deletes of many: each page is that of plain volumes.

use blob_report::render_entry;
use page_disk::MemDisk;
use random_plays::{Call, perform, play};
use script_lang::parse;
use std::alloc::Global;
use std::test::Fail;
use volume_model::{Entry, Volumes};

/// How many snapshots there are.
const SNAPSHOTS: u64 = 40;

/// How many metadata pages the store has.
const MD_PAGES: u32 = 96;

/// A device of 256 clusters with an empty store.
fn empty_store(alloc: Global) -> Result<MemDisk, Fail> {
    let line = format!(in alloc; "format store.img --cluster 16384 --md-pages {MD_PAGES}")?;
    let call = Call::new(line.as_str(), b"");
    let ran = perform(alloc, &call, MemDisk::new(alloc, 1024, 4096)?)?;
    Ok(ran.disk.crash(0)?)
}

/// What plain volumes answer to the commands of channel 0 of a script, a line each.
fn answered(alloc: Global, volumes: &mut Volumes, text: &[u8]) -> Result<Vec<u8>, Fail> {
    let Ok(mut script) = parse(alloc, text) else {
        return Err(Fail::new("the script is outside the grammar"));
    };
    let mut lines = Vec::new(alloc);
    let mut index = 0u32;
    for command in script.take(alloc, 0) {
        let reply = volumes.apply(alloc, &command);
        let entry = Entry {
            channel: 0,
            index,
            command,
            reply,
        };
        render_entry(&entry, &mut lines)?;
        index = index.wrapping_add(1);
    }
    Ok(lines)
}

/// Runs a script, and expects what plain volumes answer to it.
fn expect_same(
    alloc: Global,
    volumes: &mut Volumes,
    text: &[u8],
    disk: MemDisk,
) -> Result<MemDisk, Fail> {
    let wanted = answered(alloc, volumes, text)?;
    Ok(play(alloc, text, &wanted, disk)?.crash(0)?)
}

/// A volume of three slots is written in one page and then in another, with a snapshot behind each write and a clone of
/// each snapshot, of which every third is written too.
fn making(alloc: Global) -> Result<Vec<u8>, Fail> {
    let mut script = Vec::new(alloc);
    script.extend_from_slice(b"0 create v0 3 thin\n")?;
    for number in 0..SNAPSHOTS {
        let page = number.wrapping_mul(5) % 12;
        let lines = format!(in alloc;
            "0 write v0 {page} 1 1{number}\n0 snapshot v0 s{number}\n0 clone s{number} c{number}\n"
        )?;
        script.extend_from_slice(lines.as_bytes())?;
        if number % 3 == 0 {
            let page = number.wrapping_mul(7) % 12;
            let line = format!(in alloc; "0 write c{number} {page} 1 2{number}\n")?;
            script.extend_from_slice(line.as_bytes())?;
        }
    }
    Ok(script)
}

/// Every second clone is deleted, and then its snapshot, from which the next one takes over; one that has both is busy.
fn deleting(alloc: Global) -> Result<Vec<u8>, Fail> {
    let mut script = Vec::new(alloc);
    for number in 0..SNAPSHOTS {
        let lines = if number % 2 == 0 {
            format!(in alloc; "0 delete c{number}\n0 delete s{number}\n")?
        } else {
            format!(in alloc; "0 delete s{number}\n0 write c{number} 4 1 3{number}\n")?
        };
        script.extend_from_slice(lines.as_bytes())?;
    }
    script.extend_from_slice(b"0 write v0 8 1 7\n0 info v0\n0 list\n")?;
    Ok(script)
}

/// Reads every page of the volumes that begin with a letter, a snapshot or a clone of each number.
fn looking(alloc: Global, letter: &str) -> Result<Vec<u8>, Fail> {
    let mut script = Vec::new(alloc);
    script.extend_from_slice(b"0 read v0 0 12\n")?;
    for number in 0..SNAPSHOTS {
        let line = format!(in alloc; "0 read {letter}{number} 0 12\n")?;
        script.extend_from_slice(line.as_bytes())?;
    }
    Ok(script)
}

/// Runs a script and looks at each page then, and expects what plain volumes answer.
fn expect_all_same(
    alloc: Global,
    volumes: &mut Volumes,
    script: &[u8],
    disk: MemDisk,
) -> Result<MemDisk, Fail> {
    let mut disk = expect_same(alloc, volumes, script, disk)?;
    for letter in ["s", "c"] {
        disk = expect_same(alloc, volumes, &looking(alloc, letter)?, disk)?;
    }
    Ok(disk)
}

#[test]
fn each_page_of_a_long_family_is_that_of_plain_volumes(rt: HostRuntime) -> Result<(), Fail> {
    let alloc = rt.alloc();
    let mut volumes = Volumes::new(alloc, 4, MD_PAGES, None);
    let disk = expect_all_same(alloc, &mut volumes, &making(alloc)?, empty_store(alloc)?)?;
    expect_all_same(alloc, &mut volumes, &deleting(alloc)?, disk)?;
    Ok(())
}
