//! Many volumes of many slots, a snapshot of each, and what they take.

use page_disk::MemDisk;
use std::alloc::Global;
use std::test::Fail;
use test_runs::{Call, Ran, expect_printed, perform, play};

/// How many volumes there are.
const VOLUMES: u32 = 20;

/// A device of 1024 clusters with an empty store of 64 metadata pages: with these, 17 clusters are fixed.
fn empty_store(alloc: Global) -> Result<MemDisk, Fail> {
    let call = Call::new("format store.img --cluster 16384 --md-pages 64", b"");
    let Ran {
        status: _,
        out,
        disk,
    } = perform(alloc, &call, MemDisk::new(alloc, 4096, 1024)?)?;
    expect_printed(&out, b"clusters 1024 free 1007 pages 64 free 64\n")?;
    Ok(disk)
}

/// A text with lines for each volume.
#[derive(Clone, Copy)]
enum Text {
    /// Makes volumes of 1,280 slots, writes a page in the last slot of each, and makes a snapshot of it.
    Making,
    /// What that prints.
    Made,
    /// Reads the last two pages of each volume, and the last one of its snapshot.
    Looking,
    /// What that prints.
    Found,
}

/// The lines for the volume with this number.
fn lines_of(alloc: Global, text: Text, number: u32) -> Result<String, Fail> {
    let head = number.wrapping_mul(2);
    let first = number.wrapping_mul(3);
    let (second, third) = (first.wrapping_add(1), first.wrapping_add(2));
    Ok(match text {
        Text::Making => format!(in alloc;
            "0 create v{number} 1280 thin\n0 write v{number} 5119 1 {number}\n0 snapshot v{number} s{number}\n"
        )?,
        Text::Made => format!(in alloc;
            "0 {first} ok @{head}\n0 {second} ok\n0 {third} ok @{}\n",
            head.wrapping_add(1)
        )?,
        Text::Looking => format!(in alloc; "0 read v{number} 5118 2\n0 read s{number} 5119 1\n")?,
        Text::Found => format!(in alloc;
            "0 {first} page fill 0000000000000000\n0 {second} page fill {number:016x}\n\
            0 {third} page fill {number:016x}\n"
        )?,
    })
}

/// The whole text. At the end it asks how much is clear, or tells it.
fn whole(alloc: Global, text: Text) -> Result<Vec<u8>, Fail> {
    let mut lines = Vec::new(alloc);
    for number in 0..VOLUMES {
        lines.extend_from_slice(lines_of(alloc, text, number)?.as_bytes())?;
    }
    let end: &[u8] = match text {
        Text::Making | Text::Looking => b"0 df\n",
        Text::Made | Text::Found => b"0 60 df clusters 987 of 1024 pages 24 of 64\n",
    };
    lines.extend_from_slice(end)?;
    Ok(lines)
}

/// Each volume takes one cluster and one metadata page, and its snapshot a page.
#[test]
fn a_snapshot_of_each_of_many_volumes_takes_a_page(rt: HostRuntime) -> Result<(), Fail> {
    let alloc = rt.alloc();
    let disk = empty_store(alloc)?;
    let disk = play(
        alloc,
        &whole(alloc, Text::Making)?,
        &whole(alloc, Text::Made)?,
        disk,
    )?;
    play(
        alloc,
        &whole(alloc, Text::Looking)?,
        &whole(alloc, Text::Found)?,
        disk,
    )?;
    Ok(())
}
