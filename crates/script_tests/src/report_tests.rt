//! Printed lines.

use crate::told::expect;
use blob_report::{render_entry, space_line};
use std::alloc::Global;
use std::process::Abort;
use std::test::Fail;
use volume_model::{Blobtext, Command, Df, Entry, Info, InfoList, Memory, Reply};

/// A volume's name of these bytes, and what else is known of it.
fn info(alloc: Global, name: &[u8], parent: Option<u32>, thin: bool) -> Result<Info, Memory> {
    Ok(Info {
        head: 3,
        name: Blobtext::new(alloc, name)?,
        uuid: Blobtext::new(alloc, b"")?,
        slots: 1 << 40,
        parent,
        thin,
        read_only: !thin,
        xattrs: 2,
    })
}

/// Appends the line of an entry with this reply.
fn push_line(line: &mut Vec<u8>, channel: u8, index: u32, reply: Reply) -> Result<(), Memory> {
    let entry = Entry {
        channel,
        index,
        command: Command::Flush,
        reply,
    };
    render_entry(&entry, line)
}

fn line(alloc: Global, channel: u8, index: u32, reply: Reply) -> Result<Vec<u8>, Memory> {
    let mut line = Vec::new(alloc);
    push_line(&mut line, channel, index, reply)?;
    Ok(line)
}

/// Expects that this is the line of an entry with this reply, at a place of a channel.
fn expect_line(
    rt: &impl Abort,
    alloc: Global,
    (channel, index): (u8, u32),
    reply: Reply,
    wanted: &[u8],
) -> Result<(), Memory> {
    expect(rt, &line(alloc, channel, index, reply)?, wanted);
    Ok(())
}

/// Expects that this is the line of an entry that tells a value.
fn expect_value(
    rt: &impl Abort,
    alloc: Global,
    index: u32,
    value: &[u8],
    wanted: &[u8],
) -> Result<(), Memory> {
    let reply = Reply::Value(Blobtext::new(alloc, value)?);
    expect_line(rt, alloc, (0, index), reply, wanted)
}

#[test]
fn each_value_has_its_text(rt: HostRuntime) -> Result<(), Fail> {
    let a = rt.alloc();
    let df = Reply::Df(Df {
        free_clusters: 5,
        clusters: 60,
        free_pages: 7,
        pages: 800,
    });
    expect_line(
        &rt,
        a,
        (0, 3),
        df,
        b"0 3 df clusters 5 of 60 pages 7 of 800\n",
    )?;
    expect_value(&rt, a, 1, b"\x00bO\xff", b"0 1 value 00624fff\n")?;
    expect_value(&rt, a, 2, b"", b"0 2 value -\n")?;
    Ok(())
}

#[test]
fn each_reply_has_its_text(rt: HostRuntime) -> Result<(), Fail> {
    let a = rt.alloc();
    expect_line(&rt, a, (0, 0), Reply::Ok, b"0 0 ok\n")?;
    expect_line(&rt, a, (15, 10), Reply::Made(12), b"15 10 ok @12\n")?;
    expect_line(&rt, a, (0, 4), Reply::NoVolume, b"0 4 no volume\n")?;
    expect_line(&rt, a, (0, 5), Reply::Busy(2), b"0 5 busy 2\n")?;
    expect_line(&rt, a, (0, 6), Reply::ReadFault, b"0 6 read fault\n")?;
    expect_line(
        &rt,
        a,
        (0, 7),
        Reply::Stopped(4294967295),
        b"0 7 stopped 4294967295\n",
    )?;
    expect_line(&rt, a, (0, 65535), Reply::Memory, b"0 65535 no memory\n")?;
    Ok(())
}

#[test]
fn a_line_follows_what_was_there(rt: HostRuntime) -> Result<(), Fail> {
    let space = Df {
        free_clusters: 9,
        clusters: 12,
        free_pages: 3,
        pages: 4,
    };
    let mut text = line(rt.alloc(), 0, 0, Reply::NoValue)?;
    space_line(space, &mut text)?;
    expect(
        &rt,
        &text,
        b"0 0 no value\nclusters 12 free 9 pages 4 free 3\n",
    );
    Ok(())
}

fn push_info(
    infos: &mut InfoList,
    alloc: Global,
    name: &[u8],
    parent: Option<u32>,
    thin: bool,
) -> Result<(), Memory> {
    infos.push(info(alloc, name, parent, thin)?)
}

/// A reply that tells two volumes.
fn two_volumes(alloc: Global) -> Result<Reply, Memory> {
    let mut infos = InfoList::new(alloc);
    push_info(&mut infos, alloc, b"-", Some(9), false)?;
    push_info(&mut infos, alloc, b"", None, true)?;
    Ok(Reply::List(infos))
}

/// A reply that tells one volume.
fn one_volume(alloc: Global) -> Result<Reply, Memory> {
    Ok(Reply::Info(info(alloc, b"a b\\\xff~", None, true)?))
}

#[test]
fn volumes_are_told_line_by_line(rt: HostRuntime) -> Result<(), Fail> {
    let a = rt.alloc();
    expect_line(
        &rt,
        a,
        (1, 0),
        one_volume(a)?,
        b"1 0 volume @3 a\\x20b\\x5c\\xff~ slots 1099511627776 parent - thin rw xattrs 2\n",
    )?;
    expect_line(
        &rt,
        a,
        (1, 1),
        two_volumes(a)?,
        b"1 1 list 2\nvolume @3 \\x2d slots 1099511627776 parent @9 thick ro xattrs 2\n\
            volume @3 - slots 1099511627776 parent - thin rw xattrs 2\n",
    )?;
    let none = Reply::List(InfoList::new(a));
    expect_line(&rt, a, (1, 2), none, b"1 2 list 0\n")?;
    Ok(())
}
