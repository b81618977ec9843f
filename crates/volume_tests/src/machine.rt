//! The machine's replies, each written out, and copies of all commands and replies.

use crate::commands::{Row, Verb, command};
use std::alloc::Global;
use std::process::Abort;
use std::test::Fail;
use volume_model::{Command, Entry, Reply, Volumes};

/// Whether a page is 512 copies of this byte and seven zeros.
fn is_fill(page: &[u8; 4096], byte: u8) -> bool {
    let mut wanted = [0; 4096];
    for word in 0..512 {
        wanted[8 * word] = byte;
    }
    *page == wanted
}

fn page_shown(page: &[u8; 4096]) -> &'static str {
    if is_fill(page, 0) {
        "zeros"
    } else if is_fill(page, 7) {
        "sevens"
    } else {
        "another page"
    }
}

fn shown(alloc: Global, reply: &Reply) -> Result<String, Fail> {
    Ok(match reply {
        Reply::Content(page) => String::from_str(alloc, page_shown(page))?,
        reply => format!(in alloc; "{reply:?}")?,
    })
}

fn command_shown(alloc: Global, command: &Command) -> Result<String, Fail> {
    Ok(format!(in alloc; "{command:?}")?)
}

/// Expects a text, of what a command is or has for its reply.
fn expect(rt: &impl Abort, found: &str, wanted: &str, command: &str) {
    assert!(rt; found == wanted, "{command}: {found}");
}

/// Expects that a copy shows this command.
fn expect_command(
    rt: &impl Abort,
    alloc: Global,
    copy: &Command,
    wanted: &Command,
) -> Result<(), Fail> {
    let wanted = command_shown(alloc, wanted)?;
    let found = command_shown(alloc, copy)?;
    expect(rt, &found, &wanted, &wanted);
    Ok(())
}

/// Expects the reply of an entry.
fn expect_reply(rt: &impl Abort, alloc: Global, entry: &Entry, wanted: &str) -> Result<(), Fail> {
    let command = command_shown(alloc, &entry.command)?;
    let found = shown(alloc, &entry.reply)?;
    expect(rt, &found, wanted, &command);
    Ok(())
}

/// Expects that a copy has the command of its entry and this reply.
fn expect_entry(
    rt: &impl Abort,
    alloc: Global,
    copy: &Entry,
    (entry, wanted): (&Entry, &str),
) -> Result<(), Fail> {
    expect_command(rt, alloc, &copy.command, &entry.command)?;
    expect_reply(rt, alloc, copy, wanted)
}

/// Expects that an entry finds memory for its copy, which has its command and this reply.
fn expect_copy(rt: &impl Abort, alloc: Global, entry: &Entry, wanted: &str) -> Result<(), Fail> {
    let copy = entry.try_copy(alloc)?;
    expect_entry(rt, alloc, &copy, (entry, wanted))
}

/// Does a command.
fn done(alloc: Global, volumes: &mut Volumes, command: Command) -> Entry {
    let reply = volumes.apply(alloc, &command);
    Entry {
        channel: 0,
        index: 0,
        command,
        reply,
    }
}

/// Does the command of a row, and expects its reply.
fn expect_row(
    rt: &impl Abort,
    alloc: Global,
    volumes: &mut Volumes,
    row: &Row,
) -> Result<(), Fail> {
    let entry = done(alloc, volumes, command(alloc, row)?);
    expect_copy(rt, alloc, &entry, row.4)
}

/// Does the commands, and expects their replies.
fn play(rt: &impl Abort, alloc: Global, volumes: &mut Volumes, rows: &[Row]) -> Result<(), Fail> {
    for row in rows {
        expect_row(rt, alloc, volumes, row)?;
    }
    Ok(())
}

static THIN: [Row; 5] = [
    (Verb::Create, "", 4, "v", "Made(0)"),
    (Verb::Read, "v", 4, "", "zeros"),
    (Verb::Write, "v", 5, "", "Ok"),
    (Verb::Read, "v", 4, "", "zeros"),
    (Verb::Read, "v", 5, "", "sevens"),
];

#[test]
fn a_thin_volume_reads_zeros_and_what_was_written(rt: HostRuntime) -> Result<(), Fail> {
    let mut volumes = Volumes::new(rt.alloc(), 4, 16, None);
    play(&rt, rt.alloc(), &mut volumes, &THIN)
}

// The super blob is at 0, v at 1 with 2 slots of two pages. v gets the parent s at 2, and s the clones v and c at 3; c
// is cut and can't grow under s, and then t at 4 with 1 slot stands between s and c. A snapshot or a clone that is too
// large, and a sum of slots that is, would take more memory than a machine has.
static ROWS: [Row; 103] = [
    (Verb::Create, "", 0, "store", "Made(0)"),
    (Verb::Create, "", 2, "v", "Made(1)"),
    (Verb::Create, "", 1, "v", "NameTaken"),
    (Verb::Create, "", (1 << 20) + 1, "c", "TooLarge"),
    (Verb::Write, "x", 0, "", "NoVolume"),
    (Verb::Write, "@0", 0, "", "Reserved"),
    (Verb::Write, "v", 4, "", "OutOfRange"),
    (Verb::Write, "v", 3, "", "Ok"),
    (Verb::Read, "x", 0, "", "NoVolume"),
    (Verb::Read, "v", 4, "", "OutOfRange"),
    (Verb::Read, "v", 3, "", "sevens"),
    (Verb::Flush, "", 0, "", "Ok"),
    (
        Verb::Df,
        "",
        0,
        "",
        "Df(Df { free_clusters: 0, clusters: 0, free_pages: 0, pages: 16 })",
    ),
    (Verb::SetX, "x", 1, "k", "NoVolume"),
    (Verb::SetX, "@0", 1, "k", "Reserved"),
    (Verb::SetX, "v", 1, "name", "Reserved"),
    (Verb::SetX, "v", 4063, "k", "TooLong"),
    (Verb::SetX, "v", 4062, "k", "Ok"),
    (Verb::SetX, "v", 1, "k", "Ok"),
    (Verb::GetX, "x", 0, "k", "NoVolume"),
    (Verb::GetX, "v", 0, "j", "NoValue"),
    (Verb::GetX, "v", 0, "k", "Value(Blobtext { bytes: [97] })"),
    (Verb::Put, "x", 2, "k", "NoVolume"),
    (Verb::Put, "@0", 2, "k", "Reserved"),
    (Verb::Put, "v", 2, "uuid", "Reserved"),
    (Verb::Put, "v", 4063, "k", "TooLong"),
    (Verb::Put, "v", 2, "k", "Ok"),
    (
        Verb::GetX,
        "v",
        0,
        "k",
        "Value(Blobtext { bytes: [97, 97] })",
    ),
    (Verb::DelX, "x", 0, "k", "NoVolume"),
    (Verb::DelX, "@0", 0, "k", "Reserved"),
    (Verb::DelX, "v", 0, "uuid", "Reserved"),
    (Verb::DelX, "v", 0, "j", "NoValue"),
    (Verb::DelX, "v", 0, "k", "Ok"),
    (Verb::Sync, "x", 0, "", "NoVolume"),
    (Verb::Sync, "@0", 0, "", "Reserved"),
    (Verb::Sync, "v", 0, "", "Ok"),
    (Verb::Info, "x", 0, "", "NoVolume"),
    (Verb::Rename, "x", 0, "t", "NoVolume"),
    (Verb::Rename, "@0", 0, "t", "Reserved"),
    (Verb::Rename, "v", 0, "v", "NameTaken"),
    (Verb::Rename, "v", 0, "t", "Ok"),
    (Verb::Rename, "@1", 0, "v", "Ok"),
    (Verb::Decouple, "v", 0, "", "NoParent"),
    (Verb::Snapshot, "x", 0, "s", "NoVolume"),
    (Verb::Snapshot, "@0", 0, "s", "Reserved"),
    (Verb::Snapshot, "v", 0, "v", "NameTaken"),
    (Verb::Snapshot, "v", 0, "s", "Made(2)"),
    (Verb::Clone, "x", 0, "c", "NoVolume"),
    (Verb::Clone, "v", 0, "c", "NotReadOnly"),
    (Verb::Clone, "s", 0, "v", "NameTaken"),
    (Verb::Clone, "s", 0, "c", "Made(3)"),
    (Verb::Write, "s", 0, "", "ReadOnly"),
    (Verb::SetX, "s", 1, "k", "ReadOnly"),
    (Verb::Put, "s", 1, "k", "ReadOnly"),
    (Verb::DelX, "s", 0, "k", "ReadOnly"),
    (Verb::Sync, "s", 0, "", "ReadOnly"),
    (Verb::Resize, "s", 1, "", "ReadOnly"),
    (Verb::Snapshot, "s", 0, "t", "ReadOnly"),
    (Verb::Inflate, "s", 0, "", "ReadOnly"),
    (Verb::Decouple, "s", 0, "", "ReadOnly"),
    (Verb::Rename, "s", 0, "t", "ReadOnly"),
    (Verb::ReadOnly, "s", 0, "", "ReadOnly"),
    (Verb::Delete, "s", 0, "", "Busy(2)"),
    (Verb::Write, "c", 0, "", "Ok"),
    (Verb::Read, "v", 0, "", "zeros"),
    (Verb::Read, "s", 0, "", "zeros"),
    (Verb::Read, "c", 0, "", "sevens"),
    (Verb::Resize, "x", 1, "", "NoVolume"),
    (Verb::Resize, "@0", 1, "", "Reserved"),
    (Verb::Resize, "v", (1 << 20) + 1, "", "TooLarge"),
    (Verb::Resize, "c", 1, "", "Ok"),
    (Verb::Resize, "c", 2, "", "Short"),
    (Verb::Read, "c", 2, "", "OutOfRange"),
    (Verb::Snapshot, "c", 0, "t", "Made(4)"),
    (Verb::Resize, "c", 2, "", "Ok"),
    (Verb::Read, "c", 2, "", "zeros"),
    (Verb::Decouple, "x", 0, "", "NoVolume"),
    (Verb::Decouple, "@0", 0, "", "Reserved"),
    (Verb::Decouple, "c", 0, "", "Short"),
    (Verb::Decouple, "v", 0, "", "Ok"),
    (Verb::Delete, "x", 0, "", "NoVolume"),
    (Verb::Delete, "@0", 0, "", "Reserved"),
    (Verb::Delete, "t", 0, "", "Short"),
    (Verb::Inflate, "x", 0, "", "NoVolume"),
    (Verb::Inflate, "@0", 0, "", "Reserved"),
    (Verb::Inflate, "c", 0, "", "Ok"),
    (Verb::Decouple, "c", 0, "", "NoParent"),
    (Verb::ReadOnly, "x", 0, "", "NoVolume"),
    (Verb::ReadOnly, "@0", 0, "", "Reserved"),
    (Verb::ReadOnly, "c", 0, "", "Ok"),
    (Verb::Delete, "t", 0, "", "Ok"),
    (Verb::Delete, "@2", 0, "", "Ok"),
    (Verb::Read, "@2", 0, "", "NoVolume"),
    (Verb::Read, "v", 3, "", "sevens"),
    (Verb::Read, "@3", 0, "", "sevens"),
    (Verb::Snapshot, "v", 0, "p", "Made(2)"),
    (Verb::Create, "", 1, "s", "Made(4)"),
    (Verb::Delete, "@4", 0, "", "Ok"),
    (Verb::Delete, "@3", 0, "", "Ok"),
    (Verb::Read, "p", 3, "", "sevens"),
    (Verb::Write, "v", 0, "", "Ok"),
    (Verb::Read, "p", 0, "", "zeros"),
    (Verb::Read, "v", 0, "", "sevens"),
];

#[test]
fn each_verb_is_done_and_refused(rt: HostRuntime) -> Result<(), Fail> {
    let mut volumes = Volumes::new(rt.alloc(), 2, 16, Some(0));
    play(&rt, rt.alloc(), &mut volumes, &ROWS)
}

// The name `v` and the uuid 11111111-1111-1111-1111-111111111111 are told by their bytes. The super blob isn't listed.
static TOLD: [Row; 4] = [
    (Verb::Create, "", 0, "store", "Made(0)"),
    (Verb::Create, "", 2, "v", "Made(1)"),
    (
        Verb::Info,
        "v",
        0,
        "",
        "Info(Info { head: 1, name: Blobtext { bytes: [118] }, uuid: Blobtext { bytes: [49, 49, 49, 49, 49, \
            49, 49, 49, 45, 49, 49, 49, 49, 45, 49, 49, 49, 49, 45, 49, 49, 49, 49, 45, 49, 49, 49, 49, 49, \
            49, 49, 49, 49, 49, 49, 49] }, slots: 2, parent: None, thin: true, read_only: false, xattrs: 2 })",
    ),
    (
        Verb::List,
        "",
        0,
        "",
        "List(ListOf { items: [Info { head: 1, name: Blobtext { bytes: [118] }, uuid: Blobtext { bytes: \
            [49, 49, 49, 49, 49, 49, 49, 49, 45, 49, 49, 49, 49, 45, 49, 49, 49, 49, 45, 49, 49, 49, 49, 45, \
            49, 49, 49, 49, 49, 49, 49, 49, 49, 49, 49, 49] }, slots: 2, parent: None, thin: true, read_only: \
            false, xattrs: 2 }] })",
    ),
];

#[test]
fn volumes_are_told(rt: HostRuntime) -> Result<(), Fail> {
    let mut volumes = Volumes::new(rt.alloc(), 2, 16, Some(0));
    play(&rt, rt.alloc(), &mut volumes, &TOLD)
}
