//! The printed line of a log's entry.

ghost use Rattle.std.specs.Prelude.{◌≡◌, ◌++◌, length, take, OnOk, OnErr};
ghost use Rattle.blob_report.specs.Text.{reply_text, df_text, value_text, entry_text};

use crate::page::push_page;
use crate::pieces::Piece::{Hex, Number, Words};
use crate::pieces::push_pieces;
use crate::volume::{push_info, push_list};
use out_of_memory::Memory;
use volume_model::{Df, Entry, Reply};

/// Appends the text of a value. After `Memory` nothing is appended.
fn push_value(value: &[u8], into: &mut Vec<u8>) -> Result<(), Memory>
    ensures ok { OnOk result (into.new.items ≡ into.old.items ++ value_text value.now) }
    ensures memory { OnErr result (into.new.items ≡ into.old.items) }
{
    match value {
        [] => push_pieces(&[Words(b"value -")], into),
        bytes => push_pieces(&[Words(b"value "), Hex(bytes)], into),
    }
}

/// Appends the text of how much is free. After `Memory` nothing is appended.
fn push_df(df: Df, into: &mut Vec<u8>) -> Result<(), Memory>
    ensures ok { OnOk result (into.new.items ≡ into.old.items ++ df_text df) }
    ensures memory { OnErr result (into.new.items ≡ into.old.items) }
{
    let pieces = [
        Words(b"df clusters "),
        Number(df.free_clusters),
        Words(b" of "),
        Number(df.clusters),
        Words(b" pages "),
        Number(df.free_pages),
        Words(b" of "),
        Number(df.pages),
    ];
    push_pieces(&pieces, into)
}

/// Appends the text of a reply. After `Memory` what was there still stands first.
pub(crate) fn push_reply(reply: &Reply, into: &mut Vec<u8>) -> Result<(), Memory>
    ensures ok { OnOk result (into.new.items ≡ into.old.items ++ reply_text reply.now) }
    ensures kept { take (length into.old.items) into.new.items ≡ into.old.items }
{
    match reply {
        Reply::Ok => push_pieces(&[Words(b"ok")], into),
        Reply::Made(head) => push_pieces(&[Words(b"ok @"), Number(*head)], into),
        Reply::Content(page) => push_page(page, into),
        Reply::Value(value) => push_value(value.bytes(), into),
        Reply::Info(info) => push_info(info, into),
        Reply::List(infos) => push_list(infos.as_slice(), into),
        Reply::Df(df) => push_df(*df, into),
        Reply::NoVolume => push_pieces(&[Words(b"no volume")], into),
        Reply::OutOfRange => push_pieces(&[Words(b"out of range")], into),
        Reply::ReadOnly => push_pieces(&[Words(b"read only")], into),
        Reply::NotReadOnly => push_pieces(&[Words(b"not read only")], into),
        Reply::Full => push_pieces(&[Words(b"full")], into),
        Reply::NoPage => push_pieces(&[Words(b"no page")], into),
        Reply::NameTaken => push_pieces(&[Words(b"name taken")], into),
        Reply::Busy(clones) => push_pieces(&[Words(b"busy "), Number(*clones)], into),
        Reply::NoParent => push_pieces(&[Words(b"no parent")], into),
        Reply::Short => push_pieces(&[Words(b"short")], into),
        Reply::Reserved => push_pieces(&[Words(b"reserved")], into),
        Reply::NoValue => push_pieces(&[Words(b"no value")], into),
        Reply::TooLong => push_pieces(&[Words(b"too long")], into),
        Reply::TooLarge => push_pieces(&[Words(b"too large")], into),
        Reply::ReadFault => push_pieces(&[Words(b"read fault")], into),
        Reply::Fault => push_pieces(&[Words(b"fault")], into),
        Reply::Stopped(at) => push_pieces(&[Words(b"stopped "), Number(*at)], into),
        Reply::Memory => push_pieces(&[Words(b"no memory")], into),
    }
}

/// Appends the line of an entry. After `Memory` what was there still stands first.
fn push_line(entry: &Entry, into: &mut Vec<u8>) -> Result<(), Memory>
    ensures ok { OnOk result (into.new.items ≡ into.old.items ++ entry_text entry.now) }
    ensures kept { take (length into.old.items) into.new.items ≡ into.old.items }
{
    let channel = u32::from(entry.channel);
    let place = [
        Number(channel),
        Words(b" "),
        Number(entry.index),
        Words(b" "),
    ];
    push_pieces(&place, into)?;
    push_reply(&entry.reply, into)?;
    into.push(b'\n')?;
    Ok(())
}

/// Appends the line of an entry: the channel, the index and the reply, with single spaces, and LF. After `Memory`
/// nothing is appended.
pub fn render_entry(entry: &Entry, into: &mut Vec<u8>) -> Result<(), Memory>
    ensures ok { OnOk result (into.new.items ≡ into.old.items ++ entry_text entry.now) }
    ensures memory { OnErr result (into.new.items ≡ into.old.items) }
{
    let length = into.len();
    let pushed = push_line(entry, into);
    if pushed.is_err() {
        into.truncate(length);
    }
    pushed
}
