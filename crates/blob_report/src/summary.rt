//! The one line that sums up a log.

ghost use Rattle.std.specs.Prelude.{◌≡◌, ◌≤◌, ◌++◌, length, IfOk, OnOk, OnErr};
ghost use Rattle.blob_report.specs.Summary as said;
ghost use Rattle.blob_report.specs.Text.{log_text};

use crate::entry::render_entry;
use crate::pieces::Piece::{Hex, Long, Words};
use crate::pieces::push_pieces;
use crc32c::sum;
use out_of_memory::Memory;
use std::alloc::Global;
use volume_model::{Entry, Reply};

/// Whether a reply gives what was asked for.
fn is_done(reply: &Reply) -> bool
    ensures { result ≡ said.is_done reply.now }
{
    matches!(
        reply,
        Reply::Ok
            | Reply::Made(_)
            | Reply::Content(_)
            | Reply::Value(_)
            | Reply::Info(_)
            | Reply::List(_)
            | Reply::Df(_)
    )
}

/// How many of the entries have such a reply.
fn done_in(entries: &[Entry]) -> usize
    ensures count { result ≡ said.done_in entries.now }
    ensures within { result ≤ length entries.now }
{
    let mut done = 0;
    for entry in entries {
        if is_done(&entry.reply) {
            done += 1;
        }
    }
    done
}

/// The text of a log.
fn text_of(alloc: Global, entries: &[Entry]) -> Result<Vec<u8>, Memory>
    ensures { IfOk result (λ text. text.items ≡ log_text entries.now) }
{
    let mut text = Vec::new(alloc);
    for entry in entries {
        render_entry(entry, &mut text)?;
    }
    Ok(text)
}

/// Appends the line `entries N ok A other B crc H`, with its LF: how many entries the log has, how many of them were
/// done and how many weren't, and the checksum of the text that the log is printed as. After `Memory` nothing is
/// appended.
pub fn render_summary(alloc: Global, entries: &[Entry], into: &mut Vec<u8>) -> Result<(), Memory>
    ensures ok { OnOk result (into.new.items ≡ into.old.items ++ said.summary_text entries.now) }
    ensures memory { OnErr result (into.new.items ≡ into.old.items) }
{
    let sum = sum(&text_of(alloc, entries)?);
    let done = done_in(entries);
    let pieces = [
        Words(b"entries "),
        Long(entries.len() as u64),
        Words(b" ok "),
        Long(done as u64),
        Words(b" other "),
        Long((entries.len() - done) as u64),
        Words(b" crc "),
        Hex(&sum.to_be_bytes()),
        Words(b"\n"),
    ];
    push_pieces(&pieces, into)
}
