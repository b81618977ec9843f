//! The texts of what is known of volumes.

ghost use Rattle.std.specs.Prelude.{◌≡◌, ◌++◌, length, take, OnOk, OnErr};
ghost use Rattle.blob_report.specs.Text.{filling_text, writing_text, info_text, info_line, list_text};

use crate::pieces::Piece::{Head, Long, Number, Shown, Words};
use crate::pieces::push_pieces;
use out_of_memory::Memory;
use volume_model::Info;

/// How a volume's slots are filled.
pub fn filling(thin: bool) -> &'static [u8]
    ensures { result.now ≡ filling_text thin }
{
    if thin { b" thin" } else { b" thick" }
}

/// Whether a volume can be written.
pub fn writing(read_only: bool) -> &'static [u8]
    ensures { result.now ≡ writing_text read_only }
{
    if read_only { b" ro" } else { b" rw" }
}

/// The head of a volume's parent.
fn parent_head(info: &Info) -> Option<u64>
    ensures { result ≡ info.now.parent }
{
    match info.parent {
        Some(head) => Some(u64::from(head)),
        None => None,
    }
}

/// Appends what is known of a volume. After `Memory` nothing is appended.
pub fn push_info(info: &Info, into: &mut Vec<u8>) -> Result<(), Memory>
    ensures ok { OnOk result (into.new.items ≡ into.old.items ++ info_text info.now) }
    ensures memory { OnErr result (into.new.items ≡ into.old.items) }
{
    let pieces = [
        Words(b"volume @"),
        Number(info.head),
        Words(b" "),
        Shown(info.name.bytes()),
        Words(b" slots "),
        Long(info.slots),
        Words(b" parent "),
        Head(parent_head(info)),
        Words(filling(info.thin)),
        Words(writing(info.read_only)),
        Words(b" xattrs "),
        Number(info.xattrs),
    ];
    push_pieces(&pieces, into)
}

/// Appends a line's end, and then what is known of a volume. After `Memory` what was there still stands first.
fn push_info_line(info: &Info, into: &mut Vec<u8>) -> Result<(), Memory>
    ensures ok { OnOk result (into.new.items ≡ into.old.items ++ info_line info.now) }
    ensures kept { take (length into.old.items) into.new.items ≡ into.old.items }
{
    into.push(b'\n')?;
    push_info(info, into)
}

/// Appends how many volumes there are, and on a line for each what is known of it. After `Memory` what was there still
/// stands first.
pub fn push_list(infos: &[Info], into: &mut Vec<u8>) -> Result<(), Memory>
    ensures ok { OnOk result (into.new.items ≡ into.old.items ++ list_text infos.now) }
    ensures kept { take (length into.old.items) into.new.items ≡ into.old.items }
{
    push_pieces(&[Words(b"list "), Long(infos.len() as u64)], into)?;
    for info in infos {
        push_info_line(info, into)?;
    }
    Ok(())
}
