//! Which requests are carried out.

ghost use Rattle.std.specs.Prelude.{◌≡◌};
ghost use Rattle.nbd_words.specs.Taking.{refusal_of, pages_refusal};

use crate::answers::{Export, RequestError};
use crate::requests::{RequestHead, RequestKind};

/// The size of a page in bytes: requests are of whole pages.
const PAGE: u64 = 4096;

/// The most bytes of one request: 32 MiB.
const MOST: u32 = 1 << 25;

fn refusal_of_pages(export: &Export, head: &RequestHead, past: RequestError) -> Option<RequestError>
    ensures { result ≡ pages_refusal export.now head.now past }
{
    let length = u64::from(head.length);
    let is_whole = head.offset % PAGE == 0 && length % PAGE == 0;
    if head.flags >= 2 || !is_whole || head.length == 0 || head.length > MOST {
        return Some(RequestError::Invalid);
    }
    if length > export.size || head.offset > export.size - length {
        return Some(past);
    }
    None
}

/// The error with which a request is refused, or None where it is carried out. A READ or a WRITE is of whole pages, at
/// least one and at most 32 MiB, within the export, and a WRITE only for an export that can be written; no flag but FUA
/// is known.
pub fn refusal(export: &Export, head: &RequestHead) -> Option<RequestError>
    ensures { result ≡ refusal_of export.now head.now }
{
    match head.kind {
        RequestKind::Read => refusal_of_pages(export, head, RequestError::Invalid),
        RequestKind::Write if export.read_only => Some(RequestError::NotPermitted),
        RequestKind::Write => refusal_of_pages(export, head, RequestError::NoSpace),
        RequestKind::Disconnect => None,
        RequestKind::Flush if head.flags < 2 => None,
        RequestKind::Flush | RequestKind::Other(_) => Some(RequestError::Invalid),
    }
}
