//! Requests.

ghost use Rattle.std.specs.Prelude.{◌≡◌, ◌≢◌, ◌≤◌, [], List, ℕ, length, take, IsTrue, IfOk, IfSome, IfNone, Err};
ghost use Rattle.page_disk.specs.Disk.{Rose};
ghost use Rattle.nbd_words.specs.Numbers.{number_bytes};
ghost use Rattle.nbd_words.specs.Requests.{request_magic, AskedRequest, AsksRequest};
ghost use Rattle.nbd_reader.specs.Reading.{GivesRequest};

use crate::fault::ReadFault;
use crate::payloads::{Payload, take_payload};
use crate::taking::fill;
use nbd_words::{RequestHead, request_head};
use std::alloc::Global;
use streams::Source;

/// A request with what stands behind its head.
#[derive(Debug, Drop)]
pub struct Request {
    pub head: RequestHead,
    pub payload: Payload,
}

/// The next request of a client, read whole; None at the end of the source.
pub fn next_request<S: Source>(alloc: Global, source: &mut S) -> Result<Option<Request>, ReadFault>
    ensures request { IsTrue S.tells → IfOk result (λ found. IfSome found (λ request.
        GivesRequest (S.left source.old) request (S.left source.new))) }
    ensures end { IsTrue S.tells → IfOk result (λ found. IfNone found (S.left source.old ≡ [])) }
    ensures magic { result ≡ Err ReadFault.WrongMagic → IsTrue S.tells
        → (28 ≤ length (S.left source.old)) × (take 4 (S.left source.old) ≢ number_bytes 4 request_magic) }
    // An end inside of a request: something is left, and it doesn't begin with a request.
    ensures cut { result ≡ Err ReadFault.Cut → IsTrue S.tells → (S.left source.old ≢ [])
        × ((asked : AskedRequest) (rest : List ℕ) → AsksRequest (S.left source.old) asked rest → ⊥) }
    // Where memory runs out, a payload is given so.
    ensures memory { result ≡ Err ReadFault.Memory → ⊥ }
    ensures later { S.faults source.old ≤ S.faults source.new }
    ensures cause { result ≡ Err ReadFault.Source → Rose (S.faults source.old) (S.faults source.new) }
{
    let mut bytes = [0; 28];
    let count = fill(source, &mut bytes)?;
    if count == 0 {
        return Ok(None);
    }
    if count < 28 {
        return Err(ReadFault::Cut);
    }
    let head = request_head(&bytes)?;
    let payload = take_payload(alloc, source, head.payload_length())?;
    Ok(Some(Request { head, payload }))
}
