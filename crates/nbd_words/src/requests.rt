//! Requests: what a client says after the handshake.

ghost use Rattle.std.specs.Prelude.{◌≡◌, ◌≢◌, take, IfOk, OnErr};
ghost use Rattle.nbd_words.specs.Numbers.{number_bytes};
ghost use Rattle.nbd_words.specs.Requests.{request_magic, request_number, request_head_bytes, IsRequestKind};
ghost use Rattle.nbd_words.specs.Requests.{IsRequestHead, asks_to_last, payload_length};

use crate::numbers::{u16_at, u32_at, u64_at};
use crate::options::WrongMagic;

/// The number with which each request begins.
const REQUEST_MAGIC: u32 = 0x2560_9513;

/// Which request it is.
#[derive(Clone, Copy, Debug, PartialEq, Eq)]
pub enum RequestKind {
    /// Asks for bytes of the export.
    Read,
    /// Writes bytes, which follow the head.
    Write,
    /// Ends the connection, with no answer.
    Disconnect,
    /// Asks that all that was answered lasts.
    Flush,
    /// Any other, by its number. It has no payload that the server agreed to.
    Other(u16),
}

impl RequestKind {
    /// The request of this number.
    pub fn of(number: u16) -> RequestKind
        ensures number { request_number result ≡ number }
        ensures named { IsRequestKind result }
    {
        match number {
            0 => RequestKind::Read,
            1 => RequestKind::Write,
            2 => RequestKind::Disconnect,
            3 => RequestKind::Flush,
            _ => RequestKind::Other(number),
        }
    }
}

/// The first 28 bytes of a request.
#[derive(Clone, Copy, Debug, PartialEq, Eq)]
pub struct RequestHead {
    pub flags: u16,
    pub kind: RequestKind,
    /// The client's own number of this request, which the answer repeats.
    pub handle: u64,
    /// The first byte of the export that is meant.
    pub offset: u64,
    /// How many bytes are meant.
    pub length: u32,
}

impl RequestHead {
    /// Whether what is written is to last before the answer (FUA).
    pub fn asks_to_last(&self) -> bool
        ensures { result ≡ asks_to_last self.now }
    {
        self.flags % 2 == 1
    }

    /// How many bytes follow the head.
    pub fn payload_length(&self) -> u32
        ensures { result ≡ payload_length self.now.kind self.now.length }
    {
        match self.kind {
            RequestKind::Write => self.length,
            RequestKind::Read
            | RequestKind::Disconnect
            | RequestKind::Flush
            | RequestKind::Other(_) => 0,
        }
    }
}

/// The head of the request that these bytes begin. An error is only for bytes that begin otherwise than a request.
pub fn request_head(bytes: &[u8; 28]) -> Result<RequestHead, WrongMagic>
    ensures found { IfOk result (λ head. bytes.now ≡ request_head_bytes head) }
    ensures named { IfOk result IsRequestHead }
    ensures wrong { OnErr result (take 4 bytes.now ≢ number_bytes 4 request_magic) }
{
    let magic = u32_at(bytes, 0);
    if magic != REQUEST_MAGIC {
        return Err(WrongMagic);
    }
    let flags = u16_at(bytes, 4);
    let number = u16_at(bytes, 6);
    let handle = u64_at(bytes, 8);
    let offset = u64_at(bytes, 16);
    let length = u32_at(bytes, 24);
    Ok(RequestHead {
        flags,
        kind: RequestKind::of(number),
        handle,
        offset,
        length,
    })
}
