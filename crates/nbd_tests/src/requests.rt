//! What a client says after the handshake, and what is taken of it.

use nbd_words::{
    Export, RequestError, RequestHead, RequestKind, WrongMagic, refusal, request_head,
};

/// An export of four pages.
const SMALL: Export = Export {
    size: 16384,
    read_only: false,
};

/// A request of this kind for so many bytes.
fn head_of(kind: RequestKind, offset: u64, length: u32) -> RequestHead {
    RequestHead {
        flags: 0,
        kind,
        handle: 1,
        offset,
        length,
    }
}

#[test]
fn heads_of_requests_are_read(rt: HostRuntime) {
    let bytes = [
        0x25, 0x60, 0x95, 0x13, 0, 1, 0, 1, 1, 2, 3, 4, 5, 6, 7, 8, 0, 0, 0, 9, 0, 0, 0x30, 0, 0,
        0, 0x10, 0,
    ];
    let head = RequestHead {
        flags: 1,
        kind: RequestKind::Write,
        handle: 0x0102_0304_0506_0708,
        offset: 0x0009_0000_3000,
        length: 4096,
    };
    assert!(rt; request_head(&bytes) == Ok(head));
    assert!(rt; head.asks_to_last() && head.payload_length() == 4096);
    let mut flush = bytes;
    flush[5] = 2;
    flush[7] = 3;
    let read = request_head(&flush);
    let is_flush = match read {
        Ok(head) => head.kind == RequestKind::Flush
            && !head.asks_to_last()
            && head.payload_length() == 0,
        Err(_) => false,
    };
    assert!(rt; is_flush);
    let mut other = bytes;
    other[3] = 0x14;
    assert!(rt; request_head(&other) == Err(WrongMagic));
}

#[test]
fn requests_within_are_taken(rt: HostRuntime) {
    let write = head_of(RequestKind::Write, 12288, 4096);
    assert!(rt; refusal(&SMALL, &write).is_none());
    assert!(rt; refusal(&SMALL, &head_of(RequestKind::Read, 0, 16384)).is_none());
    assert!(rt; refusal(&SMALL, &head_of(RequestKind::Flush, 0, 0)).is_none());
    assert!(rt; refusal(&SMALL, &head_of(RequestKind::Disconnect, 7, 7)).is_none());
}

#[test]
fn other_requests_are_refused(rt: HostRuntime) {
    let no_space = Some(RequestError::NoSpace);
    let invalid = Some(RequestError::Invalid);
    assert!(rt; refusal(&SMALL, &head_of(RequestKind::Write, 12288, 8192)) == no_space);
    assert!(rt; refusal(&SMALL, &head_of(RequestKind::Write, u64::MAX - 4095, 8192)) == no_space);
    assert!(rt; refusal(&SMALL, &head_of(RequestKind::Read, 12288, 8192)) == invalid);
    assert!(rt; refusal(&SMALL, &head_of(RequestKind::Read, 512, 4096)) == invalid);
    assert!(rt; refusal(&SMALL, &head_of(RequestKind::Write, 0, 512)) == invalid);
    assert!(rt; refusal(&SMALL, &head_of(RequestKind::Read, 0, 0)) == invalid);
    assert!(rt; refusal(&SMALL, &head_of(RequestKind::Write, 0, 0x0200_1000)) == invalid);
    assert!(rt; refusal(&SMALL, &head_of(RequestKind::Other(4), 0, 4096)) == invalid);
    let fixed = Export {
        size: 16384,
        read_only: true,
    };
    let not_permitted = Some(RequestError::NotPermitted);
    assert!(rt; refusal(&fixed, &head_of(RequestKind::Write, 0, 4096)) == not_permitted);
    let mut flagged = head_of(RequestKind::Flush, 0, 0);
    flagged.flags = 2;
    assert!(rt; refusal(&SMALL, &flagged) == invalid);
}
