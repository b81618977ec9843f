//! What the server says.

use nbd_words::{
    Export, OptionError, RequestError, acknowledgement, block_size_answer, export_answer, greeting,
    named_export_head, opened_export, option_refusal, simple_reply,
};

/// An export of 16 MiB that can be written.
const WRITABLE: Export = Export {
    size: 0x0100_0000,
    read_only: false,
};

/// One of a byte less than 2 ^ 64 that can't.
const FIXED: Export = Export {
    size: u64::MAX,
    read_only: true,
};

#[test]
fn the_server_greets(rt: HostRuntime) {
    let words = greeting();
    assert!(rt; words == *b"NBDMAGICIHAVEOPT\x00\x03");
}

#[test]
fn options_are_answered(rt: HostRuntime) {
    let done = [
        0, 3, 0xE8, 0x89, 4, 0x55, 0x65, 0xA9, 0, 0, 0, 7, 0, 0, 0, 1, 0, 0, 0, 0,
    ];
    assert!(rt; acknowledgement(7) == done);
    let unsupported = [
        0, 3, 0xE8, 0x89, 4, 0x55, 0x65, 0xA9, 0, 0, 0, 8, 0x80, 0, 0, 1, 0, 0, 0, 0,
    ];
    assert!(rt; option_refusal(8, OptionError::Unsupported) == unsupported);
    let invalid = [
        0, 3, 0xE8, 0x89, 4, 0x55, 0x65, 0xA9, 0, 0, 0, 6, 0x80, 0, 0, 3, 0, 0, 0, 0,
    ];
    assert!(rt; option_refusal(6, OptionError::Invalid) == invalid);
    let unknown = [
        0, 3, 0xE8, 0x89, 4, 0x55, 0x65, 0xA9, 0, 0, 0, 7, 0x80, 0, 0, 6, 0, 0, 0, 0,
    ];
    assert!(rt; option_refusal(7, OptionError::Unknown) == unknown);
    let named = [
        0, 3, 0xE8, 0x89, 4, 0x55, 0x65, 0xA9, 0, 0, 0, 3, 0, 0, 0, 2, 0, 0, 0, 8, 0, 0, 0, 4,
    ];
    assert!(rt; named_export_head(3, 4) == named);
}

#[test]
fn an_export_is_described(rt: HostRuntime) {
    let writable = [
        0, 3, 0xE8, 0x89, 4, 0x55, 0x65, 0xA9, 0, 0, 0, 7, 0, 0, 0, 3, 0, 0, 0, 12, 0, 0, 0, 0, 0,
        0, 1, 0, 0, 0, 0, 13,
    ];
    assert!(rt; export_answer(7, &WRITABLE) == writable);
    let fixed = [
        0, 3, 0xE8, 0x89, 4, 0x55, 0x65, 0xA9, 0, 0, 0, 6, 0, 0, 0, 3, 0, 0, 0, 12, 0, 0, 255, 255,
        255, 255, 255, 255, 255, 255, 0, 15,
    ];
    assert!(rt; export_answer(6, &FIXED) == fixed);
    let blocks = [
        0, 3, 0xE8, 0x89, 4, 0x55, 0x65, 0xA9, 0, 0, 0, 7, 0, 0, 0, 3, 0, 0, 0, 14, 0, 3, 0, 0, 16,
        0, 0, 0, 16, 0, 2, 0, 0, 0,
    ];
    assert!(rt; block_size_answer(7, 0x0200_0000) == blocks);
    assert!(rt; opened_export(&WRITABLE) == [0, 0, 0, 0, 1, 0, 0, 0, 0, 13]);
}

#[test]
fn requests_are_answered(rt: HostRuntime) {
    let handle = 0x0102_0304_0506_0708;
    let done = [0x67, 0x44, 0x66, 0x98, 0, 0, 0, 0, 1, 2, 3, 4, 5, 6, 7, 8];
    assert!(rt; simple_reply(None, handle) == done);
    let full = [0x67, 0x44, 0x66, 0x98, 0, 0, 0, 28, 1, 2, 3, 4, 5, 6, 7, 8];
    assert!(rt; simple_reply(Some(RequestError::NoSpace), handle) == full);
    assert!(rt; RequestError::NotPermitted.number() == 1 && RequestError::Io.number() == 5);
    assert!(rt; RequestError::NoMemory.number() == 12 && RequestError::Invalid.number() == 22);
}
