//! What a client says in the handshake.

use nbd_words::{OptionHead, OptionKind, WrongMagic, info_request, option_head};

#[test]
fn heads_of_options_are_read(rt: HostRuntime) {
    let go = *b"IHAVEOPT\x00\x00\x00\x07\x00\x00\x00\x0C";
    let head = OptionHead {
        kind: OptionKind::Go,
        length: 12,
    };
    assert!(rt; option_head(&go) == Ok(head));
    let structured_reply = *b"IHAVEOPT\x00\x00\x00\x08\x00\x00\x00\x00";
    let other = OptionHead {
        kind: OptionKind::Other(8),
        length: 0,
    };
    assert!(rt; option_head(&structured_reply) == Ok(other));
    let list = *b"IHAVEOPT\x00\x00\x00\x03\x00\x01\x02\x03";
    let named = OptionHead {
        kind: OptionKind::ListExports,
        length: 0x0001_0203,
    };
    assert!(rt; option_head(&list) == Ok(named));
    let lower = *b"iHAVEOPT\x00\x00\x00\x03\x00\x00\x00\x00";
    assert!(rt; option_head(&lower) == Err(WrongMagic));
}

#[test]
fn wishes_are_read(rt: HostRuntime) {
    let asked = info_request(b"\x00\x00\x00\x04vol1\x00\x02\x00\x03\x00\x01");
    let whole = match asked {
        Some(request) => request.name == b"vol1".as_slice()
            && request.infos == [0, 3, 0, 1].as_slice(),
        None => false,
    };
    assert!(rt; whole);
    let unnamed = match info_request(&[0; 6]) {
        Some(request) => request.name.is_empty() && request.infos.is_empty(),
        None => false,
    };
    assert!(rt; unnamed);
}

#[test]
fn other_forms_are_none(rt: HostRuntime) {
    assert!(rt; info_request(b"").is_none());
    assert!(rt; info_request(b"\x00\x00\x00\x04vol1").is_none());
    assert!(rt; info_request(b"\x00\x00\x00\x05vol1\x00\x00").is_none());
    assert!(rt; info_request(b"\x00\x00\x00\x04vol1\x00\x01").is_none());
    assert!(rt; info_request(b"\x00\x00\x00\x04vol1\x00\x00\x00\x03").is_none());
    assert!(rt; info_request(b"\xFF\xFF\xFF\xFFvol1\x00\x00\x00\x03").is_none());
}
