//! Names and uuids as they are given from outside.

use lvol_store::{LvolFault, check_name, parse_uuid, uuid_in};

const LONGEST: [u8; 63] = [b'n'; 63];

const TOO_LONG: [u8; 64] = [b'n'; 64];

/// Whether a text that is taken as a name has its bytes there; `None` where it isn't taken.
fn is_taken_whole(text: &[u8]) -> Option<bool> {
    match check_name(text) {
        Ok(name) => Some(name.bytes() == text),
        Err(_) => None,
    }
}

#[test]
fn names_are_taken_or_not(rt: HostRuntime) {
    let cases: &[(&[u8], bool)] = &[
        (b"v", true),
        (b"~!@#", true),
        (&LONGEST, true),
        (&TOO_LONG, false),
        (b"", false),
        (b"@v", false),
        (b"#v", false),
        (b"a b", false),
        (b"a\x7f", false),
        (b"\x80", false),
    ];
    for (text, good) in cases {
        assert_eq!(rt; is_taken_whole(text), if *good { Some(true) } else { None });
    }
}

const UUID: [u8; 16] = [
    0x67, 0xe5, 0x50, 0x44, 0x10, 0xb1, 0x42, 0x6f, 0x92, 0x47, 0xbb, 0x68, 0x0e, 0x5f, 0xe0, 0xc8,
];

/// Whether two functions make this uuid of a text.
fn is_of_uuid(text: &str) -> bool {
    parse_uuid(text) == Ok(UUID) && uuid_in(text.as_bytes()) == Some(UUID)
}

fn is_refused(text: &str) -> bool {
    parse_uuid(text) == Err(LvolFault::BadUuid)
}

#[test]
fn uuids_have_four_forms(rt: HostRuntime) {
    let good: &[&str] = &[
        "67e55044-10b1-426f-9247-bb680e5fe0c8",
        "67E55044-10B1-426F-9247-BB680E5FE0C8",
        "67e5504410b1426f9247bb680e5fe0c8",
        "{67e55044-10b1-426f-9247-bb680e5fe0c8}",
        "urn:uuid:67e55044-10b1-426f-9247-bb680e5fe0c8",
    ];
    for text in good {
        assert!(rt; is_of_uuid(text), "{text}");
    }
    let bad: &[&str] = &[
        "",
        "67e55044-10b1-426f-9247-bb680e5fe0c",
        "67e55044-10b1-426f-9247-bb680e5fe0cg",
        "67e5504410b1-426f-9247-bb680e5fe0c8",
    ];
    for text in bad {
        assert!(rt; is_refused(text), "{text}");
    }
}
