//! The limits on lines, pages and bytes, each at its last good value and one above it.

use crate::told::{expect, told};
use script_lang::parse;
use std::alloc::Global;
use std::test::Fail;

/// So many times a line, and a text at the end.
fn long_text(alloc: Global, lines: u32, line: &[u8], end: &[u8]) -> Result<Vec<u8>, Fail> {
    let mut text = Vec::new(alloc);
    for _ in 0..lines {
        text.extend_from_slice(line)?;
    }
    text.extend_from_slice(end)?;
    Ok(text)
}

/// What such a text is as a script.
fn long_told(alloc: Global, lines: u32, line: &[u8], end: &[u8]) -> Result<Vec<u8>, Fail> {
    let text = long_text(alloc, lines, line, end)?;
    told(alloc, &text)
}

/// How many channels a text has as a script, and how many commands one of them.
fn counts(alloc: Global, text: &[u8], channel: u8) -> Result<(u8, usize), Fail> {
    let script = parse(alloc, text)?;
    Ok((script.channels(), script.commands(channel).len()))
}

/// How many times a line, the line, the end, and what the text is; nothing where its commands have no text.
#[test]
fn one_line_one_page_or_one_byte_too_many(rt: HostRuntime) -> Result<(), Fail> {
    let alloc = rt.alloc();
    let cases: &[(u32, &[u8], &[u8], &[u8])] = &[
        (65535, b"\n", b"#", b""),
        (65536, b"\n", b"#", b"65537 Limit"),
        (65536, b"#\n", b"0 nosuch", b"65537 Limit"),
        (65535, b"\n", b"0 nosuch", b"65536 Verb"),
        (256, b"0 read v 0 256\n", b"16 read v 0 1", b"257 Channel"),
        (256, b"0 read v 0 256\n", b"0 write v 0 1 7", b"257 Limit"),
        (
            255,
            b"0 write v 0 256 7\n",
            b"0 read v 0 255\n0 read v 0 2",
            b"257 Limit",
        ),
        (1048576, b"#", b"", b""),
        (1048577, b"#", b"", b"too big"),
    ];
    for (lines, line, end, wanted) in cases {
        expect(&rt, &long_told(alloc, *lines, line, end)?, wanted);
    }
    Ok(())
}

/// How many times a line, the line, the end, a channel, and how many channels there are and commands in this one.
#[test]
fn the_most_pages_and_the_most_commands(rt: HostRuntime) -> Result<(), Fail> {
    let alloc = rt.alloc();
    let cases: &[(u32, &[u8], &[u8], u8, (u8, usize))] = &[
        (256, b"3 read v 0 256\n", b"3 flush\n", 3, (4, 65537)),
        (65536, b"0 sync @0\n", b"", 0, (1, 65536)),
        (0, b"", b"", 0, (0, 0)),
    ];
    for (lines, line, end, channel, wanted) in cases {
        let text = long_text(alloc, *lines, line, end)?;
        assert_eq!(rt; counts(alloc, &text, *channel)?, *wanted);
    }
    Ok(())
}
