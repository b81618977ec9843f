//! The lines on a script that is none.

use crate::expecting::expect;
use blob_tool::{LineKind, Status};
use host_io::Ending;
use std::test::Fail;

static SCRIPT_LINES: [(LineKind, &str); 8] = [
    (
        LineKind::Form,
        "line 7 of the script: not of its form, wanted CHANNEL VERB WORDS, as many as the verb has, with one space \
         between two",
    ),
    (
        LineKind::Channel,
        "line 7 of the script: its first word is no channel, wanted 0 to 15",
    ),
    (
        LineKind::Verb,
        "line 7 of the script: its second word is no verb",
    ),
    (
        LineKind::Number,
        "line 7 of the script: a word is no such number, wanted at most 18446744073709551615, without sign or leading \
         zero, of a COUNT 1 to 256, and PAGE + COUNT not above",
    ),
    (
        LineKind::Volume,
        "line 7 of the script: a word is no volume, wanted @ and its head, or a name of 1 to 63 bytes, the first \
         neither @ nor #",
    ),
    (
        LineKind::KeyValue,
        "line 7 of the script: a word is no key or value, wanted a KEY of 1 to 255 bytes, and as a VALUE t: and the \
         bytes, or h: and two hexadecimal digits a byte",
    ),
    (
        LineKind::Uuid,
        "line 7 of the script: its last word is no UUID, wanted 32 hexadecimal digits, with or without hyphens",
    ),
    (
        LineKind::Limit,
        "line 7 of the script: with it the script has more than 65536 lines, or reads and writes more than 65536 \
         pages",
    ),
];

#[test]
fn bad_lines_of_a_script_are_told(rt: HostRuntime) -> Result<(), Fail> {
    for (kind, text) in &SCRIPT_LINES {
        let status = Status::Script {
            line: 7,
            kind: *kind,
        };
        expect(&rt, Ending::Ran(status), None, 2, text)?;
    }
    let big = Status::Script {
        line: 0,
        kind: LineKind::Limit,
    };
    expect(
        &rt,
        Ending::Ran(big),
        None,
        2,
        "the script has more than 1048576 bytes",
    )
}
