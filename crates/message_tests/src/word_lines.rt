//! The lines on words that are no command, and on what else ends a call.

use crate::expecting::expect;
use blob_tool::{LineKind, Status};
use clap::Error;
use command_words::refusal;
use host_io::{Ending, ErrorLine, word_fault};
use std::alloc::Global;
use std::test::Fail;

/// The words of a command, of which each ends at a space.
fn words_of(alloc: Global, line: &str) -> Result<Vec<String>, Fail> {
    let mut words = Vec::new(alloc);
    for word in line.split(' ') {
        words.push(String::from_str(alloc, word)?)?;
    }
    Ok(words)
}

static WORD_LINES: [(&str, &str); 14] = [
    (
        "format a.img --cluster 5000",
        "--cluster is '5000', wanted a multiple of 4096, from 4096 to 4294963200",
    ),
    (
        "format a.img --md-pages 0",
        "--md-pages is '0', wanted a number from 1 to 1048576",
    ),
    (
        "format a.img --lvol @a --uuid 5f2b4e66-0d0c-4c1e-9a55-3f0a7c2d9b10",
        "--lvol is '@a', wanted 1 to 63 printable characters without a space, the first neither @ nor #",
    ),
    (
        "format a.img --lvol a --uuid 5f2b4e66",
        "--uuid is '5f2b4e66', wanted 32 hexadecimal digits, with or without hyphens",
    ),
    (
        "format a.img --lvol a",
        "--lvol is there, wanted --uuid too",
    ),
    (
        "format a.img --uuid 5f2b4e66-0d0c-4c1e-9a55-3f0a7c2d9b10",
        "--uuid is there, wanted --lvol too",
    ),
    (
        "run a.img --schedule 0,x",
        "--schedule is '0,x', wrong from byte 2 on, wanted parts as 0+1*2,m: channels 0 to 15 or m, joined by +, with \
         * and a count up to 65536, separated by commas, at most 65536 steps",
    ),
    (
        "run a.img --threads --schedule 0",
        "--schedule and --threads are there, wanted one of them at most",
    ),
    (
        "list a.img --tree --json",
        "--json and --tree are there, wanted one of them at most",
    ),
    ("export a.img b.img @1", ""),
    (
        "export a.img b.img @4294967296",
        "VOLUME is '@4294967296', wanted @ and a head below 4294967296, or a name of 1 to 63 bytes, the first neither \
         @ nor #",
    ),
    ("generate -1 10", ""),
    (
        "generate 2147483648 10",
        "NUMBER is '2147483648', wanted a number from 0 to 2147483647",
    ),
    (
        "exercise a.img 1 65001",
        "SIZE is '65001', wanted a number from 0 to 65000",
    ),
];

#[test]
fn words_that_are_not_of_their_form_are_told(rt: HostRuntime) -> Result<(), Fail> {
    for (line, text) in &WORD_LINES {
        let words = words_of(rt.alloc(), line)?;
        match word_fault(rt.alloc(), words.as_slice())? {
            Some(fault) => expect(&rt, Ending::BadWord(fault), None, 1, text)?,
            None => assert_eq!(rt; *text, ""),
        }
    }
    Ok(())
}

/// What is said of words that ask for the version.
fn version(alloc: Global) -> Result<Error, Fail> {
    let words = words_of(alloc, "--version")?;
    match refusal(alloc, words.as_slice())? {
        Some(text) => Ok(text),
        None => Err(Fail::new("the version is a command")),
    }
}

#[test]
fn other_endings_are_told(rt: HostRuntime) -> Result<(), Fail> {
    expect(&rt, Ending::Ran(Status::Good), None, 0, "done")?;
    expect(&rt, Ending::Ran(Status::Memory), None, 7, "memory ran out")?;
    let usage = "a word is not of its form: see blobtool COMMAND --help";
    expect(&rt, Ending::Ran(Status::Usage), None, 1, usage)?;
    let text = ErrorLine::new(Some("run"), None, Ending::Refused(version(rt.alloc())?));
    assert_eq!(rt;
        format!(in rt.alloc(); "{text}")?.as_str(),
        "blobtool 0.1.0 (SPDK Blobstore, format version 3)\nproved with rattle-kit-13f logic dac8208d650f15bf\n"
    );
    let text = ErrorLine::new(None, None, Ending::NotText);
    assert_eq!(rt;
        format!(in rt.alloc(); "{text}")?.as_str(),
        "blobtool: a word is not UTF-8, wanted words in UTF-8"
    );
    Ok(())
}

#[test]
fn a_line_names_what_was_done_with_what(rt: HostRuntime) -> Result<(), Fail> {
    let status = Status::Script {
        line: 2,
        kind: LineKind::Verb,
    };
    let mut line = ErrorLine::new(Some("run"), Some("a"), Ending::Ran(status));
    line.script_line = Some(String::from_str(rt.alloc(), "0 frobnicate v")?);
    assert_eq!(rt;
        format!(in rt.alloc(); "{line}")?.as_str(),
        "blobtool: run a: line 2 of the script, '0 frobnicate v': its second word is no verb"
    );
    let line = ErrorLine::new(Some("generate"), None, Ending::Ran(Status::Memory));
    assert_eq!(rt;
        format!(in rt.alloc(); "{line}")?.as_str(),
        "blobtool: generate: memory ran out"
    );
    let line = ErrorLine::new(Some("run"), Some("a\nb"), Ending::Ran(Status::Memory));
    assert_eq!(rt;
        format!(in rt.alloc(); "{line}")?.as_str(),
        "blobtool: run a\\x0ab: memory ran out"
    );
    Ok(())
}
