//! Commands, and words that spell none.

use crate::split_words::words_of;
use command_words::{read_words, refusal};
use std::test::Fail;

/// Words behind the program's name, and the command that they spell.
const CASES: [(&str, &str); 22] = [
    (
        "run store.img",
        "Run { image: \"store.img\", schedule: None, threads: false }",
    ),
    (
        "run store.img --schedule 0*2,1",
        "Run { image: \"store.img\", schedule: Some(\"0*2,1\"), threads: false }",
    ),
    // An option may stand before the image, and have its value behind a `=`. A value isn't tested here.
    (
        "run --schedule=x store.img",
        "Run { image: \"store.img\", schedule: Some(\"x\"), threads: false }",
    ),
    (
        "run --threads store.img",
        "Run { image: \"store.img\", schedule: None, threads: true }",
    ),
    // Whether both are one too many isn't tested here.
    (
        "run store.img --threads --schedule 0",
        "Run { image: \"store.img\", schedule: Some(\"0\"), threads: true }",
    ),
    (
        "run -- --schedule",
        "Run { image: \"--schedule\", schedule: None, threads: false }",
    ),
    (
        "format store.img",
        "Format { image: \"store.img\", \
            options: FormatOptions { cluster: None, md_pages: None, lvol: None, uuid: None } }",
    ),
    (
        "format store.img --cluster 16384",
        "Format { image: \"store.img\", \
            options: FormatOptions { cluster: Some(\"16384\"), md_pages: None, lvol: None, uuid: None } }",
    ),
    (
        "format store.img --md-pages 16",
        "Format { image: \"store.img\", \
            options: FormatOptions { cluster: None, md_pages: Some(\"16\"), lvol: None, uuid: None } }",
    ),
    (
        "format store.img --cluster 16384 --md-pages 16",
        "Format { image: \"store.img\", \
            options: FormatOptions { cluster: Some(\"16384\"), md_pages: Some(\"16\"), lvol: None, uuid: None } }",
    ),
    (
        "format store.img --md-pages 16 --cluster 16384",
        "Format { image: \"store.img\", \
            options: FormatOptions { cluster: Some(\"16384\"), md_pages: Some(\"16\"), lvol: None, uuid: None } }",
    ),
    (
        "format --md-pages 16 store.img --cluster 16384",
        "Format { image: \"store.img\", \
            options: FormatOptions { cluster: Some(\"16384\"), md_pages: Some(\"16\"), lvol: None, uuid: None } }",
    ),
    (
        "format store.img --lvol store0 --uuid x",
        "Format { image: \"store.img\", \
            options: FormatOptions { cluster: None, md_pages: None, lvol: Some(\"store0\"), uuid: Some(\"x\") } }",
    ),
    (
        "format --uuid x store.img",
        "Format { image: \"store.img\", \
            options: FormatOptions { cluster: None, md_pages: None, lvol: None, uuid: Some(\"x\") } }",
    ),
    (
        "list store.img",
        "List { image: \"store.img\", json: false, tree: false }",
    ),
    (
        "list run",
        "List { image: \"run\", json: false, tree: false }",
    ),
    (
        "list store.img --json",
        "List { image: \"store.img\", json: true, tree: false }",
    ),
    (
        "list --tree store.img",
        "List { image: \"store.img\", json: false, tree: true }",
    ),
    (
        "list --tree store.img --json",
        "List { image: \"store.img\", json: true, tree: true }",
    ),
    (
        "export store.img disk.raw v",
        "Export { image: \"store.img\", target: \"disk.raw\", volume: \"v\" }",
    ),
    ("generate 1 3", "Generate { number: \"1\", size: \"3\" }"),
    (
        "exercise store.img 1 3",
        "Exercise { image: \"store.img\", number: \"1\", size: \"3\" }",
    ),
];

/// Words that spell no command.
const NO_COMMANDS: [&str; 38] = [
    "",
    "help",
    "help run",
    "--help",
    "-h",
    "--version",
    "-V",
    "store.img",
    "runs store.img",
    "ru store.img",
    "run",
    "run store.img other.img",
    "run store.img --schedule",
    "run store.img --schedules 0",
    "run store.img --schedule 0 --schedule 0",
    "run store.img --threads --threads",
    "run store.img --threads=1",
    "run store.img --cluster 16384",
    "run store.img --help",
    "run --version",
    "format --cluster 16384",
    "format store.img --cluster 16384 --cluster 16384",
    "--cluster 16384 format store.img",
    "list",
    "list store.img -x",
    "list --json",
    "list store.img --json --json",
    "run store.img --json",
    "list store.img --tree --tree",
    "run store.img --tree",
    "export",
    "export store.img disk.raw",
    "export store.img disk.raw v w",
    "generate",
    "generate 1",
    "generate 1 -3",
    "exercise 1 3",
    "exercise store.img 1 3 4",
];

#[test]
fn words_spell_a_command(rt: HostRuntime) -> Result<(), Fail> {
    for (line, expected) in &CASES {
        let words = words_of(rt.alloc(), line)?;
        let Some(command) = read_words(rt.alloc(), &words)? else {
            return Err(Fail::new(format_args!("{line} is no command")));
        };
        assert_eq!(rt; format!(in rt.alloc(); "{command:?}")?.as_str(), *expected);
        assert!(rt; refusal(rt.alloc(), &words)?.is_none());
    }
    Ok(())
}

#[test]
fn other_words_are_refused(rt: HostRuntime) -> Result<(), Fail> {
    for line in &NO_COMMANDS {
        let words = words_of(rt.alloc(), line)?;
        if read_words(rt.alloc(), &words)?.is_some() || refusal(rt.alloc(), &words)?.is_none() {
            return Err(Fail::new(format_args!("{line} is a command")));
        }
    }
    Ok(())
}
