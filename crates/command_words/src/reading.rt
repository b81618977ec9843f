//! The words are read.

ghost use Rattle.std.specs.Prelude.{◌≡◌, ◌↔◌, IfOk, IfErr, IsSome, [], option_map};
ghost use Rattle.std.specs.Option.{option_copied};
ghost use Rattle.clap.specs.Kinds.{IsAmong};
ghost use Rattle.clap.specs.Matches.{found_of};
ghost use Rattle.clap.specs.Simple.{subcommand_rows_of};
ghost use Rattle.clap.specs.Values.{kind_of};
ghost use Rattle.clap.specs.Walk.{first_of, rows_of};
ghost use Rattle.command_words.specs.Words as said;
ghost use Rattle.command_words.specs.Words.{as_read, asked_by, asked_in, found_in, refusal_of};

use crate::command_line::command_line;
use clap::error::ErrorKind;
use clap::{ArgMatches, Error};
use out_of_memory::Memory;
use std::alloc::Global;

/// The texts of the options of a `format`, as far as they are there.
#[derive(Clone, Copy, Debug)]
pub struct FormatOptions<'a> {
    /// The bytes of a cluster.
    pub cluster: Option<&'a str>,
    /// The number of metadata pages.
    pub md_pages: Option<&'a str>,
    /// The name of a logical volume store.
    pub lvol: Option<&'a str>,
    /// Its uuid.
    pub uuid: Option<&'a str>,
}

/// A command, with the texts of what stands behind it.
#[derive(Clone, Copy, Debug)]
pub enum CommandWords<'a> {
    /// `run IMAGE`, with the text of a schedule, if there is one, and whether `--threads` is there.
    Run {
        image: &'a str,
        schedule: Option<&'a str>,
        threads: bool,
    },
    /// `format IMAGE`, with the texts of its options.
    Format {
        image: &'a str,
        options: FormatOptions<'a>,
    },
    /// `list IMAGE`, and whether `--json` and `--tree` are there.
    List {
        image: &'a str,
        json: bool,
        tree: bool,
    },
    /// `export IMAGE TARGET VOLUME`.
    Export {
        image: &'a str,
        target: &'a str,
        volume: &'a str,
    },
    /// `generate NUMBER SIZE`.
    Generate {
        number: &'a str,
        size: &'a str,
    },
    /// `exercise IMAGE NUMBER SIZE`.
    Exercise {
        image: &'a str,
        number: &'a str,
        size: &'a str,
    },
}

/// What `clap` finds in the words, or says of them where it refuses them, or they ask for help or the version.
pub(crate) fn parse<'a>(
    alloc: Global,
    words: &'a [String],
) -> Result<Result<ArgMatches<'a>, Error>, Memory>
    ensures found { IfOk result (λ parsed. IfOk parsed (λ m. found_in words.now ≡ subcommand_rows_of m)) }
    ensures taken { IfOk result (λ parsed. IfOk parsed (λ _. refusal_of words.now ≡ [])) }
    ensures refused { IfOk result (λ parsed. IfErr parsed (λ error. IsAmong (kind_of error) (refusal_of words.now))) }
{
    match command_line(alloc)?.try_get_matches_from(words) {
        Ok(matches) => Ok(Ok(matches)),
        Err(error) => match error.kind() {
            ErrorKind::OutOfMemory => Err(Memory),
            _ => Ok(Err(error)),
        },
    }
}

/// The text of an argument.
fn text_of<'a>(found: &ArgMatches<'a>, id: &str) -> Option<&'a str>
    ensures { option_copied result ≡ first_of id.now (rows_of (found_of found.now)) }
{
    found.get_str(id)
}

/// Whether an option without a value is there.
fn has_flag(found: &ArgMatches, name: &str) -> bool
    ensures { result ≡ said.has_flag name.now (rows_of (found_of found.now)) }
{
    match text_of(found, name) {
        Some(text) => text == "true",
        None => false,
    }
}

/// A `run` with what was found behind it.
fn run_of<'a>(found: &ArgMatches<'a>) -> Option<CommandWords<'a>>
    ensures { option_map as_read result ≡ said.run_asked (rows_of (found_of found.now)) }
{
    let image = text_of(found, "IMAGE")?;
    Some(CommandWords::Run {
        image,
        schedule: text_of(found, "schedule"),
        threads: has_flag(found, "threads"),
    })
}

/// A `format` with what was found behind it.
fn format_of<'a>(found: &ArgMatches<'a>) -> Option<CommandWords<'a>>
    ensures { option_map as_read result ≡ said.format_by (rows_of (found_of found.now)) }
{
    let image = text_of(found, "IMAGE")?;
    let options = FormatOptions {
        cluster: text_of(found, "cluster"),
        md_pages: text_of(found, "md-pages"),
        lvol: text_of(found, "lvol"),
        uuid: text_of(found, "uuid"),
    };
    Some(CommandWords::Format { image, options })
}

/// A `list` with what was found behind it.
fn list_of<'a>(found: &ArgMatches<'a>) -> Option<CommandWords<'a>>
    ensures { option_map as_read result ≡ said.list_by (rows_of (found_of found.now)) }
{
    let image = text_of(found, "IMAGE")?;
    Some(CommandWords::List {
        image,
        json: has_flag(found, "json"),
        tree: has_flag(found, "tree"),
    })
}

/// An `export` with what was found behind it.
fn export_of<'a>(found: &ArgMatches<'a>) -> Option<CommandWords<'a>>
    ensures { option_map as_read result ≡ said.export_by (rows_of (found_of found.now)) }
{
    let image = text_of(found, "IMAGE")?;
    let target = text_of(found, "TARGET")?;
    let volume = text_of(found, "VOLUME")?;
    Some(CommandWords::Export {
        image,
        target,
        volume,
    })
}

/// A `generate` with what was found behind it.
fn generate_of<'a>(found: &ArgMatches<'a>) -> Option<CommandWords<'a>>
    ensures { option_map as_read result ≡ said.generate_by (rows_of (found_of found.now)) }
{
    let number = text_of(found, "NUMBER")?;
    let size = text_of(found, "SIZE")?;
    Some(CommandWords::Generate { number, size })
}

/// An `exercise` with what was found behind it.
fn exercise_of<'a>(found: &ArgMatches<'a>) -> Option<CommandWords<'a>>
    ensures { option_map as_read result ≡ said.exercise_by (rows_of (found_of found.now)) }
{
    let image = text_of(found, "IMAGE")?;
    let number = text_of(found, "NUMBER")?;
    let size = text_of(found, "SIZE")?;
    Some(CommandWords::Exercise {
        image,
        number,
        size,
    })
}

/// The command that a subcommand is, with what was found behind it.
fn command_of<'a>(name: &str, found: &ArgMatches<'a>) -> Option<CommandWords<'a>>
    ensures { option_map as_read result ≡ asked_by name.now (rows_of (found_of found.now)) }
{
    match name {
        "run" => run_of(found),
        "format" => format_of(found),
        "list" => list_of(found),
        "export" => export_of(found),
        "generate" => generate_of(found),
        "exercise" => exercise_of(found),
        _ => None,
    }
}

/// The command that the words behind the program's name ask for; `None` where they ask for none, or for help or the
/// version.
pub fn read_words<'a>(
    alloc: Global,
    words: &'a [String],
) -> Result<Option<CommandWords<'a>>, Memory>
    ensures command { IfOk result (λ command. option_map as_read command ≡ asked_in words.now) }
    ensures taken { IfOk result (λ command. IsSome command ↔ (refusal_of words.now ≡ [])) }
{
    let Ok(matches) = parse(alloc, words)? else {
        return Ok(None);
    };
    match matches.subcommand() {
        Some((name, found)) => Ok(command_of(name, found)),
        None => Ok(None),
    }
}
