//! The program's command line, with the texts of its help.

ghost use Rattle.std.specs.Prelude.{◌≡◌, IfOk, false};
ghost use Rattle.clap.specs.Simple.{app_of, shape_of};
ghost use Rattle.clap.specs.Walk.{rule_of};
ghost use Rattle.clap.specs.declared.builder.command.Command.TheViews.{out-Command as fields_of};
ghost use Rattle.command_words.specs.CommandLine as said;

use clap::{Arg, ArgAction, Command};
use std::alloc::{AllocError, Global};

/// An argument that is known by its place, and has to be there.
fn placed<'a>(alloc: Global, id: &'a str, help: &'a str) -> Arg<'a>
    ensures rule { rule_of result ≡ said.placed_rule id.entry.now }
    ensures local { result.global ≡ false }
{
    Arg::new(alloc, id).required(true).help(help)
}

/// An option with a value.
fn option<'a>(alloc: Global, name: &'a str, value: &'a str, help: &'a str) -> Arg<'a>
    ensures rule { rule_of result ≡ said.option name.entry.now }
    ensures local { result.global ≡ false }
{
    Arg::new(alloc, name)
        .long(name)
        .value_name(value)
        .help(help)
}

/// An option without a value.
fn flag<'a>(alloc: Global, name: &'a str, help: &'a str) -> Arg<'a>
    ensures rule { rule_of result ≡ said.flag name.entry.now }
    ensures local { result.global ≡ false }
{
    Arg::new(alloc, name)
        .long(name)
        .action(ArgAction::SetTrue)
        .help(help)
}

/// `run IMAGE`.
fn run_line<'a>(alloc: Global) -> Result<Command<'a>, AllocError>
    ensures shape { IfOk result (λ c. shape_of c ≡ said.run_line) }
    ensures local { IfOk result (λ c. (fields_of c).has_globals ≡ false) }
{
    Command::new(alloc, "run")
        .about(
            "Runs the script on standard input on a store, and prints an answer for each command",
        )
        .after_help("Example: blobtool run store.img --schedule 0*2,1*2 < script.txt")
        .arg(placed(alloc, "IMAGE", "The file that has the store"))?
        .arg(option(
            alloc,
            "schedule",
            "LIST",
            "The first steps, by who makes them: channels 0 to 15, and m for the{n}\
             metadata thread, as in 0*2,1+m*200; then all take turns. At most{n}\
             65536 steps [default: none]",
        ))?
        .arg(flag(
            alloc,
            "threads",
            "Runs on a thread for each channel and one for the metadata, in place of{n}\
             taking turns; --schedule can't be there then",
        ))
}

/// `format IMAGE`, with the options on sizes.
fn sized_format_line<'a>(alloc: Global) -> Result<Command<'a>, AllocError>
    ensures shape { IfOk result (λ c. shape_of c ≡ said.sized_format_line) }
    ensures local { IfOk result (λ c. (fields_of c).has_globals ≡ false) }
{
    Command::new(alloc, "format")
        .about("Writes an empty store, and prints how much space it has")
        .after_help(
            "Examples:{n}  blobtool format store.img --cluster 16384 --md-pages 16{n}  \
             blobtool format store.img --lvol store0 --uuid 5f2b4e66-0d0c-4c1e-9a55-3f0a7c2d9b10{n}{n}\
             Warning: what is in the file is lost. With the option --new a file that has a{n}\
             store already is refused.",
        )
        .arg(placed(
            alloc,
            "IMAGE",
            "The file that is to have the store, which gets the size of the file",
        ))?
        .arg(option(
            alloc,
            "cluster",
            "BYTES",
            "Bytes of a cluster: 4096 or a multiple, up to 4294963200 [default: 1048576,{n}\
             or 4194304 with --lvol]",
        ))?
        .arg(option(
            alloc,
            "md-pages",
            "N",
            "Metadata pages of 4096 bytes: 1 to 1048576 [default: as many as clusters]",
        ))
}

/// `format IMAGE`, also with the options that make a logical volume store.
fn format_line<'a>(alloc: Global) -> Result<Command<'a>, AllocError>
    ensures shape { IfOk result (λ c. shape_of c ≡ said.format_line) }
    ensures local { IfOk result (λ c. (fields_of c).has_globals ≡ false) }
{
    sized_format_line(alloc)?
        .arg(option(
            alloc,
            "lvol",
            "NAME",
            "Makes a logical volume store of this name: 1 to 63 printable characters{n}\
             without a space, the first neither @ nor #; --uuid has to be there too{n}\
             [default: no logical volume store]",
        ))?
        .arg(option(
            alloc,
            "uuid",
            "UUID",
            "The uuid of the logical volume store, 32 hexadecimal digits with or{n}\
             without hyphens; --lvol has to be there too",
        ))
}

/// `list IMAGE`.
fn list_line<'a>(alloc: Global) -> Result<Command<'a>, AllocError>
    ensures shape { IfOk result (λ c. shape_of c ≡ said.list_line) }
    ensures local { IfOk result (λ c. (fields_of c).has_globals ≡ false) }
{
    Command::new(alloc, "list")
        .about("Prints a store and its volumes, and writes nothing")
        .after_help(
            "Examples:{n}  blobtool list store.img{n}  blobtool list --json store.img{n}  \
             blobtool list --tree store.img",
        )
        .arg(placed(alloc, "IMAGE", "The file that has the store"))?
        .arg(flag(
            alloc,
            "json",
            "Prints one line of JSON, an object, in place of a line for each volume",
        ))?
        .arg(flag(
            alloc,
            "tree",
            "Prints the volumes alone, each below its parent; --json can't be there then",
        ))
}

/// `export IMAGE TARGET VOLUME`.
fn export_line<'a>(alloc: Global) -> Result<Command<'a>, AllocError>
    ensures shape { IfOk result (λ c. shape_of c ≡ said.export_line) }
    ensures local { IfOk result (λ c. (fields_of c).has_globals ≡ false) }
{
    Command::new(alloc, "export")
        .about("Writes what a volume shows to a file or a block device, and how many pages that is")
        .after_help(
            "Example: blobtool export store.img disk.raw v{n}{n}\
             Warning: what the target has below the volume's length is lost. Nothing is written{n}\
             to the image.",
        )
        .arg(placed(alloc, "IMAGE", "The file that has the store"))?
        .arg(placed(
            alloc,
            "TARGET",
            "The file that gets the pages; it has to be there, and as long as the volume",
        ))?
        .arg(placed(alloc, "VOLUME", "The volume: its name, or @ and its head"))
}

/// The command, with the two numbers that say which script is drawn behind its own arguments.
fn with_script<'a>(alloc: Global, command: Command<'a>) -> Result<Command<'a>, AllocError>
    ensures shape { IfOk result (λ c. app_of c ≡ said.with_script (app_of command.entry)) }
    ensures local { IfOk result (λ c. (fields_of c).has_globals ≡ (fields_of command.entry).has_globals) }
{
    command
        .arg(placed(alloc, "NUMBER", "Which script: 0 to 2147483647"))?
        .arg(placed(
            alloc,
            "SIZE",
            "Lines that are drawn, behind the four that make volumes: 0 to 65000",
        ))
}

/// `generate NUMBER SIZE`.
fn generate_line<'a>(alloc: Global) -> Result<Command<'a>, AllocError>
    ensures shape { IfOk result (λ c. shape_of c ≡ said.generate_line) }
    ensures local { IfOk result (λ c. (fields_of c).has_globals ≡ false) }
{
    let command = Command::new(alloc, "generate")
        .about("Prints a script to try a store with, always the same for the same two numbers")
        .after_help("Example: blobtool generate 1 100 > script.txt");
    with_script(alloc, command)
}

/// `exercise IMAGE NUMBER SIZE`.
fn exercise_line<'a>(alloc: Global) -> Result<Command<'a>, AllocError>
    ensures shape { IfOk result (λ c. shape_of c ≡ said.exercise_line) }
    ensures local { IfOk result (λ c. (fields_of c).has_globals ≡ false) }
{
    let command = Command::new(alloc, "exercise")
        .about("Runs a script of generate on a store, and prints one line that sums up its answers")
        .after_help("Example: blobtool exercise store.img 1 100")
        .arg(placed(alloc, "IMAGE", "The file that has the store"))?;
    with_script(alloc, command)
}

/// The command without its subcommands.
fn without_commands<'a>(alloc: Global) -> Result<Command<'a>, AllocError>
    ensures { IfOk result (λ c. app_of c ≡ said.without_commands) }
{
    Command::new(alloc, "blobtool")
        .about(
            "A storage engine that is proved: SPDK Blobstore with logical volume stores, in a file",
        )
        .version("0.1.0 (SPDK Blobstore, format version 3)")
        .after_help(
            "Examples:{n}  blobtool format store.img --cluster 16384{n}  \
             blobtool run store.img < script.txt",
        )
        .no_binary_name(true)
        .arg_required_else_help(true)
        .subcommand_required(true)
        .bin_name("blobtool")
}

/// With the subcommands on a store that is there or is to be.
fn with_stores<'a>(alloc: Global) -> Result<Command<'a>, AllocError>
    ensures { IfOk result (λ c. app_of c ≡ said.with_stores) }
{
    without_commands(alloc)?
        .subcommand(run_line(alloc)?)?
        .subcommand(format_line(alloc)?)?
        .subcommand(list_line(alloc)?)?
        .subcommand(export_line(alloc)?)
}

/// The program's command line, for the words behind the program's name.
pub fn command_line<'a>(alloc: Global) -> Result<Command<'a>, AllocError>
    ensures { IfOk result (λ c. app_of c ≡ said.command_line) }
{
    with_stores(alloc)?
        .subcommand(generate_line(alloc)?)?
        .subcommand(exercise_line(alloc)?)
}
