//! What is said of words that are refused, or that ask for help or the version.

use crate::split_words::words_of;
use command_words::refusal;
use std::test::Fail;

const HELP: &str =
    "A storage engine that is proved: SPDK Blobstore with logical volume stores, in a file

Usage: blobtool <COMMAND>

Commands:
  run       Runs the script on standard input on a store, and prints an answer for each command
  format    Writes an empty store, and prints how much space it has
  list      Prints a store and its volumes, and writes nothing
  export    Writes what a volume shows to a file or a block device, and how many pages that is
  generate  Prints a script to try a store with, always the same for the same two numbers
  exercise  Runs a script of generate on a store, and prints one line that sums up its answers
  help      Print this message or the help of the given subcommand(s)

Options:
  -h, --help     Print help
  -V, --version  Print version

Examples:
  blobtool format store.img --cluster 16384
  blobtool run store.img < script.txt
";

const RUN: &str =
    "Runs the script on standard input on a store, and prints an answer for each command

Usage: blobtool run [OPTIONS] <IMAGE>

Arguments:
  <IMAGE>  The file that has the store

Options:
      --schedule <LIST>  The first steps, by who makes them: channels 0 to 15, and m for the
                         metadata thread, as in 0*2,1+m*200; then all take turns. At most
                         65536 steps [default: none]
      --threads          Runs on a thread for each channel and one for the metadata, in place of
                         taking turns; --schedule can't be there then
  -h, --help             Print help

Example: blobtool run store.img --schedule 0*2,1*2 < script.txt
";

const FORMAT: &str = "Writes an empty store, and prints how much space it has

Usage: blobtool format [OPTIONS] <IMAGE>

Arguments:
  <IMAGE>  The file that is to have the store, which gets the size of the file

Options:
      --cluster <BYTES>  Bytes of a cluster: 4096 or a multiple, up to 4294963200 [default: 1048576,
                         or 4194304 with --lvol]
      --md-pages <N>     Metadata pages of 4096 bytes: 1 to 1048576 [default: as many as clusters]
      --lvol <NAME>      Makes a logical volume store of this name: 1 to 63 printable characters
                         without a space, the first neither @ nor #; --uuid has to be there too
                         [default: no logical volume store]
      --uuid <UUID>      The uuid of the logical volume store, 32 hexadecimal digits with or
                         without hyphens; --lvol has to be there too
  -h, --help             Print help

Examples:
  blobtool format store.img --cluster 16384 --md-pages 16
  blobtool format store.img --lvol store0 --uuid 5f2b4e66-0d0c-4c1e-9a55-3f0a7c2d9b10

Warning: what is in the file is lost. With the option --new a file that has a
store already is refused.
";

const LIST: &str = "Prints a store and its volumes, and writes nothing

Usage: blobtool list [OPTIONS] <IMAGE>

Arguments:
  <IMAGE>  The file that has the store

Options:
      --json  Prints one line of JSON, an object, in place of a line for each volume
      --tree  Prints the volumes alone, each below its parent; --json can't be there then
  -h, --help  Print help

Examples:
  blobtool list store.img
  blobtool list --json store.img
  blobtool list --tree store.img
";

const GENERATE: &str =
    "Prints a script to try a store with, always the same for the same two numbers

Usage: blobtool generate <NUMBER> <SIZE>

Arguments:
  <NUMBER>  Which script: 0 to 2147483647
  <SIZE>    Lines that are drawn, behind the four that make volumes: 0 to 65000

Options:
  -h, --help  Print help

Example: blobtool generate 1 100 > script.txt
";

const EXERCISE: &str =
    "Runs a script of generate on a store, and prints one line that sums up its answers

Usage: blobtool exercise <IMAGE> <NUMBER> <SIZE>

Arguments:
  <IMAGE>   The file that has the store
  <NUMBER>  Which script: 0 to 2147483647
  <SIZE>    Lines that are drawn, behind the four that make volumes: 0 to 65000

Options:
  -h, --help  Print help

Example: blobtool exercise store.img 1 100
";

const EXPORT: &str =
    "Writes what a volume shows to a file or a block device, and how many pages that is

Usage: blobtool export <IMAGE> <TARGET> <VOLUME>

Arguments:
  <IMAGE>   The file that has the store
  <TARGET>  The file that gets the pages; it has to be there, and as long as the volume
  <VOLUME>  The volume: its name, or @ and its head

Options:
  -h, --help  Print help

Example: blobtool export store.img disk.raw v

Warning: what the target has below the volume's length is lost. Nothing is written
to the image.
";

const VERSION: &str = "blobtool 0.1.0 (SPDK Blobstore, format version 3)
";

const NO_IMAGE: &str = "error: the following required arguments were not provided:
  <IMAGE>

Usage: blobtool run <IMAGE>

For more information, try '--help'.
";

const NO_COMMAND: &str = "error: unrecognized subcommand 'runs'

  tip: a similar subcommand exists: 'run'

Usage: blobtool <COMMAND>

For more information, try '--help'.
";

/// Words behind the program's name, and all that is said of them.
const CASES: [(&str, &str); 14] = [
    ("", HELP),
    ("--help", HELP),
    ("-h", HELP),
    ("help", HELP),
    ("run --help", RUN),
    ("help run", RUN),
    ("format store.img --help", FORMAT),
    ("list -h", LIST),
    ("export -h", EXPORT),
    ("generate --help", GENERATE),
    ("exercise -h", EXERCISE),
    ("--version", VERSION),
    ("run", NO_IMAGE),
    ("runs store.img", NO_COMMAND),
];

#[test]
fn clap_says_what_commands_there_are(rt: HostRuntime) -> Result<(), Fail> {
    for (line, expected) in &CASES {
        let words = words_of(rt.alloc(), line)?;
        let Some(error) = refusal(rt.alloc(), &words)? else {
            return Err(Fail::new(format_args!("{line} is a command")));
        };
        assert_eq!(rt; format!(in rt.alloc(); "{error}")?.as_str(), *expected);
    }
    Ok(())
}
