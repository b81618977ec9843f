//! The line on standard error, of how a command ended.

use crate::ending::Ending;
use crate::failure::CallFailure;
use crate::fault_words::FaultWords;
use crate::held_device::DeviceHolder;
use crate::image::{OpenFault, OtherFile};
use crate::on_line::OnLine;
use crate::super_words::ImageSizes;
use blob_tool::{LineKind, Status};
use clap::Error;
use clap::error::ErrorKind;
use std::fmt::{Display, Formatter, Result, Write};

/// The toolchain and its logic, with which the program is proved: what `rt version` prints.
const PROVED_WITH: &str = "rattle-kit-13f logic dac8208d650f15bf";

/// What `clap` says of words that are no command, and after the version what the program is proved with.
#[derive(Clone, Copy)]
struct SaidWords<'a>(&'a Error);

/// How a command ended, and of what: the line on standard error. Where `clap` says it, that is its text of some lines.
#[derive(Drop)]
pub struct ErrorLine<'a> {
    /// The command's name.
    pub command: Option<&'a str>,
    /// The image that it names.
    pub image: Option<&'a str>,
    /// How it ended.
    pub ending: Ending,
    /// How large the image is, where it has a fault.
    pub sizes: ImageSizes,
    /// The last call that failed.
    pub failure: Option<CallFailure>,
    /// The line of the script that is bad.
    pub script_line: Option<String>,
}

/// What is wrong with a line of a script, and what is wanted.
#[derive(Clone, Copy)]
struct LineWords(LineKind);

/// What a path names that is no image.
#[derive(Clone, Copy)]
struct FileWords(OtherFile);

/// Who has a device.
#[derive(Clone, Copy)]
struct HolderWords(DeviceHolder);

/// Why an image isn't had.
#[derive(Clone, Copy)]
struct OpenWords<'a>(&'a OpenFault);

impl<'a> Display for SaidWords<'a> {
    fn fmt<W: Write>(&self, f: &mut Formatter<W>) -> Result {
        let said = self.0;
        write!(f, "{said}")?;
        match said.kind() {
            ErrorKind::DisplayVersion => write!(f, "proved with {PROVED_WITH}\n"),
            _ => Ok(()),
        }
    }
}

impl Display for LineWords {
    fn fmt<W: Write>(&self, f: &mut Formatter<W>) -> Result {
        f.write_str(match self.0 {
            LineKind::Form => {
                "not of its form, wanted CHANNEL VERB WORDS, as many as the verb has, with one space between two"
            }
            LineKind::Channel => "its first word is no channel, wanted 0 to 15",
            LineKind::Verb => "its second word is no verb",
            LineKind::Number => {
                "a word is no such number, wanted at most 18446744073709551615, without sign or leading zero, \
                 of a COUNT 1 to 256, and PAGE + COUNT not above"
            }
            LineKind::Volume => {
                "a word is no volume, wanted @ and its head, or a name of 1 to 63 bytes, the first neither @ nor #"
            }
            LineKind::KeyValue => {
                "a word is no key or value, wanted a KEY of 1 to 255 bytes, and as a VALUE t: and the bytes, or h: \
                 and two hexadecimal digits a byte"
            }
            LineKind::Uuid => {
                "its last word is no UUID, wanted 32 hexadecimal digits, with or without hyphens"
            }
            LineKind::Limit => {
                "with it the script has more than 65536 lines, or reads and writes more than 65536 pages"
            }
        })
    }
}

impl Display for FileWords {
    fn fmt<W: Write>(&self, f: &mut Formatter<W>) -> Result {
        f.write_str(match self.0 {
            OtherFile::Directory => "a directory",
            OtherFile::Fifo => "a FIFO",
            OtherFile::Socket => "a socket",
            OtherFile::CharacterDevice => "a character device",
            OtherFile::Unknown => "a file of an unknown kind",
        })
    }
}

impl Display for HolderWords {
    fn fmt<W: Write>(&self, f: &mut Formatter<W>) -> Result {
        f.write_str(match self.0 {
            DeviceHolder::Mount => "it is mounted",
            DeviceHolder::Swap => "it is swap space",
            DeviceHolder::Device => "another device is made of it",
        })
    }
}

impl<'a> Display for OpenWords<'a> {
    fn fmt<W: Write>(&self, f: &mut Formatter<W>) -> Result {
        match self.0 {
            OpenFault::NoImage(kind) => {
                let kind = FileWords(*kind);
                write!(f, "it is {kind}, wanted a regular file or a block device")
            }
            OpenFault::InUse => write!(
                f,
                "another program has it locked, wanted an image that nobody uses"
            ),
            OpenFault::Held(holder) => {
                let holder = HolderWords(*holder);
                write!(
                    f,
                    "{holder}, or a part of it, wanted a block device that nobody uses"
                )
            }
            OpenFault::HolderUnknown(error) => {
                write!(
                    f,
                    "asking /proc and /sys whether the block device is in use failed: {error}"
                )
            }
            OpenFault::HasStore => { write!(f, "it has a store already, wanted none with --new") }
            OpenFault::Failed(error) => write!(f, "opening it failed: {error}"),
        }
    }
}

impl<'a> ErrorLine<'a> {
    /// The line of an ending of which no more is known.
    pub fn new(command: Option<&'a str>, image: Option<&'a str>, ending: Ending) -> ErrorLine<'a> {
        ErrorLine {
            command,
            image,
            ending,
            sizes: ImageSizes {
                pages: 0,
                store_bytes: 0,
            },
            failure: None,
            script_line: None,
        }
    }

    /// The start of each line of the program's own: of which command it is, and of which image.
    fn write_start<W: Write>(&self, f: &mut Formatter<W>) -> Result {
        write!(f, "blobtool: ")?;
        if let Some(command) = self.command {
            let command = OnLine(command);
            write!(f, "{command}")?;
            f.write_str(if self.image.is_some() { " " } else { ": " })?;
        }
        match self.image {
            Some(image) => {
                let image = OnLine(image);
                write!(f, "{image}: ")
            }
            None => Ok(()),
        }
    }

    /// The call that failed, or what stands for it where it isn't known.
    fn write_failure<W: Write>(&self, otherwise: &str, f: &mut Formatter<W>) -> Result {
        match &self.failure {
            Some(failure) => write!(f, "{failure}"),
            None => write!(f, "{otherwise} failed"),
        }
    }

    /// What is said of this status.
    fn write_status<W: Write>(&self, status: &Status, f: &mut Formatter<W>) -> Result {
        match status {
            Status::Good => write!(f, "done"),
            Status::Usage => write!(f, "a word is not of its form: see blobtool COMMAND --help"),
            Status::Script { line: 0, .. } => {
                write!(f, "the script has more than 1048576 bytes")
            }
            Status::Script { line, kind } => {
                let wrong = LineWords(*kind);
                match &self.script_line {
                    Some(text) => write!(f, "line {line} of the script, '{text}': {wrong}"),
                    None => write!(f, "line {line} of the script: {wrong}"),
                }
            }
            Status::Image { fault } => {
                let words = FaultWords {
                    fault,
                    sizes: self.sizes,
                };
                write!(f, "{words}")
            }
            Status::ScriptRead => self.write_failure("reading standard input", f),
            Status::OutWrite => self.write_failure("writing standard output", f),
            Status::Device { at: 0 } => self.write_failure("a call on the image", f),
            Status::Device { at } => {
                self.write_failure("a call on the image", f)?;
                write!(f, ", after {at} commands")
            }
            Status::Memory => write!(f, "memory ran out"),
        }
    }
}

impl<'a> Display for ErrorLine<'a> {
    fn fmt<W: Write>(&self, f: &mut Formatter<W>) -> Result {
        if !matches!(&self.ending, Ending::Refused(_)) {
            self.write_start(f)?;
        }
        match &self.ending {
            Ending::Ran(status) => self.write_status(status, f),
            Ending::Refused(said) => {
                let words = SaidWords(said);
                write!(f, "{words}")
            }
            Ending::BadWord(fault) => write!(f, "{fault}"),
            Ending::NotText => write!(f, "a word is not UTF-8, wanted words in UTF-8"),
            Ending::NotOpened(fault) => {
                let words = OpenWords(fault);
                write!(f, "{words}")
            }
        }
    }
}
