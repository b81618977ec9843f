//! Which word of a command isn't of its form.

use crate::on_line::OnLine;
use command_words::{CommandWords, FormatOptions, read_words};
use lvol_store::{check_name, uuid_in};
use out_of_memory::Memory;
use script_lang::{ScheduleFault, number_below, parse_schedule, read_volume};
use std::alloc::Global;
use std::fmt::{Display, Formatter, Result as Written, Write};

/// What is wrong with the words of a command that `clap` takes.
#[derive(Debug, Drop)]
pub enum WordFault {
    /// The value of an option, or an argument, isn't of this form.
    BadValue {
        name: &'static str,
        value: String,
        form: &'static str,
    },
    /// A schedule goes on so no longer from this byte of its text on, counted from 0.
    BadSchedule {
        list: String,
        at: u32,
    },
    /// Two options are there that can't be together.
    Both {
        one: &'static str,
        other: &'static str,
    },
    /// An option is there without the other.
    Alone {
        name: &'static str,
        wanted: &'static str,
    },
}

const CLUSTER_FORM: &str = "a multiple of 4096, from 4096 to 4294963200";

const PAGES_FORM: &str = "a number from 1 to 1048576";

const NAME_FORM: &str = "1 to 63 printable characters without a space, the first neither @ nor #";

const UUID_FORM: &str = "32 hexadecimal digits, with or without hyphens";

const VOLUME_FORM: &str =
    "@ and a head below 4294967296, or a name of 1 to 63 bytes, the first neither @ nor #";

const NUMBER_FORM: &str = "a number from 0 to 2147483647";

const SIZE_FORM: &str = "a number from 0 to 65000";

impl Display for WordFault {
    fn fmt<W: Write>(&self, f: &mut Formatter<W>) -> Written {
        match self {
            WordFault::BadValue { name, value, form } => {
                let value = OnLine(value.as_str());
                write!(f, "{name} is '{value}', wanted {form}")
            }
            WordFault::BadSchedule { list, at } => {
                let list = OnLine(list.as_str());
                write!(
                    f,
                    "--schedule is '{list}', wrong from byte {at} on, wanted parts as 0+1*2,m: channels 0 to 15 or \
                     m, joined by +, with * and a count up to 65536, separated by commas, at most 65536 steps"
                )
            }
            WordFault::Both { one, other } => write!(
                f,
                "{one} and {other} are there, wanted one of them at most"
            ),
            WordFault::Alone { name, wanted } => write!(f, "{name} is there, wanted {wanted} too"),
        }
    }
}

/// A word that isn't of its form.
fn bad(
    alloc: Global,
    name: &'static str,
    value: &str,
    form: &'static str,
) -> Result<Option<WordFault>, Memory> {
    let value = String::from_str(alloc, value)?;
    Ok(Some(WordFault::BadValue { name, value, form }))
}

/// Whether a text says the bytes of a cluster.
fn is_cluster(text: &str) -> bool {
    match number_below(1 << 44, text.as_bytes()) {
        Some(bytes) => bytes > 0 && bytes % 4096 == 0,
        None => false,
    }
}

/// Whether a text says a number of metadata pages.
fn is_md_pages(text: &str) -> bool {
    match number_below(1 << 32, text.as_bytes()) {
        Some(pages) => pages > 0,
        None => false,
    }
}

/// What is wrong with the name and the uuid of a logical volume store.
fn of_lvol(alloc: Global, name: &str, uuid: &str) -> Result<Option<WordFault>, Memory> {
    if check_name(name.as_bytes()).is_err() {
        return bad(alloc, "--lvol", name, NAME_FORM);
    }
    if uuid_in(uuid.as_bytes()).is_none() {
        return bad(alloc, "--uuid", uuid, UUID_FORM);
    }
    Ok(None)
}

/// What is wrong with the sizes of a new store.
fn of_sizes(alloc: Global, options: &FormatOptions<'_>) -> Result<Option<WordFault>, Memory> {
    match (options.cluster, options.md_pages) {
        (Some(text), _) if !is_cluster(text) => bad(alloc, "--cluster", text, CLUSTER_FORM),
        (_, Some(text)) if !is_md_pages(text) => bad(alloc, "--md-pages", text, PAGES_FORM),
        _ => Ok(None),
    }
}

/// What is wrong with the options of a `format`.
fn of_format(alloc: Global, options: &FormatOptions<'_>) -> Result<Option<WordFault>, Memory> {
    let lvol = match (options.lvol, options.uuid) {
        (Some(name), Some(uuid)) => of_lvol(alloc, name, uuid)?,
        (Some(_), None) => Some(WordFault::Alone {
            name: "--lvol",
            wanted: "--uuid",
        }),
        (None, Some(_)) => Some(WordFault::Alone {
            name: "--uuid",
            wanted: "--lvol",
        }),
        (None, None) => None,
    };
    match lvol {
        Some(fault) => Ok(Some(fault)),
        None => of_sizes(alloc, options),
    }
}

/// What is wrong with the two numbers of a generated script.
fn of_script(alloc: Global, number: &str, size: &str) -> Result<Option<WordFault>, Memory> {
    if number_below(1 << 31, number.as_bytes()).is_none() {
        return bad(alloc, "NUMBER", number, NUMBER_FORM);
    }
    if number_below(65_001, size.as_bytes()).is_none() {
        return bad(alloc, "SIZE", size, SIZE_FORM);
    }
    Ok(None)
}

/// What is wrong with the volume of an export.
fn of_volume(alloc: Global, volume: &str) -> Result<Option<WordFault>, Memory> {
    if read_volume(volume.as_bytes()).is_none() {
        return bad(alloc, "VOLUME", volume, VOLUME_FORM);
    }
    Ok(None)
}

/// What is wrong with a schedule.
fn of_schedule(alloc: Global, list: &str) -> Result<Option<WordFault>, Memory> {
    match parse_schedule(alloc, list.as_bytes()) {
        Ok(_) => Ok(None),
        Err(ScheduleFault::BadSchedule { at }) => {
            let list = String::from_str(alloc, list)?;
            Ok(Some(WordFault::BadSchedule { list, at }))
        }
        Err(ScheduleFault::Memory) => Err(Memory),
    }
}

/// What is wrong with words that `clap` takes: the first word that isn't of its form, or the option that is missing.
pub fn word_fault(alloc: Global, words: &[String]) -> Result<Option<WordFault>, Memory> {
    match read_words(alloc, words)? {
        Some(
            CommandWords::Run {
                schedule: Some(_),
                threads: true,
                ..
            },
        ) => Ok(Some(WordFault::Both {
            one: "--schedule",
            other: "--threads",
        })),
        Some(
            CommandWords::List {
                json: true,
                tree: true,
                ..
            },
        ) => Ok(Some(WordFault::Both {
            one: "--json",
            other: "--tree",
        })),
        Some(
            CommandWords::Run {
                schedule: Some(list),
                ..
            },
        ) => of_schedule(alloc, list),
        Some(CommandWords::Format { options, .. }) => of_format(alloc, &options),
        Some(CommandWords::Export { volume, .. }) => of_volume(alloc, volume),
        Some(
            CommandWords::Generate { number, size } | CommandWords::Exercise { number, size, .. },
        ) => of_script(alloc, number, size),
        _ => Ok(None),
    }
}
