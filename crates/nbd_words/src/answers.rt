//! What the server says.

ghost use Rattle.std.specs.Prelude.{◌≡◌, ◌++◌, ◌+◌, ◌<◌, ◌≤◌, ◌^◌, List, ℕ, length, take};
ghost use Rattle.nbd_words.specs.Answers.{greeting_bytes, option_reply_head, acknowledged, export_named};
ghost use Rattle.nbd_words.specs.Answers.{transmission_flags, export_info, block_size_info, option_error_number};
ghost use Rattle.nbd_words.specs.Answers.{option_refused, export_opened, error_number, status_number};
ghost use Rattle.nbd_words.specs.Answers.{simple_reply_bytes};

use crate::numbers::{put_u16, put_u32, put_u64};

/// The text `NBDMAGIC`.
const NBD_MAGIC: u64 = 0x4E42_444D_4147_4943;

/// The text `IHAVEOPT`.
const OPTION_MAGIC: u64 = 0x4948_4156_454F_5054;

/// The number with which each answer to an option begins.
const OPTION_REPLY_MAGIC: u64 = 0x0003_E889_0455_65A9;

/// The number with which each answer to a request begins.
const SIMPLE_REPLY_MAGIC: u32 = 0x6744_6698;

/// What an export is like.
#[derive(Clone, Copy, Debug, PartialEq, Eq)]
pub struct Export {
    /// Its bytes.
    pub size: u64,
    /// Whether it can't be written.
    pub read_only: bool,
}

/// Why an option is refused.
#[derive(Clone, Copy, Debug, PartialEq, Eq)]
pub enum OptionError {
    /// The server doesn't know the option.
    Unsupported,
    /// The option's bytes have another form.
    Invalid,
    /// There is no export of the name.
    Unknown,
}

/// Why a request is refused or failed.
#[derive(Clone, Copy, Debug, PartialEq, Eq)]
pub enum RequestError {
    /// The export can't be written.
    NotPermitted,
    /// A device failed.
    Io,
    /// Memory ran out.
    NoMemory,
    /// The request has no meaning here.
    Invalid,
    /// There is no room for what is written.
    NoSpace,
}

impl Export {
    /// What a client may ask of it.
    pub fn flags(&self) -> u16
        ensures { result ≡ transmission_flags self.now }
    {
        if self.read_only { 15 } else { 13 }
    }
}

impl OptionError {
    /// Its number in an answer.
    pub fn number(&self) -> u32
        ensures { result ≡ option_error_number self.now }
    {
        match self {
            OptionError::Unsupported => (1 << 31) + 1,
            OptionError::Invalid => (1 << 31) + 3,
            OptionError::Unknown => (1 << 31) + 6,
        }
    }
}

impl RequestError {
    /// Its number in an answer.
    pub fn number(&self) -> u32
        ensures { result ≡ error_number self.now }
    {
        match self {
            RequestError::NotPermitted => 1,
            RequestError::Io => 5,
            RequestError::NoMemory => 12,
            RequestError::Invalid => 22,
            RequestError::NoSpace => 28,
        }
    }
}

/// The server's first words.
pub fn greeting() -> [u8; 18]
    ensures { result ≡ greeting_bytes }
{
    let mut words = [0; 18];
    let at = put_u64(&mut words, 0, NBD_MAGIC);
    let at = put_u64(&mut words, at, OPTION_MAGIC);
    put_u16(&mut words, at, 3);
    words
}

fn put_head(into: &mut [u8], option: u32, type_number: u32, count: u32) -> usize
    requires { 20 ≤ length into.old }
    ensures end { result ≡ 20 }
    ensures bytes { take 20 into.new ≡ option_reply_head option type_number count }
{
    let at = put_u64(into, 0, OPTION_REPLY_MAGIC);
    let at = put_u32(into, at, option);
    let at = put_u32(into, at, type_number);
    put_u32(into, at, count)
}

/// Says that the option of this number is done.
pub fn acknowledgement(option: u32) -> [u8; 20]
    ensures { result ≡ acknowledged option }
{
    let mut words = [0; 20];
    put_head(&mut words, option, 1, 0);
    words
}

/// Refuses the option of this number.
pub fn option_refusal(option: u32, error: OptionError) -> [u8; 20]
    ensures { result ≡ option_refused option error }
{
    let mut words = [0; 20];
    put_head(&mut words, option, error.number(), 0);
    words
}

/// The head of the answer that names an export; the name stands behind it.
pub fn named_export_head(option: u32, name_length: u32) -> [u8; 24]
    requires { name_length + 4 < 2 ^ 32 }
    ensures { (name : List ℕ) → length name ≡ name_length → result ++ name ≡ export_named option name }
{
    let mut words = [0; 24];
    let at = put_head(&mut words, option, 2, name_length + 4);
    put_u32(&mut words, at, name_length);
    words
}

/// Tells the size of an export and what may be asked of it.
pub fn export_answer(option: u32, export: &Export) -> [u8; 32]
    ensures { result ≡ export_info option export.now }
{
    let mut words = [0; 32];
    let at = put_head(&mut words, option, 3, 12);
    let at = put_u16(&mut words, at, 0);
    let at = put_u64(&mut words, at, export.size);
    put_u16(&mut words, at, export.flags());
    words
}

/// Tells that requests are of whole pages of 4096 bytes, and of at most so many bytes.
pub fn block_size_answer(option: u32, maximum: u32) -> [u8; 34]
    ensures { result ≡ block_size_info option maximum }
{
    let mut words = [0; 34];
    let at = put_head(&mut words, option, 3, 14);
    let at = put_u16(&mut words, at, 3);
    let at = put_u32(&mut words, at, 4096);
    let at = put_u32(&mut words, at, 4096);
    put_u32(&mut words, at, maximum);
    words
}

/// The answer to EXPORT_NAME, for a client that wants no zeros behind it.
pub fn opened_export(export: &Export) -> [u8; 10]
    ensures { result ≡ export_opened export.now }
{
    let mut words = [0; 10];
    let at = put_u64(&mut words, 0, export.size);
    put_u16(&mut words, at, export.flags());
    words
}

/// The answer to a request: its error, if there is one, and its handle. What a READ asked for stands behind it.
pub fn simple_reply(error: Option<RequestError>, handle: u64) -> [u8; 16]
    ensures { result ≡ simple_reply_bytes error handle }
{
    let status = match error {
        None => 0,
        Some(error) => error.number(),
    };
    let mut words = [0; 16];
    let at = put_u32(&mut words, 0, SIMPLE_REPLY_MAGIC);
    let at = put_u32(&mut words, at, status);
    put_u64(&mut words, at, handle);
    words
}
