//! Reading a script's text.

ghost use Rattle.std.specs.Prelude.{◌≡◌, ◌≤◌, ◌<◌, ◌+◌, ◌^◌, [], length, IsTrue, IfOk, Err};
ghost use Rattle.page_disk.specs.Disk.{Rose};
ghost use Rattle.streams.specs.Streams.{Caused, TakesAtMost};

use crate::source::{Source, SourceFault};
use out_of_memory::Memory;
use std::alloc::{AllocError, Global};
use thiserror::Error;

/// The most bytes that are read: one more than a script may have.
const MOST: usize = (1 << 20) + 1;

/// How many bytes are asked for at a time.
const AT_ONCE: usize = 4096;

/// Why a text could not be read.
#[derive(Debug, Drop, Error)]
pub enum ReadFault {
    /// The source could not be read.
    #[error("the source could not be read")]
    Source,
    /// The source has more than 1,048,576 bytes.
    #[error("more than 1048576 bytes")]
    TooBig,
    /// Memory ran out.
    #[error("no memory")]
    Memory,
}

impl From<AllocError> for ReadFault {
    ghost use Rattle.std.specs.Prelude.{◌≡◌};
    ghost use Rattle.streams.specs.declared.reading.ReadFault.TheVariants.{Memory};

    ghost from_gives = { λ _ e. e ≡ Memory };

    fn from(_error: AllocError) -> ReadFault {
        ReadFault::Memory
    }
}

impl From<SourceFault> for ReadFault {
    ghost use Rattle.std.specs.Prelude.{◌≡◌};
    ghost use Rattle.streams.specs.declared.reading.ReadFault.TheVariants.{Source};

    ghost from_gives = { λ _ e. e ≡ Source };

    fn from(_fault: SourceFault) -> ReadFault {
        ReadFault::Source
    }
}

/// All that the source has left, at most 1,048,576 bytes. Each read but the last takes at least one byte.
pub fn read_text<S: Source>(alloc: Global, source: &mut S) -> Result<Vec<u8>, ReadFault>
    ensures text { IsTrue S.tells → IfOk result (λ text. text.items ≡ S.left source.old) }
    ensures empty { IsTrue S.tells → IfOk result (λ text. S.left source.new ≡ []) }
    ensures few { IfOk result (λ text. length text.items ≤ 2 ^ 20) }
    ensures taken { IsTrue S.tells → TakesAtMost (S.left source.old) (S.left source.new) (2 ^ 20 + 1) }
    ensures big { result ≡ Err ReadFault.TooBig → IsTrue S.tells → 2 ^ 20 < length (S.left source.old) }
    ensures later { S.faults source.old ≤ S.faults source.new }
    ensures cause { result ≡ Err ReadFault.Source → Rose (S.faults source.old) (S.faults source.new) }
{
    let mut text = Vec::new(alloc);
    let mut buffer = [0; AT_ONCE];
    while text.len() < MOST {
        let room = (MOST - text.len()).min(AT_ONCE);
        let count = source.read(&mut buffer[..room])?;
        if count == 0 {
            return Ok(text);
        }
        text.extend_from_slice(&buffer[..count])?;
    }
    Err(ReadFault::TooBig)
}
