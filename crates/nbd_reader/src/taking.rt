//! Taking bytes from a source.

ghost use Rattle.std.specs.Prelude.{◌≡◌, ◌≤◌, ◌<◌, [], length, take, IsTrue, IfOk, OnOk, Err};
ghost use Rattle.page_disk.specs.Disk.{Rose};
ghost use Rattle.streams.specs.Streams.{Caused};
ghost use Rattle.nbd_reader.specs.Taken.{Takes};

use crate::fault::ReadFault;
use streams::{Source, SourceFault};

/// How many bytes are skipped at a time.
const AT_ONCE: u32 = 4096;

/// Moves the next bytes of the source to the front of the buffer, and answers how many: fewer than the buffer has only
/// where the source ends.
pub fn fill<S: Source>(source: &mut S, into: &mut [u8]) -> Result<usize, SourceFault>
    ensures within { IfOk result (λ n. n ≤ length into.new) }
    ensures taken { IsTrue S.tells → IfOk result (λ n. Takes (S.left source.old) (S.left source.new) n) }
    ensures bytes { IsTrue S.tells → IfOk result (λ n. take n into.new ≡ take n (S.left source.old)) }
    ensures end { IsTrue S.tells → IfOk result (λ n. n < length into.new → length (S.left source.old) ≡ n) }
    ensures faults { Caused (S.faults source.old) (S.faults source.new) result }
{
    let mut at = 0;
    while at < into.len() {
        let count = source.read(&mut into[at..])?;
        if count == 0 {
            return Ok(at);
        }
        at += count;
    }
    Ok(at)
}

/// Fills the buffer. The only faults are of the source, and that it ends before.
pub fn take_all<S: Source>(source: &mut S, into: &mut [u8]) -> Result<(), ReadFault>
    ensures taken { IsTrue S.tells → OnOk result (Takes (S.left source.old) (S.left source.new) (length into.new)) }
    ensures bytes { IsTrue S.tells → OnOk result (into.new ≡ take (length into.new) (S.left source.old)) }
    ensures cut { result ≡ Err ReadFault.Cut → IsTrue S.tells → length (S.left source.old) < length into.new }
    ensures no_magic { result ≡ Err ReadFault.WrongMagic → ⊥ }
    ensures no_memory { result ≡ Err ReadFault.Memory → ⊥ }
    ensures later { S.faults source.old ≤ S.faults source.new }
    ensures cause { result ≡ Err ReadFault.Source → Rose (S.faults source.old) (S.faults source.new) }
{
    let count = fill(source, into)?;
    if count < into.len() {
        return Err(ReadFault::Cut);
    }
    Ok(())
}

/// Takes so many bytes, and lets them go. The only faults are of the source, and that it ends before.
pub fn skip<S: Source>(source: &mut S, count: u32) -> Result<(), ReadFault>
    ensures taken { IsTrue S.tells → OnOk result (Takes (S.left source.old) (S.left source.new) count) }
    ensures cut { result ≡ Err ReadFault.Cut → IsTrue S.tells → length (S.left source.old) < count }
    ensures no_magic { result ≡ Err ReadFault.WrongMagic → ⊥ }
    ensures no_memory { result ≡ Err ReadFault.Memory → ⊥ }
    ensures later { S.faults source.old ≤ S.faults source.new }
    ensures cause { result ≡ Err ReadFault.Source → Rose (S.faults source.old) (S.faults source.new) }
{
    let mut buffer = [0; AT_ONCE as usize];
    let mut rest = count;
    while rest > 0 {
        let room = rest.min(AT_ONCE);
        take_all(source, &mut buffer[..room as usize])?;
        rest -= room;
    }
    Ok(())
}
