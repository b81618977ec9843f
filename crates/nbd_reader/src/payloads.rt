//! The payload of a WRITE.

ghost use Rattle.std.specs.Prelude.{◌≡◌, ◌≤◌, ◌<◌, ◌*◌, ◌++◌, ◌==◌, length, take, IsTrue, IfOk, OnOk, Err};
ghost use Rattle.page_disk.specs.Disk.{Rose};
ghost use Rattle.nbd_reader.specs.Taken.{Takes};
ghost use Rattle.nbd_reader.specs.Reading.{pages_bytes, GivesPayload};

use crate::fault::ReadFault;
use crate::taking::{skip, take_all};
use out_of_memory::Memory;
use std::alloc::Global;
use streams::Source;

/// The size of a page in bytes.
const PAGE: u32 = 4096;

/// The most bytes that are held: 32 MiB.
const MOST: u32 = 1 << 25;

/// The bytes behind the head of a request.
#[derive(Debug, Drop)]
pub enum Payload {
    /// They are these pages.
    Pages(Vec<Box<[u8; 4096]>>),
    /// They aren't whole pages, or are more than 32 MiB, and were skipped.
    Skipped,
    /// Memory for their pages ran out, and they were skipped.
    NoMemory,
}

fn hold(alloc: Global, page: &[u8; 4096], pages: &mut Vec<Box<[u8; 4096]>>) -> Result<(), Memory>
    ensures { OnOk result (pages_bytes pages.new.items ≡ pages_bytes pages.old.items ++ page.now) }
{
    pages.push(Box::new(alloc, *page)?)?;
    Ok(())
}

fn take_pages<S: Source>(alloc: Global, source: &mut S, count: u32) -> Result<Payload, ReadFault>
    requires { count ≤ 8192 }
    ensures taken { IsTrue S.tells → OnOk result (Takes (S.left source.old) (S.left source.new) (4096 * count)) }
    ensures given { IsTrue S.tells
        → IfOk result (λ payload. GivesPayload payload (take (4096 * count) (S.left source.old))) }
    ensures cut { result ≡ Err ReadFault.Cut → IsTrue S.tells → length (S.left source.old) < 4096 * count }
    ensures no_magic { result ≡ Err ReadFault.WrongMagic → ⊥ }
    ensures no_memory { result ≡ Err ReadFault.Memory → ⊥ }
    ensures later { S.faults source.old ≤ S.faults source.new }
    ensures cause { result ≡ Err ReadFault.Source → Rose (S.faults source.old) (S.faults source.new) }
{
    let mut pages = Vec::new(alloc);
    let mut page = [0; PAGE as usize];
    for done in 0..count {
        take_all(source, &mut page)?;
        if hold(alloc, &page, &mut pages).is_err() {
            skip(source, PAGE * (count - done - 1))?;
            return Ok(Payload::NoMemory);
        }
    }
    Ok(Payload::Pages(pages))
}

/// Takes a payload of so many bytes. The only faults are of the source, and that it ends before.
pub fn take_payload<S: Source>(
    alloc: Global,
    source: &mut S,
    count: u32,
) -> Result<Payload, ReadFault>
    ensures taken { IsTrue S.tells → OnOk result (Takes (S.left source.old) (S.left source.new) count) }
    ensures given { IsTrue S.tells → IfOk result (λ payload. GivesPayload payload (take count (S.left source.old))) }
    ensures cut { result ≡ Err ReadFault.Cut → IsTrue S.tells → length (S.left source.old) < count }
    ensures no_magic { result ≡ Err ReadFault.WrongMagic → ⊥ }
    ensures no_memory { result ≡ Err ReadFault.Memory → ⊥ }
    ensures later { S.faults source.old ≤ S.faults source.new }
    ensures cause { result ≡ Err ReadFault.Source → Rose (S.faults source.old) (S.faults source.new) }
{
    if count % PAGE != 0 || count > MOST {
        skip(source, count)?;
        return Ok(Payload::Skipped);
    }
    take_pages(alloc, source, count / PAGE)
}
