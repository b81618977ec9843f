//! The descriptors of metadata pages, byte by byte.

use std::alloc::Global;
use std::test::Fail;

/// A descriptor in the body of a metadata page.
#[derive(Clone, Copy)]
pub(crate) enum Part {
    /// Flags, the three words of a blob: those that a load must know, read-only data, and read-only metadata.
    Flags([u64; 3]),
    /// Runs, each with its first cluster, which is 0 where its slots are empty, and its length.
    Runs(&'static [(u32, u32)]),
    /// An internal attribute with this name and value.
    Internal(&'static [u8], &'static [u8]),
    /// An internal attribute with this name whose value is the id of a blob.
    Mark(&'static [u8], u64),
    /// These bytes.
    Bytes(&'static [u8]),
}

/// The flags of a thick blob, of a thin one, and of a thin one that is read-only.
pub(crate) const THICK: Part = Part::Flags([0, 0, 0]);

pub(crate) const THIN: Part = Part::Flags([1, 0, 0]);

pub(crate) const READ_ONLY: Part = Part::Flags([1, 1, 0]);

/// Writes what begins a descriptor of this type, which has so many bytes behind that.
fn push_begin(body: &mut Vec<u8>, kind: u8, length: usize) -> Result<(), Fail> {
    body.push(kind)?;
    body.extend_from_slice(&u32::try_from(length)?.to_le_bytes())?;
    Ok(())
}

fn push_flags(body: &mut Vec<u8>, words: &[u64; 3]) -> Result<(), Fail> {
    push_begin(body, 3, 24)?;
    for word in words {
        body.extend_from_slice(&word.to_le_bytes())?;
    }
    Ok(())
}

fn push_runs(body: &mut Vec<u8>, runs: &[(u32, u32)]) -> Result<(), Fail> {
    push_begin(body, 1, runs.len().saturating_mul(8))?;
    for (cluster, length) in runs {
        body.extend_from_slice(&cluster.to_le_bytes())?;
        body.extend_from_slice(&length.to_le_bytes())?;
    }
    Ok(())
}

fn push_length(body: &mut Vec<u8>, bytes: &[u8]) -> Result<(), Fail> {
    body.extend_from_slice(&u16::try_from(bytes.len())?.to_le_bytes())?;
    Ok(())
}

fn push_attribute(body: &mut Vec<u8>, name: &[u8], value: &[u8]) -> Result<(), Fail> {
    let length = name.len().saturating_add(value.len()).saturating_add(4);
    push_begin(body, 4, length)?;
    push_length(body, name)?;
    push_length(body, value)?;
    body.extend_from_slice(name)?;
    body.extend_from_slice(value)?;
    Ok(())
}

fn push_part(body: &mut Vec<u8>, part: &Part) -> Result<(), Fail> {
    match part {
        Part::Flags(words) => push_flags(body, words),
        Part::Runs(runs) => push_runs(body, runs),
        Part::Internal(name, value) => push_attribute(body, name, value),
        Part::Mark(name, id) => push_attribute(body, name, &id.to_le_bytes()),
        Part::Bytes(bytes) => Ok(body.extend_from_slice(bytes)?),
    }
}

/// The bytes of descriptors, one after another.
pub(crate) fn body_of(alloc: Global, parts: &[Part]) -> Result<Vec<u8>, Fail> {
    let mut body = Vec::new(alloc);
    for part in parts {
        push_part(&mut body, part)?;
    }
    Ok(body)
}
