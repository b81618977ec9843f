//! Which blob is the parent of another.

ghost use Rattle.std.specs.Prelude.{◌≡◌, slice_index};
ghost use Rattle.page_fields.specs.Fields.{number};
ghost use Rattle.blob_meta.specs.Parents.{named_in as named_said, parent_of as parent_said};

use crate::meta::Meta;
use page_fields::u64_of;

/// The byte at a place, 0 past the end.
fn byte_at(bytes: &[u8], at: usize) -> u8
    ensures { result ≡ slice_index bytes.now at }
{
    match bytes.get(at) {
        Some(byte) => *byte,
        None => 0,
    }
}

/// The number in the first 8 bytes, the lowest first; those past the end count as zeros.
#[tactic(auto, unfolding(page_fields::specs::Fields::number))]
fn number_in(bytes: &[u8]) -> u64
    ensures { result ≡ number 8 bytes.now }
{
    u64_of(&[
        byte_at(bytes, 0),
        byte_at(bytes, 1),
        byte_at(bytes, 2),
        byte_at(bytes, 3),
        byte_at(bytes, 4),
        byte_at(bytes, 5),
        byte_at(bytes, 6),
        byte_at(bytes, 7),
    ])
}

/// The head that an internal attribute names, by an id; `None` exactly where it names none.
pub(crate) fn named_in(bytes: &[u8]) -> Option<u64>
    ensures { result ≡ named_said bytes.now }
{
    number_in(bytes).checked_sub(1 << 32)
}

/// The head of the parent, which the internal attribute SNAP names by its id; `None` exactly where the blob has none. A
/// blob that was read may name a head that no blob can have.
pub fn parent_of(meta: &Meta) -> Option<u64>
    ensures { result ≡ parent_said meta.now }
{
    match meta.internal.value_of(b"SNAP") {
        Some(id) => named_in(id.bytes()),
        None => None,
    }
}
