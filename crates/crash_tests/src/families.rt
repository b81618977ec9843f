//! Devices whose store has a volume and a snapshot of it, which is being made or removed.

use page_disk::MemDisk;
use std::alloc::Global;
use std::test::Fail;
use test_stores::{LAST, NAMED, PageRow, THIN, fill, image};

/// The flags of a thin blob whose data is read-only.
pub(crate) const THIN_READ_ONLY: &[u8] =
    b"\x03\x18\0\0\0\x01\0\0\0\0\0\0\0\x01\0\0\0\0\0\0\0\0\0\0\0\0\0\0\0";

/// The name `s` and the uuid 11223344-5566-4788-99aa-bbccddeeff01: with the flags 94 bytes.
pub(crate) const S_NAMED: &[u8] = b"\x02\x0A\0\0\0\x04\0\x02\0names\0\
    \x02\x2D\0\0\0\x04\0\x25\0uuid11223344-5566-4788-99aa-bbccddeeff01\0";

/// Internal attributes: SNAP names the blob at head 3. SNAPTMP and SNAPRM name the one at head 5, and another SNAPTMP
/// the one at head 9, which is never there.
const SNAP: &[u8] = b"\x04\x10\0\0\0\x04\0\x08\0SNAP\x03\0\0\0\x01\0\0\0";

const SNAPTMP: &[u8] = b"\x04\x13\0\0\0\x07\0\x08\0SNAPTMP\x05\0\0\0\x01\0\0\0";

const SNAPRM: &[u8] = b"\x04\x12\0\0\0\x06\0\x08\0SNAPRM\x05\0\0\0\x01\0\0\0";

const SNAPTMP_OF_NONE: &[u8] = b"\x04\x13\0\0\0\x07\0\x08\0SNAPTMP\x09\0\0\0\x01\0\0\0";

/// Runs of two slots: cluster 7 and an empty one; and both empty.
const SEVEN: &[u8] = b"\x01\x10\0\0\0\x07\0\0\0\x01\0\0\0\0\0\0\0\x01\0\0\0";

const EMPTY: &[u8] = b"\x01\x08\0\0\0\0\0\0\0\x02\0\0\0";

/// An attribute `k` of 4000 letters. Beside flags, name and uuid it has no place; a mark and the runs have one behind
/// it.
const K: &[u8] = b"\x02\xA5\x0F\0\0\x01\0\xA0\x0Fk";

const LETTERS: &[u8] = &[b'x'; 4000];

/// The volume `v` at head 5 with cluster 7 in its first slot; and as the child of the blob at head 3, without clusters.
const VOLUME: PageRow = (5, 5, 0, LAST, &[THIN, NAMED, SEVEN]);

pub(crate) const CHILD: PageRow = (5, 5, 0, LAST, &[THIN, NAMED, SNAP, EMPTY]);

/// The snapshot `s` at head 3 as it is once it is made; and with the mark of its delete.
pub(crate) const SNAPSHOT: PageRow = (3, 3, 0, LAST, &[THIN_READ_ONLY, S_NAMED, SEVEN]);

const DELETED: PageRow = (3, 3, 0, LAST, &[THIN_READ_ONLY, S_NAMED, SNAPRM, SEVEN]);

/// The snapshot that is being made, once it has the volume's map.
const MAPPED: PageRow = (3, 3, 0, LAST, &[THIN, S_NAMED, SNAPTMP, SEVEN]);

/// The metadata pages of a store, and those that recovery makes of them.
pub(crate) struct State {
    pub(crate) found: &'static [PageRow],
    pub(crate) repaired: &'static [PageRow],
    /// Whether the volume `s` is there then; its slots are those of `v`.
    pub(crate) is_made: bool,
    /// How many of 16 metadata pages are free then, in decimal.
    pub(crate) free: &'static [u8],
}

/// The snapshot at head 3 of the volume at head 5 before its job and after each replacement, and then its delete after
/// each but the last; and stores with marks that no job of a run leaves so.
pub(crate) const STATES: [State; 11] = [
    State {
        found: &[VOLUME],
        repaired: &[VOLUME],
        is_made: false,
        free: b"15",
    },
    State {
        found: &[(3, 3, 0, LAST, &[THIN, S_NAMED, SNAPTMP, EMPTY]), VOLUME],
        repaired: &[VOLUME],
        is_made: false,
        free: b"15",
    },
    State {
        found: &[MAPPED, VOLUME],
        repaired: &[VOLUME],
        is_made: false,
        free: b"15",
    },
    State {
        found: &[MAPPED, CHILD],
        repaired: &[SNAPSHOT, CHILD],
        is_made: true,
        free: b"14",
    },
    State {
        found: &[SNAPSHOT, CHILD],
        repaired: &[SNAPSHOT, CHILD],
        is_made: true,
        free: b"14",
    },
    State {
        found: &[DELETED, CHILD],
        repaired: &[SNAPSHOT, CHILD],
        is_made: true,
        free: b"14",
    },
    State {
        found: &[DELETED, VOLUME],
        repaired: &[VOLUME],
        is_made: false,
        free: b"15",
    },
    // Of two marks that of the delete counts, and both go.
    State {
        found: &[
            (
                3,
                3,
                0,
                LAST,
                &[THIN, S_NAMED, SNAPTMP_OF_NONE, SNAPRM, SEVEN],
            ),
            CHILD,
        ],
        repaired: &[SNAPSHOT, CHILD],
        is_made: true,
        free: b"14",
    },
    // One blob is kept, and another is removed.
    State {
        found: &[(2, 2, 0, LAST, &[THIN, SNAPTMP, SEVEN]), MAPPED, CHILD],
        repaired: &[SNAPSHOT, CHILD],
        is_made: true,
        free: b"14",
    },
    // A snapshot whose chain has two pages is kept, for which a fresh page is taken and the old one is cleared;
    State {
        found: &[
            (3, 3, 0, 4, &[THIN, S_NAMED]),
            (4, 3, 1, LAST, &[K, LETTERS, SNAPTMP, SEVEN]),
            CHILD,
        ],
        repaired: &[
            (3, 3, 0, 0, &[THIN_READ_ONLY, S_NAMED]),
            (0, 3, 1, LAST, &[K, LETTERS, SEVEN]),
            CHILD,
        ],
        is_made: true,
        free: b"13",
    },
    // and one is removed.
    State {
        found: &[
            (3, 3, 0, 4, &[THIN_READ_ONLY, S_NAMED]),
            (4, 3, 1, LAST, &[K, LETTERS, SNAPRM, SEVEN]),
            VOLUME,
        ],
        repaired: &[VOLUME],
        is_made: false,
        free: b"15",
    },
];

/// A device of 64 pages with a store of 16 metadata pages that has these, whose cluster 7 is filled with bytes 0xAB.
pub(crate) fn family(alloc: Global, rows: &[PageRow]) -> Result<MemDisk, Fail> {
    let mut disk = image(alloc, (64, 16), rows)?;
    fill(&mut disk, 28, 32)?;
    Ok(disk)
}

/// Texts one behind the other.
pub(crate) fn joined(alloc: Global, parts: &[&[u8]]) -> Result<Vec<u8>, Fail> {
    let mut text = Vec::new(alloc);
    for part in parts {
        text.extend_from_slice(part)?;
    }
    Ok(text)
}
