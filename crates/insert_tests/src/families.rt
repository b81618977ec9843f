//! Snapshots and deletes beside writes of other channels: what was copied before them is lost, and a volume that is
//! frozen waits.

use crate::orders::Next::*;
use crate::orders::{Order, expect_order};
use page_disk::MemDisk;
use std::alloc::Global;
use std::test::Fail;
use test_stores::{LAST, NAMED, PageRow, THIN, fill, image};

/// The flags of a thin blob whose data is read-only.
const THIN_READ_ONLY: &[u8] = b"\x03\x18\0\0\0\x01\0\0\0\0\0\0\0\x01\0\0\0\0\0\0\0\0\0\0\0\0\0\0\0";

/// An internal attribute that names the blob at head 1 as the parent.
const SNAP: &[u8] = b"\x04\x10\0\0\0\x04\0\x08\0SNAP\x01\0\0\0\x01\0\0\0";

/// Maps of two slots: both are empty, or the first has cluster 7.
const EMPTY: &[u8] = b"\x01\x08\0\0\0\0\0\0\0\x02\0\0\0";

const SEVEN: &[u8] = b"\x01\x10\0\0\0\x07\0\0\0\x01\0\0\0\0\0\0\0\x01\0\0\0";

/// A store whose thin volume `v` has two empty slots over those of its snapshot, of which the first has cluster 7 with
/// bytes 0xAB. With four metadata pages clusters 0 and 1 are fixed, and 13 are clear.
pub fn family(alloc: Global) -> Result<MemDisk, Fail> {
    let rows: [PageRow; 2] = [
        (0, 0, 0, LAST, &[THIN, NAMED, SNAP, EMPTY]),
        (1, 1, 0, LAST, &[THIN_READ_ONLY, SEVEN]),
    ];
    let mut disk = image(alloc, (64, 4), &rows)?;
    fill(&mut disk, 28, 32)?;
    Ok(disk)
}

const ORDERS: [Order; 5] = [
    // The other channel fills the slot, and a snapshot takes the cluster: the slot is empty again, and what was copied
    // for it is out of date.
    Order {
        script: b"0 write v 1 1 20\n1 write v 0 1 21\n1 snapshot v t\n2 read v 0 3\n2 read t 0 2\n",
        nexts: &[
            (Turn(0), "empty"),
            (Turn(0), "claimed"),
            (Turn(0), "copied"),
            (Turn(0), "copied"),
            (Turn(0), "copied"),
            (Turn(0), "copied"),
            (Clear(12), "clear"),
            (Post(1), "posted"),
            (Begin(1), "began"),
            (Finish, "done"),
            (Turn(1), "won"),
            (Turn(1), "logged"),
            (Turn(1), "posted"),
            (Begin(1), "began"),
            (Finish, "done"),
            (Turn(1), "settled"),
            (Clear(11), "clear"),
            (Turn(0), "posted"),
            (Begin(0), "decided"),
            (Clear(12), "clear"),
            (Turn(0), "lost"),
            (Post(0), "posted"),
            (Begin(0), "began"),
            (Finish, "done"),
            (Turn(0), "won"),
            (Turn(0), "logged"),
            (Turn(2), "logged"),
            (Turn(2), "logged"),
            (Turn(2), "logged"),
            (Turn(2), "logged"),
            (Turn(2), "logged"),
            (Clear(11), "clear"),
        ],
        log: b"1 0 ok\n1 1 ok @2\n0 0 ok\n2 0 page fill 0000000000000015\n2 1 page fill 0000000000000014\n\
            2 2 page fill abababababababab\n2 3 page fill 0000000000000015\n2 4 page fill abababababababab\n",
        used: 5,
        chains: &[(0, &[0]), (1, &[1]), (2, &[2])],
    },
    // It is out of date even where nobody has filled the slot: that is found at the next copy.
    Order {
        script: b"0 write v 1 1 20\n1 snapshot v t\n",
        nexts: &[
            (Turn(0), "empty"),
            (Turn(0), "claimed"),
            (Turn(0), "copied"),
            (Turn(1), "posted"),
            (Begin(1), "began"),
            (Finish, "done"),
            (Clear(12), "clear"),
            (Turn(0), "lost"),
            (Clear(13), "clear"),
            (Post(0), "posted"),
            (Begin(0), "began"),
            (Finish, "done"),
            (Turn(0), "won"),
            (Turn(0), "logged"),
            (Turn(1), "settled"),
        ],
        log: b"1 0 ok @2\n0 0 ok\n",
        used: 4,
        chains: &[(0, &[0]), (1, &[1]), (2, &[2])],
    },
    // From the begin of a snapshot to its last turn, its commit's and the next too, the volume isn't read, written or
    // claimed for. Its snapshot is read meanwhile. The first turn of the store's first job marks it as in use, in three
    // calls of the device; then each replacement of the snapshot has one.
    Order {
        script: b"0 write v 0 1 10\n1 snapshot v t\n2 read v 0 1\n3 write v 4 1 11\n4 read @1 0 2\n",
        nexts: &[
            (Turn(3), "empty"),
            (Turn(1), "posted"),
            (Begin(1), "began"),
            (Turn(0), "frozen"),
            (Turn(2), "frozen"),
            (Turn(3), "frozen"),
            (Turn(4), "logged"),
            (Job, "more"),
            (Turn(2), "frozen"),
            (Job, "more"),
            (Turn(0), "frozen"),
            (Job, "more"),
            (Turn(1), "waiting"),
            (Job, "more"),
            (Turn(1), "settled"),
            (Turn(0), "frozen"),
            (Turn(2), "frozen"),
            (Turn(3), "frozen"),
            (Turn(4), "logged"),
            (Job, "done"),
            (Turn(2), "logged"),
            (Turn(3), "claimed"),
            (Fill(3), "posted"),
            (Post(0), "posted"),
            (Clear(11), "clear"),
            (Begin(3), "began"),
            (Finish, "done"),
            (Turn(3), "won"),
            (Turn(3), "logged"),
            (Begin(0), "began"),
            (Finish, "done"),
            (Turn(0), "won"),
            (Turn(0), "logged"),
        ],
        log: b"4 0 page fill abababababababab\n1 0 ok @2\n4 1 page fill abababababababab\n\
            2 0 page fill abababababababab\n3 0 ok\n0 0 ok\n",
        used: 5,
        chains: &[(0, &[0]), (1, &[1]), (2, &[2])],
    },
    // The parent is deleted, and the slot has its cluster: the volume isn't frozen meanwhile, and the claim is lost.
    // The delete has the turn of the mark, and one for each of its three replacements.
    Order {
        script: b"0 write v 1 1 10\n1 delete @1\n2 read v 0 3\n3 write v 4 1 11\n",
        nexts: &[
            (Post(0), "posted"),
            (Post(3), "posted"),
            (Clear(11), "clear"),
            (Turn(1), "posted"),
            (Begin(1), "began"),
            (Turn(2), "logged"),
            (Job, "more"),
            (Turn(1), "waiting"),
            (Job, "more"),
            (Turn(1), "waiting"),
            (Job, "more"),
            (Turn(1), "settled"),
            (Job, "done"),
            (Begin(0), "decided"),
            (Clear(12), "clear"),
            (Turn(0), "lost"),
            (Turn(0), "logged"),
            (Turn(2), "logged"),
            (Turn(2), "logged"),
            (Begin(3), "decided"),
            (Turn(3), "lost"),
            (Post(3), "posted"),
            (Begin(3), "began"),
            (Finish, "done"),
            (Turn(3), "won"),
            (Turn(3), "logged"),
        ],
        log: b"2 0 page fill abababababababab\n1 0 ok\n0 0 ok\n2 1 page fill 000000000000000a\n\
            2 2 page fill abababababababab\n3 0 ok\n",
        used: 4,
        chains: &[(0, &[0])],
    },
    // The volume is deleted while its slot is copied, and its parent then.
    Order {
        script: b"0 write v 1 1 10\n1 delete v\n1 delete @1\n",
        nexts: &[
            (Turn(0), "empty"),
            (Turn(0), "claimed"),
            (Turn(0), "copied"),
            (Turn(1), "posted"),
            (Begin(1), "began"),
            (Finish, "done"),
            (Turn(1), "settled"),
            (Clear(12), "clear"),
            (Turn(0), "lost"),
            (Clear(13), "clear"),
            (Turn(0), "logged"),
            (Turn(1), "posted"),
            (Begin(1), "began"),
            (Finish, "done"),
            (Clear(14), "clear"),
            (Turn(1), "settled"),
        ],
        log: b"1 0 ok\n0 0 no volume\n1 1 ok\n",
        used: 2,
        chains: &[],
    },
];

#[test]
fn what_was_copied_before_is_lost(rt: HostRuntime) -> Result<(), Fail> {
    for order in &ORDERS {
        expect_order(&rt, rt.alloc(), order, family(rt.alloc())?)?;
    }
    Ok(())
}
