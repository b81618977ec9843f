//! Inserts that win, and inserts that lose: the cluster is clear in that same turn, and the write begins again.

use crate::orders::Next::*;
use crate::orders::{Order, expect_order};
use page_disk::MemDisk;
use std::alloc::Global;
use std::test::Fail;
use test_stores::{LAST, NAMED, THIN, image};

/// A map of two empty slots.
const TWO: &[u8] = b"\x01\x08\0\0\0\0\0\0\0\x02\0\0\0";

/// A store whose thin volume `v` has two empty slots. With four metadata pages clusters 0 and 1 are fixed, and 14 are
/// clear.
fn thin(alloc: Global) -> Result<MemDisk, Fail> {
    image(alloc, (64, 4), &[(0, 0, 0, LAST, &[THIN, NAMED, TWO])])
}

const ORDERS: [Order; 11] = [
    // The slot is filled by the other channel between the claim and the insert.
    Order {
        script: b"0 write v 0 1 10\n1 write v 1 1 11\n2 read v 0 3\n",
        nexts: &[
            (Turn(0), "empty"),
            (Turn(0), "claimed"),
            (Clear(13), "clear"),
            (Post(1), "posted"),
            (Clear(12), "clear"),
            (Turn(1), "waiting"),
            (Begin(1), "began"),
            (Finish, "done"),
            (Turn(1), "won"),
            (Turn(1), "logged"),
            (Fill(0), "posted"),
            (Clear(12), "clear"),
            (Begin(0), "decided"),
            (Clear(13), "clear"),
            (Turn(0), "lost"),
            (Turn(0), "logged"),
            (Turn(2), "logged"),
            (Turn(2), "logged"),
            (Turn(2), "logged"),
            (Clear(13), "clear"),
        ],
        log: b"1 0 ok\n0 0 ok\n2 0 page fill 000000000000000a\n2 1 page fill 000000000000000b\n\
            2 2 page fill 0000000000000000\n",
        used: 3,
        chains: &[(0, &[0])],
    },
    // It is filled before the claim.
    Order {
        script: b"0 write v 0 1 10\n1 write v 0 1 11\n2 read v 0 1\n",
        nexts: &[
            (Turn(0), "empty"),
            (Post(1), "posted"),
            (Begin(1), "began"),
            (Finish, "done"),
            (Turn(0), "filled"),
            (Clear(13), "clear"),
            (Turn(0), "logged"),
            (Turn(1), "won"),
            (Turn(1), "logged"),
            (Turn(2), "logged"),
        ],
        log: b"0 0 ok\n1 0 ok\n2 0 page fill 000000000000000b\n",
        used: 3,
        chains: &[(0, &[0])],
    },
    // Both inserts are posted: the one that is begun first wins, whichever was claimed first.
    Order {
        script: b"0 write v 0 1 10\n1 write v 0 1 11\n2 read v 0 1\n",
        nexts: &[
            (Post(0), "posted"),
            (Post(1), "posted"),
            (Clear(12), "clear"),
            (Begin(1), "began"),
            (Begin(0), "not now"),
            (Finish, "done"),
            (Begin(0), "decided"),
            (Clear(13), "clear"),
            (Begin(0), "not posted"),
            (Turn(0), "lost"),
            (Turn(1), "won"),
            (Turn(1), "logged"),
            (Turn(0), "logged"),
            (Turn(2), "logged"),
        ],
        log: b"1 0 ok\n0 0 ok\n2 0 page fill 000000000000000a\n",
        used: 3,
        chains: &[(0, &[0])],
    },
    // Inserts into two slots both win.
    Order {
        script: b"0 write v 0 1 10\n1 write v 4 1 11\n2 read v 0 1\n2 read v 4 1\n",
        nexts: &[
            (Post(0), "posted"),
            (Post(1), "posted"),
            (Begin(0), "began"),
            (Finish, "done"),
            (Begin(1), "began"),
            (Finish, "done"),
            (Turn(0), "won"),
            (Turn(1), "won"),
            (Turn(0), "logged"),
            (Turn(1), "logged"),
            (Turn(2), "logged"),
            (Turn(2), "logged"),
            (Clear(12), "clear"),
        ],
        log: b"0 0 ok\n1 0 ok\n2 0 page fill 000000000000000a\n2 1 page fill 000000000000000b\n",
        used: 4,
        chains: &[(0, &[0])],
    },
    // The slot is cut.
    Order {
        script: b"0 write v 4 1 10\n1 resize v 1\n",
        nexts: &[
            (Post(0), "posted"),
            (Turn(1), "posted"),
            (Begin(1), "began"),
            (Finish, "done"),
            (Turn(1), "settled"),
            (Clear(13), "clear"),
            (Begin(0), "decided"),
            (Clear(14), "clear"),
            (Turn(0), "lost"),
            (Turn(0), "logged"),
        ],
        log: b"1 0 ok\n0 0 out of range\n",
        used: 2,
        chains: &[(0, &[0])],
    },
    // It is cut and grown again: the write begins again, and its second insert wins.
    Order {
        script: b"0 write v 4 1 10\n1 resize v 1\n1 resize v 2\n2 read v 4 1\n",
        nexts: &[
            (Post(0), "posted"),
            (Turn(1), "posted"),
            (Begin(1), "began"),
            (Finish, "done"),
            (Turn(1), "settled"),
            (Turn(1), "posted"),
            (Begin(1), "began"),
            (Finish, "done"),
            (Turn(1), "settled"),
            (Clear(13), "clear"),
            (Begin(0), "decided"),
            (Clear(14), "clear"),
            (Turn(0), "lost"),
            (Post(0), "posted"),
            (Begin(0), "began"),
            (Finish, "done"),
            (Turn(0), "won"),
            (Turn(0), "logged"),
            (Turn(2), "logged"),
            (Clear(13), "clear"),
        ],
        log: b"1 0 ok\n1 1 ok\n0 0 ok\n2 0 page fill 000000000000000a\n",
        used: 3,
        chains: &[(0, &[0])],
    },
    // Another slot is cut: the generation is new all the same.
    Order {
        script: b"0 write v 0 1 10\n1 resize v 1\n",
        nexts: &[
            (Post(0), "posted"),
            (Turn(1), "posted"),
            (Begin(1), "began"),
            (Finish, "done"),
            (Begin(0), "decided"),
            (Clear(14), "clear"),
            (Turn(0), "lost"),
            (Post(0), "posted"),
            (Begin(0), "began"),
            (Finish, "done"),
            (Turn(0), "won"),
            (Turn(0), "logged"),
            (Turn(1), "settled"),
        ],
        log: b"1 0 ok\n0 0 ok\n",
        used: 3,
        chains: &[(0, &[0])],
    },
    // Slots that are added, and a resize to as many, leave the generation.
    Order {
        script: b"0 write v 4 1 10\n1 resize v 3\n1 resize v 3\n2 read v 4 1\n",
        nexts: &[
            (Post(0), "posted"),
            (Turn(1), "posted"),
            (Begin(1), "began"),
            (Finish, "done"),
            (Turn(1), "settled"),
            (Turn(1), "posted"),
            (Begin(1), "began"),
            (Finish, "done"),
            (Begin(0), "began"),
            (Finish, "done"),
            (Turn(0), "won"),
            (Turn(0), "logged"),
            (Turn(1), "settled"),
            (Turn(2), "logged"),
        ],
        log: b"1 0 ok\n1 1 ok\n0 0 ok\n2 0 page fill 000000000000000a\n",
        used: 3,
        chains: &[(0, &[0])],
    },
    // The blob is gone.
    Order {
        script: b"0 write v 0 1 10\n1 delete v\n",
        nexts: &[
            (Post(0), "posted"),
            (Clear(13), "clear"),
            (Turn(1), "posted"),
            (Begin(1), "began"),
            (Finish, "done"),
            (Turn(1), "settled"),
            (Clear(13), "clear"),
            (Begin(0), "decided"),
            (Clear(14), "clear"),
            (Turn(0), "lost"),
            (Turn(0), "logged"),
        ],
        log: b"1 0 ok\n0 0 no volume\n",
        used: 2,
        chains: &[],
    },
    // The copies are taken after a resize: the first one is lost, whether the slot is there or not.
    Order {
        script: b"0 write v 4 1 10\n1 resize v 1\n1 resize v 2\n",
        nexts: &[
            (Turn(0), "empty"),
            (Turn(0), "claimed"),
            (Turn(1), "posted"),
            (Begin(1), "began"),
            (Finish, "done"),
            (Turn(1), "settled"),
            (Clear(13), "clear"),
            (Turn(0), "lost"),
            (Clear(14), "clear"),
            (Turn(0), "logged"),
            (Turn(1), "posted"),
            (Begin(1), "began"),
            (Finish, "done"),
            (Turn(1), "settled"),
            (Turn(0), "no turn"),
        ],
        log: b"1 0 ok\n0 0 out of range\n1 1 ok\n",
        used: 2,
        chains: &[(0, &[0])],
    },
    // It is the second copy that is lost, and the write begins again and ends well.
    Order {
        script: b"0 write v 0 1 10\n1 resize v 1\n2 read v 0 1\n",
        nexts: &[
            (Turn(0), "empty"),
            (Turn(0), "claimed"),
            (Turn(0), "copied"),
            (Turn(1), "posted"),
            (Begin(1), "began"),
            (Finish, "done"),
            (Turn(1), "settled"),
            (Turn(0), "lost"),
            (Clear(14), "clear"),
            (Post(0), "posted"),
            (Begin(0), "began"),
            (Finish, "done"),
            (Turn(0), "won"),
            (Turn(0), "logged"),
            (Turn(2), "logged"),
        ],
        log: b"1 0 ok\n0 0 ok\n2 0 page fill 000000000000000a\n",
        used: 3,
        chains: &[(0, &[0])],
    },
];

#[test]
fn each_order_has_its_winner(rt: HostRuntime) -> Result<(), Fail> {
    for order in &ORDERS {
        expect_order(&rt, rt.alloc(), order, thin(rt.alloc())?)?;
    }
    Ok(())
}
