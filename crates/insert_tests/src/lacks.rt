//! Writes that find no cluster clear, or too few metadata pages.

use crate::orders::Next::*;
use crate::orders::{Order, expect_order};
use page_disk::MemDisk;
use std::alloc::Global;
use std::test::Fail;
use test_stores::{LAST, NAMED, PageRow, THICK, THIN, image, volume};

/// A map of three empty slots, and one of the clusters 3 to 15.
const THREE: &[u8] = b"\x01\x08\0\0\0\0\0\0\0\x03\0\0\0";

const MANY: &[u8] = b"\x01\x08\0\0\0\x03\0\0\0\x0D\0\0\0";

/// A store of four metadata pages, of whose clusters only cluster 2 is clear: its thin volume `v` has three empty
/// slots, and a thick one has the others.
fn nearly_full(alloc: Global) -> Result<MemDisk, Fail> {
    let rows: [PageRow; 2] = [
        (0, 0, 0, LAST, &[THIN, NAMED, THREE]),
        (1, 1, 0, LAST, &[THICK, MANY]),
    ];
    image(alloc, (64, 4), &rows)
}

/// The last cluster is claimed, and a second write is refused; once the claim is lost a third one has the cluster, and
/// a fourth is refused.
const LAST_CLUSTER: Order = Order {
    script: b"0 write v 8 1 10\n1 write v 0 1 11\n1 write v 0 1 12\n1 write v 4 1 13\n2 resize v 2\n3 read v 0 1\n\
        3 read v 4 1\n",
    nexts: &[
        (Clear(1), "clear"),
        (Turn(0), "empty"),
        (Turn(0), "claimed"),
        (Clear(0), "clear"),
        (Post(1), "logged"),
        (Turn(2), "posted"),
        (Begin(2), "began"),
        (Finish, "done"),
        (Turn(2), "settled"),
        (Turn(0), "lost"),
        (Clear(1), "clear"),
        (Turn(0), "logged"),
        (Post(1), "posted"),
        (Clear(0), "clear"),
        (Begin(1), "began"),
        (Finish, "done"),
        (Turn(1), "won"),
        (Turn(1), "logged"),
        (Post(1), "logged"),
        (Turn(3), "logged"),
        (Turn(3), "logged"),
        (Clear(0), "clear"),
    ],
    log: b"1 0 full\n2 0 ok\n0 0 out of range\n1 1 ok\n1 2 full\n3 0 page fill 000000000000000c\n\
        3 1 page fill 0000000000000000\n",
    used: 16,
    chains: &[(0, &[0]), (1, &[1])],
};

#[test]
fn a_write_is_full_where_no_cluster_is_clear(rt: HostRuntime) -> Result<(), Fail> {
    expect_order(&rt, rt.alloc(), &LAST_CLUSTER, nearly_full(rt.alloc())?)
}

/// The volume has a chain of three pages: its insert takes two pages behind the head.
const NO_PAGE: Order = Order {
    script: b"0 write v 0 1 10\n0 write v 16 1 11\n1 read v 0 1\n1 read v 16 1\n",
    nexts: &[
        (Clear(11), "clear"),
        (Post(0), "posted"),
        (Clear(10), "clear"),
        (Begin(0), "logged"),
        (Clear(11), "clear"),
        (Turn(0), "settled"),
        (Turn(0), "logged"),
        (Turn(1), "logged"),
        (Turn(1), "logged"),
    ],
    log: b"0 0 no page\n0 1 ok\n1 0 page fill 0000000000000000\n1 1 page fill 000000000000000b\n",
    used: 5,
    chains: &[(0, &[0, 1, 2])],
};

/// The same where just two are clear: the old pages behind the head are clear then.
const JUST_ENOUGH: Order = Order {
    script: b"0 write v 0 1 10\n0 write v 4 1 12\n1 read v 0 1\n1 read v 4 1\n",
    nexts: &[
        (Clear(10), "clear"),
        (Post(0), "posted"),
        (Begin(0), "began"),
        (Finish, "done"),
        (Turn(0), "won"),
        (Turn(0), "logged"),
        (Clear(9), "clear"),
        (Post(0), "posted"),
        (Begin(0), "began"),
        (Finish, "done"),
        (Turn(0), "won"),
        (Turn(0), "logged"),
        (Turn(1), "logged"),
        (Turn(1), "logged"),
        (Clear(8), "clear"),
    ],
    log: b"0 0 ok\n0 1 ok\n1 0 page fill 000000000000000a\n1 1 page fill 000000000000000c\n",
    used: 8,
    chains: &[(0, &[0, 1, 2])],
};

/// With three or four metadata pages clusters 0 and 1 are fixed, with five cluster 2 too; three are in the map.
#[test]
fn an_insert_takes_pages_behind_the_head(rt: HostRuntime) -> Result<(), Fail> {
    let alloc = rt.alloc();
    expect_order(&rt, alloc, &NO_PAGE, volume(alloc, 3)?)?;
    expect_order(&rt, alloc, &NO_PAGE, volume(alloc, 4)?)?;
    expect_order(&rt, alloc, &JUST_ENOUGH, volume(alloc, 5)?)
}
