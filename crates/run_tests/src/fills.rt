//! Volumes that are inflated, or decoupled from their parents.

use std::test::Fail;
use test_runs::{On, TwoRuns, expect_two_runs};

const CASES: [TwoRuns; 10] = [
    // An inflated volume has no parent, and its snapshot can go.
    (
        On::Empty,
        b"0 create a 1 thin\n0 write a 0 1 1\n0 snapshot a s\n0 inflate a\n0 delete s\n0 info a\n0 read a 0 1\n0 df\n",
        b"0 0 ok @0\n0 1 ok\n0 2 ok @1\n0 3 ok\n0 4 ok\n0 5 volume @0 a slots 1 parent - thick rw xattrs 2\n\
            0 6 page fill 0000000000000001\n0 7 df clusters 10 of 16 pages 15 of 16\n",
        b"0 list\n0 read a 0 1\n0 df\n",
        b"0 0 list 1\nvolume @0 a slots 1 parent - thick rw xattrs 2\n0 1 page fill 0000000000000001\n\
            0 2 df clusters 10 of 16 pages 15 of 16\n",
    ),
    // One without a parent becomes thick: each of its slots has a cluster then.
    (
        On::Empty,
        b"0 create v 3 thin\n0 write v 4 1 7\n0 inflate v\n0 info v\n0 df\n0 read v 0 1\n0 read v 4 1\n0 read v 8 1\n\
            0 inflate v\n",
        b"0 0 ok @0\n0 1 ok\n0 2 ok\n0 3 volume @0 v slots 3 parent - thick rw xattrs 2\n\
            0 4 df clusters 8 of 16 pages 15 of 16\n0 5 page fill 0000000000000000\n0 6 page fill 0000000000000007\n\
            0 7 page fill 0000000000000000\n0 8 ok\n",
        b"0 read v 4 1\n0 df\n",
        b"0 0 page fill 0000000000000007\n0 1 df clusters 8 of 16 pages 15 of 16\n",
    ),
    // A decoupled volume has its parent's parent. Slots that neither fills are read as before.
    (
        On::Empty,
        b"0 create v 2 thin\n0 write v 0 1 1\n0 snapshot v r\n0 write v 4 1 2\n0 snapshot v s\n0 decouple v\n0 info v\n\
            0 read v 0 1\n0 read v 4 1\n0 df\n0 delete s\n0 decouple v\n0 info v\n0 read v 0 1\n0 delete r\n\
            0 read v 0 1\n0 df\n0 decouple v\n",
        b"0 0 ok @0\n0 1 ok\n0 2 ok @1\n0 3 ok\n0 4 ok @2\n0 5 ok\n0 6 volume @0 v slots 2 parent @1 thin rw xattrs 2\n\
            0 7 page fill 0000000000000001\n0 8 page fill 0000000000000002\n0 9 df clusters 8 of 16 pages 13 of 16\n\
            0 10 ok\n0 11 ok\n0 12 volume @0 v slots 2 parent - thin rw xattrs 2\n0 13 page fill 0000000000000001\n\
            0 14 ok\n0 15 page fill 0000000000000001\n0 16 df clusters 9 of 16 pages 15 of 16\n0 17 no parent\n",
        b"0 read v 0 1\n0 read v 4 1\n",
        b"0 0 page fill 0000000000000001\n0 1 page fill 0000000000000002\n",
    ),
    // Clusters run out: what was filled stays, and the contents are the same.
    (
        On::Empty,
        b"0 create w 8 thick\n0 create v 4 thin\n0 write v 0 1 5\n0 inflate v\n0 info v\n0 df\n0 read v 0 1\n\
            0 read v 4 1\n0 delete w\n0 inflate v\n0 info v\n0 df\n",
        b"0 0 ok @0\n0 1 ok @1\n0 2 ok\n0 3 full\n0 4 volume @1 v slots 4 parent - thin rw xattrs 2\n\
            0 5 df clusters 0 of 16 pages 14 of 16\n0 6 page fill 0000000000000005\n0 7 page fill 0000000000000000\n\
            0 8 ok\n0 9 ok\n0 10 volume @1 v slots 4 parent - thick rw xattrs 2\n\
            0 11 df clusters 7 of 16 pages 15 of 16\n",
        b"0 read v 0 1\n",
        b"0 0 page fill 0000000000000005\n",
    ),
    // Where the parent is shorter than its own parent and than the volume, a decouple would show other pages.
    (
        On::Empty,
        b"0 create v 2 thin\n0 snapshot v s\n0 resize v 1\n0 resize v 2\n0 snapshot v t\n0 resize v 2\n0 delete t\n\
            0 decouple v\n0 inflate v\n0 delete t\n",
        b"0 0 ok @0\n0 1 ok @1\n0 2 ok\n0 3 short\n0 4 ok @2\n0 5 ok\n0 6 short\n0 7 short\n0 8 ok\n0 9 ok\n",
        b"0 list\n0 df\n",
        b"0 0 list 2\nvolume @0 v slots 2 parent - thick rw xattrs 2\n\
            volume @1 s slots 2 parent - thin ro xattrs 2\n0 1 df clusters 9 of 16 pages 14 of 16\n",
    ),
    // All clusters are taken by slots that stay filled. Cut by the last slot, the volume has none left to fill.
    (
        On::Empty,
        b"0 create v 12 thin\n0 inflate v\n0 df\n0 resize v 11\n0 inflate v\n",
        b"0 0 ok @0\n0 1 full\n0 2 df clusters 0 of 16 pages 15 of 16\n0 3 ok\n0 4 ok\n",
        b"0 info v\n0 df\n",
        b"0 0 volume @0 v slots 11 parent - thick rw xattrs 2\n0 1 df clusters 0 of 16 pages 15 of 16\n",
    ),
    // A chain of three pages needs two clear ones for each slot. The cluster that was claimed is clear again.
    (
        On::Volume,
        b"0 create w 0 thin\n0 inflate v\n0 df\n0 delete w\n0 inflate v\n0 info v\n0 df\n",
        b"0 0 ok @3\n0 1 no page\n0 2 df clusters 10 of 16 pages 1 of 5\n0 3 ok\n0 4 ok\n\
            0 5 volume @0 v slots 7 parent - thick rw xattrs 3\n0 6 df clusters 6 of 16 pages 2 of 5\n",
        b"0 info v\n0 df\n",
        b"0 0 volume @0 v slots 7 parent - thick rw xattrs 3\n0 1 df clusters 6 of 16 pages 2 of 5\n",
    ),
    // So does the end, where no slot is left to fill.
    (
        On::Volume,
        b"0 inflate v\n0 create w 0 thin\n0 inflate v\n0 df\n",
        b"0 0 ok\n0 1 ok @1\n0 2 no page\n0 3 df clusters 6 of 16 pages 1 of 5\n",
        b"0 info v\n0 df\n",
        b"0 0 volume @0 v slots 7 parent - thick rw xattrs 3\n0 1 df clusters 6 of 16 pages 1 of 5\n",
    ),
    // The super blob isn't filled.
    (
        On::Super,
        b"0 inflate @0\n0 decouple @0\n0 inflate v\n",
        b"0 0 reserved\n0 1 reserved\n0 2 no volume\n",
        b"0 df\n",
        b"0 0 df clusters 11 of 16 pages 15 of 16\n",
    ),
    // Each cause.
    (
        On::Empty,
        b"0 inflate v\n0 decouple @3\n0 create v 1 thin\n0 decouple v\n0 snapshot v s\n0 inflate s\n0 decouple s\n",
        b"0 0 no volume\n0 1 no volume\n0 2 ok @0\n0 3 no parent\n0 4 ok @1\n0 5 read only\n0 6 read only\n",
        b"0 list\n",
        b"0 0 list 2\nvolume @0 v slots 1 parent @1 thin rw xattrs 2\nvolume @1 s slots 1 parent - thin ro xattrs 2\n",
    ),
];

#[test]
fn slots_are_filled(rt: HostRuntime) -> Result<(), Fail> {
    for case in &CASES {
        expect_two_runs(rt.alloc(), case)?;
    }
    Ok(())
}
