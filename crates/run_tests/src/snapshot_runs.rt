//! Snapshots of volumes: they show what the volume showed, and the volume reads through them until it is written.

use page_disk::MemDisk;
use std::alloc::Global;
use std::test::Fail;
use test_runs::{On, TwoRuns, expect_two_runs, play};
use test_stores::{LAST, PageRow, THIN, image};

const CASES: [TwoRuns; 7] = [
    // A snapshot is read-only, and the volume's parent from then on.
    (
        On::Empty,
        b"0 create v 1 thin\n0 read v 4 1\n0 snapshot v s\n0 write s 0 1 1\n0 clone v d\n0 snapshot s t\n\
            0 read w 0 1\n",
        b"0 0 ok @0\n0 1 out of range\n0 2 ok @1\n0 3 read only\n0 4 not read only\n0 5 read only\n0 6 no volume\n",
        b"0 list\n0 put s k t:1\n0 resize s 0\n0 rename s t\n0 df\n",
        b"0 0 list 2\nvolume @0 v slots 1 parent @1 thin rw xattrs 2\n\
            volume @1 s slots 1 parent - thin ro xattrs 2\n0 1 read only\n0 2 read only\n0 3 read only\n\
            0 4 df clusters 11 of 16 pages 14 of 16\n",
    ),
    // It takes a page and no cluster. What is written behind it is in a cluster of the volume's own, with the slot's
    // other pages. A second snapshot stands between the volume and the first.
    (
        On::Empty,
        b"0 create v 2 thin\n0 write v 0 1 1\n0 write v 4 1 2\n0 snapshot v s\n0 df\n0 read v 0 2\n0 write v 1 1 3\n\
            0 read v 0 2\n0 read s 0 2\n0 snapshot v t\n0 write v 5 1 4\n0 read t 4 2\n0 read v 4 2\n0 df\n",
        b"0 0 ok @0\n0 1 ok\n0 2 ok\n0 3 ok @1\n0 4 df clusters 9 of 16 pages 14 of 16\n\
            0 5 page fill 0000000000000001\n0 6 page fill 0000000000000000\n0 7 ok\n\
            0 8 page fill 0000000000000001\n0 9 page fill 0000000000000003\n0 10 page fill 0000000000000001\n\
            0 11 page fill 0000000000000000\n0 12 ok @2\n0 13 ok\n0 14 page fill 0000000000000002\n\
            0 15 page fill 0000000000000000\n0 16 page fill 0000000000000002\n0 17 page fill 0000000000000004\n\
            0 18 df clusters 7 of 16 pages 13 of 16\n",
        b"0 list\n0 read s 0 2\n0 read t 0 2\n0 read v 0 2\n0 read s 4 2\n0 read v 4 2\n0 write t 0 1 1\n0 df\n",
        b"0 0 list 3\nvolume @0 v slots 2 parent @2 thin rw xattrs 2\n\
            volume @1 s slots 2 parent - thin ro xattrs 2\nvolume @2 t slots 2 parent @1 thin ro xattrs 2\n\
            0 1 page fill 0000000000000001\n0 2 page fill 0000000000000000\n0 3 page fill 0000000000000001\n\
            0 4 page fill 0000000000000003\n0 5 page fill 0000000000000001\n0 6 page fill 0000000000000003\n\
            0 7 page fill 0000000000000002\n0 8 page fill 0000000000000000\n0 9 page fill 0000000000000002\n\
            0 10 page fill 0000000000000004\n0 11 read only\n0 12 df clusters 7 of 16 pages 13 of 16\n",
    ),
    // A snapshot of a thick volume is thick, and the volume thin.
    (
        On::Empty,
        b"0 create v 2 thick\n0 write v 3 1 7\n0 snapshot v s\n0 info v\n0 info s\n0 df\n0 write v 0 1 8\n\
            0 read v 0 1\n0 read v 3 1\n0 read s 0 1\n0 read s 3 1\n0 df\n",
        b"0 0 ok @0\n0 1 ok\n0 2 ok @1\n0 3 volume @0 v slots 2 parent @1 thin rw xattrs 2\n\
            0 4 volume @1 s slots 2 parent - thick ro xattrs 2\n0 5 df clusters 9 of 16 pages 14 of 16\n0 6 ok\n\
            0 7 page fill 0000000000000008\n0 8 page fill 0000000000000007\n0 9 page fill 0000000000000000\n\
            0 10 page fill 0000000000000007\n0 11 df clusters 8 of 16 pages 14 of 16\n",
        b"0 resize v 1\n0 resize v 2\n0 read s 4 1\n0 clone s c\n0 read c 3 1\n0 df\n",
        b"0 0 ok\n0 1 short\n0 2 page fill 0000000000000000\n0 3 ok @2\n0 4 page fill 0000000000000007\n\
            0 5 df clusters 8 of 16 pages 13 of 16\n",
    ),
    // It has a name and the name's uuid, and no other attribute. What is pending stays the volume's, and is lost with
    // the run.
    (
        On::Empty,
        b"0 create w 1 thin\n0 put w k t:1\n0 setx w k t:2\n0 setx w l t:3\n0 snapshot w v\n0 getx w k\n0 getx w l\n\
            0 getx v k\n0 getx v l\n0 getx v name\n0 info v\n0 info w\n",
        b"0 0 ok @0\n0 1 ok\n0 2 ok\n0 3 ok\n0 4 ok @1\n0 5 value 32\n0 6 value 33\n0 7 no value\n0 8 no value\n\
            0 9 value 7600\n0 10 volume @1 v slots 1 parent - thin ro xattrs 2\n\
            0 11 volume @0 w slots 1 parent @1 thin rw xattrs 4\n",
        b"0 getx w k\n0 getx w l\n0 getx v uuid\n0 info w\n",
        b"0 0 value 31\n0 1 no value\n\
            0 2 value 38306532343334632d343636632d353961302d613336342d35643864303136303133333800\n\
            0 3 volume @0 w slots 1 parent @1 thin rw xattrs 3\n",
    ),
    // The causes in their order. The super blob's name is free, and a volume's own is taken.
    (
        On::Super,
        b"0 create w 1 thin\n0 snapshot v w\n0 snapshot @5 w\n0 snapshot @0 w\n0 snapshot w w\n0 snapshot w v\n\
            0 snapshot v w\n0 readonly w\n0 snapshot w w\n0 snapshot w x\n",
        b"0 0 ok @1\n0 1 no volume\n0 2 no volume\n0 3 reserved\n0 4 name taken\n0 5 ok @2\n0 6 read only\n0 7 ok\n\
            0 8 read only\n0 9 read only\n",
        b"0 list\n",
        b"0 0 list 2\nvolume @1 w slots 1 parent @2 thin ro xattrs 2\n\
            volume @2 v slots 1 parent - thin ro xattrs 2\n",
    ),
    // No page comes last of them: a volume with a chain of three pages takes two others then, and one is for the head.
    (
        On::Volume,
        b"0 snapshot v s\n0 snapshot v v\n0 create x 0 thin\n0 snapshot x s\n0 snapshot x t\n0 snapshot x s\n0 df\n",
        b"0 0 no page\n0 1 name taken\n0 2 ok @3\n0 3 ok @4\n0 4 no page\n0 5 name taken\n\
            0 6 df clusters 10 of 16 pages 0 of 5\n",
        b"0 list\n0 read v 16 1\n",
        b"0 0 list 3\nvolume @0 v slots 7 parent - thin rw xattrs 3\n\
            volume @3 x slots 0 parent @4 thin rw xattrs 2\nvolume @4 s slots 0 parent - thin ro xattrs 2\n\
            0 1 page fill 0000000000000000\n",
    ),
    // A volume without a name has a snapshot with one.
    (
        On::One,
        b"0 snapshot @1 s\n0 list\n",
        b"0 0 ok @0\n0 1 list 2\nvolume @0 s slots 0 parent - thick ro xattrs 2\n\
            volume @1 - slots 0 parent @0 thin rw xattrs 0\n",
        b"0 getx s name\n0 getx @1 name\n",
        b"0 0 value 7300\n0 1 no value\n",
    ),
];

#[test]
fn snapshots_show_what_was_there_and_outlast_the_run(rt: HostRuntime) -> Result<(), Fail> {
    for case in &CASES {
        expect_two_runs(rt.alloc(), case)?;
    }
    Ok(())
}

/// A map of 2^20 empty slots.
const MOST: &[u8] = b"\x01\x08\0\0\0\0\0\0\0\0\0\x10\0";

/// A store of 18 metadata pages whose 16 thin blobs have 2^24 slots together.
fn full_maps(alloc: Global) -> Result<MemDisk, Fail> {
    let mut rows: Vec<PageRow> = Vec::new(alloc);
    for head in 0..16 {
        rows.push((head, head, 0, LAST, &[THIN, MOST]))?;
    }
    image(alloc, (64, 18), &rows)
}

/// A snapshot has the slots of its volume, and both count. Where a name is taken that is told first.
#[test]
fn a_snapshot_is_refused_for_a_slot_too_many(rt: HostRuntime) -> Result<(), Fail> {
    let script =
        b"0 snapshot @0 t\n0 resize @15 0\n0 snapshot @0 t\n0 snapshot @1 t\n0 snapshot @1 u\n0 df\n";
    let printed = b"0 0 too large\n0 1 ok\n0 2 ok @16\n0 3 name taken\n0 4 too large\n\
        0 5 df clusters 10 of 16 pages 1 of 18\n";
    play(rt.alloc(), script, printed, full_maps(rt.alloc())?)?;
    Ok(())
}
