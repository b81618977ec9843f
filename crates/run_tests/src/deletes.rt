//! Volumes that are deleted: what they had is clear, or goes to their one clone.

use page_disk::MemDisk;
use std::alloc::Global;
use std::test::Fail;
use test_lines::push_long;
use test_runs::{On, TwoRuns, expect_two_runs, play};
use test_stores::{LAST, PageRow, READ_ONLY, THIN, image};

const CASES: [TwoRuns; 9] = [
    // A snapshot with two clones stays. With one it goes, and the clone reads as before.
    (
        On::Empty,
        b"0 create v 1 thin\n0 write v 0 1 5\n0 snapshot v s\n0 clone s c\n0 read c 0 1\n0 delete s\n0 delete c\n\
            0 delete s\n0 read v 0 1\n0 df\n",
        b"0 0 ok @0\n0 1 ok\n0 2 ok @1\n0 3 ok @2\n0 4 page fill 0000000000000005\n0 5 busy 2\n0 6 ok\n0 7 ok\n\
            0 8 page fill 0000000000000005\n0 9 df clusters 10 of 16 pages 15 of 16\n",
        b"0 list\n0 read v 0 1\n0 df\n",
        b"0 0 list 1\nvolume @0 v slots 1 parent - thin rw xattrs 2\n0 1 page fill 0000000000000005\n\
            0 2 df clusters 10 of 16 pages 15 of 16\n",
    ),
    // Its page, its clusters and its name are free then, and what it held isn't read again.
    (
        On::Empty,
        b"0 create v 2 thick\n0 write v 0 1 7\n0 df\n0 delete v\n0 df\n0 read v 0 1\n0 delete v\n0 create v 2 thin\n\
            0 read v 0 1\n0 info v\n0 create w 2 thick\n0 read w 0 1\n0 df\n",
        b"0 0 ok @0\n0 1 ok\n0 2 df clusters 9 of 16 pages 15 of 16\n0 3 ok\n\
            0 4 df clusters 11 of 16 pages 16 of 16\n0 5 no volume\n0 6 no volume\n0 7 ok @0\n\
            0 8 page fill 0000000000000000\n0 9 volume @0 v slots 2 parent - thin rw xattrs 2\n0 10 ok @1\n\
            0 11 page fill 0000000000000000\n0 12 df clusters 9 of 16 pages 14 of 16\n",
        b"0 delete @1\n0 delete w\n0 list\n0 df\n",
        b"0 0 ok\n0 1 no volume\n0 2 list 1\nvolume @0 v slots 2 parent - thin rw xattrs 2\n\
            0 3 df clusters 11 of 16 pages 15 of 16\n",
    ),
    // The last cluster is wanted, and a delete gives one.
    (
        On::Empty,
        b"0 create w 1 thick\n0 create v 12 thin\n0 write v 0 1 1\n0 write v 4 1 2\n0 write v 8 1 3\n0 write v 12 1 4\n\
            0 write v 16 1 5\n0 write v 20 1 6\n0 write v 24 1 7\n0 write v 28 1 8\n0 write v 32 1 9\n\
            0 write v 36 1 10\n0 write v 40 1 11\n0 delete w\n0 write v 40 1 11\n",
        b"0 0 ok @0\n0 1 ok @1\n0 2 ok\n0 3 ok\n0 4 ok\n0 5 ok\n0 6 ok\n0 7 ok\n0 8 ok\n0 9 ok\n0 10 ok\n0 11 ok\n\
            0 12 full\n0 13 ok\n0 14 ok\n",
        b"0 read v 40 1\n0 read v 36 1\n0 df\n",
        b"0 0 page fill 000000000000000b\n0 1 page fill 000000000000000a\n\
            0 2 df clusters 0 of 16 pages 15 of 16\n",
    ),
    // The clone takes the clusters of the slots that it hasn't filled. The cluster of the one that it has is clear, and
    // the next that is claimed.
    (
        On::Empty,
        b"0 create v 3 thin\n0 write v 0 1 1\n0 write v 4 1 2\n0 snapshot v s\n0 write v 0 1 3\n0 df\n0 delete s\n\
            0 df\n0 read v 0 2\n0 read v 4 1\n0 read v 8 1\n0 info v\n0 write v 9 1 4\n0 read v 8 2\n0 df\n",
        b"0 0 ok @0\n0 1 ok\n0 2 ok\n0 3 ok @1\n0 4 ok\n0 5 df clusters 8 of 16 pages 14 of 16\n0 6 ok\n\
            0 7 df clusters 9 of 16 pages 15 of 16\n0 8 page fill 0000000000000003\n\
            0 9 page fill 0000000000000000\n0 10 page fill 0000000000000002\n0 11 page fill 0000000000000000\n\
            0 12 volume @0 v slots 3 parent - thin rw xattrs 2\n0 13 ok\n0 14 page fill 0000000000000000\n\
            0 15 page fill 0000000000000004\n0 16 df clusters 8 of 16 pages 15 of 16\n",
        b"0 read v 0 1\n0 read v 4 1\n0 read v 8 2\n0 df\n",
        b"0 0 page fill 0000000000000003\n0 1 page fill 0000000000000002\n0 2 page fill 0000000000000000\n\
            0 3 page fill 0000000000000004\n0 4 df clusters 8 of 16 pages 15 of 16\n",
    ),
    // A snapshot takes over from one below it, and a volume from the snapshot, with the parent of what goes.
    (
        On::Empty,
        b"0 create v 2 thin\n0 write v 0 1 1\n0 snapshot v r\n0 write v 4 1 2\n0 snapshot v s\n0 write v 0 1 3\n\
            0 snapshot v t\n0 delete r\n0 info s\n0 read s 0 1\n0 read s 4 1\n0 delete t\n0 info v\n0 read v 0 1\n\
            0 read v 4 1\n0 df\n",
        b"0 0 ok @0\n0 1 ok\n0 2 ok @1\n0 3 ok\n0 4 ok @2\n0 5 ok\n0 6 ok @3\n0 7 ok\n\
            0 8 volume @2 s slots 2 parent - thin ro xattrs 2\n0 9 page fill 0000000000000001\n\
            0 10 page fill 0000000000000002\n0 11 ok\n0 12 volume @0 v slots 2 parent @2 thin rw xattrs 2\n\
            0 13 page fill 0000000000000003\n0 14 page fill 0000000000000002\n\
            0 15 df clusters 8 of 16 pages 14 of 16\n",
        b"0 delete s\n0 list\n0 read v 0 1\n0 read v 4 1\n0 df\n",
        b"0 0 ok\n0 1 list 1\nvolume @0 v slots 2 parent - thin rw xattrs 2\n0 2 page fill 0000000000000003\n\
            0 3 page fill 0000000000000002\n0 4 df clusters 9 of 16 pages 15 of 16\n",
    ),
    // Attributes that are pending stay so.
    (
        On::Empty,
        b"0 create v 1 thin\n0 put v k t:1\n0 snapshot v s\n0 setx v k t:2\n0 delete s\n0 getx v k\n0 info v\n",
        b"0 0 ok @0\n0 1 ok\n0 2 ok @1\n0 3 ok\n0 4 ok\n0 5 value 32\n\
            0 6 volume @0 v slots 1 parent - thin rw xattrs 3\n",
        b"0 getx v k\n0 getx v name\n",
        b"0 0 value 31\n0 1 value 7600\n",
    ),
    // The super blob stays, and has no name by which it is meant.
    (
        On::Super,
        b"0 delete v\n0 delete @7\n0 delete @0\n0 create v 1 thin\n0 delete v\n0 delete v\n0 info @0\n",
        b"0 0 no volume\n0 1 no volume\n0 2 reserved\n0 3 ok @1\n0 4 ok\n0 5 no volume\n\
            0 6 volume @0 v slots 0 parent - thin rw xattrs 2\n",
        b"0 list\n0 df\n",
        b"0 0 list 0\n0 1 df clusters 11 of 16 pages 15 of 16\n",
    ),
    // It is told how many clones there are. The last of them takes over.
    (
        On::Empty,
        b"0 create v 1 thin\n0 write v 0 1 1\n0 readonly v\n0 clone v a\n0 clone v b\n0 clone v c\n0 write b 0 1 2\n\
            0 delete v\n0 delete b\n0 delete v\n0 delete a\n0 delete v\n0 info c\n0 read c 0 1\n0 write c 0 1 3\n\
            0 df\n",
        b"0 0 ok @0\n0 1 ok\n0 2 ok\n0 3 ok @1\n0 4 ok @2\n0 5 ok @3\n0 6 ok\n0 7 busy 3\n0 8 ok\n0 9 busy 2\n0 10 ok\n\
            0 11 ok\n0 12 volume @3 c slots 1 parent - thin rw xattrs 2\n0 13 page fill 0000000000000001\n0 14 ok\n\
            0 15 df clusters 10 of 16 pages 15 of 16\n",
        b"0 read c 0 1\n0 info @0\n",
        b"0 0 page fill 0000000000000003\n0 1 no volume\n",
    ),
    // One that is shorter than its parent and its one clone stays: the clone would read of the parent what it doesn't.
    (
        On::Empty,
        b"0 create v 2 thin\n0 snapshot v s\n0 resize v 1\n0 resize v 2\n0 snapshot v t\n0 resize v 2\n0 delete t\n\
            0 clone t c\n0 delete t\n0 delete c\n0 delete t\n0 resize v 1\n0 delete t\n0 info v\n",
        b"0 0 ok @0\n0 1 ok @1\n0 2 ok\n0 3 short\n0 4 ok @2\n0 5 ok\n0 6 short\n0 7 ok @3\n0 8 busy 2\n0 9 ok\n\
            0 10 short\n0 11 ok\n0 12 ok\n0 13 volume @0 v slots 1 parent @1 thin rw xattrs 2\n",
        b"0 resize v 2\n0 delete s\n0 resize v 2\n0 list\n",
        b"0 0 short\n0 1 ok\n0 2 ok\n0 3 list 1\nvolume @0 v slots 2 parent - thin rw xattrs 2\n",
    ),
];

#[test]
fn deleted_volumes_leave_what_others_show(rt: HostRuntime) -> Result<(), Fail> {
    for case in &CASES {
        expect_two_runs(rt.alloc(), case)?;
    }
    Ok(())
}

/// Flags of thin blobs with a bit that is unknown: the fourth of `md_ro`, or the second of `data_ro`.
const LOCKED: &[u8] = b"\x03\x18\0\0\0\x01\0\0\0\0\0\0\0\0\0\0\0\0\0\0\0\x08\0\0\0\0\0\0\0";

const LOCKED_DATA: &[u8] = b"\x03\x18\0\0\0\x01\0\0\0\0\0\0\0\x02\0\0\0\0\0\0\0\0\0\0\0\0\0\0\0";

/// An internal attribute that names the blob at head 0 as the parent.
const SNAP: &[u8] = b"\x04\x10\0\0\0\x04\0\x08\0SNAP\0\0\0\0\x01\0\0\0";

/// The metadata pages of a store, a script, and what it prints.
type LockedCase = (&'static [PageRow], &'static [u8], &'static [u8]);

const LOCKED_CASES: [LockedCase; 3] = [
    // Neither a locked volume is deleted nor the parent of one, if that is its one clone.
    (
        &[
            (0, 0, 0, LAST, &[READ_ONLY]),
            (1, 1, 0, LAST, &[LOCKED, SNAP]),
        ],
        b"0 delete @1\n0 delete @0\n0 snapshot @1 s\n0 info @1\n",
        b"0 0 read only\n0 1 read only\n0 2 read only\n0 3 volume @1 - slots 0 parent @0 thin ro xattrs 0\n",
    ),
    // With another clone it is busy.
    (
        &[
            (0, 0, 0, LAST, &[READ_ONLY]),
            (1, 1, 0, LAST, &[LOCKED_DATA, SNAP]),
            (2, 2, 0, LAST, &[THIN, SNAP]),
        ],
        b"0 delete @0\n0 delete @2\n0 delete @0\n0 delete @1\n",
        b"0 0 busy 2\n0 1 ok\n0 2 read only\n0 3 read only\n",
    ),
    // That a volume is locked comes before its clones.
    (
        &[
            (0, 0, 0, LAST, &[LOCKED]),
            (1, 1, 0, LAST, &[THIN, SNAP]),
            (2, 2, 0, LAST, &[THIN, SNAP]),
        ],
        b"0 delete @0\n0 delete @1\n0 delete @2\n0 delete @0\n",
        b"0 0 read only\n0 1 ok\n0 2 ok\n0 3 read only\n",
    ),
];

#[test]
fn locked_volumes_stay(rt: HostRuntime) -> Result<(), Fail> {
    for (rows, script, printed) in &LOCKED_CASES {
        play(
            rt.alloc(),
            script,
            printed,
            image(rt.alloc(), (64, 16), rows)?,
        )?;
    }
    Ok(())
}

/// A store of six metadata pages: the volume `v` has a chain of three, its snapshot `s` one, and two are clear.
fn long_family(alloc: Global) -> Result<MemDisk, Fail> {
    let mut script = Vec::new(alloc);
    script.extend_from_slice(b"0 create v 1 thin\n")?;
    push_long(&mut script, b"0 put v k t:", (b'x', 4062))?;
    script.extend_from_slice(b"0 snapshot v s\n")?;
    play(
        alloc,
        &script,
        b"0 0 ok @0\n0 1 ok\n0 2 ok @3\n",
        image(alloc, (64, 6), &[])?,
    )
}

/// No page comes last of the causes: the clone's new chain takes two pages beside its head, while it has the old one.
#[test]
fn a_delete_takes_the_pages_of_its_clone(rt: HostRuntime) -> Result<(), Fail> {
    let disk = long_family(rt.alloc())?;
    let script = b"0 create x 0 thin\n0 delete s\n0 delete x\n0 delete s\n0 info v\n0 df\n";
    let printed =
        b"0 0 ok @1\n0 1 no page\n0 2 ok\n0 3 ok\n0 4 volume @0 v slots 1 parent - thin rw xattrs 3\n\
        0 5 df clusters 13 of 16 pages 3 of 6\n";
    play(rt.alloc(), script, printed, disk)?;
    Ok(())
}
