//! Volumes that are inflated or decoupled while other channels ask for something.

use std::test::Fail;
use test_runs::{Scheduled, expect_scheduled};

/// A thin volume with a written page, and its snapshot.
const SNAPSHOT: (&[u8], &[u8]) = (
    b"0 create v 2 thin\n0 write v 4 1 1\n0 snapshot v s\n",
    b"0 0 ok @0\n0 1 ok\n0 2 ok @1\n",
);

/// A channel copies a slot, and another one then changes the volume, so that the slot shows something else when the
/// copies are ready. Six steps of a channel find the slot empty, claim a cluster and copy four pages.
const OUT_OF_DATE: [Scheduled; 4] = [
    // A decouple fills the slot, which is cut off and added again. It reads as zeros without the parent.
    (
        SNAPSHOT,
        (
            "run store.img --schedule 0*6,1+m*200",
            b"0 write v 5 1 9\n1 decouple v\n1 resize v 1\n1 resize v 2\n",
            b"1 0 ok\n1 1 ok\n1 2 ok\n0 0 ok\n",
        ),
        (
            b"0 read v 4 2\n0 info v\n0 df\n",
            b"0 0 page fill 0000000000000000\n0 1 page fill 0000000000000009\n\
                0 2 volume @0 v slots 2 parent - thin rw xattrs 2\n0 3 df clusters 9 of 16 pages 14 of 16\n",
        ),
    ),
    // The delete of the parent puts its cluster there, and the same follows.
    (
        SNAPSHOT,
        (
            "run store.img --schedule 0*6,1+m*200",
            b"0 write v 5 1 9\n1 delete s\n1 resize v 1\n1 resize v 2\n",
            b"1 0 ok\n1 1 ok\n1 2 ok\n0 0 ok\n",
        ),
        (
            b"0 read v 4 2\n0 info v\n0 df\n",
            b"0 0 page fill 0000000000000000\n0 1 page fill 0000000000000009\n\
                0 2 volume @0 v slots 2 parent - thin rw xattrs 2\n0 3 df clusters 10 of 16 pages 15 of 16\n",
        ),
    ),
    // An inflate fills both slots, the second is cut off, and the first is written in its cluster.
    (
        SNAPSHOT,
        (
            "run store.img --schedule 0*6,1+m*200",
            b"0 write v 5 1 9\n1 inflate v\n1 resize v 1\n1 write v 0 1 3\n1 delete s\n",
            b"1 0 ok\n1 1 ok\n1 2 ok\n1 3 ok\n0 0 out of range\n",
        ),
        (
            b"0 read v 0 2\n0 info v\n0 df\n",
            b"0 0 page fill 0000000000000003\n0 1 page fill 0000000000000000\n\
                0 2 volume @0 v slots 1 parent - thick rw xattrs 2\n0 3 df clusters 10 of 16 pages 15 of 16\n",
        ),
    ),
    // A second snapshot comes between; the volume, which is filled by then, is inflated and its first parent deleted.
    (
        (
            b"0 create a 1 thin\n0 write a 0 1 1\n0 snapshot a s\n",
            b"0 0 ok @0\n0 1 ok\n0 2 ok @1\n",
        ),
        (
            "run store.img --schedule 0*6,1+m*200",
            b"0 write a 1 1 20\n1 write a 0 1 21\n1 snapshot a t\n",
            b"1 0 ok\n1 1 ok @2\n0 0 ok\n",
        ),
        (
            b"0 inflate a\n0 delete s\n0 info a\n",
            b"0 0 ok\n0 1 ok\n0 2 volume @0 a slots 1 parent - thick rw xattrs 2\n",
        ),
    ),
];

#[test]
fn what_was_copied_before_a_fill_ended_is_out_of_date(rt: HostRuntime) -> Result<(), Fail> {
    for case in &OUT_OF_DATE {
        expect_scheduled(rt.alloc(), case)?;
    }
    Ok(())
}

/// A volume with a snapshot is inflated, and another one has five empty slots.
const TWO_VOLUMES: (&[u8], &[u8]) = (
    b"0 create v 2 thin\n0 create w 5 thin\n0 write v 4 1 7\n0 snapshot v s\n",
    b"0 0 ok @0\n0 1 ok @1\n0 2 ok\n0 3 ok @2\n",
);

/// Beside the inflate a channel writes to an empty slot of its volume and to five of another one, and a third channel
/// reads two pages of the volume and sets an attribute, which waits until the inflate has ended.
const BESIDE: &[u8] =
    b"0 inflate v\n1 write v 5 1 15\n1 write w 0 1 10\n1 write w 4 1 11\n1 write w 8 1 12\n\
    1 write w 12 1 13\n1 write w 16 1 14\n2 read v 4 2\n2 setx w k t:1\n";

const BESIDE_LOOK: (&[u8], &[u8]) = (
    b"0 info v\n0 read v 4 2\n0 read s 5 1\n0 read w 0 1\n0 read w 16 1\n0 info w\n0 df\n",
    b"0 0 volume @0 v slots 2 parent - thick rw xattrs 2\n0 1 page fill 0000000000000007\n\
        0 2 page fill 000000000000000f\n0 3 page fill 0000000000000000\n0 4 page fill 000000000000000a\n\
        0 5 page fill 000000000000000e\n0 6 volume @1 w slots 5 parent - thin rw xattrs 2\n\
        0 7 df clusters 3 of 16 pages 13 of 16\n",
);

/// A message that is queued is taken before the fill's next turn, and an insert is served at once. Of a channel eight
/// steps claim and copy a slot and send its insert, and two more settle it and write the page. The metadata thread
/// takes the inflate, claims, copies four pages, posts, begins its insert, makes its one turn, settles, and claims for
/// the next slot: eleven steps. Taking an insert, beginning it, and its job's turn are three. The first job of the run,
/// whosever it is, has a turn more, which marks the store as in use.
const INSERTS_GO_FIRST: [Scheduled; 6] = [
    (
        TWO_VOLUMES,
        (
            "run store.img --schedule 0+1+2+m*300",
            BESIDE,
            b"2 0 page fill 0000000000000007\n2 1 page fill 0000000000000000\n1 0 ok\n0 0 ok\n2 2 ok\n1 1 ok\n1 2 ok\n\
                1 3 ok\n1 4 ok\n1 5 ok\n",
        ),
        BESIDE_LOOK,
    ),
    // The insert comes before the second slot is reached.
    (
        TWO_VOLUMES,
        (
            "run store.img --schedule 0*2,m*3,1*8,m*4,1*2,2*4,m*200",
            BESIDE,
            b"1 0 ok\n2 0 page fill 0000000000000007\n2 1 page fill 000000000000000f\n0 0 ok\n2 2 ok\n1 1 ok\n1 2 ok\n\
                1 3 ok\n1 4 ok\n1 5 ok\n",
        ),
        BESIDE_LOOK,
    ),
    // It comes while that slot is copied for the inflate, whose claim is lost.
    (
        TWO_VOLUMES,
        (
            "run store.img --schedule 0*2,m*13,1*8,m*3,1*2,m*200",
            BESIDE,
            b"1 0 ok\n0 0 ok\n2 0 page fill 0000000000000007\n2 1 page fill 000000000000000f\n2 2 ok\n1 1 ok\n1 2 ok\n\
                1 3 ok\n1 4 ok\n1 5 ok\n",
        ),
        BESIDE_LOOK,
    ),
    // It comes too late: the inflate has filled the slot, and the page is written there.
    (
        TWO_VOLUMES,
        (
            "run store.img --schedule 0*2,1*7,m*18,1,m*2,1*3,m*200",
            BESIDE,
            b"0 0 ok\n2 0 page fill 0000000000000007\n1 0 ok\n2 1 page fill 000000000000000f\n2 2 ok\n1 1 ok\n1 2 ok\n\
                1 3 ok\n1 4 ok\n1 5 ok\n",
        ),
        BESIDE_LOOK,
    ),
    // Its message is queued behind the inflate's, and is taken once the first slot is claimed.
    (
        TWO_VOLUMES,
        (
            "run store.img --schedule 0*2,1*8,m*6,1*2,m*200",
            BESIDE,
            b"1 0 ok\n0 0 ok\n2 0 page fill 0000000000000007\n2 1 page fill 000000000000000f\n2 2 ok\n1 1 ok\n1 2 ok\n\
                1 3 ok\n1 4 ok\n1 5 ok\n",
        ),
        BESIDE_LOOK,
    ),
    // The attribute waits, and an insert that is sent behind it doesn't.
    (
        TWO_VOLUMES,
        (
            "run store.img --schedule 0*2,m*13,2*4,1*8,m*4,1*10,m*3,1*2,m*200",
            BESIDE,
            b"2 0 page fill 0000000000000007\n2 1 page fill 0000000000000000\n1 0 ok\n1 1 ok\n0 0 ok\n2 2 ok\n1 2 ok\n\
                1 3 ok\n1 4 ok\n1 5 ok\n",
        ),
        BESIDE_LOOK,
    ),
];

#[test]
fn inserts_are_served_before_the_next_turn_of_a_fill(rt: HostRuntime) -> Result<(), Fail> {
    for case in &INSERTS_GO_FIRST {
        expect_scheduled(rt.alloc(), case)?;
    }
    Ok(())
}

/// Each of sixteen channels asks for something.
const SIXTEEN: &[u8] =
    b"0 inflate v\n1 getx v k\n2 setx v k t:2\n3 setx v k t:3\n4 setx v k t:4\n5 setx v k t:5\n\
    6 setx v k t:6\n7 setx v k t:7\n8 setx v k t:8\n9 setx v k t:9\n10 setx v k t:a\n11 setx v k t:b\n\
    12 setx v k t:c\n13 setx v k t:d\n14 setx v k t:e\n15 setx v k t:f\n";

const SIXTEEN_MADE: (&[u8], &[u8]) = (b"0 create v 2 thin\n", b"0 0 ok @0\n");

const SIXTEEN_LOOK: (&[u8], &[u8]) = (
    b"0 info v\n0 df\n",
    b"0 0 volume @0 v slots 2 parent - thick rw xattrs 2\n0 1 df clusters 9 of 16 pages 15 of 16\n",
);

/// While a volume is inflated, commands wait.
const WAITING: [Scheduled; 3] = [
    // The last channel's comes first, then that of the one before it, and so on.
    (
        SIXTEEN_MADE,
        (
            "run store.img --schedule 0*2,m*3,15*2,m,14*2,m,13*2,m,12*2,m,11*2,m,10*2,m,9*2,m,8*2,m,7*2,m,6*2,m,5*2,m,\
                4*2,m,3*2,m,2*2,m,1*2,m",
            SIXTEEN,
            b"0 0 ok\n15 0 ok\n14 0 ok\n13 0 ok\n12 0 ok\n11 0 ok\n10 0 ok\n9 0 ok\n8 0 ok\n7 0 ok\n6 0 ok\n5 0 ok\n\
                4 0 ok\n3 0 ok\n2 0 ok\n1 0 value 32\n",
        ),
        SIXTEEN_LOOK,
    ),
    // Eight messages fill the queue before the inflate begins, and the other channels send theirs behind its end.
    (
        SIXTEEN_MADE,
        (
            "run store.img --schedule 0+1+2+3+4+5+6+7+8+9+10+11+12+13+14+15*3,m*400",
            SIXTEEN,
            b"0 0 ok\n1 0 no value\n2 0 ok\n3 0 ok\n4 0 ok\n5 0 ok\n6 0 ok\n7 0 ok\n8 0 ok\n9 0 ok\n10 0 ok\n11 0 ok\n\
                12 0 ok\n13 0 ok\n14 0 ok\n15 0 ok\n",
        ),
        SIXTEEN_LOOK,
    ),
    // What waits may be another inflate, and a delete: one of the volume's name is then no more.
    (
        SIXTEEN_MADE,
        (
            "run store.img --schedule 0*2,m*3,1*2,m,2*2,m,3*2,m,4*2,m",
            b"0 inflate v\n1 inflate v\n2 delete v\n3 create v 1 thin\n4 inflate v\n",
            b"0 0 ok\n1 0 ok\n2 0 ok\n3 0 ok @0\n4 0 ok\n",
        ),
        (
            b"0 info v\n0 df\n",
            b"0 0 volume @0 v slots 1 parent - thick rw xattrs 2\n0 1 df clusters 10 of 16 pages 15 of 16\n",
        ),
    ),
];

#[test]
fn commands_that_wait_for_a_fill_are_served_in_order_of_arrival(
    rt: HostRuntime,
) -> Result<(), Fail> {
    for case in &WAITING {
        expect_scheduled(rt.alloc(), case)?;
    }
    Ok(())
}
