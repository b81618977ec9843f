//! Channels that take turns by a schedule, and then in rounds.

use page_disk::MemDisk;
use std::alloc::Global;
use std::test::Fail;
use test_runs::{Call, Scheduled, Status, expect_printed, expect_scheduled, perform};
use test_stores::image;

const NINE_SETS: &[u8] =
    b"0 setx v k t:0\n1 setx v k t:1\n2 setx v k t:2\n3 setx v k t:3\n4 setx v k t:4\n\
    5 setx v k t:5\n6 setx v k t:6\n7 setx v k t:7\n8 setx v k t:8\n8 getx v k\n";

const NINE_ANSWERS: &[u8] =
    b"0 0 ok\n1 0 ok\n2 0 ok\n3 0 ok\n4 0 ok\n5 0 ok\n6 0 ok\n7 0 ok\n8 0 ok\n8 1 value 38\n";

const CASES: [Scheduled; 14] = [
    // Both channels claim a cluster for the slot. The first insert wins, and the other write begins again in its
    // cluster.
    (
        (b"0 create v 1 thin\n", b"0 0 ok @0\n"),
        (
            "run store.img --schedule 0*2,1*2",
            b"0 write v 0 1 10\n1 write v 1 1 11\n",
            b"0 0 ok\n1 0 ok\n",
        ),
        (
            b"0 read v 0 2\n0 df\n",
            b"0 0 page fill 000000000000000a\n0 1 page fill 000000000000000b\n\
                0 2 df clusters 10 of 16 pages 15 of 16\n",
        ),
    ),
    // The slot is cut off while its pages are copied. The copies are lost, and the cluster is clear again.
    (
        (b"0 create v 2 thin\n", b"0 0 ok @0\n"),
        (
            "run store.img --schedule 0*6,1+m*200",
            b"0 write v 4 1 1\n1 resize v 1\n",
            b"1 0 ok\n0 0 out of range\n",
        ),
        (b"0 df\n", b"0 0 df clusters 11 of 16 pages 15 of 16\n"),
    ),
    // Nine channels post, and eight messages fill the queue. The ninth is sent once there is room.
    (
        (b"0 create v 0 thin\n", b"0 0 ok @0\n"),
        (
            "run store.img --schedule 0+1+2+3+4+5+6+7+8*3",
            NINE_SETS,
            NINE_ANSWERS,
        ),
        (b"0 getx v k\n", b"0 0 no value\n"),
    ),
    // The steps say who is first: the metadata thread serves the messages in their order.
    (
        (b"0 create v 0 thin\n", b"0 0 ok @0\n"),
        (
            "run store.img --schedule 8*2,7*2,6*2,5*2,4*2,3*2,2*2,1*2,0*2",
            b"0 setx v k t:0\n1 setx v k t:1\n8 setx v k t:8\n",
            b"8 0 ok\n1 0 ok\n0 0 ok\n",
        ),
        (b"0 df\n", b"0 0 df clusters 11 of 16 pages 15 of 16\n"),
    ),
    // A channel that has ended makes no step, nor does a number that is no channel of the script.
    (
        (b"0 create v 1 thick\n", b"0 0 ok @0\n"),
        (
            "run store.img --schedule 15*7,1*9,0+15*3,m",
            b"1 flush\n0 write v 3 1 5\n0 read v 3 1\n",
            b"1 0 ok\n0 0 ok\n0 1 page fill 0000000000000005\n",
        ),
        (b"0 read v 3 1\n", b"0 0 page fill 0000000000000005\n"),
    ),
    // The metadata thread alone has nothing to do.
    (
        (b"0 create v 1 thick\n", b"0 0 ok @0\n"),
        (
            "run store.img --schedule m*65536",
            b"0 write v 0 1 1\n3 put v k t:1\n",
            b"0 0 ok\n3 0 ok\n",
        ),
        (b"0 getx v k\n", b"0 0 value 31\n"),
    ),
    // One channel, which is the last.
    (
        (b"", b""),
        (
            "run store.img",
            b"15 create v 1 thin\n15 write v 0 1 1\n15 read v 0 1\n",
            b"15 0 ok @0\n15 1 ok\n15 2 page fill 0000000000000001\n",
        ),
        (b"0 read v 0 1\n", b"0 0 page fill 0000000000000001\n"),
    ),
    // A read beside a job of another channel waits for nothing.
    (
        (b"0 create v 1 thick\n", b"0 0 ok @0\n"),
        (
            "run store.img --schedule 1*2,m*3,0",
            b"0 read v 0 1\n1 create w 4 thick\n",
            b"0 0 page fill 0000000000000000\n1 0 ok @1\n",
        ),
        (b"0 df\n", b"0 0 df clusters 6 of 16 pages 14 of 16\n"),
    ),
    // What channel 0 has copied is out of date once the volume has another snapshot, whose slot the other channel
    // filled. Its claim is lost, and it copies what the snapshot shows.
    (
        (
            b"0 create a 1 thin\n0 write a 0 1 1\n0 snapshot a s\n",
            b"0 0 ok @0\n0 1 ok\n0 2 ok @1\n",
        ),
        (
            "run store.img --schedule 0*6,1+m*200",
            b"0 write a 1 1 20\n1 write a 0 1 21\n1 snapshot a t\n",
            b"1 0 ok\n1 1 ok @2\n0 0 ok\n",
        ),
        (
            b"0 read a 0 2\n0 read t 0 2\n0 df\n",
            b"0 0 page fill 0000000000000015\n0 1 page fill 0000000000000014\n\
                0 2 page fill 0000000000000015\n0 3 page fill 0000000000000000\n\
                0 4 df clusters 8 of 16 pages 13 of 16\n",
        ),
    ),
    // While a snapshot is made the volume is neither read nor written; another one is.
    (
        (
            b"0 create v 1 thick\n0 create w 1 thick\n0 write v 0 1 1\n",
            b"0 0 ok @0\n0 1 ok @1\n0 2 ok\n",
        ),
        (
            "run store.img --schedule 1*2,m*2,0+2+3*9",
            b"0 write v 0 1 2\n0 read v 0 1\n1 snapshot v s\n2 write w 0 1 5\n2 read w 0 1\n3 read v 0 1\n",
            b"2 0 ok\n2 1 page fill 0000000000000005\n1 0 ok @2\n3 0 page fill 0000000000000001\n0 0 ok\n\
                0 1 page fill 0000000000000002\n",
        ),
        (
            b"0 read s 0 1\n0 read v 0 1\n",
            b"0 0 page fill 0000000000000001\n0 1 page fill 0000000000000002\n",
        ),
    ),
    // The parent is deleted while a slot of its clone is copied. The clone has the parent's cluster by then.
    (
        (
            b"0 create v 1 thin\n0 write v 0 1 1\n0 snapshot v s\n",
            b"0 0 ok @0\n0 1 ok\n0 2 ok @1\n",
        ),
        (
            "run store.img --schedule 0*6,1+m*200",
            b"0 write v 1 1 20\n1 delete s\n",
            b"1 0 ok\n0 0 ok\n",
        ),
        (
            b"0 read v 0 2\n0 df\n",
            b"0 0 page fill 0000000000000001\n0 1 page fill 0000000000000014\n\
                0 2 df clusters 10 of 16 pages 15 of 16\n",
        ),
    ),
    // The volume is deleted while its slot is copied.
    (
        (b"0 create v 2 thin\n", b"0 0 ok @0\n"),
        (
            "run store.img --schedule 0*6,1+m*200",
            b"0 write v 4 1 1\n1 delete v\n",
            b"1 0 ok\n0 0 no volume\n",
        ),
        (b"0 df\n", b"0 0 df clusters 11 of 16 pages 16 of 16\n"),
    ),
    // The same, and one of its name is made at its head: the copies are lost, and the new one is written.
    (
        (
            b"0 create v 2 thick\n0 write v 5 1 9\n0 snapshot v s\n",
            b"0 0 ok @0\n0 1 ok\n0 2 ok @1\n",
        ),
        (
            "run store.img --schedule 0*6,1+m*200",
            b"0 write v 4 1 1\n1 delete v\n1 create v 2 thin\n",
            b"1 0 ok\n1 1 ok @0\n0 0 ok\n",
        ),
        (
            b"0 read v 4 2\n0 df\n",
            b"0 0 page fill 0000000000000001\n0 1 page fill 0000000000000000\n\
                0 2 df clusters 8 of 16 pages 14 of 16\n",
        ),
    ),
    // No script, no step.
    (
        (b"0 create v 1 thin\n", b"0 0 ok @0\n"),
        ("run store.img --schedule 0+m*9", b"", b""),
        (b"0 df\n", b"0 0 df clusters 11 of 16 pages 15 of 16\n"),
    ),
];

/// Words that are no command, since what stands in place of a schedule is none.
const NO_COMMANDS: [&str; 9] = [
    "run store.img --schedule",
    "run store.img --schedule 16",
    "run store.img --schedule 0*0",
    "run store.img --schedule 0*65537",
    "run store.img --schedule m*65536,0",
    "run store.img --schedule 0,",
    "run store.img --schedule 01",
    "run store.img --schedules 0",
    "run store.img --schedule 0 --schedule 0",
];

/// A store with clusters of 4 pages, of which 16 are on the device, and without a blob.
fn empty(alloc: Global) -> Result<MemDisk, Fail> {
    image(alloc, (64, 16), &[])
}

#[test]
fn channels_take_turns_by_a_schedule(rt: HostRuntime) -> Result<(), Fail> {
    for case in &CASES {
        expect_scheduled(rt.alloc(), case)?;
    }
    Ok(())
}

#[test]
fn other_words_are_no_schedule(rt: HostRuntime) -> Result<(), Fail> {
    for line in &NO_COMMANDS {
        let ran = perform(
            rt.alloc(),
            &Call::new(line, b"0 flush\n"),
            empty(rt.alloc())?,
        )?;
        if !matches!(ran.status, Status::Usage) {
            return Err(Fail::new(format_args!("{line} ended with {:?}", ran.status)));
        }
        expect_printed(&ran.out, b"")?;
    }
    Ok(())
}
