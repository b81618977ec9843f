//! Clones of read-only volumes: they read what their parent shows, and are written in clusters of their own.

use std::test::Fail;
use test_runs::{On, TwoRuns, expect_two_runs};

const CASES: [TwoRuns; 6] = [
    // A volume that can be written isn't cloned, and that is told before a name that is taken.
    (
        On::Empty,
        b"0 create v 1 thin\n0 read v 4 1\n0 clone v d\n0 clone v v\n0 clone @0 v\n0 clone w d\n0 clone @1 v\n\
            0 readonly v\n0 clone v v\n0 df\n",
        b"0 0 ok @0\n0 1 out of range\n0 2 not read only\n0 3 not read only\n0 4 not read only\n0 5 no volume\n\
            0 6 no volume\n0 7 ok\n0 8 name taken\n0 9 df clusters 11 of 16 pages 15 of 16\n",
        b"0 clone v v\n0 clone v d\n0 clone v d\n0 clone d e\n0 df\n",
        b"0 0 name taken\n0 1 ok @1\n0 2 name taken\n0 3 not read only\n0 4 df clusters 11 of 16 pages 14 of 16\n",
    ),
    // A clone takes a page and no cluster, and reads what its parent shows. The first page that is written in a slot
    // gives it a cluster, with the parent's other pages.
    (
        On::Empty,
        b"0 create v 2 thin\n0 write v 1 1 7\n0 readonly v\n0 df\n0 clone v c\n0 df\n0 read c 0 3\n0 write c 0 1 9\n\
            0 df\n0 read c 0 2\n0 read v 0 2\n0 write v 0 1 1\n0 write c 8 1 1\n",
        b"0 0 ok @0\n0 1 ok\n0 2 ok\n0 3 df clusters 10 of 16 pages 15 of 16\n0 4 ok @1\n\
            0 5 df clusters 10 of 16 pages 14 of 16\n0 6 page fill 0000000000000000\n\
            0 7 page fill 0000000000000007\n0 8 page fill 0000000000000000\n0 9 ok\n\
            0 10 df clusters 9 of 16 pages 14 of 16\n0 11 page fill 0000000000000009\n\
            0 12 page fill 0000000000000007\n0 13 page fill 0000000000000000\n0 14 page fill 0000000000000007\n\
            0 15 read only\n0 16 out of range\n",
        b"0 read c 0 2\n0 read c 7 2\n0 read v 0 2\n0 write v 0 1 1\n0 write c 4 1 5\n0 df\n",
        b"0 0 page fill 0000000000000009\n0 1 page fill 0000000000000007\n0 2 page fill 0000000000000000\n\
            0 3 out of range\n0 4 page fill 0000000000000000\n0 5 page fill 0000000000000007\n0 6 read only\n0 7 ok\n\
            0 8 df clusters 8 of 16 pages 14 of 16\n",
    ),
    // A clone of a clone reads through both. What is written into one clone isn't read in another.
    (
        On::Empty,
        b"0 create v 2 thick\n0 write v 0 1 1\n0 write v 4 1 2\n0 readonly v\n0 clone v c\n0 clone v d\n\
            0 write c 4 1 3\n0 readonly c\n0 clone c e\n0 write d 0 1 4\n0 read e 0 1\n0 read e 4 1\n0 read d 0 1\n\
            0 read d 4 1\n0 df\n",
        b"0 0 ok @0\n0 1 ok\n0 2 ok\n0 3 ok\n0 4 ok @1\n0 5 ok @2\n0 6 ok\n0 7 ok\n0 8 ok @3\n0 9 ok\n\
            0 10 page fill 0000000000000001\n0 11 page fill 0000000000000003\n0 12 page fill 0000000000000004\n\
            0 13 page fill 0000000000000002\n0 14 df clusters 7 of 16 pages 12 of 16\n",
        b"0 write e 5 1 5\n0 read e 4 2\n0 read c 4 2\n0 read v 4 2\n0 write c 0 1 1\n0 df\n",
        b"0 0 ok\n0 1 page fill 0000000000000003\n0 2 page fill 0000000000000005\n0 3 page fill 0000000000000003\n\
            0 4 page fill 0000000000000000\n0 5 page fill 0000000000000002\n0 6 page fill 0000000000000000\n\
            0 7 read only\n0 8 df clusters 6 of 16 pages 12 of 16\n",
    ),
    // It has a name and the name's uuid, and no other attribute of its parent; its own are set and synced.
    (
        On::Empty,
        b"0 create w 1 thin\n0 put w k t:1\n0 readonly w\n0 clone w v\n0 getx v name\n0 getx v k\n0 put v l t:2\n\
            0 getx w l\n",
        b"0 0 ok @0\n0 1 ok\n0 2 ok\n0 3 ok @1\n0 4 value 7600\n0 5 no value\n0 6 ok\n0 7 no value\n",
        b"0 getx v uuid\n0 getx v l\n0 getx @0 k\n0 resize v 0\n0 resize w 2\n",
        b"0 0 value 38306532343334632d343636632d353961302d613336342d35643864303136303133333800\n0 1 value 32\n\
            0 2 value 31\n0 3 ok\n0 4 read only\n",
    ),
    // No page comes last of the causes, and the next head is the least page that is clear.
    (
        On::Volume,
        b"0 clone v a\n0 readonly v\n0 clone v a\n0 clone v b\n0 clone v c\n0 clone v a\n0 clone c c\n0 df\n",
        b"0 0 not read only\n0 1 ok\n0 2 ok @1\n0 3 ok @2\n0 4 no page\n0 5 name taken\n0 6 no volume\n\
            0 7 df clusters 10 of 16 pages 0 of 5\n",
        b"0 getx @1 name\n0 getx @2 name\n0 clone v c\n0 read a 27 2\n0 df\n",
        b"0 0 value 6100\n0 1 value 6200\n0 2 no page\n0 3 page fill 0000000000000000\n0 4 out of range\n\
            0 5 df clusters 10 of 16 pages 0 of 5\n",
    ),
    // A blob without a name is cloned by its head, and a clone without slots is one too.
    (
        On::ReadOnly,
        b"0 clone @0 c\n0 read c 0 1\n0 write c 0 1 1\n0 resize c 1\n0 write c 0 1 1\n0 df\n",
        b"0 0 ok @1\n0 1 out of range\n0 2 out of range\n0 3 ok\n0 4 ok\n0 5 df clusters 10 of 16 pages 14 of 16\n",
        b"0 read c 0 2\n",
        b"0 0 page fill 0000000000000001\n0 1 page fill 0000000000000000\n",
    ),
];

#[test]
fn clones_read_their_parents_and_outlast_the_run(rt: HostRuntime) -> Result<(), Fail> {
    for case in &CASES {
        expect_two_runs(rt.alloc(), case)?;
    }
    Ok(())
}
