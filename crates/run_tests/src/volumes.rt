//! Thin volumes that are made, and how much is clear.

use std::test::Fail;
use test_runs::{On, TwoRuns, expect_two_runs};

static CASES: [TwoRuns; 10] = [
    // A thin volume takes a page and no cluster.
    (
        On::Empty,
        b"0 df\n0 create v 1 thin\n0 df\n",
        b"0 0 df clusters 11 of 16 pages 16 of 16\n0 1 ok @0\n0 2 df clusters 11 of 16 pages 15 of 16\n",
        b"0 getx @0 name\n0 df\n",
        b"0 0 value 7600\n0 1 df clusters 11 of 16 pages 15 of 16\n",
    ),
    // A name that is taken comes before a size that is too large.
    (
        On::Empty,
        b"0 create a 1 thin\n0 create b 0 thin\n0 create a 1048577 thin\n0 create c 1048577 thin\n\
            0 create c 18446744073709551615 thin\n0 create c 1048576 thin\n",
        b"0 0 ok @0\n0 1 ok @1\n0 2 name taken\n0 3 too large\n0 4 too large\n0 5 ok @2\n",
        b"0 getx @0 name\n0 getx @1 name\n0 getx @2 name\n0 getx @3 name\n0 create b 1 thin\n",
        b"0 0 value 6100\n0 1 value 6200\n0 2 value 6300\n0 3 no volume\n0 4 name taken\n",
    ),
    // No page comes last of the causes.
    (
        On::Empty,
        b"0 create a 1 thin\n0 create b 1 thin\n0 create c 1 thin\n0 create d 1 thin\n0 create e 1 thin\n\
            0 create f 1 thin\n0 create g 1 thin\n0 create h 1 thin\n0 create i 1 thin\n0 create j 1 thin\n\
            0 create k 1 thin\n0 create l 1 thin\n0 create m 1 thin\n0 create n 1 thin\n0 create o 1 thin\n\
            0 create p 1 thin\n0 create q 1 thin\n0 create a 1 thin\n0 create q 1048577 thin\n0 df\n",
        b"0 0 ok @0\n0 1 ok @1\n0 2 ok @2\n0 3 ok @3\n0 4 ok @4\n0 5 ok @5\n0 6 ok @6\n0 7 ok @7\n\
            0 8 ok @8\n0 9 ok @9\n0 10 ok @10\n0 11 ok @11\n0 12 ok @12\n0 13 ok @13\n0 14 ok @14\n\
            0 15 ok @15\n0 16 no page\n0 17 name taken\n0 18 too large\n\
            0 19 df clusters 11 of 16 pages 0 of 16\n",
        b"0 getx @15 name\n0 create q 1 thin\n0 put @15 k t:1\n",
        b"0 0 value 7000\n0 1 no page\n0 2 ok\n",
    ),
    // A given uuid, and that of the name in the nil uuid. What is set on one volume isn't set on the other.
    (
        On::Empty,
        b"0 create v 8 thin\n0 create w 0 thin {5F2B4E66-0D0C-4C1E-9A55-3F0A7C2D9B10}\n0 put @0 name t:w\n\
            0 setx @1 k t:1\n0 getx @0 k\n0 sync @1\n0 setx @1 k t:2\n",
        b"0 0 ok @0\n0 1 ok @1\n0 2 reserved\n0 3 ok\n0 4 no value\n0 5 ok\n0 6 ok\n",
        b"0 getx @0 uuid\n0 getx @1 uuid\n0 getx @1 k\n",
        b"0 0 value 38306532343334632d343636632d353961302d613336342d35643864303136303133333800\n\
            0 1 value 35663262346536362d306430632d346331652d396135352d33663061376332643962313000\n\
            0 2 value 31\n",
    ),
    // A volume is named by its name as by its head, in the run that makes it and in later ones.
    (
        On::Empty,
        b"0 create v 1 thin\n0 put v k t:1\n0 setx v l t:2\n0 getx @0 l\n0 getx v k\n0 delx v k\n0 sync v\n\
            0 getx w k\n",
        b"0 0 ok @0\n0 1 ok\n0 2 ok\n0 3 value 32\n0 4 value 31\n0 5 ok\n0 6 ok\n0 7 no volume\n",
        b"0 getx v l\n0 getx v k\n0 put v name t:w\n",
        b"0 0 value 32\n0 1 no value\n0 2 reserved\n",
    ),
    // The super blob is named by its head alone.
    (
        On::Super,
        b"0 getx v uuid\n0 create v 1 thin\n0 put v k t:1\n",
        b"0 0 no volume\n0 1 ok @1\n0 2 ok\n",
        b"0 getx @1 k\n",
        b"0 0 value 31\n",
    ),
    // A new volume has the least page that is clear.
    (
        On::One,
        b"0 create a 1 thin\n0 create b 1 thin\n0 df\n",
        b"0 0 ok @0\n0 1 ok @2\n0 2 df clusters 11 of 16 pages 13 of 16\n",
        b"0 getx @0 name\n0 getx @1 name\n0 getx @2 name\n",
        b"0 0 value 6100\n0 1 no value\n0 2 value 6200\n",
    ),
    (
        On::Volume,
        b"0 df\n0 create v 1 thin\n0 create w 1 thin\n0 create x 1 thin\n0 create y 1 thin\n0 df\n",
        b"0 0 df clusters 10 of 16 pages 2 of 5\n0 1 name taken\n0 2 ok @3\n0 3 ok @4\n0 4 no page\n\
            0 5 df clusters 10 of 16 pages 0 of 5\n",
        b"0 getx @3 name\n0 getx @4 name\n",
        b"0 0 value 7700\n0 1 value 7800\n",
    ),
    // The super blob's name is free, and its uuid is the store's.
    (
        On::Super,
        b"0 create v 1 thin\n0 create v 1 thin\n0 put @0 k t:1\n",
        b"0 0 ok @1\n0 1 name taken\n0 2 reserved\n",
        b"0 getx @1 uuid\n",
        b"0 0 value 63366434393633392d616666652d353432612d393161612d66363865346434336237623300\n",
    ),
    // The blob that is made at the super blob's place is the super blob.
    (
        On::NoSuper,
        b"0 create v 1 thin\n0 put @0 k t:1\n0 create v 1 thin\n",
        b"0 0 ok @0\n0 1 reserved\n0 2 ok @1\n",
        b"0 getx @0 uuid\n0 getx @1 uuid\n",
        b"0 0 value 38306532343334632d343636632d353961302d613336342d35643864303136303133333800\n\
            0 1 value 39343962363234612d306464642d353439652d386634302d39616463313339363564366200\n",
    ),
];

#[test]
fn each_create_is_answered_and_outlasts_the_run(rt: HostRuntime) -> Result<(), Fail> {
    for case in &CASES {
        expect_two_runs(rt.alloc(), case)?;
    }
    Ok(())
}
