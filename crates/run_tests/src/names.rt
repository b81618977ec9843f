//! Volumes that get another name, and what is told of one volume and of all.

use std::test::Fail;
use test_runs::{On, TwoRuns, expect_two_runs};

static CASES: [TwoRuns; 6] = [
    // The name is another at once and in a later run. What is pending stays so, and is lost with the run.
    (
        On::Empty,
        b"0 create v 2 thin\n0 put v k t:1\n0 setx v k t:2\n0 setx v l t:3\n0 rename v w\n0 getx w k\n\
            0 getx @0 name\n0 getx v k\n0 info w\n",
        b"0 0 ok @0\n0 1 ok\n0 2 ok\n0 3 ok\n0 4 ok\n0 5 value 32\n0 6 value 7700\n0 7 no volume\n\
            0 8 volume @0 w slots 2 parent - thin rw xattrs 4\n",
        b"0 getx w k\n0 getx w l\n0 info @0\n0 getx @0 name\n0 getx w uuid\n",
        b"0 0 value 31\n0 1 no value\n0 2 volume @0 w slots 2 parent - thin rw xattrs 3\n0 3 value 7700\n\
            0 4 value 38306532343334632d343636632d353961302d613336342d35643864303136303133333800\n",
    ),
    // The causes in their order. A volume's own name is taken too, and the old one is free.
    (
        On::Empty,
        b"0 create a 1 thin\n0 create b 1 thick\n0 rename a b\n0 rename a a\n0 rename c a\n0 rename @5 d\n\
            0 readonly b\n0 rename b a\n0 rename b c\n0 rename a c\n0 create a 0 thin\n0 list\n",
        b"0 0 ok @0\n0 1 ok @1\n0 2 name taken\n0 3 name taken\n0 4 no volume\n0 5 no volume\n0 6 ok\n\
            0 7 read only\n0 8 read only\n0 9 ok\n0 10 ok @2\n0 11 list 3\n\
            volume @0 c slots 1 parent - thin rw xattrs 2\nvolume @1 b slots 1 parent - thick ro xattrs 2\n\
            volume @2 a slots 0 parent - thin rw xattrs 2\n",
        b"0 list\n0 rename b d\n0 info d\n",
        b"0 0 list 3\nvolume @0 c slots 1 parent - thin rw xattrs 2\n\
            volume @1 b slots 1 parent - thick ro xattrs 2\nvolume @2 a slots 0 parent - thin rw xattrs 2\n\
            0 1 read only\n0 2 no volume\n",
    ),
    // The super blob keeps its name, which is free. It is told by its head, and isn't listed.
    (
        On::Super,
        b"0 list\n0 rename @0 w\n0 rename v w\n0 info @0\n0 info v\n0 create w 1 thin\n0 rename w v\n0 list\n",
        b"0 0 list 0\n0 1 reserved\n0 2 no volume\n0 3 volume @0 v slots 0 parent - thin rw xattrs 2\n\
            0 4 no volume\n0 5 ok @1\n0 6 ok\n0 7 list 1\nvolume @1 v slots 1 parent - thin rw xattrs 2\n",
        b"0 info v\n0 rename @1 v\n",
        b"0 0 volume @1 v slots 1 parent - thin rw xattrs 2\n0 1 name taken\n",
    ),
    // A clone keeps its parent.
    (
        On::Empty,
        b"0 create v 1 thin\n0 readonly v\n0 clone v c\n0 info c\n0 rename c d\n0 list\n",
        b"0 0 ok @0\n0 1 ok\n0 2 ok @1\n0 3 volume @1 c slots 1 parent @0 thin rw xattrs 2\n0 4 ok\n0 5 list 2\n\
            volume @0 v slots 1 parent - thin ro xattrs 2\nvolume @1 d slots 1 parent @0 thin rw xattrs 2\n",
        b"0 list\n",
        b"0 0 list 2\nvolume @0 v slots 1 parent - thin ro xattrs 2\n\
            volume @1 d slots 1 parent @0 thin rw xattrs 2\n",
    ),
    // A chain of three pages is written anew, but for its first place: two pages have to be clear.
    (
        On::Volume,
        b"0 rename v w\n0 create x 0 thin\n0 rename w v\n0 info w\n0 df\n",
        b"0 0 ok\n0 1 ok @1\n0 2 no page\n0 3 volume @0 w slots 7 parent - thin rw xattrs 3\n\
            0 4 df clusters 10 of 16 pages 1 of 5\n",
        b"0 rename x y\n0 info w\n0 rename w x\n",
        b"0 0 ok\n0 1 volume @0 w slots 7 parent - thin rw xattrs 3\n0 2 no page\n",
    ),
    // A dash and a backslash are told by their digits; a volume without a name is a dash, and may be given one.
    (
        On::One,
        b"0 create - 1 thin\n0 create a\\b 1 thin\n0 list\n0 rename @1 z\n0 info z\n",
        b"0 0 ok @0\n0 1 ok @2\n0 2 list 3\nvolume @0 \\x2d slots 1 parent - thin rw xattrs 2\n\
            volume @1 - slots 0 parent - thick rw xattrs 0\nvolume @2 a\\x5cb slots 1 parent - thin rw xattrs 2\n\
            0 3 ok\n0 4 volume @1 z slots 0 parent - thick rw xattrs 1\n",
        b"0 info z\n0 getx @1 name\n0 getx @1 uuid\n",
        b"0 0 volume @1 z slots 0 parent - thick rw xattrs 1\n0 1 value 7a00\n0 2 no value\n",
    ),
];

#[test]
fn names_are_given_and_volumes_are_told(rt: HostRuntime) -> Result<(), Fail> {
    for case in &CASES {
        expect_two_runs(rt.alloc(), case)?;
    }
    Ok(())
}
