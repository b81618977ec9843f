//! Stores and their volumes, as they are listed in a tree.

use crate::listed::{TREE, expect_printed, ran};
use std::test::Fail;
use test_runs::{Call, expect_end};
use test_stores::{LAST, NAMED, PageRow, THICK, THIN, image_with_super, store};

/// A script that is run on a new store, and the tree of what is there behind it.
static CASES: [(&[u8], &[u8]); 4] = [
    (b"", b""),
    (
        b"0 create v 2 thick\n0 create w 3 thin\n",
        b"@0 v slots 2 own 2 rw\n\
            @1 w slots 3 own 0 rw\n",
    ),
    (
        b"0 create v 2 thin\n0 write v 0 1 7\n0 readonly v\n0 clone v c\n",
        b"@0 v slots 2 own 1 ro\n\
            `-@1 c slots 2 own 0 rw\n",
    ),
    (
        b"0 create v 2 thin\n0 write v 0 1 7\n0 snapshot v s\n0 snapshot v t\n0 clone s c\n0 create w 1 thin\n",
        b"@1 s slots 2 own 1 ro\n\
            |-@2 t slots 2 own 0 ro\n\
            | `-@0 v slots 2 own 0 rw\n\
            `-@3 c slots 2 own 0 rw\n\
            @4 w slots 1 own 0 rw\n",
    ),
];

#[test]
fn volumes_stand_below_their_parents(rt: HostRuntime) -> Result<(), Fail> {
    for (script, printed) in &CASES {
        expect_printed(rt.alloc(), &TREE, printed, ran(rt.alloc(), script)?)?;
    }
    Ok(())
}

/// The name `a b\`.
const ODD: &[u8] = b"\x02\x0D\0\0\0\x04\0\x05\0namea b\\\0";

static ROWS: [PageRow; 3] = [
    (0, 0, 0, LAST, &[THIN, ODD]),
    (1, 1, 0, LAST, &[THICK, NAMED]),
    (2, 2, 0, LAST, &[THICK]),
];

#[test]
fn the_super_blob_is_no_volume(rt: HostRuntime) -> Result<(), Fail> {
    let disk = image_with_super(rt.alloc(), (64, 16), (1 << 32) + 1, &ROWS)?;
    let drawn = b"@0 a\\x20b\\x5c slots 0 own 0 rw\n@2 - slots 0 own 0 rw\n";
    expect_printed(rt.alloc(), &TREE, drawn, disk)?;
    Ok(())
}

/// Words that are no command: a tree of another one, and one in JSON.
static NO_COMMANDS: [&str; 2] = ["run --tree store.img", "list --json --tree store.img"];

#[test]
fn a_tree_is_of_a_listing_in_lines(rt: HostRuntime) -> Result<(), Fail> {
    for line in &NO_COMMANDS {
        let call = Call::new(line, b"0 df\n");
        expect_end(rt.alloc(), &call, ("Usage", b""), store(rt.alloc())?)?;
    }
    Ok(())
}
