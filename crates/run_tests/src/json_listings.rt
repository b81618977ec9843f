//! Stores and their volumes, as they are listed in JSON.

use crate::listed::{JSON, expect_printed, ran};
use std::test::Fail;
use test_runs::{Call, expect_end};
use test_stores::{LAST, NAMED, PageRow, THICK, THIN, image_with_super, store};

/// A script that is run on a new store, and what is listed behind it.
static CASES: [(&[u8], &[u8]); 3] = [
    (
        b"",
        b"{\"store\":{\"clean\":true,\"cluster_size\":16384,\"clusters\":{\"free\":11,\"total\":16},\
            \"pages\":{\"free\":16,\"total\":16},\"type\":\"-\"},\"super\":null,\"volumes\":[]}\n",
    ),
    (
        b"0 create v 2 thick 5f2b4e66-0d0c-4c1e-9a55-3f0a7c2d9b10\n",
        b"{\"store\":{\"clean\":true,\"cluster_size\":16384,\"clusters\":{\"free\":9,\"total\":16},\
            \"pages\":{\"free\":15,\"total\":16},\"type\":\"-\"},\"super\":null,\"volumes\":[\
            {\"head\":0,\"name\":\"v\",\"own\":2,\"parent\":null,\"read_only\":false,\"slots\":2,\"thin\":false,\
            \"uuid\":\"5f2b4e66-0d0c-4c1e-9a55-3f0a7c2d9b10\"}]}\n",
    ),
    (
        b"0 create v 2 thin\n0 write v 0 1 7\n0 readonly v\n0 clone v c\n",
        b"{\"store\":{\"clean\":true,\"cluster_size\":16384,\"clusters\":{\"free\":10,\"total\":16},\
            \"pages\":{\"free\":14,\"total\":16},\"type\":\"-\"},\"super\":null,\"volumes\":[\
            {\"head\":0,\"name\":\"v\",\"own\":1,\"parent\":null,\"read_only\":true,\"slots\":2,\"thin\":true,\
            \"uuid\":\"80e2434c-466c-59a0-a364-5d8d01601338\"},\
            {\"head\":1,\"name\":\"c\",\"own\":0,\"parent\":0,\"read_only\":false,\"slots\":2,\"thin\":true,\
            \"uuid\":\"0f443162-a7b1-54c6-977f-cca1b1a128bb\"}]}\n",
    ),
];

#[test]
fn a_store_is_one_object(rt: HostRuntime) -> Result<(), Fail> {
    for (script, printed) in &CASES {
        expect_printed(rt.alloc(), &JSON, printed, ran(rt.alloc(), script)?)?;
    }
    Ok(())
}

/// The name `a b\` and the uuid `"`.
const ODD: &[u8] = b"\x02\x0D\0\0\0\x04\0\x05\0namea b\\\0\x02\x09\0\0\0\x04\0\x01\0uuid\"";

static ROWS: [PageRow; 3] = [
    (0, 0, 0, LAST, &[THIN, ODD]),
    (1, 1, 0, LAST, &[THICK, NAMED]),
    (2, 2, 0, LAST, &[THICK]),
];

/// What is listed of them: each text as in lines, and its quotes and backslashes behind a backslash.
const LISTED: &[u8] =
    b"{\"store\":{\"clean\":true,\"cluster_size\":16384,\"clusters\":{\"free\":11,\"total\":16},\
    \"pages\":{\"free\":13,\"total\":16},\"type\":\"-\"},\
    \"super\":{\"head\":1,\"name\":\"v\",\"uuid\":\"11223344-5566-4788-99aa-bbccddeeff00\"},\"volumes\":[\
    {\"head\":0,\"name\":\"a\\\\x20b\\\\x5c\",\"own\":0,\"parent\":null,\"read_only\":false,\"slots\":0,\"thin\":true,\
    \"uuid\":\"\\\"\"},\
    {\"head\":2,\"name\":\"-\",\"own\":0,\"parent\":null,\"read_only\":false,\"slots\":0,\"thin\":false,\
    \"uuid\":\"-\"}]}\n";

#[test]
fn the_super_blob_and_odd_names_are_escaped(rt: HostRuntime) -> Result<(), Fail> {
    let disk = image_with_super(rt.alloc(), (64, 16), (1 << 32) + 1, &ROWS)?;
    expect_printed(rt.alloc(), &JSON, LISTED, disk)?;
    Ok(())
}

#[test]
fn json_of_another_command_is_no_command(rt: HostRuntime) -> Result<(), Fail> {
    let call = Call::new("run --json store.img", b"0 df\n");
    expect_end(rt.alloc(), &call, ("Usage", b""), store(rt.alloc())?)?;
    Ok(())
}
