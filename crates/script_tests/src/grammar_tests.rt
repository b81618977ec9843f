//! Lines, each with its commands or with what is wrong with it.

use crate::told::{expect, told};
use std::alloc::Global;
use std::process::Abort;
use std::test::Fail;

/// Whether each text is what is said of it.
fn compare(rt: &impl Abort, alloc: Global, cases: &[(&[u8], &[u8])]) -> Result<(), Fail> {
    for (text, wanted) in cases {
        expect(rt, &told(alloc, text)?, wanted);
    }
    Ok(())
}

/// Lines that make volumes, read and write.
#[test]
fn pages_and_new_volumes(rt: HostRuntime) -> Result<(), Fail> {
    let cases: &[(&[u8], &[u8])] = &[
        (b"0 create v 8 thin", b"0 create v 8 thin;"),
        (b"15 create ~ 0 thick", b"15 create ~ 0 thick;"),
        (
            b"0 create v 18446744073709551615 thin 67e55044-10b1-426f-9247-bb680e5fe0c8",
            b"0 create v 18446744073709551615 thin 67e5504410b1426f9247bb680e5fe0c8;",
        ),
        (
            b"0 create v 8 thick {67E55044-10B1-426F-9247-BB680E5FE0C8}",
            b"0 create v 8 thick 67e5504410b1426f9247bb680e5fe0c8;",
        ),
        (b"0 write v 3 2 7", b"0 write v 3 7;0 write v 4 8;"),
        (
            b"0 write @3 0 2 18446744073709551615",
            b"0 write @3 0 18446744073709551615;0 write @3 1 0;",
        ),
        (
            b"0 write v 18446744073709551614 1 0",
            b"0 write v 18446744073709551614 0;",
        ),
        (b"0 read v 0 3", b"0 read v 0;0 read v 1;0 read v 2;"),
        (b"0 read @4294967295 9 1", b"0 read @4294967295 9;"),
        (
            b"0 read v 18446744073709551614 1",
            b"0 read v 18446744073709551614;",
        ),
        (
            b"0 create v 8 thin 67e55044-10b1-426f-9247-bb680e5fe0c8",
            b"0 create v 8 thin 67e5504410b1426f9247bb680e5fe0c8;",
        ),
        (b"0 create v 8 thick", b"0 create v 8 thick;"),
        (
            b"0 create v 8 thick 67e55044-10b1-426f-9247-bb680e5fe0c8",
            b"0 create v 8 thick 67e5504410b1426f9247bb680e5fe0c8;",
        ),
        (b"1 create v 8 thin", b"1 create v 8 thin;"),
        (b"0 write v 4 2 7", b"0 write v 4 7;0 write v 5 8;"),
        (b"0 read @3 7 2", b"0 read @3 7;0 read @3 8;"),
    ];
    compare(&rt, rt.alloc(), cases)
}

/// Lines on attributes.
#[test]
fn attributes(rt: HostRuntime) -> Result<(), Fail> {
    let cases: &[(&[u8], &[u8])] = &[
        (b"9 flush", b"9 flush;"),
        (b"0 setx v owner t:bob", b"0 setx v owner bob;"),
        (b"0 setx @0 k h:00fFAb", b"0 setx @0 k \x00\xff\xab;"),
        (b"0 setx v k h:", b"0 setx v k ;"),
        (b"0 setx v k t:", b"0 setx v k ;"),
        (b"0 setx v k t:h:0", b"0 setx v k h:0;"),
        (b"0 delx v ~", b"0 delx v ~;"),
        (b"0 getx @7 @#", b"0 getx @7 @#;"),
        (b"0 put v k t:x", b"0 put v k x;"),
        (b"0 sync v", b"0 sync v;"),
        (b"0 sync v@#", b"0 sync v@#;"),
        (b"0 flush", b"0 flush;"),
        (b"0 setx @1 owner t:bob", b"0 setx @1 owner bob;"),
        (b"0 setx lvol owner t:bob", b"0 setx lvol owner bob;"),
        (b"0 delx @22 owner", b"0 delx @22 owner;"),
        (b"0 getx @0 ~", b"0 getx @0 ~;"),
        (b"0 put @4294967295 k h:", b"0 put @4294967295 k ;"),
        (b"1 put @0 owner t:bob", b"1 put @0 owner bob;"),
        (b"15 sync @0", b"15 sync @0;"),
        (b"0 sync lvol", b"0 sync lvol;"),
        (b"# c\n\n0 sync @7\n", b"0 sync @7;"),
    ];
    compare(&rt, rt.alloc(), cases)
}

/// Lines on volumes, and lines that are skipped.
#[test]
fn volumes_and_skipped_lines(rt: HostRuntime) -> Result<(), Fail> {
    let cases: &[(&[u8], &[u8])] = &[
        (b"0 resize v 0", b"0 resize v 0;"),
        (
            b"0 resize v 18446744073709551615",
            b"0 resize v 18446744073709551615;",
        ),
        (b"0 snapshot v s", b"0 snapshot v s;"),
        (b"0 clone s c", b"0 clone s c;"),
        (b"0 inflate v", b"0 inflate v;"),
        (b"0 decouple v", b"0 decouple v;"),
        (b"0 delete v", b"0 delete v;"),
        (b"0 rename v w", b"0 rename v w;"),
        (b"0 readonly v", b"0 readonly v;"),
        (b"0 info v", b"0 info v;"),
        (b"0 list", b"0 list;"),
        (b"0 df", b"0 df;"),
        (b"", b""),
        (b"\n\n", b""),
        (b"#", b""),
        (b"# \x80 any  bytes \r", b""),
        (b"\n# c\n0 df\n\n", b"0 df;"),
        (
            b"1 df\n0 list\n15 flush\n1 flush\n",
            b"0 list;1 df;1 flush;15 flush;",
        ),
        (b"0 info flush", b"0 info flush;"),
        (b"0 resize @0 3", b"0 resize @0 3;"),
        (b"0 resize lvol 1048577", b"0 resize lvol 1048577;"),
        (b"9 resize @0 3", b"9 resize @0 3;"),
        (b"0 clone v c", b"0 clone v c;"),
        (b"0 delete @1", b"0 delete @1;"),
        (b"0 rename @0 w", b"0 rename @0 w;"),
    ];
    compare(&rt, rt.alloc(), cases)
}

/// Bad lines that make volumes.
#[test]
fn bad_new_volumes(rt: HostRuntime) -> Result<(), Fail> {
    let cases: &[(&[u8], &[u8])] = &[
        (b"0 create v 8 fat", b"1 Form"),
        (b"0 create v 8 thinn", b"1 Form"),
        (b"0 create v 8", b"1 Form"),
        (
            b"0 create v 8 thin 67e55044-10b1-426f-9247-bb680e5fe0c8 x",
            b"1 Form",
        ),
        (b"16 create @ x fat", b"1 Form"),
        (b"0 create v 8 thin 67e55044", b"1 Uuid"),
        (b"0 create v 8 thin thick", b"1 Uuid"),
        (b"0 create @ x thin z", b"1 Volume"),
        (b"0 create @v 8 thin", b"1 Volume"),
        (b"0 create #v 8 thin", b"1 Volume"),
        (b"0 create v 18446744073709551616 thin", b"1 Number"),
        (b"0 create v 08 thin", b"1 Number"),
        (b"0 create v +8 thin", b"1 Number"),
        (b"0 create v -8 thin", b"1 Number"),
        (b"0 create v 0x8 thin zz", b"1 Number"),
        (b"0 create @0 x fat", b"1 Form"),
        (b"0 create @0 x thick", b"1 Volume"),
        (b"0 create @0 8 thin", b"1 Volume"),
    ];
    compare(&rt, rt.alloc(), cases)
}

/// Bad lines that read and write.
#[test]
fn bad_pages(rt: HostRuntime) -> Result<(), Fail> {
    let cases: &[(&[u8], &[u8])] = &[
        (b"0 write v 0 0 7", b"1 Number"),
        (b"0 write v 0 257 7", b"1 Number"),
        (b"0 write v 0 01 7", b"1 Number"),
        (b"0 write v 0 1 18446744073709551616", b"1 Number"),
        (b"0 write v 18446744073709551615 1 0", b"1 Number"),
        (b"0 write v 0 1", b"1 Form"),
        (b"0 read v 18446744073709551615 1", b"1 Number"),
        (b"0 read v 18446744073709551614 2", b"1 Number"),
        (b"0 read v 18446744073709551360 256", b"1 Number"),
        (b"0 read @ 18446744073709551615 1", b"1 Volume"),
        (b"16 read v 18446744073709551615 1", b"1 Channel"),
        (b"0 read v 0 1 7", b"1 Form"),
        (b"0 flush x", b"1 Form"),
        (b"0 list v", b"1 Form"),
        (b"0 read v 0 257", b"1 Number"),
        (b"0 read", b"1 Form"),
        (b"0 df @0", b"1 Form"),
    ];
    compare(&rt, rt.alloc(), cases)
}

/// Bad lines on attributes and volumes.
#[test]
fn bad_attributes_and_volumes(rt: HostRuntime) -> Result<(), Fail> {
    let cases: &[(&[u8], &[u8])] = &[
        (b"0 setx v k h:0", b"1 KeyValue"),
        (b"0 setx v k h:0g", b"1 KeyValue"),
        (b"0 setx v k bob", b"1 KeyValue"),
        (b"0 setx v k T:b", b"1 KeyValue"),
        (b"0 setx v k t", b"1 KeyValue"),
        (b"0 setx @x k bob", b"1 Volume"),
        (b"16 setx v k bob", b"1 Channel"),
        (b"0 setx v k", b"1 Form"),
        (b"0 setx v k t:a b", b"1 Form"),
        (b"0 rename v @1", b"1 Volume"),
        (b"0 clone v #", b"1 Volume"),
        (b"0 sync @4294967296", b"1 Volume"),
        (b"0 sync @", b"1 Volume"),
        (b"0 sync @01", b"1 Volume"),
        (b"0 sync @+1", b"1 Volume"),
        (b"0 put @0 owner bob", b"1 KeyValue"),
        (b"9 put @0 owner", b"1 Form"),
        (b"0 getx #lvol owner", b"1 Volume"),
        (b"0 resize @0 fat", b"1 Number"),
        (b"0 resize @0", b"1 Form"),
        (b"0 snapshot @3 @1", b"1 Volume"),
        (b"0 clone v @1", b"1 Volume"),
        (b"0 delete v s", b"1 Form"),
        (b"0 readonly", b"1 Form"),
        (b"0 sync @0 owner", b"1 Form"),
        (
            b"0 put @0 k t:\n0 sync @4294967295\n0 setx @0 owner bob\n0",
            b"3 KeyValue",
        ),
    ];
    compare(&rt, rt.alloc(), cases)
}

/// Bad channels, verbs and forms.
#[test]
fn bad_channels_and_forms(rt: HostRuntime) -> Result<(), Fail> {
    let cases: &[(&[u8], &[u8])] = &[
        (b"16 sync v", b"1 Channel"),
        (b"01 sync v", b"1 Channel"),
        (b"-1 sync v", b"1 Channel"),
        (b"x sync v", b"1 Channel"),
        (b"0 nosuch v", b"1 Verb"),
        (b"0 SYNC v", b"1 Verb"),
        (b"0 nosuch", b"1 Verb"),
        (b"16 nosuch", b"1 Channel"),
        (b"0", b"1 Form"),
        (b"16", b"1 Form"),
        (b"0 sync", b"1 Form"),
        (b"16 sync", b"1 Form"),
        (b"0 sync v w", b"1 Form"),
        (b"0  sync v", b"1 Form"),
        (b"0 sync v ", b"1 Form"),
        (b" 0 sync v", b"1 Form"),
        (b" ", b"1 Form"),
        (b"0 sync v\r\n", b"1 Form"),
        (b"16 nosuch \x80", b"1 Form"),
        (b"0\tsync v", b"1 Form"),
        (b"0 sync \x7f", b"1 Form"),
        (b" # c", b"1 Form"),
        (b"0 df\n\n# c\n0 sync @\n0 nosuch\n", b"4 Volume"),
        (b"16 flush", b"1 Channel"),
        (b"9 get @0 owner\t", b"1 Form"),
    ];
    compare(&rt, rt.alloc(), cases)
}

/// The bytes of all three.
fn joined(alloc: Global, front: &[u8], word: &[u8], end: &[u8]) -> Result<Vec<u8>, Fail> {
    let mut line = Vec::new(alloc);
    for part in &[front, word, end] {
        line.extend_from_slice(part)?;
    }
    Ok(line)
}

/// What a line that ends with a word is as a script.
fn line_told(alloc: Global, front: &[u8], word: &[u8]) -> Result<Vec<u8>, Fail> {
    let line = joined(alloc, front, word, b"")?;
    told(alloc, &line)
}

const LONGEST_KEY: [u8; 255] = [b'k'; 255];

const TOO_LONG_KEY: [u8; 256] = [b'k'; 256];

/// A name of 63 bytes and a key of 255 are taken; one byte more is not.
#[test]
fn names_and_keys_have_their_lengths(rt: HostRuntime) -> Result<(), Fail> {
    let alloc = rt.alloc();
    let name = b"abcdefghijklmnopqrstuvwxyz0123456789abcdefghijklmnopqrstuvwxyz!".as_slice();
    let cases: &[(&[u8], &[u8], &[u8])] = &[
        (b"0 sync ", name, b""),
        (b"0 sync x", name, b"1 Volume"),
        (b"0 getx @0 ", &LONGEST_KEY, b""),
        (b"0 getx @0 ", &TOO_LONG_KEY, b"1 KeyValue"),
    ];
    for (front, word, wanted) in cases {
        let whole = joined(alloc, front, word, b";")?;
        let wanted = if wanted.is_empty() {
            whole.as_slice()
        } else {
            *wanted
        };
        expect(&rt, &line_told(alloc, front, word)?, wanted);
    }
    Ok(())
}
