//! Each fault of a chain.

use crate::chains::{chain_in, put};
use md_chain::ChainFault;
use md_page::MdPage;
use page_disk::{CallKind, Fail, FaultDisk, MemDisk, Page};
use std::alloc::Global;
use std::process::Abort;
use std::test::Fail as TestFail;

/// The number that stands for no next page.
const LAST: u32 = 0xFFFF_FFFF;

/// One page of a chain at a place, with the first bytes of its body.
#[derive(Drop)]
struct Row {
    place: u32,
    blob: u32,
    sequence: u32,
    next: u32,
    body: [u8; 2],
    sound: bool,
}

/// The head at place 0, which links to place 3.
const HEAD: Row = Row {
    place: 0,
    blob: 0,
    sequence: 0,
    next: 3,
    body: [0, 0],
    sound: true,
};

/// The second page, at place 3, which ends the chain.
const SECOND: Row = Row {
    place: 3,
    sequence: 1,
    next: LAST,
    ..HEAD
};

fn page_of(row: &Row) -> Page {
    let mut body = [0; 4072];
    body[..2].copy_from_slice(&row.body);
    let mut page = [0; 4096];
    md_page::write(
        &MdPage {
            id: (1 << 32) + u64::from(row.blob),
            sequence: row.sequence,
            body,
            next: row.next,
        },
        &mut page,
    );
    if !row.sound {
        page[4095] ^= 1;
    }
    page
}

/// A device of which the nth read fails.
fn failing(alloc: Global, nth: u64) -> Result<FaultDisk<MemDisk>, TestFail> {
    let fail = Fail {
        kind: CallKind::Read,
        nth,
    };
    let fails = vec![in alloc; fail]?;
    Ok(FaultDisk::new(MemDisk::new(alloc, 64, 8)?, fails))
}

/// What comes of reading the chain at a head, of a device on which these two pages are put.
fn fault_on(
    rt: &impl Abort,
    alloc: Global,
    disk: &mut FaultDisk<MemDisk>,
    (rows, head): (&[Row; 2], u32),
) -> Result<Option<ChainFault>, TestFail> {
    for row in rows {
        put(rt, disk, row.place, &page_of(row))?;
    }
    Ok(chain_in(rt, alloc, disk, head)?.err())
}

/// Two pages, which of the reads fails, the place of the head, and the fault that is found.
type Case = ([Row; 2], u64, u32, Option<ChainFault>);

/// Expects what comes of a case.
fn expect_case(rt: &impl Abort, alloc: Global, case: &Case) -> Result<(), TestFail> {
    let (rows, nth, head, wanted) = case;
    let mut disk = failing(alloc, *nth)?;
    assert!(rt; fault_on(rt, alloc, &mut disk, (rows, *head))? == *wanted);
    Ok(())
}

#[test]
fn each_fault_of_a_chain_has_its_numbers(rt: HostRuntime) -> Result<(), TestFail> {
    let cases: &[Case] = &[
        ([HEAD, SECOND], 9, 0, None),
        (
            [Row { next: 16, ..HEAD }, SECOND],
            9,
            0,
            Some(ChainFault::LinkPastEnd { page: 0, next: 16 }),
        ),
        (
            [HEAD, SECOND],
            9,
            16,
            Some(ChainFault::LinkPastEnd { page: 16, next: 16 }),
        ),
        (
            [HEAD, Row { next: 0, ..SECOND }],
            9,
            0,
            Some(ChainFault::Loop { page: 0 }),
        ),
        ([HEAD, SECOND], 2, 0, Some(ChainFault::ReadFault)),
        (
            [
                HEAD,
                Row {
                    sound: false,
                    blob: 7,
                    ..SECOND
                },
            ],
            9,
            0,
            Some(ChainFault::Unsound { page: 3 }),
        ),
        (
            [HEAD, Row { blob: 7, ..SECOND }],
            9,
            0,
            Some(ChainFault::WrongId {
                page: 3,
                found: 0x1_0000_0007,
            }),
        ),
        (
            [
                HEAD,
                Row {
                    sequence: 2,
                    ..SECOND
                },
            ],
            9,
            0,
            Some(ChainFault::WrongSequence {
                page: 3,
                found: 2,
                wanted: 1,
            }),
        ),
        (
            [
                HEAD,
                Row {
                    body: [3, 23],
                    ..SECOND
                },
            ],
            9,
            0,
            Some(ChainFault::BadItem {
                page: 3,
                at: 0,
                kind: 3,
            }),
        ),
    ];
    for case in cases {
        expect_case(&rt, rt.alloc(), case)?;
    }
    Ok(())
}
