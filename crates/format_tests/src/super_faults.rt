//! The faults of super blocks, and what is said of them.

use crate::super_page::small;
use std::process::Abort;
use std::test::Fail;
use super_block::Region::{BlobMask, ClusterMask, Md, PageMask, SuperPage, Whole};
use super_block::SuperFault::{
    BadClusterSize, BadPageSize, BadSignature, BadVersion, Overlap, PastEnd, ShortMask,
    TooManyClusters, TooManyPages,
};
use super_block::{Region, SuperFault, read_super, write_super};

/// The fault of the small store's page with some of its words changed and the sum taken anew.
fn fault(rt: &impl Abort, device_pages: u64, changes: &[(usize, u32)]) -> Option<SuperFault> {
    let mut page = [0; 4096];
    write_super(&small(), &mut page);
    for (at, word) in changes {
        assert!(rt; *at <= 4088);
        page[*at..*at + 4].copy_from_slice(&word.to_le_bytes());
    }
    seal(&mut page);
    read_super(&page, device_pages).err()
}

/// Puts the sum of the page at its end.
fn seal(page: &mut [u8; 4096]) {
    let sum = crc32c::sum(&page[..4092]).to_le_bytes();
    page[4092..].copy_from_slice(&sum);
}

/// The pages of a device, changes of words by their places, and the fault.
type Case = (u64, &'static [(usize, u32)], Option<SuperFault>);

static CASES: [Case; 34] = [
    (64, &[(4, 0)], Some(BadSignature)),
    (64, &[(8, 2)], Some(BadVersion { found: 2 })),
    (64, &[(92, 512)], Some(BadPageSize { found: 512 })),
    (64, &[(92, 4096)], None),
    (64, &[(28, 0)], Some(BadClusterSize { found: 0 })),
    (64, &[(28, 4097)], Some(BadClusterSize { found: 4097 })),
    (
        64,
        &[(52, 1_048_577)],
        Some(TooManyPages { found: 1_048_577 }),
    ),
    (
        64,
        &[(28, 4096), (84, 17)],
        Some(TooManyClusters { found: 17_825_856 }),
    ),
    (
        64,
        &[(28, 4096), (52, 1_048_577), (84, 17)],
        Some(TooManyPages { found: 1_048_577 }),
    ),
    (
        u64::MAX,
        &[(80, 0)],
        Some(TooManyClusters {
            found: 4_611_686_018_427_387_903,
        }),
    ),
    // A region that is past the end.
    (63, &[], Some(PastEnd { region: Whole })),
    (
        64,
        &[(80, 262_145), (32, 64)],
        Some(PastEnd { region: Whole }),
    ),
    (
        64,
        &[(32, 64), (40, 64), (48, 64), (72, 64)],
        Some(PastEnd { region: PageMask }),
    ),
    (
        64,
        &[(40, 64), (48, 64), (72, 64)],
        Some(PastEnd {
            region: ClusterMask,
        }),
    ),
    (
        64,
        &[(48, 64), (72, 64)],
        Some(PastEnd { region: BlobMask }),
    ),
    (64, &[(48, 49)], Some(PastEnd { region: Md })),
    (64, &[(48, 4_294_967_295)], Some(PastEnd { region: Md })),
    (64, &[(48, 48)], None),
    // A mask that is short.
    (
        64,
        &[(36, 0), (44, 0), (76, 0)],
        Some(ShortMask {
            region: PageMask,
            has: 0,
            wants: 1,
        }),
    ),
    (
        64,
        &[(44, 0), (76, 0)],
        Some(ShortMask {
            region: ClusterMask,
            has: 0,
            wants: 1,
        }),
    ),
    (
        64,
        &[(76, 0)],
        Some(ShortMask {
            region: BlobMask,
            has: 0,
            wants: 1,
        }),
    ),
    (
        40_000,
        &[(80, 0), (52, 32_729)],
        Some(ShortMask {
            region: PageMask,
            has: 1,
            wants: 2,
        }),
    ),
    (40_000, &[(80, 0), (52, 32_728)], None),
    // Two regions that have a page in common.
    (
        64,
        &[(32, 0)],
        Some(Overlap {
            a: SuperPage,
            b: PageMask,
        }),
    ),
    (
        64,
        &[(40, 0)],
        Some(Overlap {
            a: SuperPage,
            b: ClusterMask,
        }),
    ),
    (
        64,
        &[(72, 0)],
        Some(Overlap {
            a: SuperPage,
            b: BlobMask,
        }),
    ),
    (
        64,
        &[(48, 0)],
        Some(Overlap {
            a: SuperPage,
            b: Md,
        }),
    ),
    (
        64,
        &[(40, 1)],
        Some(Overlap {
            a: PageMask,
            b: ClusterMask,
        }),
    ),
    (
        64,
        &[(72, 1)],
        Some(Overlap {
            a: PageMask,
            b: BlobMask,
        }),
    ),
    (64, &[(48, 1)], Some(Overlap { a: PageMask, b: Md })),
    (
        64,
        &[(72, 2)],
        Some(Overlap {
            a: ClusterMask,
            b: BlobMask,
        }),
    ),
    (
        64,
        &[(48, 2)],
        Some(Overlap {
            a: ClusterMask,
            b: Md,
        }),
    ),
    (64, &[(48, 3)], Some(Overlap { a: BlobMask, b: Md })),
    (64, &[(48, 3), (52, 0)], None),
];

/// Expects the fault of each case.
fn expect_faults(rt: &impl Abort, cases: &[Case]) {
    for (device_pages, changes, wanted) in cases {
        let found = fault(rt, *device_pages, changes);
        assert_eq!(rt; found, *wanted, "at {changes:?}");
    }
}

#[test]
fn the_first_test_that_fails_is_the_fault(rt: HostRuntime) {
    expect_faults(&rt, &CASES);
}

/// Faults, and their texts.
static TEXTS: [(SuperFault, &str); 4] = [
    (SuperFault::BadVersion { found: 2 }, "version 2, wanted 3"),
    (
        SuperFault::PastEnd { region: Region::Md },
        "Md ends past the end of the store",
    ),
    (
        SuperFault::ShortMask {
            region: Region::PageMask,
            has: 1,
            wants: 2,
        },
        "PageMask has 1 pages, wanted at least 2",
    ),
    (
        SuperFault::DeviceTooSmall { has: 19, wants: 20 },
        "the device has 19 pages, wanted at least 20",
    ),
];

#[test]
fn the_text_says_what_was_found_and_wanted(rt: HostRuntime) -> Result<(), Fail> {
    for (fault, text) in &TEXTS {
        let found = format!(in rt.alloc(); "{fault}")?;
        assert_eq!(rt; found.as_str(), *text);
    }
    Ok(())
}
