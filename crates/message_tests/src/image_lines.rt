//! The lines on a fault of an image.

use crate::expecting::expect;
use blob_meta::MetaFault;
use blob_tool::{LoadFault, Status};
use host_io::{Ending, ErrorLine};
use md_chain::ChainFault;
use std::test::Fail;
use super_block::{Region, SuperFault};

static SUPER_LINES: [(SuperFault, &str); 14] = [
    (
        SuperFault::BadSignature,
        "it has no store: page 0 does not begin with SPDKBLOB",
    ),
    (
        SuperFault::BadVersion { found: 2 },
        "super block: format version 2, wanted 3",
    ),
    (
        SuperFault::BadChecksum,
        "super block: its checksum is wrong, so page 0 is damaged",
    ),
    (
        SuperFault::BadPageSize { found: 512 },
        "super block: metadata pages of 512 bytes, wanted 4096",
    ),
    (
        SuperFault::BadClusterSize {
            found: 4_294_967_295,
        },
        "clusters of 4294967295 bytes, wanted a multiple of 4096 from 4096 to 4294963200",
    ),
    (
        SuperFault::TooManyPages { found: 1_048_577 },
        "1048577 metadata pages, wanted at most 1048576",
    ),
    (
        SuperFault::TooManyClusters { found: 16_777_217 },
        "16777217 clusters, wanted at most 16777216",
    ),
    (
        SuperFault::PastEnd {
            region: Region::Whole,
        },
        "the store has 262144 bytes, but the image only 20 pages of 4096 bytes",
    ),
    (
        SuperFault::PastEnd {
            region: Region::PageMask,
        },
        "super block: the page mask ends behind the last whole cluster",
    ),
    (
        SuperFault::PastEnd { region: Region::Md },
        "super block: the metadata region ends behind the last whole cluster",
    ),
    (
        SuperFault::ShortMask {
            region: Region::ClusterMask,
            has: 1,
            wants: 2,
        },
        "super block: the cluster mask has 1 pages, wanted at least 2",
    ),
    (
        SuperFault::Overlap {
            a: Region::SuperPage,
            b: Region::BlobMask,
        },
        "super block: the super block and the blob-id mask have a page in common, wanted none",
    ),
    (
        SuperFault::DeviceTooSmall { has: 19, wants: 20 },
        "it has 19 pages of 4096 bytes, wanted at least 20 for the new store",
    ),
    (
        SuperFault::DeviceTooSmall { has: 0, wants: 20 },
        "it has 0 pages of 4096 bytes, wanted at least 20 for the new store",
    ),
];

static CHAIN_LINES: [(ChainFault, &str); 8] = [
    (
        ChainFault::LinkPastEnd { page: 1, next: 16 },
        "volume @3: metadata page 1 links to 16, behind the metadata region's last page",
    ),
    (
        ChainFault::Loop { page: 1 },
        "volume @3: its chain comes to metadata page 1 a second time",
    ),
    (
        ChainFault::ReadFault,
        "volume @3: a metadata page could not be read",
    ),
    (
        ChainFault::Unsound { page: 1 },
        "volume @3: the checksum of metadata page 1 is wrong",
    ),
    (
        ChainFault::WrongId {
            page: 1,
            found: 255,
        },
        "volume @3: metadata page 1 is of the blob with id 0xff",
    ),
    (
        ChainFault::WrongSequence {
            page: 1,
            found: 5,
            wanted: 2,
        },
        "volume @3: metadata page 1 has sequence 5, wanted 2",
    ),
    (
        ChainFault::BadItem {
            page: 1,
            at: 40,
            kind: 2,
        },
        "volume @3: metadata page 1 has a bad descriptor of type 2 at byte 40 of its body",
    ),
    (ChainFault::Memory, "volume @3: memory ran out"),
];

/// The ending of a run that found this fault.
fn bad_image(fault: LoadFault) -> Ending {
    Ending::Ran(Status::Image { fault })
}

#[test]
fn faults_of_a_super_block_are_told(rt: HostRuntime) -> Result<(), Fail> {
    for (fault, text) in &SUPER_LINES {
        expect(&rt, bad_image(LoadFault::Super(*fault)), None, 3, text)?;
    }
    Ok(())
}

#[test]
fn faults_of_a_chain_are_told(rt: HostRuntime) -> Result<(), Fail> {
    for (fault, text) in &CHAIN_LINES {
        let fault = LoadFault::Chain {
            head: 3,
            fault: *fault,
        };
        expect(&rt, bad_image(fault), None, 3, text)?;
    }
    Ok(())
}

#[test]
fn faults_of_metadata_are_told(rt: HostRuntime) -> Result<(), Fail> {
    let cases = [
        (
            MetaFault::UnknownFlag { bits: 4 },
            "volume @3: it has flags that are not known, 0x4",
        ),
        (
            MetaFault::TooLarge { slots: 1_048_577 },
            "volume @3: 1048577 slots, wanted at most 1048576",
        ),
        (
            MetaFault::ClusterOutside { cluster: 1 },
            "volume @3: its map has cluster 1, which is the store's own or behind its end",
        ),
        (
            MetaFault::HoleInThick { slot: 2 },
            "volume @3: it is thick, but its slot 2 has no cluster",
        ),
        (MetaFault::Memory, "volume @3: memory ran out"),
    ];
    for (fault, text) in cases {
        expect(
            &rt,
            bad_image(LoadFault::Meta { head: 3, fault }),
            None,
            3,
            text,
        )?;
    }
    Ok(())
}

#[test]
fn faults_of_an_image_are_told(rt: HostRuntime) -> Result<(), Fail> {
    let cases = [
        (
            LoadFault::MapsTooLarge { slots: 16_777_217 },
            "its volumes have 16777217 slots together, wanted at most 16777216",
        ),
        (
            LoadFault::NoParentBlob {
                blob: 3,
                parent: 255,
            },
            "volume @3: its parent with id 0xff is not there",
        ),
        (
            LoadFault::WritableParent { blob: 3, parent: 4 },
            "volume @3: its parent @4 is not read-only",
        ),
        (
            LoadFault::ParentLoop { blob: 3 },
            "volume @3: it is among its parents' parents",
        ),
        (
            LoadFault::Shared {
                cluster: 9,
                a: 3,
                b: 4,
            },
            "cluster 9 is in the maps of volume @3 and of volume @4",
        ),
        (
            LoadFault::NoRoom {
                head: 3,
                has: 0,
                wants: 1,
            },
            "volume @3: 0 metadata pages are clear, wanted 1 for its repair",
        ),
        (LoadFault::ReadFault, "a page could not be read"),
        (LoadFault::Memory, "memory ran out"),
    ];
    for (fault, text) in cases {
        expect(&rt, bad_image(fault), None, 3, text)?;
    }
    Ok(())
}

#[test]
fn an_image_without_a_page_is_told(rt: HostRuntime) -> Result<(), Fail> {
    let ending = bad_image(LoadFault::Super(SuperFault::BadSignature));
    let line = ErrorLine::new(Some("run"), Some("a"), ending);
    assert_eq!(rt;
        format!(in rt.alloc(); "{line}")?.as_str(),
        "blobtool: run a: it has no page of 4096 bytes, so it has no store"
    );
    Ok(())
}
