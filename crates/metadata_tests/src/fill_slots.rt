//! Which slots an inflate or a decouple fills next.

use crate::blobs::{Blob, CHILD, GRANDPARENT, PARENT, PLAIN, metas_of};
use blob_meta::Metas;
use inflate_delete::{Fill, FillKind};
use std::alloc::Global;
use std::test::Fail;
use volume_model::Memory;

/// The map of a volume over `s`, and the slots that an inflate and a decouple of it fill next.
struct Next {
    map: &'static [Option<u32>],
    inflate: Option<u32>,
    decouple: Option<u32>,
}

static NEXTS: [Next; 10] = [
    Next {
        map: &[],
        inflate: None,
        decouple: None,
    },
    Next {
        map: &[Some(20), Some(21), Some(22), Some(23), Some(24)],
        inflate: None,
        decouple: None,
    },
    Next {
        map: &[None, None, None, None],
        inflate: Some(0),
        decouple: Some(0),
    },
    Next {
        map: &[None, Some(20), Some(21)],
        inflate: Some(0),
        decouple: Some(0),
    },
    // The parent's parent alone holds slot 1.
    Next {
        map: &[Some(20), None, Some(21)],
        inflate: Some(1),
        decouple: None,
    },
    Next {
        map: &[Some(20), None, None, Some(21)],
        inflate: Some(1),
        decouple: Some(2),
    },
    Next {
        map: &[Some(20), Some(21), None],
        inflate: Some(2),
        decouple: Some(2),
    },
    Next {
        map: &[Some(20), Some(21), Some(22), None],
        inflate: Some(3),
        decouple: None,
    },
    // Past the parent's end.
    Next {
        map: &[Some(20), Some(21), Some(22), Some(23), None, None, None],
        inflate: Some(4),
        decouple: None,
    },
    Next {
        map: &[Some(20), Some(21), None, None, None],
        inflate: Some(2),
        decouple: Some(2),
    },
];

/// What a fill of the volume at head 5 fills next.
fn next_of(metas: &Metas, kind: FillKind) -> Option<u32> {
    Fill { volume: 5, kind }.next(metas)
}

/// What an inflate and a decouple of the volume at head 5 fill next.
fn nexts_of(alloc: Global, blobs: &[Blob]) -> Result<(Option<u32>, Option<u32>), Memory> {
    let metas = metas_of(alloc, blobs)?;
    Ok((
        next_of(&metas, FillKind::Inflate),
        next_of(&metas, FillKind::Decouple),
    ))
}

/// The same of a volume over `s` with this map.
fn nexts_over_parent(
    alloc: Global,
    map: &'static [Option<u32>],
) -> Result<(Option<u32>, Option<u32>), Memory> {
    let volume = Blob { map, ..CHILD };
    nexts_of(alloc, &[GRANDPARENT, PARENT, volume])
}

#[test]
fn least_slots_to_fill(rt: HostRuntime) -> Result<(), Fail> {
    let alloc = rt.alloc();
    for case in &NEXTS {
        let nexts = nexts_over_parent(alloc, case.map)?;
        assert_eq!(rt; nexts, (case.inflate, case.decouple));
    }
    Ok(())
}

const ALONE: Blob = Blob {
    map: &[Some(20), None],
    ..PLAIN
};

/// Blobs, and the slots that an inflate and a decouple of the volume among them fill next.
type Nexts = (&'static [Blob], (Option<u32>, Option<u32>));

static WITHOUT_PARENT: [Nexts; 3] = [
    (&[GRANDPARENT, PARENT, ALONE], (Some(1), None)),
    (&[GRANDPARENT, CHILD], (Some(0), None)),
    (&[GRANDPARENT], (None, None)),
];

/// A volume without a parent, one whose parent isn't there, and no volume.
#[test]
fn slots_to_fill_without_a_parent(rt: HostRuntime) -> Result<(), Fail> {
    let alloc = rt.alloc();
    for (blobs, nexts) in &WITHOUT_PARENT {
        assert_eq!(rt; nexts_of(alloc, blobs)?, *nexts);
    }
    Ok(())
}
