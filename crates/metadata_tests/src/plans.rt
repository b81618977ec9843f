//! The jobs of snapshots, clones and deletes, and the first cause for which each is refused.

use crate::blobs::{Blob, CHILD, PLAIN, expect, metas_of, replacements_shown};
use blob_meta::{Job, Metas};
use inflate_delete::plan_delete;
use snapshots::{plan_clone, plan_snapshot};
use std::alloc::Global;
use std::process::Abort;
use std::test::Fail;
use super_block::{Layout, Super};
use volume_model::{Memory, Name, Reply};

#[derive(Clone, Copy)]
enum Verb {
    Snapshot,
    Clone,
    Delete,
}

/// What is planned, of a blob at a head, with the name that a new blob gets; and the job, or the first cause that
/// refuses it.
struct Case {
    verb: Verb,
    volume: u32,
    name: &'static str,
    wanted: &'static str,
}

/// A volume `v` at head 5 with cluster 9 in its second slot, over its read-only parent `s` at head 3, which has another
/// clone `c` at head 6; below s stands `g` at head 1, of three slots. A locked blob at head 7 is the one clone of `r`
/// at head 4, and `u` at head 2 is alone; at head 0 is the super blob.
static FAMILY: [Blob; 8] = [
    Blob {
        head: 0,
        name: b"store\0",
        map: &[],
        ..PLAIN
    },
    Blob {
        head: 1,
        name: b"g\0",
        data_ro: 1,
        map: &[Some(5), Some(6), Some(7)],
        ..PLAIN
    },
    Blob {
        head: 2,
        name: b"u\0",
        map: &[Some(12)],
        ..PLAIN
    },
    Blob {
        head: 3,
        name: b"s\0",
        data_ro: 1,
        map: &[Some(8), None],
        snap: Some(1),
        ..PLAIN
    },
    Blob {
        head: 4,
        name: b"r\0",
        data_ro: 1,
        map: &[Some(10)],
        ..PLAIN
    },
    Blob {
        head: 5,
        name: b"v\0",
        map: &[None, Some(9)],
        ..CHILD
    },
    Blob {
        head: 6,
        name: b"c\0",
        map: &[None, None, None],
        ..CHILD
    },
    Blob {
        head: 7,
        name: b"l\0",
        md_ro: 8,
        snap: Some(4),
        ..CHILD
    },
];

static CASES: [Case; 14] = [
    Case {
        verb: Verb::Snapshot,
        volume: 5,
        name: "t",
        wanted: "9: 0 [None, None] None true;9: 0 [None, Some(9)] Some(3) true;5: 0 [None, None] Some(9) false;\
                 9: 1 [None, Some(9)] Some(3) false;commit 3 freeze Some(5)",
    },
    Case {
        verb: Verb::Snapshot,
        volume: 0,
        name: "v",
        wanted: "Reserved",
    },
    Case {
        verb: Verb::Snapshot,
        volume: 3,
        name: "v",
        wanted: "ReadOnly",
    },
    Case {
        verb: Verb::Snapshot,
        volume: 7,
        name: "t",
        wanted: "ReadOnly",
    },
    Case {
        verb: Verb::Snapshot,
        volume: 5,
        name: "v",
        wanted: "NameTaken",
    },
    Case {
        verb: Verb::Clone,
        volume: 3,
        name: "t",
        wanted: "9: 0 [None, None] Some(3) false;commit 1 freeze None",
    },
    Case {
        verb: Verb::Clone,
        volume: 5,
        name: "v",
        wanted: "NotReadOnly",
    },
    Case {
        verb: Verb::Clone,
        volume: 7,
        name: "v",
        wanted: "NameTaken",
    },
    Case {
        verb: Verb::Delete,
        volume: 2,
        name: "t",
        wanted: "2 erased;commit 1 freeze None",
    },
    // Its one clone, with cluster 8 and empty slots of its own, takes cluster 5 to 7 in the others.
    Case {
        verb: Verb::Delete,
        volume: 1,
        name: "t",
        wanted: "1: 1 [Some(5), Some(6), Some(7)] None true;3: 1 [Some(8), Some(6)] None false;1 erased;\
                 commit 2 freeze None",
    },
    Case {
        verb: Verb::Delete,
        volume: 0,
        name: "t",
        wanted: "Reserved",
    },
    Case {
        verb: Verb::Delete,
        volume: 7,
        name: "t",
        wanted: "ReadOnly",
    },
    Case {
        verb: Verb::Delete,
        volume: 4,
        name: "t",
        wanted: "ReadOnly",
    },
    Case {
        verb: Verb::Delete,
        volume: 3,
        name: "t",
        wanted: "Busy(2)",
    },
];

fn name_of(name: &str) -> Name {
    match name {
        "v" => Name::new(b"v"),
        _ => Name::new(b"t"),
    }
}

/// A store of 64 pages with clusters of 4 pages and 16 metadata pages, whose super blob is at head 0.
fn sup() -> Result<Super, Fail> {
    Ok(Layout::plan(64, 4, Some(16))?.new_super(1 << 32, [0; 16]))
}

fn planned(alloc: Global, metas: &Metas, sup: &Super, case: &Case) -> Result<Job, Reply> {
    let name = name_of(case.name);
    if metas.get(case.volume).is_none() {
        return Err(Reply::NoVolume);
    }
    match case.verb {
        Verb::Snapshot => plan_snapshot(alloc, metas, sup, case.volume, 9, &name, [0; 16]),
        Verb::Clone => plan_clone(alloc, metas, sup, case.volume, 9, &name, [0; 16]),
        Verb::Delete => plan_delete(alloc, metas, sup, case.volume),
    }
}

fn job_shown(alloc: Global, job: &Job) -> Result<String, Memory> {
    let list = replacements_shown(alloc, &job.list)?;
    let (commit, freeze) = (job.commit, job.freeze);
    format!(in alloc; "{list}commit {commit} freeze {freeze:?}").map_err(|_| Memory)
}

fn plan_shown(alloc: Global, metas: &Metas, sup: &Super, case: &Case) -> Result<String, Memory> {
    match planned(alloc, metas, sup, case) {
        Ok(job) => job_shown(alloc, &job),
        Err(reply) => format!(in alloc; "{reply:?}").map_err(|_| Memory),
    }
}

/// Expects of each case the job or the first cause that it tells.
fn expect_plans(
    rt: &impl Abort,
    alloc: Global,
    metas: &Metas,
    sup: &Super,
    cases: &[Case],
) -> Result<(), Memory> {
    for case in cases {
        expect(rt, &plan_shown(alloc, metas, sup, case)?, case.wanted);
    }
    Ok(())
}

#[test]
fn jobs_and_first_causes(rt: HostRuntime) -> Result<(), Fail> {
    let alloc = rt.alloc();
    let sup = sup()?;
    let metas = metas_of(alloc, &FAMILY)?;
    Ok(expect_plans(&rt, alloc, &metas, &sup, &CASES)?)
}

/// A blob of one slot between a parent and a clone of two, which would read of the parent what the blob doesn't.
static BETWEEN: [Blob; 3] = [
    Blob {
        head: 1,
        data_ro: 1,
        map: &[Some(5), Some(6)],
        ..PLAIN
    },
    Blob {
        head: 3,
        data_ro: 1,
        map: &[Some(8)],
        snap: Some(1),
        ..PLAIN
    },
    Blob {
        map: &[None, None],
        ..CHILD
    },
];

static SHORT: [Case; 1] = [Case {
    verb: Verb::Delete,
    volume: 3,
    name: "t",
    wanted: "Short",
}];

#[test]
fn a_blob_between_longer_ones_stays(rt: HostRuntime) -> Result<(), Fail> {
    let alloc = rt.alloc();
    let sup = sup()?;
    let metas = metas_of(alloc, &BETWEEN)?;
    Ok(expect_plans(&rt, alloc, &metas, &sup, &SHORT)?)
}
