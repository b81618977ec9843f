//! The jobs at the ends of inflates and decouples, and the first cause for which each is refused.

use crate::blobs::{Blob, CHILD, GRANDPARENT, PARENT, PLAIN, expect, metas_of, replacements_shown};
use blob_meta::{Job, Meta, Metas};
use inflate_delete::{Fill, FillKind};
use std::alloc::Global;
use std::process::Abort;
use std::test::Fail;
use super_block::{Layout, Super};
use volume_model::{Memory, Reply};

/// What is filled at a head; and the slot that is filled next, the job where there is none, or the first cause that
/// refuses the command.
struct Case {
    kind: FillKind,
    volume: u32,
    wanted: &'static str,
}

/// Over `g` and `s`: `v` at head 5, whose empty slot `s` doesn't hold, and `c` at head 6, which has more slots than
/// `s`. Over `g` is `w` at head 9, filled but for its last slot, past the end of `g`. At head 2 is `u` without a parent
/// and without an empty slot. A read-only blob as long as `c` is at head 7, a locked one without a parent at head 8; at
/// head 0 is the super blob, read-only too.
static FAMILY: [Blob; 9] = [
    Blob {
        head: 0,
        name: b"store\0",
        data_ro: 1,
        map: &[],
        ..PLAIN
    },
    GRANDPARENT,
    Blob {
        head: 2,
        name: b"u\0",
        map: &[Some(13), Some(14)],
        ..PLAIN
    },
    PARENT,
    Blob {
        name: b"v\0",
        map: &[Some(15), None, Some(16), Some(17)],
        ..CHILD
    },
    Blob {
        head: 6,
        name: b"c\0",
        map: &[Some(18), Some(19), Some(20), Some(21), Some(22)],
        ..CHILD
    },
    Blob {
        head: 7,
        data_ro: 1,
        map: &[None, None, None, None, None],
        ..CHILD
    },
    Blob {
        head: 8,
        md_ro: 8,
        ..PLAIN
    },
    Blob {
        head: 9,
        name: b"w\0",
        map: &[
            Some(23),
            Some(24),
            Some(25),
            Some(26),
            Some(27),
            Some(28),
            None,
        ],
        snap: Some(1),
        ..PLAIN
    },
];

static CASES: [Case; 15] = [
    Case {
        kind: FillKind::Inflate,
        volume: 6,
        wanted: "6: 0 [Some(18), Some(19), Some(20), Some(21), Some(22)] None false;thin false id 6 name c attributes \
                 1 internal 0;commit 1 zero 0 freeze None",
    },
    Case {
        kind: FillKind::Decouple,
        volume: 5,
        wanted: "5: 0 [Some(15), None, Some(16), Some(17)] Some(1) false;thin true id 5 name v attributes 1 internal \
                 1;commit 1 zero 0 freeze None",
    },
    // Its parent has none.
    Case {
        kind: FillKind::Decouple,
        volume: 9,
        wanted: "9: 0 [Some(23), Some(24), Some(25), Some(26), Some(27), Some(28), None] None false;thin true id 9 \
                 name w attributes 1 internal 0;commit 1 zero 0 freeze None",
    },
    // It has none itself.
    Case {
        kind: FillKind::Inflate,
        volume: 2,
        wanted: "2: 0 [Some(13), Some(14)] None false;thin false id 2 name u attributes 1 internal 0;commit 1 zero 0 \
                 freeze None",
    },
    Case {
        kind: FillKind::Inflate,
        volume: 5,
        wanted: "1",
    },
    Case {
        kind: FillKind::Inflate,
        volume: 9,
        wanted: "6",
    },
    Case {
        kind: FillKind::Inflate,
        volume: 0,
        wanted: "Reserved",
    },
    Case {
        kind: FillKind::Decouple,
        volume: 0,
        wanted: "Reserved",
    },
    Case {
        kind: FillKind::Inflate,
        volume: 3,
        wanted: "ReadOnly",
    },
    Case {
        kind: FillKind::Inflate,
        volume: 8,
        wanted: "ReadOnly",
    },
    Case {
        kind: FillKind::Decouple,
        volume: 8,
        wanted: "ReadOnly",
    },
    Case {
        kind: FillKind::Decouple,
        volume: 7,
        wanted: "ReadOnly",
    },
    Case {
        kind: FillKind::Decouple,
        volume: 2,
        wanted: "NoParent",
    },
    Case {
        kind: FillKind::Decouple,
        volume: 6,
        wanted: "Short",
    },
    Case {
        kind: FillKind::Decouple,
        volume: 4,
        wanted: "NoVolume",
    },
];

/// A store of 64 pages with clusters of 4 pages and 16 metadata pages, whose super blob is at head 0.
fn sup() -> Result<Super, Fail> {
    Ok(Layout::plan(64, 4, Some(16))?.new_super(1 << 32, [0; 16]))
}

/// What of new metadata `replacements_shown` leaves out.
fn new_shown(alloc: Global, new: &Meta) -> Result<String, Memory> {
    let (thin, id) = (new.flags.is_thin(), new.id % (1 << 32));
    let (attributes, internal) = (new.xattrs.as_slice().len(), new.internal.as_slice().len());
    let name = name_shown(new);
    format!(in alloc;
        "thin {thin} id {id} name {name} attributes {attributes} internal {internal};"
    ).map_err(|_| Memory)
}

fn push_new(text: &mut String, alloc: Global, job: &Job) -> Result<(), Memory> {
    for replacement in job.list.as_slice() {
        if let Some(new) = &replacement.new {
            text.push_str(new_shown(alloc, new)?.as_str())?;
        }
    }
    Ok(())
}

/// The job without its list.
fn rest_shown(alloc: Global, job: &Job) -> Result<String, Memory> {
    let (commit, zero, freeze) = (job.commit, job.zero.as_slice().len(), job.freeze);
    format!(in alloc; "commit {commit} zero {zero} freeze {freeze:?}").map_err(|_| Memory)
}

/// The replacements, what they leave out of the new metadata, and the rest of the job.
fn job_shown(alloc: Global, job: &Job) -> Result<String, Memory> {
    let rest = rest_shown(alloc, job)?;
    let mut text = replacements_shown(alloc, &job.list)?;
    push_new(&mut text, alloc, job)?;
    text.push_str(rest.as_str())?;
    Ok(text)
}

/// The name, where it is one letter.
fn name_shown(meta: &Meta) -> char {
    match meta.xattrs.value_of(b"name") {
        Some(name) => match name.bytes() {
            [letter, 0] => char::from(*letter),
            _ => '?',
        },
        None => '-',
    }
}

/// The job at the end of a fill that has no slot to fill.
fn last_shown(alloc: Global, metas: &Metas, fill: &Fill) -> Result<String, Memory> {
    if metas.get(fill.volume).is_none() {
        return format!(in alloc; "{:?}", Reply::NoVolume).map_err(|_| Memory);
    }
    if let Some(at) = fill.next(metas) {
        return format!(in alloc; "{at}").map_err(|_| Memory);
    }
    match fill.last_job(alloc, metas) {
        Ok(job) => job_shown(alloc, &job),
        Err(reply) => format!(in alloc; "{reply:?}").map_err(|_| Memory),
    }
}

fn plan_shown(alloc: Global, metas: &Metas, sup: &Super, case: &Case) -> Result<String, Memory> {
    if metas.get(case.volume).is_none() {
        return format!(in alloc; "{:?}", Reply::NoVolume).map_err(|_| Memory);
    }
    match Fill::plan(metas, sup, case.volume, case.kind) {
        Ok(fill) => last_shown(alloc, metas, &fill),
        Err(reply) => format!(in alloc; "{reply:?}").map_err(|_| Memory),
    }
}

/// Expects of each case what it tells.
fn expect_plans(rt: &impl Abort, alloc: Global, metas: &Metas, sup: &Super) -> Result<(), Memory> {
    for case in &CASES {
        expect(rt, &plan_shown(alloc, metas, sup, case)?, case.wanted);
    }
    Ok(())
}

#[test]
fn fills_and_first_causes(rt: HostRuntime) -> Result<(), Fail> {
    let alloc = rt.alloc();
    let sup = sup()?;
    let metas = metas_of(alloc, &FAMILY)?;
    Ok(expect_plans(&rt, alloc, &metas, &sup)?)
}

static LAST_CASES: [Case; 4] = [
    Case {
        kind: FillKind::Inflate,
        volume: 8,
        wanted: "ReadOnly",
    },
    Case {
        kind: FillKind::Decouple,
        volume: 8,
        wanted: "ReadOnly",
    },
    Case {
        kind: FillKind::Decouple,
        volume: 2,
        wanted: "NoParent",
    },
    Case {
        kind: FillKind::Decouple,
        volume: 6,
        wanted: "Short",
    },
];

/// Of metadata that has changed since a fill was planned, its last job is refused by what holds then.
#[test]
fn last_jobs_are_refused(rt: HostRuntime) -> Result<(), Fail> {
    let alloc = rt.alloc();
    let metas = metas_of(alloc, &FAMILY)?;
    for case in &LAST_CASES {
        let fill = Fill {
            volume: case.volume,
            kind: case.kind,
        };
        expect(&rt, &last_shown(alloc, &metas, &fill)?, case.wanted);
    }
    Ok(())
}
