//! What recovery makes of each state of a snapshot that is being made or removed.

use crate::blobs::{Blob, CHILD, PLAIN, expect, metas_of, metas_shown, replacements_shown};
use blob_meta::{Resolved, resolve};
use std::alloc::Global;
use std::process::Abort;
use std::test::Fail;
use volume_model::Memory;

struct Case {
    found: &'static [Blob],
    resolved: &'static str,
    removed: &'static str,
    repairs: &'static str,
}

static CASES: [Case; 10] = [
    // A snapshot at head 3 of the volume at head 5, before its first replacement and after each.
    Case {
        found: &[PLAIN],
        resolved: "5: 0 [Some(7)] None false;",
        removed: "",
        repairs: "",
    },
    Case {
        found: &[
            Blob {
                head: 3,
                map: &[None],
                tmp: Some(5),
                ..PLAIN
            },
            PLAIN,
        ],
        resolved: "5: 0 [Some(7)] None false;",
        removed: "3: 0 [None] None true;",
        repairs: "3 erased;",
    },
    Case {
        found: &[
            Blob {
                head: 3,
                tmp: Some(5),
                ..PLAIN
            },
            PLAIN,
        ],
        resolved: "5: 0 [Some(7)] None false;",
        removed: "3: 0 [Some(7)] None true;",
        repairs: "3 erased;",
    },
    Case {
        found: &[
            Blob {
                head: 3,
                tmp: Some(5),
                ..PLAIN
            },
            CHILD,
        ],
        resolved: "3: 1 [Some(7)] None false;5: 0 [None] Some(3) false;",
        removed: "",
        repairs: "3: 1 [Some(7)] None false;",
    },
    // The snapshot is made; its delete begins here.
    Case {
        found: &[
            Blob {
                head: 3,
                data_ro: 1,
                ..PLAIN
            },
            CHILD,
        ],
        resolved: "3: 1 [Some(7)] None false;5: 0 [None] Some(3) false;",
        removed: "",
        repairs: "",
    },
    // The delete of the snapshot at head 3, whose clone is at head 5; after the last replacement the first case stands.
    Case {
        found: &[
            Blob {
                head: 3,
                data_ro: 1,
                rm: Some(5),
                ..PLAIN
            },
            CHILD,
        ],
        resolved: "3: 1 [Some(7)] None false;5: 0 [None] Some(3) false;",
        removed: "",
        repairs: "3: 1 [Some(7)] None false;",
    },
    Case {
        found: &[
            Blob {
                head: 3,
                data_ro: 1,
                rm: Some(5),
                ..PLAIN
            },
            PLAIN,
        ],
        resolved: "5: 0 [Some(7)] None false;",
        removed: "3: 1 [Some(7)] None true;",
        repairs: "3 erased;",
    },
    // Both marks go; of two the one of the delete counts.
    Case {
        found: &[
            Blob {
                head: 3,
                tmp: Some(9),
                rm: Some(5),
                ..PLAIN
            },
            CHILD,
        ],
        resolved: "3: 1 [Some(7)] None false;5: 0 [None] Some(3) false;",
        removed: "",
        repairs: "3: 1 [Some(7)] None false;",
    },
    // A blob keeps another although it is itself removed.
    Case {
        found: &[
            Blob {
                head: 3,
                tmp: Some(5),
                ..PLAIN
            },
            Blob {
                tmp: Some(9),
                ..CHILD
            },
        ],
        resolved: "3: 1 [Some(7)] None false;",
        removed: "5: 0 [None] Some(3) true;",
        repairs: "3: 1 [Some(7)] None false;5 erased;",
    },
    // First the kept marks, and then the erasures, of each the heads ascending.
    Case {
        found: &[
            Blob {
                head: 8,
                snap: Some(7),
                ..CHILD
            },
            Blob {
                head: 7,
                data_ro: 2,
                rm: Some(8),
                ..PLAIN
            },
            Blob {
                head: 6,
                rm: Some(5),
                ..PLAIN
            },
            CHILD,
            Blob {
                head: 3,
                tmp: Some(5),
                ..PLAIN
            },
            Blob {
                head: 1,
                tmp: Some(9),
                ..PLAIN
            },
        ],
        resolved: "3: 1 [Some(7)] None false;5: 0 [None] Some(3) false;7: 3 [Some(7)] None false;\
                   8: 0 [None] Some(7) false;",
        removed: "1: 0 [Some(7)] None true;6: 0 [Some(7)] None true;",
        repairs: "3: 1 [Some(7)] None false;7: 3 [Some(7)] None false;1 erased;6 erased;",
    },
];

/// Expects of what recovery made of a case what the case tells.
fn expect_resolved(
    rt: &impl Abort,
    alloc: Global,
    resolved: &Resolved,
    case: &Case,
) -> Result<(), Memory> {
    expect(rt, &metas_shown(alloc, &resolved.metas)?, case.resolved);
    expect(rt, &metas_shown(alloc, &resolved.removed)?, case.removed);
    expect(
        rt,
        &replacements_shown(alloc, &resolved.repairs)?,
        case.repairs,
    );
    Ok(())
}

fn expect_case(rt: &impl Abort, alloc: Global, case: &Case) -> Result<(), Memory> {
    let resolved = resolve(alloc, metas_of(alloc, case.found)?)?;
    expect_resolved(rt, alloc, &resolved, case)
}

#[test]
fn half_made_snapshots_are_finished_or_undone(rt: HostRuntime) -> Result<(), Fail> {
    let alloc = rt.alloc();
    for case in &CASES {
        expect_case(&rt, alloc, case)?;
    }
    Ok(())
}
