//! What recovery makes of each state of a snapshot that is being made or removed.

use crate::families::{STATES, State, family, joined};
use std::alloc::Global;
use std::test::Fail;
use test_runs::play;
use test_stores::expect_rows;

/// Looks at both volumes.
pub(crate) const LOOK: &[u8] =
    b"0 df\n0 read v 0 1\n0 read v 4 1\n0 read s 0 1\n0 read s 4 1\n0 write s 0 1 1\n";

/// The snapshot shows what the volume shows, and is read-only; or there is none.
const MADE: &[u8] =
    b"0 3 page fill abababababababab\n0 4 page fill 0000000000000000\n0 5 read only\n";

const UNDONE: &[u8] = b"0 3 no volume\n0 4 no volume\n0 5 no volume\n";

/// What a look prints of a state that is repaired.
pub(crate) fn looked(alloc: Global, state: &State) -> Result<Vec<u8>, Fail> {
    joined(
        alloc,
        &[
            b"0 0 df clusters 10 of 16 pages ",
            state.free,
            b" of 16\n0 1 page fill abababababababab\n0 2 page fill 0000000000000000\n",
            if state.is_made { MADE } else { UNDONE },
        ],
    )
}

/// A second run finds what the first left, in which nothing is left to repair.
#[test]
fn half_made_snapshots_are_finished_or_undone(rt: HostRuntime) -> Result<(), Fail> {
    let alloc = rt.alloc();
    for state in &STATES {
        let printed = looked(alloc, state)?;
        let mut disk = play(alloc, LOOK, &printed, family(alloc, state.found)?)?;
        expect_rows(alloc, &mut disk, 16, state.repaired)?;
        play(alloc, LOOK, &printed, disk)?;
    }
    Ok(())
}

/// Changes both volumes, each in every way that there is.
const CHANGES: &[u8] =
    b"0 write v 1 1 9\n0 read v 0 3\n0 read s 1 1\n0 put v k t:1\n0 getx v k\n0 put s k t:1\n\
    0 resize v 3\n0 create s 1 thin\n0 readonly v\n0 write v 1 1 1\n0 df\n";

/// The volume has a cluster of its own then beside that of its snapshot; or the name `s` is free, and is taken.
const CHANGED_MADE: &[u8] =
    b"0 0 ok\n0 1 page fill abababababababab\n0 2 page fill 0000000000000009\n\
    0 3 page fill abababababababab\n0 4 page fill abababababababab\n0 5 ok\n0 6 value 31\n0 7 read only\n0 8 ok\n\
    0 9 name taken\n0 10 ok\n0 11 read only\n";

const CHANGED_UNDONE: &[u8] =
    b"0 0 ok\n0 1 page fill abababababababab\n0 2 page fill 0000000000000009\n\
    0 3 page fill abababababababab\n0 4 no volume\n0 5 ok\n0 6 value 31\n0 7 no volume\n0 8 ok\n\
    0 9 ok @0\n0 10 ok\n0 11 read only\n";

/// What the changes print of a state. Where the snapshot is undone 15 metadata pages are free before.
fn changed(alloc: Global, state: &State) -> Result<Vec<u8>, Fail> {
    if state.is_made {
        let before = b"0 12 df clusters 9 of 16 pages ";
        joined(alloc, &[CHANGED_MADE, before, state.free, b" of 16\n"])
    } else {
        let space = b"0 12 df clusters 10 of 16 pages 14 of 16\n";
        joined(alloc, &[CHANGED_UNDONE, space])
    }
}

/// Looks at what the changes leave.
const LATER: &[u8] = b"0 read v 0 2\n0 getx v k\n0 write v 1 1 1\n0 read s 1 1\n";

const LATER_MADE: &[u8] =
    b"0 0 page fill abababababababab\n0 1 page fill 0000000000000009\n0 2 value 31\n0 3 read only\n\
    0 4 page fill abababababababab\n";

const LATER_UNDONE: &[u8] =
    b"0 0 page fill abababababababab\n0 1 page fill 0000000000000009\n0 2 value 31\n0 3 read only\n\
    0 4 page fill 0000000000000000\n";

/// Expects what the changes print of a state, and a look at what they leave.
fn expect_changes(alloc: Global, state: &State) -> Result<(), Fail> {
    let printed = changed(alloc, state)?;
    let disk = play(alloc, CHANGES, &printed, family(alloc, state.found)?)?;
    let later = if state.is_made {
        LATER_MADE
    } else {
        LATER_UNDONE
    };
    play(alloc, LATER, later, disk)?;
    Ok(())
}

/// The commands of the run that makes the repairs are served as those of any other.
#[test]
fn a_repaired_store_runs_commands(rt: HostRuntime) -> Result<(), Fail> {
    for state in &STATES {
        expect_changes(rt.alloc(), state)?;
    }
    Ok(())
}
