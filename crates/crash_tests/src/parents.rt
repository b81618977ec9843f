//! Volumes over a read-only parent.

use crate::families::{CHILD, SNAPSHOT, family};
use std::test::Fail;
use test_runs::play;

/// A volume reads what its parent has where it has no cluster itself; a write copies the slot first. The parent is
/// neither written nor resized, and a volume doesn't grow past a parent that is longer.
#[test]
fn a_volume_shows_its_parent_until_it_is_written(rt: HostRuntime) -> Result<(), Fail> {
    let disk = family(rt.alloc(), &[SNAPSHOT, CHILD])?;
    let script = b"0 read v 0 1\n0 read v 4 1\n0 df\n0 write v 1 1 9\n0 read v 0 3\n0 read s 1 1\n\
        0 write s 0 1 1\n0 resize s 1\n0 resize v 1\n0 resize v 2\n0 readonly v\n\
        0 write v 0 1 1\n0 put v k t:1\n0 df\n";
    let printed = b"0 0 page fill abababababababab\n0 1 page fill 0000000000000000\n\
        0 2 df clusters 10 of 16 pages 14 of 16\n0 3 ok\n0 4 page fill abababababababab\n\
        0 5 page fill 0000000000000009\n0 6 page fill abababababababab\n0 7 page fill abababababababab\n\
        0 8 read only\n0 9 read only\n0 10 ok\n0 11 short\n0 12 ok\n0 13 read only\n0 14 read only\n\
        0 15 df clusters 9 of 16 pages 14 of 16\n";
    let disk = play(rt.alloc(), script, printed, disk)?;
    let (script, printed) = (
        b"0 read v 0 2\n0 write v 0 1 1\n",
        b"0 0 page fill abababababababab\n0 1 page fill 0000000000000009\n0 2 read only\n",
    );
    play(rt.alloc(), script, printed, disk)?;
    Ok(())
}
