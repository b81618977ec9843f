//! Guards of heads.

use io_freeze::{Guards, generations_never_repeat};
use std::test::Fail;

/// Which of the heads 4, 9 and 5 are frozen.
fn frozen(guards: &Guards) -> (bool, bool, bool) {
    (
        guards.is_frozen(4),
        guards.is_frozen(9),
        guards.is_frozen(5),
    )
}

#[test]
fn a_removed_head_comes_back_with_a_new_generation(rt: HostRuntime) -> Result<(), Fail> {
    generations_never_repeat();
    let mut guards = Guards::new(rt.alloc(), 2)?;
    guards.add(9);
    guards.add(4);
    assert!(rt; guards.generation(9) == Some(1) && guards.generation(4) == Some(2));
    guards.freeze(4);
    guards.freeze(9);
    guards.release(9);
    guards.renew(9);
    assert!(rt; frozen(&guards) == (true, false, false));
    guards.remove(4);
    assert!(rt; !guards.is_frozen(4) && guards.generation(4).is_none());
    guards.add(4);
    assert!(rt; guards.generation(9) == Some(3) && guards.generation(4) == Some(4));
    assert!(rt; !guards.is_frozen(4));
    Ok(())
}
