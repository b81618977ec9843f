//! Claims on the places of a pool.

use pools::{Bits, ClusterPool, PagePool, given_back_at_once};
use std::process::Abort;
use std::test::Fail;

/// Expects so many places in use, and so many that are clear.
fn expect_counts(rt: &impl Abort, pool: &ClusterPool, used: u32, clear: u32) {
    assert!(rt; pool.bits().count() == used && pool.clear_count() == clear);
}

#[test]
fn least_clear_places_are_claimed(rt: HostRuntime) -> Result<(), Fail> {
    given_back_at_once();
    let mut pool = ClusterPool::new(Bits::new(rt.alloc(), 3)?);
    let first = pool.claim().expect(&rt, "a clear place");
    let second = pool.claim().expect(&rt, "a clear place");
    pool.open_claims_differ();
    assert!(rt; first.at() == 0 && second.at() == 1);
    expect_counts(&rt, &pool, 2, 1);
    pool.give_back(first);
    assert!(rt; pool.keep(second) == 1);
    expect_counts(&rt, &pool, 1, 2);
    pool.free(1);
    assert!(rt; pool.into_bits().count() == 0);
    Ok(())
}

fn crosses_threads<T: Send>(_value: &T) {}

#[test]
fn a_full_pool_has_no_claim(rt: HostRuntime) -> Result<(), Fail> {
    let mut pool = PagePool::new(Bits::new(rt.alloc(), 1)?);
    let claim = pool.claim().expect(&rt, "a clear place");
    crosses_threads(&claim);
    let kept = pool.keep(claim);
    crosses_threads(&pool);
    match pool.claim() {
        Some(claim) => {
            pool.give_back(claim);
            let _ = pool.into_bits();
            assert!(rt; false, "a claim of a full pool");
        }
        None => {
            assert!(rt; kept == 0 && pool.clear_count() == 0);
            assert!(rt; pool.into_bits().count() == 1);
        }
    }
    Ok(())
}
