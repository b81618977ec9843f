//! Places of a pool that are taken together.

ghost use Rattle.std.specs.Prelude.{◌≡◌, ◌≤◌, [], true, length, IfOk, OnErr};
ghost use Rattle.pools.specs.Pool.{clear_in};
ghost use Rattle.store_model.specs.Places.{all_set, AreLeastClear};

use out_of_memory::Memory;
use pools::Pool;
use std::alloc::Global;
use volume_model::PlaceList;

/// Takes so many of the least clear places, in their order; no place stays claimed. After `Memory` the pool is as
/// before.
pub fn take_places<K>(alloc: Global, pool: &mut Pool<K>, count: u32) -> Result<PlaceList, Memory>
    requires unclaimed { pool.old.claims ≡ [] }
    requires enough { count ≤ clear_in pool.old.bits }
    ensures least { IfOk result (AreLeastClear pool.old.bits) }
    ensures count { IfOk result (λ places. length places ≡ count) }
    ensures bits { IfOk result (λ places. pool.new.bits ≡ all_set pool.old.bits places true) }
    ensures unclaimed { pool.new.claims ≡ [] }
    ensures memory { OnErr result (pool.new ≡ pool.old) }
{
    let mut places = Vec::with_capacity(alloc, count as usize)?;
    for _ in 0..count {
        let Some(claim) = pool.claim() else {
            unreachable!()
        };
        places.push_reserved(pool.keep(claim));
    }
    Ok(PlaceList::from_vec(places))
}
