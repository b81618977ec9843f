//! Places of a pool that become clear together.

ghost use Rattle.std.specs.Prelude.{◌≡◌, true, false, [], All};
ghost use Rattle.bit_array.specs.Bits.{is_in};
ghost use Rattle.store_model.specs.Places.{all_set, AreDistinct};

use pools::Pool;
use volume_model::PlaceList;

/// Makes these places clear, which were in use; no place is claimed.
pub fn clear_places<K>(pool: &mut Pool<K>, places: &PlaceList)
    requires unclaimed { pool.old.claims ≡ [] }
    requires distinct { AreDistinct places.now }
    requires in_use { All (λ place. is_in pool.old.bits place ≡ true) places.now }
    ensures bits { pool.new.bits ≡ all_set pool.old.bits places.now false }
    ensures unclaimed { pool.new.claims ≡ [] }
{
    for place in places.as_slice() {
        pool.free(*place);
    }
}
