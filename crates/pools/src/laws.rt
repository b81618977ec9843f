//! What the definitions of a pool's calls promise, as contracts of functions that do nothing.

ghost use Rattle.std.specs.Prelude.{◌≡◌, ℕ};
ghost use Rattle.bit_array.specs.Bits.{IsLeastClear};
ghost use Rattle.pools.specs.Pool.{PoolState, IsBacked, claimed, claim_given_back};

/// A claim that is given back at once leaves the pool as it was.
pub fn given_back_at_once()
    ensures { (p : PoolState) (at : ℕ) → IsBacked p → IsLeastClear p.bits at → claim_given_back (claimed p at) at ≡ p }
{}
