//! The list of a pool's open claims, which only contracts read: it takes no bytes.

ghost use Rattle.std.specs.Prelude.{◌≡◌, ◌∷◌};
ghost use Rattle.pools.specs.Pool.{claims_without};

use boxcar::tag::{Names, Tag};

/// A claim that begins.
struct Begun;

impl Names<(&Tag, u32)> for Begun {
    ghost numbers = { λ x. x.1 ∷ x.0.now.numbers };
}

/// A claim that ends.
struct Ended;

impl Names<(&Tag, u32)> for Ended {
    ghost numbers = { λ x. claims_without x.0.now.numbers x.1 };
}

/// The list with one claim more.
pub(crate) fn with(claims: &Tag, at: u32) -> Tag
    ensures { result.numbers ≡ at ∷ claims.now.numbers }
{
    Tag::of::<_, Begun>(&(claims, at))
}

/// The list without this claim.
pub(crate) fn claims_without(claims: &Tag, at: u32) -> Tag
    ensures { result.numbers ≡ claims_without claims.now.numbers at }
{
    Tag::of::<_, Ended>(&(claims, at))
}
