//! A pool of places, and the claims that it hands out.

use crate::claims::{claims_without, with};
use bit_array::Bits;
use boxcar::tag::Tag;
use std::marker::{Model, PhantomData};

/// A place that a pool has set aside. It can be neither copied nor dropped, so each is spent once: by `give_back` or by
/// `keep` of the pool that has it open. Contracts see the place.
pub struct Claim {
    at: u32,
}

impl Model for Claim {
    ghost use Rattle.std.specs.Prelude.{ℕ};

    ghost Value = { ℕ };

    ghost view = { λ c. c.at };
}

impl Claim {
    ghost use Rattle.std.specs.Prelude.{◌≡◌};

    /// The place.
    pub fn at(&self) -> u32
        ensures { result ≡ self.now }
    {
        self.at
    }
}

/// The places of a pool of clusters are clusters of the store.
pub struct Clusters;

/// The places of a pool of pages are metadata pages of the store.
pub struct Pages;

/// Which clusters are in use, and which of these are claimed.
pub type ClusterPool = Pool<Clusters>;

/// Which metadata pages are in use, and which of these are claimed.
pub type PagePool = Pool<Pages>;

/// Places below a length, each in use or clear. A claim sets a clear one aside, until it is given back or kept.
/// Contracts see the set of the places in use and the list of the open claims; the list takes no bytes. No call takes
/// memory.
pub struct Pool<K> {
    bits: Bits,
    claims: Tag,
    kind: PhantomData<K>,
}

impl<K> Model for Pool<K> {
    ghost use Rattle.pools.specs.Pool.{PoolState, IsBacked};

    ghost Value = { PoolState };

    ghost view = { λ p. record { bits = p.bits; claims = p.claims.numbers } };

    ghost invariant = { λ p. IsBacked (record { bits = p.bits; claims = p.claims.numbers }) };
}

impl<K> Pool<K> {
    ghost use Rattle.std.specs.Prelude.{◌≡◌, ◌↔◌, true, All, AllPairs, ◌≢◌, Contains, [], IfSome, IfNone, IsNone};
    ghost use Rattle.bit_array.specs.Bits.{is_in, IsFull, IsLeastClear};
    ghost use Rattle.pools.specs.Pool.{claimed, clear_in, freed, claim_given_back, kept};

    /// A pool whose places in use are these, with no open claim.
    pub fn new(bits: Bits) -> Pool<K>
        ensures bits { result.bits ≡ bits }
        ensures none_open { result.claims ≡ [] }
    {
        Pool {
            bits,
            claims: Tag::empty(),
            kind: PhantomData,
        }
    }

    /// The set of the places in use, once no claim is open.
    pub fn into_bits(self) -> Bits
        requires { self.claims ≡ [] }
        ensures { result ≡ self.bits }
    {
        let Pool {
            bits,
            claims: _,
            kind: _,
        } = self;
        bits
    }

    /// Claims the least clear place; None exactly where none is clear.
    pub fn claim(&mut self) -> Option<Claim>
        ensures least { IfSome result (IsLeastClear self.old.bits) }
        ensures claimed { IfSome result (λ claim. self.new ≡ claimed self.old claim) }
        ensures full { IsNone result ↔ IsFull self.old.bits }
        ensures unchanged { IfNone result (self.new ≡ self.old) }
    {
        let at = self.bits.first_clear()?;
        self.bits.set(at);
        self.claims = with(&self.claims, at);
        Some(Claim { at })
    }

    /// Ends a claim, and its place is clear again.
    pub fn give_back(&mut self, claim: Claim)
        requires { Contains self.old.claims claim }
        ensures { self.new ≡ claim_given_back self.old claim }
    {
        let Claim { at: place } = claim;
        self.bits.clear(place);
        self.claims = claims_without(&self.claims, place);
    }

    /// Ends a claim, and its place stays in use. It gives the place.
    pub fn keep(&mut self, claim: Claim) -> u32
        requires { Contains self.old.claims claim }
        ensures place { result ≡ claim }
        ensures kept { self.new ≡ kept self.old claim }
    {
        let Claim { at } = claim;
        self.claims = claims_without(&self.claims, at);
        at
    }

    /// Makes a place clear that was in use and isn't claimed.
    pub fn free(&mut self, at: u32)
        requires in_use { is_in self.old.bits at ≡ true }
        requires unclaimed { ¬ Contains self.old.claims at }
        ensures { self.new ≡ freed self.old at }
    {
        self.bits.clear(at);
    }

    /// The places in use.
    pub fn bits(&self) -> &Bits
        ensures { result.now ≡ self.now.bits }
    {
        &self.bits
    }

    /// How many places are clear.
    pub fn clear_count(&self) -> u32
        ensures { result ≡ clear_in self.now.bits }
    {
        self.bits.len() - self.bits.count()
    }

    /// A law, with no code: no two open claims are equal, and the place of each is in use.
    pub fn open_claims_differ(&self)
        ensures differ { AllPairs (λ a b. a ≢ b) self.now.claims }
        ensures in_use { All (λ at. is_in self.now.bits at ≡ true) self.now.claims }
    {
        let _ = &self.bits;
    }
}
