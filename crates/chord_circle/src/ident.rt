//! Identifiers, which are places on a circle.
ghost use Rattle.std.specs.Prelude.{◌≡◌, nat_eq};
ghost use Rattle.std.proofs.Common.{rules};
ghost use Rattle.std.specs.Cmp.{partial_order_from_own_ties};
ghost use Rattle.std.specs.Cmp.Rules.{comparing};
ghost use Rattle.std.specs.Ordering.{as_partial_cmp, nat_cmp};

use std::cmp::Ordering;
use std::marker::Model;

/// The machine number that holds an identifier or a distance. It is public because contracts of
/// other crates name it.
pub type Raw = u128;

/// How many numbers one half of an identifier may be.
const HALF: Raw = 1 << 64;

/// An identifier: a place on a circle, which contracts see as its number.
// In two halves, since a `u128` stands only at places of 16 bytes: an event would take 112 bytes in
// the place of 96.
#[derive(Clone, Copy, Debug, Drop)]
pub struct Ident {
    high: u64,
    low: u64,
}

impl Model for Ident {
    ghost use Rattle.std.specs.Prelude.{ℕ, ◌+◌, ◌*◌, ◌/◌, ◌%◌, ◌^◌, ◌<◌};

    ghost Value = { ℕ };

    ghost view = { λ i. i.high * 2 ^ 64 + i.low };

    ghost invariant = { λ i. (i.high < 2 ^ 64) × (i.low < 2 ^ 64) };

    ghost inverse = { λ n. record { high = n / 2 ^ 64; low = n % 2 ^ 64 } };
}

impl Ident {
    /// The identifier of this number.
    pub(crate) fn of(value: Raw) -> Ident
        ensures { result ≡ value }
    {
        Ident {
            high: (value / HALF) as u64,
            low: (value % HALF) as u64,
        }
    }

    /// The number of places clockwise from 0.
    pub fn raw(self) -> Raw
        ensures { result ≡ self }
    {
        u128::from(self.high) * HALF + u128::from(self.low)
    }
}

impl PartialEq for Ident {
    ghost eq = { nat_eq };

    ghost laws = { Prim.search (comparing, rules) };

    fn eq(&self, other: &Ident) -> bool {
        self.raw() == other.raw()
    }
}

impl Eq for Ident {
    ghost laws = { Prim.search (comparing, rules) };
}

impl PartialOrd for Ident {
    ghost partial_cmp = { as_partial_cmp nat_cmp };

    ghost laws = { partial_order_from_own_ties (Prim.search (comparing, rules)) (Prim.search (comparing, rules)) };

    fn partial_cmp(&self, other: &Ident) -> Option<Ordering> {
        Some(self.cmp(other))
    }
}

impl Ord for Ident {
    ghost cmp = { nat_cmp };

    ghost total = { Prim.search (comparing, rules) };

    ghost matches_partial_cmp = { Prim.search (comparing, rules) };

    ghost matches_eq = { Prim.search (comparing, rules) };

    fn cmp(&self, other: &Ident) -> Ordering {
        self.raw().cmp(&other.raw())
    }
}
