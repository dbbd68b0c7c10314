//! The circle of identifiers: distances, intervals and finger starts.
ghost use Rattle.std.specs.Prelude.{◌≡◌, ℕ, ◌+◌, ◌-◌, ◌%◌, ◌^◌, ◌<◌, ◌≤◌, ◌↔◌, IsTrue, IsSome, IfSome};
ghost use Rattle.chord_circle.specs.Circle.{distance, between, digit_count, in_half_open, finger_beyond, finger_start, leading, way_to};
ghost use Rattle.chord_circle.specs.Names.{ident_of_name};

use crate::ident::{Ident, Raw};
use sha1::Sha1;
use std::marker::Model;

/// The greatest number of bits that an identifier may have.
pub const MOST_BITS: u32 = 128;

/// A circle of `2^bits` identifiers, which contracts see as its number of bits.
#[derive(Clone, Copy, Drop)]
pub struct Circle {
    bits: u32,
    /// The greatest identifier.
    last: Raw,
}

impl Model for Circle {
    ghost use Rattle.std.specs.Prelude.{ℕ, ◌≡◌, ◌+◌, ◌-◌, ◌^◌, ◌≤◌};

    ghost Value = { ℕ };

    ghost view = { λ c. c.bits };

    ghost invariant = { λ c. (3 ≤ c.bits) × (c.bits ≤ 128) × (c.last + 1 ≡ 2 ^ c.bits) };

    ghost inverse = { λ n. record { bits = n; last = 2 ^ n - 1 } };
}

/// The number of binary digits of a distance, and 0 for 0.
fn digit_count(distance: Raw) -> u32
    ensures { result ≡ digit_count distance }
{
    Raw::BITS - distance.leading_zeros()
}

impl Circle {
    /// The circle of identifiers with this many bits, if that is 3 to 128.
    pub fn new(bits: u32) -> Option<Circle>
        ensures accepted { IsSome result ↔ (3 ≤ bits) × (bits ≤ MOST_BITS) }
        ensures value { IfSome result (λ circle. circle ≡ bits) }
    {
        if bits < 3 || MOST_BITS < bits {
            return None;
        }
        let last = if bits == MOST_BITS {
            Raw::MAX
        } else {
            (1 << bits) - 1
        };
        Some(Circle { bits, last })
    }

    /// The number of bits.
    pub fn bits(&self) -> u32
        ensures value { result ≡ self.now }
        ensures least { 3 ≤ result }
        ensures greatest { result ≤ MOST_BITS }
    {
        self.bits
    }

    /// The identifier of a number, if it is below the number of places.
    pub fn ident(&self, raw: Raw) -> Option<Ident>
        ensures accepted { IsSome result ↔ raw < 2 ^ self.now }
        ensures value { IfSome result (λ ident. ident ≡ raw) }
    {
        if raw <= self.last {
            Some(Ident::of(raw))
        } else {
            None
        }
    }

    /// The identifier that the low bits of a number make.
    pub fn low_bits(&self, raw: Raw) -> Ident
        ensures value { result ≡ raw % 2 ^ self.now }
        ensures on_circle { result < 2 ^ self.now }
    {
        if raw <= self.last {
            Ident::of(raw)
        } else {
            Ident::of(raw % (self.last + 1))
        }
    }

    /// The number of places clockwise from `a` to `b`.
    pub fn distance(&self, a: Ident, b: Ident) -> Raw
        requires a { a < 2 ^ self.now }
        requires b { b < 2 ^ self.now }
        ensures { result ≡ distance self.now a b }
    {
        b.raw().wrapping_sub(a.raw()) & self.last
    }

    /// The greatest distance from `a` that does not reach `b`, clockwise. If they are the same place,
    /// the way is the whole circle.
    pub fn distance_before(&self, a: Ident, b: Ident) -> Raw
        requires a { a < 2 ^ self.now }
        requires b { b < 2 ^ self.now }
        ensures { result + 1 ≡ way_to self.now a b }
    {
        if a == b {
            self.last
        } else {
            self.distance(a, b) - 1
        }
    }

    /// The first 32 bits of a number of places, and 0 on a circle with fewer bits.
    #[tactic(auto, using(crate::proofs::Leading::part_below))]
    pub fn leading(&self, places: Raw) -> u32
        requires { places < 2 ^ self.now }
        ensures { result ≡ leading self.now places }
    {
        if self.bits < 32 {
            0
        } else {
            (places >> (self.bits - 32)) as u32
        }
    }

    /// The start of finger `i` of `a` (Chord, SIGCOMM 2001): `2^(i-1)` places clockwise from `a`,
    /// so half the circle for the last finger and one place for the first.
    pub fn add_power(&self, a: Ident, i: u32) -> Ident
        requires a { a < 2 ^ self.now }
        requires first { 1 ≤ i }
        requires last { i ≤ self.now }
        ensures value { result ≡ finger_start self.now a i }
        ensures on_circle { result < 2 ^ self.now }
    {
        let last = self.last;
        let way: Raw = 1 << (i - 1);
        if a.raw() <= last - way {
            Ident::of(a.raw() + way)
        } else {
            Ident::of(way - (last - a.raw()) - 1)
        }
    }

    /// The first finger of `a`, from the second on, that starts beyond `b`, clockwise from `a`. It
    /// is one more than the last finger if none does.
    pub fn finger_beyond(&self, a: Ident, b: Ident) -> u32
        requires a { a < 2 ^ self.now }
        requires b { b < 2 ^ self.now }
        ensures value { result ≡ finger_beyond self.now a b }
        ensures least { 2 ≤ result }
        ensures greatest { result ≤ self.now + 1 }
    {
        if a == b {
            return self.bits + 1;
        }
        let digits = digit_count(self.distance(a, b));
        (digits + 1).max(2)
    }

    /// Whether `x` lies between `a` and `b`, clockwise from `a`, and is neither of them.
    pub fn between(&self, a: Ident, x: Ident, b: Ident) -> bool
        requires a { a < 2 ^ self.now }
        requires x { x < 2 ^ self.now }
        requires b { b < 2 ^ self.now }
        ensures { result ≡ between self.now a x b }
    {
        if a < b {
            a < x && x < b
        } else if a == b {
            x != a
        } else {
            a < x || x < b
        }
    }

    /// Whether `x` is `b` or lies between `a` and `b`.
    pub fn in_half_open(&self, a: Ident, x: Ident, b: Ident) -> bool
        requires a { a < 2 ^ self.now }
        requires x { x < 2 ^ self.now }
        requires b { b < 2 ^ self.now }
        ensures { result ≡ in_half_open self.now a x b }
    {
        x == b || self.between(a, x, b)
    }

    /// The identifier of a name: the leading bits of its SHA-1 digest.
    #[tactic(auto, unfolding(crate::specs::Names::ident_of_name))]
    pub fn ident_of_name(&self, name: &[u8]) -> Ident
        ensures value { result ≡ ident_of_name self.now name.now }
        ensures on_circle { result < 2 ^ self.now }
    {
        let [a, b, c, d, e, f, g, h, i, j, k, l, m, n, o, p, ..] = Sha1::digest(name);
        let leading = Raw::from_be_bytes([a, b, c, d, e, f, g, h, i, j, k, l, m, n, o, p]);
        Ident::of(leading >> (MOST_BITS - self.bits))
    }
}
