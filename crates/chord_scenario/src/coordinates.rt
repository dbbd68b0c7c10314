//! Latencies by coordinates.
ghost use Rattle.std.specs.Prelude.{◌≡◌, ◌+◌, ◌*◌, ◌<◌, ◌≤◌};
ghost use Rattle.chord_scenario.specs.Distances.{root, IsRoot, apart, latency_by_coordinates, IsPlace};

use crate::setting::Coordinates;

/// The square root of a number, rounded down, by Newton's method from a number that is not below it.
fn root_from(start: u64, square: u64) -> u64
    requires start { square < (start + 1) * (start + 1) }
    requires small { start ≤ 1000000000 }
    ensures value { result ≡ root square }
    ensures is_root { IsRoot square result }
{
    let mut root = start;
    while root * root > square {
        root = (root + square / root) / 2;
    }
    root
}

/// How far two numbers are apart.
fn apart(a: u64, b: u64) -> u64
    ensures { result ≡ apart a b }
{
    a.abs_diff(b)
}

impl Coordinates {
    /// The latency in microseconds to another node, or from it: both heights, and the distance in
    /// the plane, rounded down.
    #[tactic(auto, unfolding(crate::specs::Distances::latency_by_coordinates))]
    pub(crate) fn latency_to(self, other: Coordinates) -> u64
        requires here { IsPlace self }
        requires there { IsPlace other }
        ensures { result ≡ latency_by_coordinates self other }
    {
        let x = apart(self.x, other.x);
        let y = apart(self.y, other.y);
        self.height + other.height + root_from(x + y, x * x + y * y)
    }
}
