//! Keys, which put all events into one order.
ghost use Rattle.std.specs.Prelude.{◌≡◌, ◌+◌, ◌-◌, ◌^◌, ◌<◌};
ghost use Rattle.des_event.specs.Keys.{is_before};

/// The place of an event in the order of all events: by time in microseconds, then by origin, then
/// by number. Origin 0 is reserved for audits, 1 is the scenario's commands, and `2 + i` is node i.
#[derive(Clone, Copy, Debug, PartialEq, Eq, PartialOrd, Ord, Drop)]
pub struct Key {
    pub time: u64,
    pub origin: u32,
    pub number: u64,
}

impl Key {
    /// The key of the next event of a node that has made `count` events. It requires only that the
    /// numbers fit; that `count` stays below 2^40 is a law of runs.
    pub fn next_of(time: u64, node: u32, count: u64) -> Key
        requires count { count < 2 ^ 64 - 1 }
        requires node { node < 2 ^ 32 - 2 }
        ensures { result ≡ record { time = time; origin = 2 + node; number = count + 1 } }
    {
        Key {
            time,
            origin: 2 + node,
            number: count + 1,
        }
    }

    /// Whether this key comes before the other one. No key comes before itself.
    pub fn is_before(&self, other: &Key) -> bool
        ensures { result ≡ is_before self.now other.now }
    {
        self < other
    }
}
