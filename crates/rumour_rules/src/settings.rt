//! What a run of the rumour is.
ghost use Rattle.std.specs.Prelude.{◌≡◌, ◌↔◌, true};
ghost use Rattle.rumour_rules.specs.Range.{IsInRange};

/// The settings of a run. Times are in microseconds.
#[derive(Clone, Copy, Drop)]
pub struct Settings {
    /// The number of nodes: 2 to 1,000,000.
    pub nodes: u32,
    /// How long a telling takes: 1 to 1,000,000,000.
    pub delay: u64,
    /// Only events before this time are taken: 1 to 10^15.
    pub duration: u64,
    /// The most events of a run: 1 to 2^39.
    pub max_events: u64,
}

impl Settings {
    /// Whether all numbers are in their ranges.
    pub fn are_in_range(&self) -> bool
        ensures { (result ≡ true) ↔ IsInRange self.now }
    {
        (2..=1_000_000).contains(&self.nodes)
            && (1..=1_000_000_000).contains(&self.delay)
            && (1..=1_000_000_000_000_000).contains(&self.duration)
            && (1..=549_755_813_888).contains(&self.max_events)
    }
}
