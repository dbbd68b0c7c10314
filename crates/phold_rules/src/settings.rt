//! What a run of PHOLD is.
ghost use Rattle.std.specs.Prelude.{◌≡◌, ◌↔◌, true};
ghost use Rattle.phold_rules.specs.Range.{IsInRange};

/// The settings of a run. Times are in microseconds.
#[derive(Clone, Copy, Drop)]
pub struct Settings {
    /// The number of nodes: 2 to 1,000,000.
    pub nodes: u32,
    /// How many jobs each node has at the start: 1 to 1024.
    pub jobs: u32,
    /// Of a million hops, how many go to another node: at most 1,000,000.
    pub remote: u32,
    /// The least delay of a hop: 1 to 1,000,000,000.
    pub lookahead: u64,
    /// The mean of what a delay has beyond that: at most 1,000,000,000.
    pub mean: u64,
    /// The seed of all draws.
    pub seed: u64,
    /// Only events before this time are taken: 1 to 10^15.
    pub duration: u64,
    /// The most events of a run: 1 to 2^39.
    pub max_events: u64,
    /// Whether the trace has a line for each event. Without, it is empty.
    pub trace: bool,
}

impl Settings {
    /// Whether all numbers are in their ranges.
    pub fn are_in_range(&self) -> bool
        ensures { (result ≡ true) ↔ IsInRange self.now }
    {
        let ring = (2..=1_000_000).contains(&self.nodes) && (1..=1024).contains(&self.jobs);
        let hops = self.remote <= 1_000_000
            && (1..=1_000_000_000).contains(&self.lookahead)
            && self.mean <= 1_000_000_000;
        let run = (1..=1_000_000_000_000_000).contains(&self.duration)
            && (1..=549_755_813_888).contains(&self.max_events);
        ring && hops && run
    }
}
