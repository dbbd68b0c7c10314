//! What a run tells.

/// How many events a run took, how many of them sent their job to another node, and the sum of their
/// times in microseconds.
#[derive(Clone, Copy, Drop)]
pub struct PholdReport {
    pub events: u64,
    pub remote: u64,
    pub time_sum: u128,
}
