//! What a run tells.

/// How many nodes heard the rumour, and how often a node was told.
#[derive(Clone, Copy, Drop)]
pub struct Report {
    pub heard: u64,
    pub told: u64,
}
