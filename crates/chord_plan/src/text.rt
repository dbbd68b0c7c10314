//! The names of the two texts.

/// The two texts of a simulation.
#[derive(Clone, Copy, Drop)]
pub enum Text {
    /// The text of the scenario file.
    Scenario,
    /// The text of the latency file.
    Latency,
}
