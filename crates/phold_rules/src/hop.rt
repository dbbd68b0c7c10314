//! What an event leaves in the trace.

/// A job has come to a node at a time in microseconds, and goes on to a receiver, which may be the same
/// node.
#[derive(Clone, Copy, Drop)]
pub struct Hop {
    pub time: u64,
    pub node: u32,
    pub receiver: u32,
}
